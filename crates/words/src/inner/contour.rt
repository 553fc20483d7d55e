// The contour of an image as words, from a frame in which every side counts as object. Each word comes from the lower
// crate's contour test.
ghost use Rattle.std.specs.Prelude.{List, ℕ, ◌+◌};
ghost use Rattle.neighbours.specs.Crop.{Binary};
ghost use Rattle.neighbours.specs.Grid.{all_sides};
ghost use Rattle.neighbours.specs.Contour.{on_contour};
ghost use Rattle.words.specs.Frame.{Written, FrameOf, Framed, SteppableColumn, Steppable};
ghost use Rattle.words.specs.Positions.{WordsOf, ContourOf, ContourAt};

use crate::Frame;
use neighbours::inner::words;
use neighbours::inner::words::Neighbourhood;

// The pixels of a word that are on the contour, none behind the row's end.
fn contour_word(around: Neighbourhood, keep: u64) -> u64
    ensures { ContourOf around.left around.above around.here around.below around.right keep result }
{
    words::contour_word(around) & keep
}

// Writes the contour of a column of `rows` words. The column before it stands from `from` on, and the columns are
// `apart` entries apart.
fn contour_column(
    entries: &[u64],
    contour: &mut [u64],
    from: usize,
    apart: usize,
    rows: usize,
    keep: u64,
)
    requires { SteppableColumn entries.now contour.old from apart rows }
    ensures { Written (ContourAt entries.now from apart keep) (from + apart) 1 rows
        contour.old contour.new }
{
    for y in 0..rows {
        let here = from + y + apart;
        let around = Neighbourhood {
            left: entries[from + y],
            above: entries[here - 1],
            here: entries[here],
            below: entries[here + 1],
            right: entries[here + apart],
        };
        contour[here] = contour_word(around, keep);
    }
}

// Writes the words of the contour to their places in a frame.
pub fn contour_words(frame: Frame, entries: &[u64], contour: &mut [u64])
    requires { Steppable frame contour.old entries.now }
    ensures { ((width height : ℕ) (image : List ℕ) → FrameOf width height 4 all_sides 0 frame →
        Binary width height image →
        Framed width height all_sides image entries.now →
        WordsOf width height (on_contour width height image) contour.new) }
{
    let rows = frame.rows;
    let apart = rows + 2;
    for k in 0..frame.columns {
        let keep = super::keep_at(frame, k);
        contour_column(entries, contour, k * apart + 1, apart, rows, keep);
    }
}
