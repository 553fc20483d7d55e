// The scan (01: sweep) of an image that stands in a frame, beside the words of its contour. A row without an object
// pixel is passed over after one look along its words, and counted: document 02, Point 3.
ghost use Rattle.std.specs.Prelude.{◌≡◌, List, ℕ, ◌+◌, ◌≤◌, length};
ghost use Rattle.neighbours.specs.Grid.{all_sides};
ghost use Rattle.neighbours.specs.Crop.{Extended, moved};
ghost use Rattle.neighbours.specs.Contour.{contour};
ghost use Rattle.neighbours.specs.BlankRows.{is_blank_row, blank_row_count};
ghost use Rattle.words.specs.Frame.{FrameOf, Framed};
ghost use Rattle.words.specs.Scan.{Seen, RowScanned, LookableRow, ScannableRow, Scannable};

use crate::inner::positions;
use crate::{Found, Frame};
use neighbours::Position;

// Whether row `y` of an image has no object pixel.
fn is_blank(frame: Frame, entries: &[u64], y: usize) -> bool
    requires { LookableRow frame entries.now y }
    ensures { ((width height : ℕ) (image : List ℕ) → FrameOf width height 4 all_sides 0 frame →
        Framed width height all_sides image entries.now →
        result ≡ is_blank_row width image y) }
{
    let mut seen = 0;
    for k in 0..frame.columns {
        seen |= positions::word_of(frame.rows, entries, k, y) & super::keep_at(frame, k);
    }
    seen == 0
}

// Passes over row `y` if it has no object pixel, and counts it; else writes its contour, moved on by `base`, behind
// what was found before.
fn scan_row(
    width: usize,
    height: usize,
    frame: Frame,
    entries: &[u64],
    words: &[u64],
    base: usize,
    y: usize,
    queue: &mut [Position],
    found: Found,
) -> Found
    requires { ScannableRow width height frame entries.now words.now base y queue.old found }
    ensures scanned { ((image : List ℕ) → Seen width height image entries.now words.now →
        RowScanned width height image base y queue.old found queue.new result) }
    ensures size { length queue.new ≡ length queue.old }
    ensures most { result.len ≤ found.len + width }
    ensures few { result.blank ≤ found.blank + 1 }
{
    if is_blank(frame, entries, y) {
        return Found {
            blank: found.blank + 1,
            ..found
        };
    }
    let len = positions::list_row(width, height, words, y, base + y * width, queue, found.len);
    Found { len, ..found }
}

// Writes the contour, moved on by `base`, row by row to the queue's front. What stands behind may be anything. Tells
// how many positions there are, and how many rows have no object pixel.
pub fn scan_rows(
    width: usize,
    height: usize,
    frame: Frame,
    entries: &[u64],
    words: &[u64],
    base: usize,
    queue: &mut [Position],
) -> Found
    requires { Scannable width height frame entries.now words.now base queue.old }
    ensures listed { ((image : List ℕ) → Seen width height image entries.now words.now →
        Extended queue.old 0 (moved base (contour width height image)) queue.new result.len) }
    ensures counted { ((image : List ℕ) → Seen width height image entries.now words.now →
        result.blank ≡ blank_row_count width height image) }
{
    let mut found = Found { len: 0, blank: 0 };
    for y in 0..height {
        found = scan_row(width, height, frame, entries, words, base, y, queue, found);
    }
    found
}
