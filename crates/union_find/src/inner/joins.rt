// The sets of an image, row by row. The pixels of a run, equal neighbours in a row, hang on its first pixel.
// A run and one above it are joined where they first meet, which the four pixels of a square tell.
ghost use Rattle.std.specs.Prelude.{◌≡◌, ℕ, suc, ◌+◌, ◌*◌, ◌<◌, length, get_or};
ghost use Rattle.lists.specs.Lists.{bit};
ghost use Rattle.neighbours.specs.Crop.{Sized};
ghost use Rattle.union_find.specs.Forest.{Forest};
ghost use Rattle.union_find.specs.Regions.{Unjoined, RowToChain, SquareOf, RowToList, SquareIn, RowToJoin};
ghost use Rattle.union_find.specs.Regions.{diagonal_value, needs_join, Chained, ListedColumns, Met, Regions};

use crate::inner::forest;
use model::Label;
use neighbours::Position;
use neighbours::inner::square;

// 1 where the square of a pixel needs a join, and else 0: two of three hold, a run starts at the pixel, one
// starts above it, the two are alike. All four are read before any is tested, so that the pass below
// compiles to vector code. A map keeps the flags, so one is as wide as a label.
fn needs_join(width: usize, height: usize, image: &[u8], at: usize) -> Label
    requires { SquareOf width height image.now at }
    ensures { result ≡ bit (needs_join width image.now at) }
{
    let pixel = image[at];
    let left = image[square::left(width, height, at)];
    let above = image[square::above(width, height, at)];
    let corner = image[square::corner(width, height, at)];
    let starts = u8::from(pixel != left);
    let starts_above = u8::from(above != corner);
    let alike = u8::from(pixel == above);
    Label::from(starts + starts_above + alike >= 2)
}

// Flags the pixels below the first row whose squares need a join. A flag in the first column says nothing.
fn flag_joins(width: usize, height: usize, image: &[u8], flags: &mut [Label])
    requires sized { Sized width height image.now }
    requires flags_len { length flags.old ≡ length image.now }
    ensures size { length flags.new ≡ length flags.old }
    ensures flagged { ((k : ℕ) → width < k → k < width * height →
        get_or flags.new k 0 ≡ bit (needs_join width image.now k)) }
{
    for at in width + 1..image.len() {
        flags[at] = needs_join(width, height, image, at);
    }
}

// Writes the columns behind the first whose flags, from `start` on, are 1 to the front of `found`, and
// returns how many there are. It writes every column and moves on by its flag: a data-dependent branch would
// be mispredicted.
fn gather_row(width: usize, flags: &[Label], start: usize, found: &mut [Label]) -> usize
    requires { RowToList width flags.now start found.old }
    ensures { ListedColumns width flags.now start found.old found.new result }
{
    let mut count = 0;
    for x in 1..width {
        found[count] = x as Label;
        count += usize::from(flags[start + x]);
    }
    count
}

// Hangs the pixels of row `y` on the first pixels of their runs.
fn chain_row(width: usize, height: usize, image: &[u8], queue: &mut [Position], y: usize)
    requires { RowToChain width height image.now y queue.old }
    ensures { Chained width image.now y queue.old queue.new }
{
    let start = y * width;
    let mut run = start;
    neighbours::inner::put_queued(queue, run, run);
    for at in start + 1..start + width {
        if image[at] != image[square::left(width, height, at)] {
            run = at;
        }
        neighbours::inner::put_queued(queue, at, run);
    }
}

// The value whose pixels also connect diagonally: object by 8, background by 4.
fn diagonal_value(connectivity: u8) -> u8
    ensures { result ≡ diagonal_value connectivity }
{
    u8::from(connectivity == 8)
}

// Joins a pixel that has a square to the one above where they are alike. Where they are not, joins the two
// pixels of its square that connect diagonally, if there are such.
fn join_at(
    width: usize,
    height: usize,
    image: &[u8],
    connectivity: u8,
    queue: &mut [Position],
    at: usize,
)
    requires { SquareIn width height image.now queue.old at }
    ensures { ((n : ℕ) → at < n → Forest n queue.old →
        Met width height connectivity image.now n at queue.old queue.new) }
{
    let above = square::above(width, height, at);
    if image[at] == image[above] {
        forest::join(queue, at, above);
        return;
    }
    let diagonal = diagonal_value(connectivity);
    if image[at] == diagonal {
        let corner = square::corner(width, height, at);
        if image[corner] == diagonal {
            forest::join(queue, at, corner);
        }
        return;
    }
    if image[above] == diagonal {
        let left = square::left(width, height, at);
        if image[left] == diagonal {
            forest::join(queue, left, above);
        }
    }
}

// Joins the runs of row `y`, which is not the first, to those above: in the first column, and in the columns
// that stand at the front of `found`.
fn join_row(
    width: usize,
    height: usize,
    image: &[u8],
    connectivity: u8,
    queue: &mut [Position],
    y: usize,
    found: &[Label],
    count: usize,
)
    requires { RowToJoin width height connectivity image.now y found.now count queue.old }
    ensures joined { Regions width height connectivity image.now (suc y * width) queue.new }
    ensures kept { length queue.new ≡ length queue.old }
{
    let start = y * width;
    let above = square::above(width, height, start);
    if image[start] == image[above] {
        forest::join(queue, start, above);
    }
    for x in &found[..count] {
        join_at(
            width,
            height,
            image,
            connectivity,
            queue,
            start + usize::from(*x),
        );
    }
}

// Builds the forest of an image's connected sets: those of the object pixels by the connectivity, those of
// the background by the other one. Two maps of the image's size serve as workspace.
pub fn join_image(
    width: usize,
    height: usize,
    image: &[u8],
    connectivity: u8,
    flags: &mut [Label],
    found: &mut [Label],
    queue: &mut [Position],
)
    requires { Unjoined width height image.now flags.old found.old queue.old }
    ensures joined { Regions width height connectivity image.now (width * height) queue.new }
    ensures flags { length flags.new ≡ width * height }
    ensures found { length found.new ≡ width * height }
    ensures kept { length queue.new ≡ length queue.old }
{
    flag_joins(width, height, image, flags);
    chain_row(width, height, image, queue, 0);
    for y in 1..height {
        chain_row(width, height, image, queue, y);
        let count = gather_row(width, flags, y * width, found);
        join_row(width, height, image, connectivity, queue, y, found, count);
    }
}
