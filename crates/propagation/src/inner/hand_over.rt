// The hand-over of a propagation from words to the queue engine. The engine starts from the pixels that the last
// iteration on words made object: an open pixel next to an older one is object already.
ghost use Rattle.std.specs.Prelude.{◌≡◌, ◌≤◌, length, get_or};
ghost use Rattle.std.specs.Int.Bits.{bit_and, bit_xor};
ghost use Rattle.lists.specs.Lists.{iterate};
ghost use Rattle.neighbours.specs.Crop.{Extended, Ready};
ghost use Rattle.neighbours.specs.Words.{full_word, max_words};
ghost use Rattle.model.specs.Steps.{propagate_once};
ghost use Rattle.model.specs.Operations.{least_iterations};
ghost use Rattle.model.specs.Words.{unpacked_words};
ghost use Rattle.words.specs.Frame.{Written};
ghost use Rattle.words.specs.Room.{front_rows, HeldRows};
ghost use Rattle.propagation.specs.HandOver.{added, Grounded, Handing, RowsIterated};

use crate::inner::propagate_words;
use engine::Rule;
use engine::inner::spread;
use neighbours::Position;
use words::inner::room;

// Keeps of each word what is object in `words` and was not in `before`.
fn keep_added(words: &[u64], before: &mut [u64])
    requires words_len { length words.now ≡ length before.old }
    requires before_len_bound { length before.old ≤ max_words }
    ensures { Written
        (λ i w. w ≡ bit_and (get_or words.now i 0) (bit_xor (get_or before.old i 0) full_word))
        0 1 (length before.old) before.old before.new }
{
    for (i, word) in words.iter().enumerate() {
        before[i] = word & !before[i];
    }
}

// From the rows of an image and the image before it: the positions of the pixels that became object, row by row, at
// the queue's front. The image is that of the rows then. What the rows and the entries hold may be anything.
fn list_added(
    width: usize,
    height: usize,
    image: &mut [u8],
    queue: &mut [Position],
    rows: &mut [u64],
    entries: &mut [u64],
) -> usize
    requires held_rows { HeldRows width height rows.old entries.old }
    requires ready { Ready width height image.old queue.old }
    ensures pictured { image.new ≡ unpacked_words width height (front_rows width height rows.old) }
    ensures listed { Extended queue.old 0 (added width height image.old image.new)
        queue.new result }
{
    let n = room::words_length(width, height);
    room::pack(width, height, image, entries);
    keep_added(&rows[..n], &mut entries[..n]);
    room::unpack(width, height, rows, image);
    room::list_pixels(width, height, entries, rows, queue)
}

// The further iterations, by the queue engine from the pixels that the one before made object. How many changed
// anything.
fn grow(
    width: usize,
    height: usize,
    image: &mut [u8],
    mask: &[u8],
    queue: &mut [Position],
    len: usize,
    connectivity: u8,
    iterations: usize,
) -> usize
    requires { Grounded width height connectivity mask.now image.old queue.old len }
    ensures pictured { image.new
        ≡ iterate (propagate_once width height connectivity mask.now) iterations
        image.old }
    ensures used { result
        ≡ least_iterations (propagate_once width height connectivity mask.now) iterations
        image.old }
{
    let rule = Rule {
        width,
        height,
        connectivity,
        old: 0,
        new: 1,
        allowed: 1,
    };
    let grown = spread::layers(rule, mask, image, queue, 0, len, iterations);
    grown.used
}

// One iteration more on words, and the others by the queue engine from the pixels that it made object. The image and
// the queue are room to work in. How many iterations changed anything.
pub fn hand_over(
    width: usize,
    height: usize,
    image: &mut [u8],
    mask: &[u8],
    queue: &mut [Position],
    rows: &mut [u64],
    entries: &mut [u64],
    connectivity: u8,
    iterations: usize,
) -> usize
    requires handing { Handing width height connectivity mask.now image.old queue.old rows.old entries.old }
    requires le_iterations { 1 ≤ iterations }
    ensures { RowsIterated width height connectivity iterations mask.now rows.old rows.new
        result }
{
    let n = room::words_length(width, height);
    room::unpack(width, height, rows, image);
    let first = propagate_words(
        width,
        height,
        &mut rows[..n],
        &entries[..n],
        connectivity,
        1,
    );
    let len = list_added(width, height, image, queue, rows, entries);
    let further = grow(
        width,
        height,
        image,
        mask,
        queue,
        len,
        connectivity,
        iterations - 1,
    );
    room::pack(width, height, image, rows);
    first + further
}
