// How a propagation begins: on packed rows, stretch after stretch of iterations. An iteration on words goes over whole
// rows however few of their pixels change, so that the queue engine is faster once few do.
ghost use Rattle.std.specs.Prelude.{◌≡◌, false, ◌≤◌, ◌<◌};
ghost use Rattle.neighbours.specs.Crop.{ValidSize};
ghost use Rattle.neighbours.specs.Limits.{max_pixels};
ghost use Rattle.model.specs.Steps.{propagate_once};
ghost use Rattle.model.specs.Words.{unpacked_words};
ghost use Rattle.words.specs.Frame.{Clean};
ghost use Rattle.propagation.specs.Propagation.{shared_area, Began, Propagatable};

use crate::Begun;
use crate::inner::propagate_words;
use word_ones::ones_of;
use words::inner::area::area;

// A stretch has an iteration for so many pixels of the crop, and these beside: the larger a crop, the dearer is the
// hand-over, and the first iteration of each stretch, which goes over all rows.
const PIXELS_AN_ITERATION: usize = 256;

const SHORTEST_STRETCH: usize = 32;

// The area grows little where an iteration adds fewer pixels than these on average. Over three rows an iteration takes
// some 65 nanoseconds, and the queue engine 6 to 26 a pixel (docs/BENCHMARKS.md).
const FEW_PIXELS: usize = 4;

// The number of pixels that are object both in packed rows and in a mask.
pub fn shared_area(width: usize, height: usize, words: &[u64], mask: &[u64]) -> usize
    requires clean_words { Clean width height words.now }
    requires clean_mask { Clean width height mask.now }
    ensures { result
        ≡ shared_area (unpacked_words width height words.now)
        (unpacked_words width height mask.now) }
{
    let mut sum = 0;
    for (word, within) in words.iter().zip(mask) {
        sum += ones_of(word & within);
    }
    sum
}

// Whether the area grew so little in a stretch of iterations that the queue engine is faster. The contract leaves the
// answer open: either engine gives the same image.
fn few_moved(stretch: usize, before: usize, after: usize) -> bool
    requires stretch_le_max_pixels { stretch ≤ max_pixels }
    requires before_le_max_pixels { before ≤ max_pixels }
{
    after < before + FEW_PIXELS * stretch
}

// How many iterations go on words before the area is counted again.
fn stretch_of(width: usize, height: usize) -> usize
    requires { ValidSize width height }
    ensures lower_bound { 1 ≤ result }
    ensures upper_bound { result ≤ max_pixels }
{
    width * height / PIXELS_AN_ITERATION + SHORTEST_STRETCH
}

// The first iterations of a propagation, stretch after stretch, until all are done, one changes nothing, or the area
// grew little in a stretch. Of the area at the start only the `shared` pixels stay, those that are in the mask.
pub fn begin(
    width: usize,
    height: usize,
    words: &mut [u64],
    mask: &[u64],
    connectivity: u8,
    iterations: usize,
    shared: usize,
) -> Begun
    requires propagatable { Propagatable width height words.old mask.now connectivity }
    requires shared_le_max_pixels { shared ≤ max_pixels }
    ensures clean { Clean width height words.new }
    ensures began { Began (propagate_once width height connectivity (unpacked_words width height mask.now)) iterations
        (unpacked_words width height words.old) (unpacked_words width height words.new) result }
    ensures open { result.ended ≡ false → result.used < iterations }
{
    let stretch = stretch_of(width, height);
    let mut used: usize = 0;
    let mut before = shared;
    while stretch < iterations - used {
        let more = propagate_words(width, height, words, mask, connectivity, stretch);
        used += more;
        if more < stretch {
            return Begun { used, ended: true };
        }
        let after = area(width, height, words);
        if few_moved(stretch, before, after) {
            return Begun { used, ended: false };
        }
        before = after;
    }
    let last = propagate_words(width, height, words, mask, connectivity, iterations - used);
    Begun {
        used: used + last,
        ended: true,
    }
}
