// The background that reaches the border: its sets are flagged at their roots, so that the holes are left.
ghost use Rattle.std.specs.Prelude.{◌≡◌, true, cond, ℕ, ◌+◌, ◌*◌, ◌<◌, eqb, get_or, set};
ghost use Rattle.lists.specs.Lists.{any};
ghost use Rattle.neighbours.specs.Grid.{on_border};
ghost use Rattle.neighbours.specs.Border.{strip_positions};
ghost use Rattle.union_find.specs.Forest.{root, Forest, SameRoots};
ghost use Rattle.union_find.specs.Regions.{RootFlags, RootFlag, RootsFlagged};

use crate::inner::forest;
use model::Label;
use neighbours::inner::border;
use neighbours::{Position, Strip};

// Flags the root of a pixel that is background.
fn flag_root(image: &[u8], queue: &mut [Position], flags: &mut [Label], at: usize)
    requires { RootFlag image.now queue.old flags.old at }
    ensures flagged { flags.new
        ≡ cond (eqb (get_or image.now at 0) 0) (set flags.old (root queue.old at) 1)
        flags.old }
    ensures same { ((n : ℕ) → at < n → Forest n queue.old →
        SameRoots n queue.old queue.new) }
{
    if image[at] == 0 {
        let top = forest::root(queue, at);
        flags[top] = 1;
    }
}

// Flags the roots of the background pixels in a strip.
fn flag_strip(
    width: usize,
    height: usize,
    image: &[u8],
    queue: &mut [Position],
    flags: &mut [Label],
    strip: Strip,
)
    requires root_flags { RootFlags width height image.now queue.old flags.old }
    requires by_index { (i : ℕ) → i < strip.count → strip.from + i * strip.step < width * height }
    ensures flagged { RootsFlagged image.now queue.old
        (λ j. (j < width * height) × (any (eqb j) (strip_positions strip) ≡ true)) flags.old
        flags.new }
    ensures same { SameRoots (width * height) queue.old queue.new }
{
    for i in 0..strip.count {
        flag_root(image, queue, flags, strip.from + i * strip.step);
    }
}

// Flags the roots of the background pixels on the border.
pub fn flag_outside(
    width: usize,
    height: usize,
    image: &[u8],
    queue: &mut [Position],
    flags: &mut [Label],
)
    requires { RootFlags width height image.now queue.old flags.old }
    ensures flagged { RootsFlagged image.now queue.old
        (λ j. (j < width * height) × (on_border width height j ≡ true)) flags.old flags.new }
    ensures same { SameRoots (width * height) queue.old queue.new }
{
    for k in 0..4 {
        let strip = border::border_strip(width, height, k);
        flag_strip(width, height, image, queue, flags, strip);
    }
}
