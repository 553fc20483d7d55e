// Pixels of an image set at the positions of a queue, or on the border.
ghost use Rattle.std.specs.Prelude.{◌≡◌, [], ℕ, ◌+◌, ◌*◌, ◌<◌, length};
ghost use Rattle.std.proofs.Math.Seq.{slice};
ghost use Rattle.neighbours.specs.Border.{strip_positions, exposed_positions};
ghost use Rattle.engine.specs.Spread.{Room, Visited};
ghost use Rattle.engine.specs.Leaves.{Positions, Painted};

use crate::Rule;
use crate::inner::spread;
use neighbours::inner::border;
use neighbours::{Position, Strip};

// Sets the pixels at the positions in the queue from `from` up to `to` to a value.
pub fn paint(image: &mut [u8], queue: &[Position], from: usize, to: usize, value: u8)
    requires { Positions queue.now from to (length image.old) }
    ensures { Painted image.old (slice from to queue.now) value image.new }
{
    for at in &queue[from..to] {
        image[usize::from(*at)] = value;
    }
}

// Visits the pixels of a strip.
fn visit_strip(
    rule: Rule,
    image: &mut [u8],
    queue: &mut [Position],
    end: usize,
    strip: Strip,
) -> usize
    requires room { Room rule [] image.old queue.old end }
    requires by_index { (i : ℕ) → i < strip.count → strip.from + i * strip.step < rule.width * rule.height }
    ensures { Visited rule [] image.old queue.old end (strip_positions strip)
        image.new queue.new result }
{
    let mut tail = end;
    for i in 0..strip.count {
        let at = strip.from + i * strip.step;
        tail = spread::visit(rule, b"", image, queue, tail, Some(at));
    }
    tail
}

// Visits the pixels on the border beyond which background lies: those along the sides that are not named.
pub fn visit_exposed(
    rule: Rule,
    image: &mut [u8],
    queue: &mut [Position],
    end: usize,
    sides: u8,
) -> usize
    requires { Room rule [] image.old queue.old end }
    ensures { Visited rule [] image.old queue.old end
        (exposed_positions rule.width rule.height sides)
        image.new queue.new result }
{
    let mut tail = end;
    for k in 0..4 {
        let strip = border::exposed_strip(rule.width, rule.height, sides, k);
        tail = visit_strip(rule, image, queue, tail, strip);
    }
    tail
}
