// The square that labelling looks at: a pixel, the one to its left, the one above it and the corner, which is
// left of the one above. A position is a subtraction and no test, so that a pass over all squares compiles to
// vector code; in the first column such a pass reads the ends of the rows above in place of neighbours.
ghost use Rattle.std.specs.Prelude.{◌≡◌, ◌*◌, ◌≤◌, ◌<◌};
ghost use Rattle.neighbours.specs.Grid.{column, neighbour};
ghost use Rattle.neighbours.specs.Square.{left_of, above_of, corner_of, leftward, upward, cornerward};
ghost use Rattle.std.specs.Prelude.{Some};

// The position to the left of one that is not in the first column.
pub fn left(width: usize, height: usize, at: usize) -> usize
    requires at_bound { at < width * height }
    requires le_at { 1 ≤ at }
    ensures neighbour { 1 ≤ column width at → neighbour width height at leftward ≡ Some result }
    ensures position { result ≡ left_of at }
{
    at - 1
}

// The position above one that is not in the first row.
pub fn above(width: usize, height: usize, at: usize) -> usize
    requires at_bound { at < width * height }
    requires width_le_at { width ≤ at }
    ensures neighbour { neighbour width height at upward ≡ Some result }
    ensures position { result ≡ above_of width at }
{
    at - width
}

// The position to the left of that one, where `at` is not in the first column either.
pub fn corner(width: usize, height: usize, at: usize) -> usize
    requires at_bound { at < width * height }
    requires width_lt_at { width < at }
    ensures neighbour { 1 ≤ column width at → neighbour width height at cornerward ≡ Some result }
    ensures position { result ≡ corner_of width at }
{
    above(width, height, at) - 1
}
