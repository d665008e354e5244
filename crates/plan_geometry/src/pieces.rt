// Pieces of a line: two neighbouring points.
ghost use Rattle.std.specs.Prelude.{◌≡◌, ◌≤◌, true, [], ◌∷◌};
ghost use Rattle.plan_core.specs.Line.{is_piece, is_shape, slope, height_on, absolute_rise};

use plan_core::{Point, Slope};

/// Whether x rises from `a` to `b`, and y stays or changes by as much.
pub fn are_a_piece(a: Point, b: Point) -> bool
    ensures { result ≡ is_piece (record { west = a; east = b }) }
{
    if a.x >= b.x {
        return false;
    }
    let run = u32::from(b.x - a.x);
    let (west, east) = (u32::from(a.y), u32::from(b.y));
    east == west || east == west + run || west == east + run
}

/// The slope from `a` to `b`.
pub fn slope_between(a: Point, b: Point) -> Slope
    ensures { result ≡ slope (record { west = a; east = b }) }
{
    if a.y < b.y {
        Slope::Up
    } else if b.y < a.y {
        Slope::Down
    } else {
        Slope::Level
    }
}

/// The height, at a column of its own, of the piece from `a` to `b`.
pub fn height_between(a: Point, b: Point, x: u16) -> u16
    requires piece { is_piece (record { west = a; east = b }) ≡ true }
    requires west { a.x ≤ x }
    requires east { x ≤ b.x }
    ensures { result ≡ height_on (record { west = a; east = b }) x }
{
    match slope_between(a, b) {
        Slope::Up => a.y + (x - a.x),
        Slope::Down => a.y - (x - a.x),
        Slope::Level => a.y,
    }
}

/// Whether two slopes in a row are those of a shape.
pub fn are_two_of_a_shape(first: Slope, second: Slope) -> bool
    ensures { result ≡ is_shape (first ∷ second ∷ []) }
{
    match (first, second) {
        (Slope::Level, Slope::Up | Slope::Down) => true,
        (Slope::Up | Slope::Down, Slope::Level) => true,
        _ => false,
    }
}

/// Whether three slopes in a row are those of a shape.
pub fn are_three_of_a_shape(first: Slope, second: Slope, third: Slope) -> bool
    ensures { result ≡ is_shape (first ∷ second ∷ third ∷ []) }
{
    match (first, second, third) {
        (Slope::Up | Slope::Down, Slope::Level, Slope::Up | Slope::Down) => true,
        _ => false,
    }
}
