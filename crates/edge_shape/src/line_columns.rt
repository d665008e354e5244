// What a line is at a column.
ghost use Rattle.std.specs.Prelude.{◌≡◌, ◌<◌};
ghost use Rattle.plan_core.specs.Line.{height as height_of, west_end as west_end_of};
ghost use Rattle.edge_shape.specs.Track.{step_slope};
ghost use Rattle.edge_shape.specs.Columns.{is_level_step, steps_of, line_is_level_from, has_level_piece};
ghost use Rattle.edge_shape.specs.Columns.{has_inner as has_inner_of};

use plan_core::Slope;
use plan_geometry::Line;

/// The height of the line at a column, or at its nearer end, in rows.
pub fn height_over(line: &Line, x: u16) -> u16
    ensures { result ≡ height_of line.now x }
{
    let _points = line.points();
    if x <= line.west_end().x {
        return line.west_end().y;
    }
    if line.east_end().x <= x {
        return line.east_end().y;
    }
    match line.height_at(x) {
        Some(y) => y,
        None => 0,
    }
}

/// The slope of the step from a column to the next, level outside the line.
pub fn step_over(line: &Line, c: u16) -> Slope
    requires { c < 65535 }
    ensures { result ≡ step_slope (height_of line.now) c }
{
    let here = height_over(line, c);
    let next = height_over(line, c + 1);
    if here < next {
        Slope::Up
    } else if next < here {
        Slope::Down
    } else {
        Slope::Level
    }
}

/// Whether a point of the line other than its first and last has the column.
pub fn has_inner(line: &Line, x: u16) -> bool
    ensures { result ≡ has_inner_of line.now x }
{
    match line.points() {
        [_, b, _] => b.x == x,
        [_, b, c, _] => b.x == x || c.x == x,
        _ => false,
    }
}

/// Whether the step from a column is one of the line's, and level.
fn is_level_at(line: &Line, c: u16) -> bool
    requires { c < 65535 }
    ensures { result ≡ is_level_step (height_of line.now) (west_end_of line.now).x (steps_of line.now) c }
{
    let _points = line.points();
    if c < line.west_end().x {
        return false;
    }
    if line.east_end().x <= c {
        return false;
    }
    matches!(step_over(line, c), Slope::Level)
}

/// Whether a step of the line from column `c` or one before it is level.
pub fn is_level_by(line: &Line, c: u16) -> bool
    requires { c < 65535 }
    ensures { result ≡ line_is_level_from line.now c }
{
    let end = c + 1;
    for k in 0..end {
        if is_level_at(line, k) {
            return true;
        }
    }
    false
}

/// Whether a piece of the line is level.
pub fn has_level(line: &Line) -> bool
    ensures { result ≡ has_level_piece line.now }
{
    let _points = line.points();
    is_level_by(line, line.east_end().x - 1)
}
