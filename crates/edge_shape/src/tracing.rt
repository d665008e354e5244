// The line of heights.
ghost use Rattle.std.specs.Prelude.{◌≡◌, ◌<◌, ◌-◌, ℕ, not, length, List};
ghost use Rattle.edge_shape.specs.Track.{slope_by, same_slope, line_over, IsTrack};
ghost use Rattle.edge_shape.specs.Columns.{listed_height};

use arrayvec::ArrayVec;
use plan_core::Point;
use plan_geometry::Line;

/// Whether the slope from height `a` to `b` isn't that from `b` to `c`.
fn turns(a: u16, b: u16, c: u16) -> bool
    ensures { result ≡ not (same_slope (slope_by a b) (slope_by b c)) }
{
    (a < b) != (b < c) || (b < a) != (c < b)
}

/// The line over a track, from the height over each column: its ends are at `west` and `east`, and it
/// has a point wherever the slope turns.
pub fn trace(heights: &[u16], west: u16, east: u16) -> Line
    requires order { west < east }
    requires there { east < length heights.now }
    requires track { IsTrack (listed_height heights.now) west (east - west - 1) }
    ensures { result ≡ line_over (listed_height heights.now) west (east - west - 1) }
{
    let mut points = ArrayVec::<Point, 4>::new();
    points.push(Point {
        x: west,
        y: heights[west as usize],
    });
    for c in west..east - 1 {
        let k = c as usize;
        if turns(heights[k], heights[k + 1], heights[k + 1 + 1]) {
            points.push(Point {
                x: c + 1,
                y: heights[k + 1],
            });
        }
    }
    points.push(Point {
        x: east,
        y: heights[east as usize],
    });
    match Line::new(points.as_slice()) {
        Some(line) => line,
        None => unreachable!(),
    }
}
