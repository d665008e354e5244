// A line of four points, read column by column.
use edge_shape::{has_inner, is_level_by, step_over};
use plan_core::{Point, Slope};
use plan_geometry::Line;
use std::test::Fail;

/// Its points, and what is so at each column: the slope behind it, whether an inner point is in it, and whether a
/// level piece ends by its end.
static POINTS: [Point; 4] = [
    Point { x: 1, y: 0 },
    Point { x: 2, y: 1 },
    Point { x: 4, y: 1 },
    Point { x: 5, y: 0 },
];

static COLUMNS: [(u16, Slope, bool, bool); 6] = [
    (0, Slope::Level, false, false),
    (1, Slope::Up, false, false),
    (2, Slope::Level, true, true),
    (3, Slope::Level, false, true),
    (4, Slope::Down, true, true),
    (5, Slope::Level, false, true),
];

/// Whether a column of the line is as it is to be.
fn is_told(line: &Line, column: &(u16, Slope, bool, bool)) -> bool {
    let (c, slope, inner, level) = *column;
    c < 6
        && step_over(line, c) == slope
        && has_inner(line, c) == inner
        && is_level_by(line, c) == level
}

fn read_all() -> Result<(), Fail> {
    let line = Line::new(&POINTS).ok_or("the points of a line")?;
    for column in &COLUMNS {
        if !is_told(&line, column) {
            return Err(Fail::new(column.0));
        }
    }
    Ok(())
}

#[test]
fn a_line_is_read_by_columns(_rt: HostRuntime) -> Result<(), Fail> {
    read_all()
}
