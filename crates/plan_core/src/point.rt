// Points of the grid, and slopes between them.

/// A point of the grid: `x` counts columns from the west, `y` rows from below, both from 0.
#[derive(Clone, Copy, Debug, Default, PartialEq, Eq)]
pub struct Point {
    pub x: u16,
    pub y: u16,
}

/// How a piece of a line goes, seen from west to east: one row down, none, or one row up for each
/// column.
#[derive(Clone, Copy, Debug, PartialEq, Eq)]
pub enum Slope {
    Down,
    Level,
    Up,
}
