// The grid that a drawing stands on.
ghost use Rattle.std.specs.Prelude.{◌≡◌, SomeIff};
ghost use Rattle.plan_core.specs.Grid.{IsGrid, grid_size, grid_with};

use crate::{MAX_HEIGHT, MAX_LEAST, MAX_WIDTH};
use std::marker::Model;

/// A grid: 1 to 64 columns beside column 0, and 0 to 12 rows above row 0. It says too over how many columns each edge
/// goes at the least, 1 to 16.
#[derive(Clone, Copy, Debug, PartialEq, Eq)]
pub struct Grid {
    width: u16,
    height: u16,
    least: u16,
}

impl Model for Grid {
    ghost use Rattle.plan_core.specs.Grid.{GridSize, IsGrid, grid_with};

    ghost Value = { GridSize };

    ghost view = { λ g. grid_with g.width g.height g.least };

    ghost invariant = { λ g. IsGrid (grid_with g.width g.height g.least) };

    ghost inverse = { λ v. record { width = v.width; height = v.height; least = v.least } };
}

impl Grid {
    /// The grid of this width and height and of least length 1, or `None` exactly where they are none.
    pub fn new(width: u16, height: u16) -> Option<Grid>
        ensures { SomeIff result (IsGrid (grid_size width height)) (grid_size width height) }
    {
        Grid::with_least(width, height, 1)
    }

    /// The grid of this width, height and least length, or `None` exactly where they are none.
    pub fn with_least(width: u16, height: u16, least: u16) -> Option<Grid>
        ensures { SomeIff result (IsGrid (grid_with width height least)) (grid_with width height least) }
    {
        if (1..=MAX_WIDTH).contains(&width)
            && height <= MAX_HEIGHT
            && (1..=MAX_LEAST).contains(&least)
        {
            Some(Grid {
                width,
                height,
                least,
            })
        } else {
            None
        }
    }

    /// The greatest column, 1 to 64.
    pub fn width(&self) -> u16
        ensures value { result ≡ self.now.width }
        ensures is_grid { IsGrid self.now }
    {
        self.width
    }

    /// The greatest row, 0 to 12.
    pub fn height(&self) -> u16
        ensures value { result ≡ self.now.height }
        ensures is_grid { IsGrid self.now }
    {
        self.height
    }

    /// Over how many columns each edge goes at the least, 1 to 16.
    pub fn least(&self) -> u16
        ensures value { result ≡ self.now.least }
        ensures is_grid { IsGrid self.now }
    {
        self.least
    }
}
