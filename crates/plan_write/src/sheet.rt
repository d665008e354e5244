// A sheet.
use crate::Ending;
use plan_core::{Grid, Order};
use plan_geometry::Drawing;
use std::marker::Model;

/// The most whole metres that a sheet may tell: ten digits.
pub const MAX_METRES: u64 = 9_999_999_999;

/// What was found on a grid in an order of criteria, and how the search ended. With the ending `Best`
/// there is a drawing, with `NoDrawing` there is none.
#[derive(Drop)]
pub struct Sheet {
    /// The columns and rows that the search had.
    pub grid: Grid,
    /// What was to be least, the most important first.
    pub order: Order,
    /// The drawing that was found last, if any was.
    pub found: Option<Drawing>,
    /// How the search ended.
    pub ending: Ending,
}

impl Model for Sheet {
    ghost use Rattle.std.specs.Option.{is_some};
    ghost use Rattle.plan_write.specs.SheetLine.{MayEnd};
    ghost use Rattle.plan_write.specs.SheetText.{Sheet as PlainSheet};

    ghost Value = { PlainSheet };

    ghost view = { λ s. record { grid = s.grid; order = s.order; found = s.found; ending = s.ending } };

    ghost invariant = { λ s. MayEnd (is_some s.found) s.ending };
}
