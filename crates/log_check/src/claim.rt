// What a log is to certify.
use plan_core::Values;

/// What a sheet claims of the lawful drawings, for a log to certify.
#[derive(Clone, Copy, Debug)]
pub enum Claim {
    /// None is better than one with these values, on so many places of the order, from the first on.
    Least {
        /// The values of the drawing that was found.
        values: Values,
        /// How many places of the order are claimed.
        places: usize,
    },
    /// There is none.
    NoDrawing,
    /// Nothing is claimed, which every log certifies whose lines are accepted.
    Nothing,
}
