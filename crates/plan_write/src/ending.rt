// How a sheet ends.

/// How the search for a drawing ended. The numbers say how many criteria, from the first of the order,
/// were settled by then: no lawful drawing is better on these.
#[derive(Clone, Copy, Debug, PartialEq, Eq)]
pub enum Ending {
    /// The drawing is best.
    Best,
    /// There is no drawing.
    NoDrawing,
    /// The budget of conflicts was spent.
    Conflicts(u8),
    /// The room for clauses was full.
    Room(u8),
}
