// The editions of a sheet's text.

/// Which text a sheet has. The second edition says more, so that a sheet can be read without the file of the station:
/// the grid's least length, each node's mileage and each edge's track. A sheet of the first one has least length 1.
#[derive(Clone, Copy, Debug, PartialEq, Eq)]
pub enum Edition {
    /// The text that begins with `railplan 1`.
    First,
    /// The text that begins with `railplan 2`.
    Second,
}
