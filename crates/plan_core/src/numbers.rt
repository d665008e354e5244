// Numbers that name nodes, edges and mileages, and lengths along the railway.

/// A node's number, counted from 0.
#[derive(Clone, Copy, Debug, PartialEq, Eq)]
pub struct NodeNo(pub u16);

/// An edge's number, counted from 0.
#[derive(Clone, Copy, Debug, PartialEq, Eq)]
pub struct EdgeNo(pub u16);

/// The rank of a node's mileage among the distinct mileages of all nodes, counted from 0 in the west;
/// not a column of the grid.
#[derive(Clone, Copy, Debug, PartialEq, Eq)]
pub struct ColumnNo(pub u16);

/// A mileage in micrometres.
#[derive(Clone, Copy, Debug, PartialEq, Eq)]
pub struct Micro(pub i64);
