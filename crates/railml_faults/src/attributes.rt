// The attributes that a fault can name.

/// An attribute that some rows must have, or whose text must be a number of metres.
#[derive(Clone, Copy, Debug, PartialEq, Eq)]
pub enum Attribute {
    Id,
    Pos,
    AbsPos,
    Ref,
    Orientation,
    Course,
}
