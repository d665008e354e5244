// Sides and directions.

/// A side of a track as it is drawn.
#[derive(Clone, Copy, Debug, PartialEq, Eq)]
pub enum Side {
    Upper,
    Lower,
}

/// A direction along the railway: mileages grow towards the east.
#[derive(Clone, Copy, Debug, PartialEq, Eq)]
pub enum Compass {
    East,
    West,
}

/// A hand, seen from a switch's trunk towards its legs.
#[derive(Clone, Copy, Debug, PartialEq, Eq)]
pub enum Hand {
    Left,
    Right,
}
