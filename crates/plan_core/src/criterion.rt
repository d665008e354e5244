// What a drawing is measured by.
ghost use Rattle.std.specs.Prelude.{◌≡◌};
ghost use Rattle.plan_core.specs.Values.{value_of};

/// One of the four numbers that a drawing is to have least. The default only serves a list of fixed
/// size, which keeps its unused places filled.
#[derive(Clone, Copy, Debug, Default, PartialEq, Eq)]
pub enum Criterion {
    #[default]
    Height,
    Bends,
    Diagonal,
    Width,
}

/// What a drawing measures: height in rows, bends as a number of points, diagonal as a number of
/// rows, width in columns.
#[derive(Clone, Copy, Debug, PartialEq, Eq)]
pub struct Values {
    pub height: u32,
    pub bends: u32,
    pub diagonal: u32,
    pub width: u32,
}

impl Values {
    /// The value of one criterion.
    pub fn of(&self, c: Criterion) -> u32
        ensures { result ≡ value_of self.now c }
    {
        match c {
            Criterion::Height => self.height,
            Criterion::Bends => self.bends,
            Criterion::Diagonal => self.diagonal,
            Criterion::Width => self.width,
        }
    }
}
