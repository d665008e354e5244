// A count that ends at the greatest number of 64 bits and stands there.
ghost use Rattle.std.specs.Prelude.{◌≡◌};
ghost use Rattle.outside_io.specs.Counts.{IsCount, next_count};

/// How often something happened. It never falls. At its end it stays there.
#[derive(Drop)]
pub struct Count {
    pub value: u64,
    ghost in_range: { IsCount value },
}

impl Count {
    /// Nothing happened yet.
    pub fn new() -> Self
        ensures { result.value ≡ 0 }
    {
        Count { value: 0 }
    }

    /// It happened once more.
    pub fn raise(&mut self)
        ensures { self.new.value ≡ next_count self.old.value }
    {
        self.value = self.value.saturating_add(1);
    }
}
