// The limits of a search.

/// How much a search may take.
#[derive(Clone, Copy, Debug)]
pub struct Limits {
    /// How many clauses may be learnt.
    pub budget: u32,
    /// How many words all clauses may have, given and learnt ones; a clause of n literals has n + 3.
    pub room: u32,
}
