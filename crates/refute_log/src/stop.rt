// Why a search stopped.

/// Why a search stopped.
#[derive(Clone, Copy)]
pub enum Stop {
    /// The whole budget of learnt clauses is spent.
    BudgetSpent,
    /// There is no room for a further learnt clause, or for the clauses of a criterion. `IsCause` says the first; for
    /// the second see `NextSumPasses` and `CapsPass`.
    RoomFull,
}
