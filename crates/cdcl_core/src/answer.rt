// What a search answers.

/// The answer to a query.
#[derive(Clone, Copy, Debug, PartialEq, Eq)]
pub enum Answer {
    /// There is a model of the clauses that makes the assumptions true.
    Model,
    /// There is none.
    Refuted,
    /// As many clauses were learnt as the budget allows, and the query is still open.
    Spent,
    /// The next learnt clause would take the words past the room.
    Room,
}
