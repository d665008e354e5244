// How many variables and words there may be.

/// The most words that the clauses of a formula, or of a solver, may have. A clause of n literals
/// counts n + 3 words; at 4 bytes a word this is 1 GiB.
pub const ROOM: u32 = 268_435_456;

/// The most variables of a formula.
pub const VARS: u32 = 16_777_216;

/// The greatest number of a variable that a literal may have.
pub const LAST_VAR: u32 = 1_073_741_823;
