// Bounds as the formula keeps them.
use plan_core::Criterion;
use unary_sum::Sum;

/// A criterion's bound behind the formula: its variables are the `cap` ones behind the variable of number
/// `last`. The sums count for it, so that their variables can be put without memory: for bends one sum,
/// for the diagonal that of each edge's steps, from west to east, and then that of their outputs.
#[derive(Drop)]
pub(crate) struct KeptBound {
    pub criterion: Criterion,
    pub last: u32,
    pub cap: u32,
    pub sums: Vec<Sum>,
}
