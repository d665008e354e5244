//! The verdict on the text of a log, or of hinted lines: does it certify what is claimed of a graph's drawings?
//!
//! `judge_log` reads a log's text twice. `counting` counts its Bound lines; by them `expected` makes the clauses of
//! `drawing_cnf` that the log is to begin with. `judging` then takes line by line (`reading`). It compares Formula and
//! Bound lines with those that are awaited (`awaited`), and has `refute_check` accept the line (`accepting`). At the
//! end it asks what the log lacks. A `Claim` is what is to be certified, a `Verdict` the answer. `specs/Judged` says
//! which verdict is right, by `Accepted`, `Refused`, `TextLines`, `Expectation` and `Claimed`; `laws` that only one is.
//! `fitting` asks of lines, besides that they derive, that they begin as expected and have room.
//!
//! `judge_hints` (`hint_judging`) does the same for hinted lines: `hint_expecting` makes the formula from the caps,
//! `hint_reading` reads a line, `hint_log` accepts it, `hint_lacking` says what they lack (`specs/Hinted`).
//! `specs/HintsJudged` says which verdict is right. Nothing here reads a file or searches; no code is shared with the
//! solver.
#![tactic(auto)]

mod accepting;
mod awaited;
mod claim;
mod counting;
mod expected;
mod fitting;
mod hint_claim_laws;
mod hint_expecting;
mod hint_judging;
mod hint_lacking;
mod hint_laws;
mod hint_reading;
mod hint_verdict;
mod judging;
mod laws;
mod reading;
mod verdict;

pub use awaited::Part;
pub use claim::Claim;
pub use counting::{caps_in, greatest_values};
pub use expected::{Expected, expected_of};
pub use fitting::{begin_expected, has_clause_line, have_room};
pub use hint_claim_laws::what_hints_certify_is_so;
pub use hint_judging::judge_hints;
pub use hint_lacking::{first_lacking, none_certified};
pub use hint_laws::{
    hints_certified_exactly, one_hints_verdict_is_due, what_hinted_logs_certify_is_so,
};
pub use hint_verdict::{HintRefusal, HintsVerdict};
pub use judging::{behind_header, judge_log};
pub use laws::{
    certified_exactly, fronts_are_accepted, one_verdict_is_due, what_is_certified_is_so,
};
pub use reading::{Next, next_line};
pub use verdict::{Refusal, Verdict};
