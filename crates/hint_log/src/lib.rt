//! Hinted lines: for each learnt clause the clauses from which it follows, so that one pass checks a log.
//!
//! A line is a clause and the numbers of clauses before it. `HintChecker` accepts exactly the good lines: each clause
//! that a line names has one literal left, and the last one has none. It goes through the literals of a named clause
//! once a line, and reads one table entry for each. A variable that the formula lacks gets a slot when it is read
//! (`slots`, `specs/Slots`), and clauses are kept by slot (`kept`): so no look searches for it. `specs/Hint` says which
//! lines are good and where a line fails. `specs/Checked` says what a checker keeps, `specs/HintedLines` when lines in
//! a row are good; `laws` says what follows. `judging` goes along a line's hints over the marks of `marks` and the
//! notes of `notes`. `specs/Looks` is for private contracts.
//!
//! The text has a first line, a line of caps (`capping`) and the hinted lines. `write_hint` writes one, `read_hint`
//! reads one (`reading`, `cutting`, `numbers`). `specs/HintText` has the texts. `specs/HintForm` and `specs/HintFaults`
//! say what a text is as a line, or its fault; `specs/Caps` says the same of the caps. `text_laws` says that texts are
//! read in one way. The crate uses clauses and log lines alone, and shares nothing with a search. `log_check` and
//! `log_trim` use it.
#![tactic(auto)]

mod capping;
mod checker;
mod cutting;
mod fault;
mod hint_line;
mod judging;
mod kept;
mod laws;
mod looks;
mod marks;
mod notes;
mod numbers;
mod reading;
mod slots;
mod text_fault;
mod text_laws;
mod writing;

pub use capping::{are_in_range, read_caps};
pub use checker::HintChecker;
pub use fault::HintFault;
pub use hint_line::{HintLine, HintList, Numbers};
pub use laws::{good_lines_follow, good_or_failing_at_one_place};
pub use reading::read_hint;
pub use text_fault::{HintTextFault, HintsWhat};
pub use text_laws::{
    one_hint_form, one_hint_or_one_fault, one_hinted_line, one_line_of_caps,
    written_hints_are_read_again,
};
pub use writing::{write_caps, write_hint};
