//! What `verify`, `check`, `trim` and `recheck` answer.
//!
//! `verifying` reads a file and a sheet, and `verdict` judges the drawing by the laws. `checking` has a log judged too,
//! by `log_check`. `specs/Verdict` says what a sheet is answered, `specs/CheckLine` what a sheet claims and which line
//! a verdict has. `specs/Checked` says what a sheet and a log are answered, `specs/CertifiedSheet` when a log certifies
//! a sheet's claim. `laws` says that each input has one answer, and which.
//!
//! `trimming` has `log_trim` shorten a log that certifies the claim, and writes the rest (`writing`); of another log it
//! says what `check` says. `rechecking` has `log_check` judge hinted lines. `specs/Texts` has the texts,
//! `specs/Trimmed` and `specs/Rechecked` the answers. `hint_laws` says that `recheck` ends with 0 exactly where the
//! lines certify the claim, and that it does on what `trim` left. Only `trim` shares code with the solver.
//! `schematic_main` uses this crate.
#![tactic(auto)]

mod checking;
mod hint_laws;
mod laws;
mod rechecking;
mod trim_cut;
mod trimming;
mod verdict;
mod verifying;
mod writing;

pub use checking::{
    broken_sheet, certified_line, check, check_claim, claim_of, claimed, lacking_line,
};
pub use hint_laws::{left_lines_are_certified, rechecked_exactly};
pub use laws::{
    certified_exactly, one_answer_of_check, one_answer_to_a_file, one_sheet_answer,
    verdict_of_drawing,
};
pub use rechecking::recheck;
pub use trim_cut::TrimCut;
pub use trimming::trim;
pub use verifying::verify;
