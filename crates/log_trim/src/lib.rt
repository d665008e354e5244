//! What is left of a log that certifies a claim: hinted lines for the Refuted lines that certify it.
//!
//! `trim_log` reads the log's lines (`reading`), finds the wanted ones (`wanting`), compares all with what is expected
//! and adds the Formula lines that the log lacks (`completing`). Where these are more than hints are found in, it ends
//! there (`hint_room`). Then `trim` (`hint_trimming`) judges the lines and makes the hinted ones, without what nothing
//! rests on: `finder` finds hints by propagating what `assumptions` assume, `needs` names them from the last one back,
//! as far as later ones need them, `shortening` leaves lines out. Where something is wrong nothing is left; what it is
//! says `log_check`.
//!
//! `specs/Wanted` says which lines are wanted, `specs/TrimmedLog` and `specs/Trimmed` what is answered, and
//! `specs/HintRoom` which logs are too large; `specs/Found`, `specs/Hinting`, `specs/Shortened` and `specs/Shown` are
//! for private contracts. `laws` says that the hinted lines are good after what is expected, and certify the claim with
//! it. This crate alone of the judges uses the solver's `watch_arena`. The command `trim` uses it.
#![tactic(auto)]

mod assumptions;
mod completing;
mod fault;
mod finder;
mod hint_room;
mod hint_trimming;
mod laws;
mod needs;
mod reading;
mod shortening;
mod trimming;
mod wanting;

pub use fault::TrimFault;
pub use hint_trimming::{count_given, trim};
pub use laws::trimmed_lines_certify;
pub use trimming::{TrimmedLog, trim_log};
