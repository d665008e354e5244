//! Logs and what judges them: which lines are accepted, with hints and without, and what a log certifies.
//!
//! The crate has nothing but tests. `checker` has small logs with the answer to each line and with verdicts, and a log
//! of two long chains. `hint_checker` has logs of hinted lines with the hint at which one fails, and with verdicts.
//! `trimming` has logs with how many hinted lines are left of them. A further log is a row of `LOGS` in its file.
//! `examples` has what a log of a few lines certifies, as theorems over the log of `specs/Examples`. `file_log` has a
//! log in a file whose calls fail. The texts of lines are tried by runs of the program, in `cases/check` and
//! `cases/recheck`, and which lines are left in `cases/trim`. The crate uses `refute_check`, `log_trim`, `hint_log` and
//! the definitions of `refute_log`, so that a change of a case proves nothing of the checkers again.
#![tactic(auto)]

#[cfg(test)]
mod checker;
#[cfg(test)]
mod examples;
#[cfg(test)]
mod file_log;
#[cfg(test)]
mod hint_checker;
#[cfg(test)]
mod trimming;
