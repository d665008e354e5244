//! Whole runs over files and a sink in memory: those that no run over the system's files can show.
//!
//! The crate has nothing but tests. `failing` has runs one of whose calls of files or sink fails, each in its turn, and
//! `traced` a run whose trace keeps its lines. `runs` has a run and what answers it, `stations` and `sheets` the files
//! that it is given. What is proved of a run is long, and is met in one function of `runs` alone. A run that needs none
//! of this is a text under `cases/`. The crate uses `schematic_main`, so that a change of a case proves no part of the
//! program again.
#![tactic(auto)]

#[cfg(test)]
mod failing;
#[cfg(test)]
mod runs;
#[cfg(test)]
mod sheets;
#[cfg(test)]
mod stations;
#[cfg(test)]
mod traced;
