//! The files that a run reads and writes, the sink of its answer, and the lines of fields that every text is made of.
//!
//! `Files` and `Sink` are traits. Their ghost members say what each name holds and what a sink was given, known or
//! not. They count faults too: a call may answer that it failed only where its count rose. `specs/Contents` says what
//! a call does to files, `specs/Given` what a put does to a sink, `specs/Counts` how counts rise. `MemoryFiles` and
//! `MemorySink` fail at calls of given numbers, `SureFiles` and `SureSink` never. `HostFiles` and `HostOut` are the
//! edge to the system. No proof can say what a system does, so their contents aren't known. A further place to read
//! from or write to is a further implementation of these traits.
//!
//! A line ends with a line feed; one space parts its fields. `cutting` cuts bytes into lines and fields. `numbers`
//! reads and writes decimals, `criteria` the words of the criteria. `appending` joins fields. `specs/Fields`,
//! `specs/Numbers` and `specs/Criteria` define them. Reading takes no memory. Every crate that reads, writes or
//! prints uses this one.
#![tactic(auto)]

mod appending;
mod call_plan;
mod counting;
mod criteria;
mod cutting;
mod files;
mod host_files;
mod host_out;
mod memory_files;
mod memory_sink;
mod named_bytes;
mod numbers;
mod sink;
mod streams;
mod sure_files;
mod sure_sink;

pub use appending::{push_field, push_text};
pub use criteria::{criterion_word, read_criterion};
pub use cutting::{behind, cut_field, cut_line, front_field};
pub use files::{FileFault, Files, write_file};
pub use host_files::HostFiles;
pub use host_out::HostOut;
pub use memory_files::MemoryFiles;
pub use memory_sink::MemorySink;
pub use numbers::{
    MAX_NUMBER, push_number, push_number_field, push_place_field, read_long_number, read_number,
};
pub use sink::{Sink, SinkFault};
pub use sure_files::SureFiles;
pub use sure_sink::SureSink;
