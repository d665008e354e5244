//! The lines of a log, their text, and what a log certifies.
//!
//! A log is the certificate of a drawing, a line each: the clauses of its formula, learnt clauses, questions,
//! answers. A search gives its lines to a `LogSink`: `LineList` keeps them, `NoLog` counts them, `FileLog` writes
//! them to a file. `write_line` and `read_line` write and read a line's text. Other texts with literals use
//! `read_literal`, `write_literals`, `are_distinct` and `is_number`. `specs/Lines` says which lines there may be.
//! `specs/LineText` and `specs/LineForm` say what a text is as a line, or its fault. `specs/Log` says which logs
//! derive. `specs/Told`, `specs/ToldTo` and `specs/Steps` say how a list of lines goes on through calls.
//! `specs/FieldText` is for private contracts.
//!
//! A Bound line names the variable of "this criterion is at least k". A Refuted line says that one of its literals
//! holds in every lawful drawing. `specs/Bounds` and `specs/Certified` say which values a log certifies. What is to
//! be certified beside least values is one more definition beside `Certified`. `specs/Expected` says which Formula
//! and Bound lines the log of a file has. `specs/Full` says when it has no more room, `specs/Cause` why a search
//! stopped (`Stop`). `laws`, `log_laws`, `certified_laws` and `expected_laws` say what follows. Searches and judges
//! use this crate.
#![tactic(auto)]

mod among;
mod certified_laws;
mod expected_laws;
mod fault;
mod fields;
mod file_log;
mod laws;
mod line;
mod line_list;
mod literals;
mod log_laws;
mod no_log;
mod reading;
mod sink;
mod stop;
mod writing;

pub use among::are_among;
pub use certified_laws::{
    certified_drawings_are_least, certified_values_are_least, equal_values_are_certified_alike,
    more_lines_certify_more, one_depth_is_settled, only_the_greatest_values_count,
    values_are_certified_place_by_place,
};
pub use expected_laws::{
    caps_are_those_told, certified_over_expected_lines_is_least, expected_lines_come_sum_by_sum,
};
pub use fault::{LineTextFault, LogWhat};
pub use fields::{is_number, read_literal};
pub use file_log::{FileLog, Gathered};
pub use laws::{
    one_form, one_line, one_line_or_one_fault, right_numbers_make_a_line,
    told_lines_are_read_alone, written_is_read_again,
};
pub use line::LogLine;
pub use line_list::LineList;
pub use literals::are_distinct;
pub use log_laws::{
    facts_come_line_by_line, learnt_lines_are_due_line_by_line, learnt_lines_are_few,
    learnt_lines_say_more, lines_are_told_behind_those_before, logs_derive_line_by_line,
    what_a_log_derives_is_true, words_are_of_formula_and_learnt_lines,
};
pub use no_log::NoLog;
pub use reading::read_line;
pub use sink::{LogSink, LogSinkFault};
pub use stop::Stop;
pub use writing::{write_line, write_literals};
