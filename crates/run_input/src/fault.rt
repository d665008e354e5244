// Why a run ends with one fault line. Each fault's number and word are those of its own crate. Here a line is made of
// them and of what the fault says.
ghost use Rattle.std.specs.Prelude.{◌≡◌, ◌++◌, [], ◌∷◌, codes, IfOk, OnOk};
ghost use Rattle.std.specs.Fmt.{decimal};
ghost use Rattle.outside_io.specs.Fields.{line_text, spaced};
ghost use Rattle.run_input.specs.Fault.{fault_line, told_line, fault_status, at_place, texts_told};
ghost use Rattle.run_input.specs.Fault.{graph_told as told_of_graph, edges_told as told_of_edges, signal_told};

use crate::status::Status;
use outside_io::{push_field, push_number_field, push_place_field, push_text};
use plan_core::{OutOfMemory, Text};
use plan_objects::SignalWhat;
use plan_text::SheetWhat;
use plan_words::WordWhat;
use port_graph::GraphFault;
use rail_mileage::write_metres;
use railml_text::TextWhat;
use railml_topology::TopologyWhat;
use refute_log::LogWhat;
use std::alloc::Global;
use track_order::OrderFault;

/// A run's fault. Its line goes to the output, and its status ends the run.
#[derive(Drop)]
pub enum RunFault {
    /// The words have a fault. `position` is that of a word, counted from 1.
    Words {
        what: WordWhat,
        position: u32,
    },
    /// The input with this number, counted from 1, has too many bytes.
    Long(u8),
    /// The text of the file has a fault. `at` is its place, in bytes from 0.
    Text {
        what: TextWhat,
        at: usize,
    },
    /// The topology of the file has a fault. `at` is the place of the element that has it, in bytes from 0. The texts
    /// are those that a fault of its kind has, empty where it has none.
    Topology {
        what: TopologyWhat,
        at: usize,
        first: Text,
        second: Text,
    },
    /// The topology has no track graph.
    Graph(GraphFault),
    /// The edges of the track graph have no order.
    Order(OrderFault),
    /// The signals of the file have a fault. `at` is the place of the signal that has it, in bytes from 0. `first` is
    /// the text that a fault of its kind has, empty where it has none.
    Signal {
        what: SignalWhat,
        at: usize,
        first: Text,
    },
    /// The text of the sheet has a fault, in the line with this number, counted from 1.
    Sheet {
        what: SheetWhat,
        line: u32,
    },
    /// The text of the log has a fault, in the line with this number, counted from 1.
    Log {
        what: LogWhat,
        line: u32,
    },
    /// The input with this number, counted from 1, couldn't be read.
    ReadFailed(u8),
}

/// The front of a fault's line: its table, its number there, and its word.
fn begun_line(alloc: Global, table: &[u8], number: u8, word: &str) -> Result<Vec<u8>, OutOfMemory>
    ensures { IfOk result (λ v. v.items ≡ table.now ++ spaced (decimal number ∷ word.now ∷ [])) }
{
    let mut line = Vec::from_slice(alloc, table)?;
    push_number_field(&mut line, u32::from(number))?;
    push_field(&mut line, word.as_bytes())?;
    Ok(line)
}

/// Appends the place where a fault was found.
fn push_place(into: &mut Vec<u8>, at: usize) -> Result<(), OutOfMemory>
    ensures { OnOk result (into.new.items ≡ into.old.items ++ spaced (at_place at)) }
{
    push_field(into, b"at")?;
    push_place_field(into, at)
}

/// Appends the texts that a topology's fault of this kind has.
fn push_texts(
    into: &mut Vec<u8>,
    what: TopologyWhat,
    first: &Text,
    second: &Text,
) -> Result<(), OutOfMemory>
    ensures { OnOk result (into.new.items ≡ into.old.items ++ spaced (texts_told what first.now second.now)) }
{
    match what {
        TopologyWhat::NoTracks | TopologyWhat::TooMany | TopologyWhat::Id => Ok(()),
        TopologyWhat::Number | TopologyWhat::NotMutual => {
            push_field(into, first.bytes())?;
            push_field(into, second.bytes())
        }
        TopologyWhat::Missing
        | TopologyWhat::RepeatedId
        | TopologyWhat::UnknownRef
        | TopologyWhat::SelfRef
        | TopologyWhat::EndKind
        | TopologyWhat::Course
        | TopologyWhat::Orientation
        | TopologyWhat::OutsideTrack => push_field(into, first.bytes()),
    }
}

/// Appends what a graph's fault says.
fn push_graph(alloc: Global, into: &mut Vec<u8>, fault: &GraphFault) -> Result<(), OutOfMemory>
    ensures { OnOk result (into.new.items ≡ into.old.items ++ spaced (told_of_graph fault.now)) }
{
    match fault {
        GraphFault::TooManyNodes(count) => push_number_field(into, *count),
        GraphFault::TooManyEdges(count) => push_number_field(into, *count),
        GraphFault::NotForward { track, mileage, .. } => {
            push_field(into, track.bytes())?;
            push_text(into, b" ")?;
            write_metres(alloc, *mileage, into)
        }
        GraphFault::SideMismatch { name, .. } => push_field(into, name.bytes()),
        GraphFault::Memory => Ok(()),
    }
}

/// Appends what a fault of the order says.
fn push_order(into: &mut Vec<u8>, fault: &OrderFault) -> Result<(), OutOfMemory>
    ensures { OnOk result (into.new.items ≡ into.old.items ++ spaced (told_of_edges fault.now)) }
{
    match fault {
        OrderFault::Contradicts(e, f) => {
            push_number_field(into, u32::from(e.0))?;
            push_number_field(into, u32::from(f.0))
        }
        OrderFault::Memory => Ok(()),
    }
}

/// Appends the text that a signal's fault of this kind has.
fn push_signal(into: &mut Vec<u8>, what: SignalWhat, first: &Text) -> Result<(), OutOfMemory>
    ensures { OnOk result (into.new.items ≡ into.old.items ++ spaced (signal_told what first.now)) }
{
    match what {
        SignalWhat::TooMany | SignalWhat::Id => Ok(()),
        SignalWhat::Missing
        | SignalWhat::RepeatedId
        | SignalWhat::Number
        | SignalWhat::OutsideTrack
        | SignalWhat::Crowded => push_field(into, first.bytes()),
    }
}

/// A line of words and the number of an input.
fn input_line(alloc: Global, words: &[u8], input: u8) -> Result<Vec<u8>, OutOfMemory>
    ensures { IfOk result (λ v. v.items ≡ line_text words.now (decimal input ∷ [])) }
{
    let mut line = Vec::from_slice(alloc, words)?;
    push_number_field(&mut line, u32::from(input))?;
    push_text(&mut line, b"\n")?;
    Ok(line)
}

fn words_line(alloc: Global, what: WordWhat, position: u32) -> Result<Vec<u8>, OutOfMemory>
    ensures { IfOk result (λ v. v.items ≡ fault_line (RunFault.Words what position)) }
{
    let mut line = begun_line(alloc, b"words", what.number(), what.word())?;
    push_number_field(&mut line, position)?;
    push_text(&mut line, b"\n")?;
    Ok(line)
}

fn text_line(alloc: Global, what: TextWhat, at: usize) -> Result<Vec<u8>, OutOfMemory>
    ensures { IfOk result (λ v. v.items ≡ fault_line (RunFault.Text what at)) }
{
    let mut line = begun_line(alloc, b"text", what.number(), what.word())?;
    push_place(&mut line, at)?;
    push_text(&mut line, b"\n")?;
    Ok(line)
}

fn topology_line(
    alloc: Global,
    what: TopologyWhat,
    at: usize,
    first: &Text,
    second: &Text,
) -> Result<Vec<u8>, OutOfMemory>
    ensures { IfOk result (λ v. v.items ≡ fault_line (RunFault.Topology what at first.now second.now)) }
{
    let mut line = begun_line(alloc, b"topology", what.number(), what.word())?;
    push_place(&mut line, at)?;
    push_texts(&mut line, what, first, second)?;
    push_text(&mut line, b"\n")?;
    Ok(line)
}

fn graph_line(alloc: Global, fault: &GraphFault) -> Result<Vec<u8>, OutOfMemory>
    ensures { IfOk result (λ v. v.items ≡ fault_line (RunFault.Graph fault.now)) }
{
    let mut line = begun_line(alloc, b"graph", fault.number(), fault.word())?;
    push_graph(alloc, &mut line, fault)?;
    push_text(&mut line, b"\n")?;
    Ok(line)
}

fn order_line(alloc: Global, fault: &OrderFault) -> Result<Vec<u8>, OutOfMemory>
    ensures { IfOk result (λ v. v.items ≡ fault_line (RunFault.Order fault.now)) }
{
    let mut line = begun_line(alloc, b"order", fault.number(), fault.word())?;
    push_order(&mut line, fault)?;
    push_text(&mut line, b"\n")?;
    Ok(line)
}

fn signal_line(
    alloc: Global,
    what: SignalWhat,
    at: usize,
    first: &Text,
) -> Result<Vec<u8>, OutOfMemory>
    ensures { IfOk result (λ v. v.items ≡ fault_line (RunFault.Signal what at first.now)) }
{
    let mut line = begun_line(alloc, b"signal", what.number(), what.word())?;
    push_place(&mut line, at)?;
    push_signal(&mut line, what, first)?;
    push_text(&mut line, b"\n")?;
    Ok(line)
}

fn sheet_line(alloc: Global, what: SheetWhat, number: u32) -> Result<Vec<u8>, OutOfMemory>
    ensures { IfOk result (λ v. v.items ≡ fault_line (RunFault.Sheet what number)) }
{
    let mut line = begun_line(alloc, b"sheet", what.number(), what.word())?;
    push_field(&mut line, b"line")?;
    push_number_field(&mut line, number)?;
    push_text(&mut line, b"\n")?;
    Ok(line)
}

fn log_line(alloc: Global, what: LogWhat, number: u32) -> Result<Vec<u8>, OutOfMemory>
    ensures { IfOk result (λ v. v.items ≡ fault_line (RunFault.Log what number)) }
{
    let mut line = begun_line(alloc, b"log", what.number(), what.word())?;
    push_field(&mut line, b"line")?;
    push_number_field(&mut line, number)?;
    push_text(&mut line, b"\n")?;
    Ok(line)
}

impl RunFault {
    /// The status that the run ends with.
    pub fn status(&self) -> Status
        ensures { result ≡ fault_status self.now }
    {
        match self {
            RunFault::Words { .. } => Status::WordsRefused,
            RunFault::ReadFailed(_) => Status::Unread,
            RunFault::Long(_)
            | RunFault::Text { .. }
            | RunFault::Topology { .. }
            | RunFault::Graph(_)
            | RunFault::Order(_)
            | RunFault::Signal { .. }
            | RunFault::Sheet { .. }
            | RunFault::Log { .. } => Status::Refused,
        }
    }

    /// The line, with its line feed.
    pub fn line(&self, alloc: Global) -> Result<Vec<u8>, OutOfMemory>
        ensures { IfOk result (λ v. v.items ≡ fault_line self.now) }
    {
        match self {
            RunFault::Words { what, position } => words_line(alloc, *what, *position),
            RunFault::Long(input) => input_line(alloc, b"long", *input),
            RunFault::Text { what, at } => text_line(alloc, *what, *at),
            RunFault::Topology {
                what,
                at,
                first,
                second,
            } => topology_line(alloc, *what, *at, first, second),
            RunFault::Graph(fault) => graph_line(alloc, fault),
            RunFault::Order(fault) => order_line(alloc, fault),
            RunFault::Signal { what, at, first } => signal_line(alloc, *what, *at, first),
            RunFault::Sheet { what, line } => sheet_line(alloc, *what, *line),
            RunFault::Log { what, line } => log_line(alloc, *what, *line),
            RunFault::ReadFailed(input) => input_line(alloc, b"read failed", *input),
        }
    }
}
