// A document's rows, in one pass over its items.
ghost use Rattle.std.specs.Prelude.{◌≡◌, ◌≤◌, ◌⊎◌, ℕ, length, IfOk, IfErr, OnOk, IsUtf8};
ghost use Rattle.plan_core.specs.Exactly.{AnswersExactly};
ghost use Rattle.plan_core.specs.declared.limits.TheConstants.{MAX_FILE_BYTES};
ghost use Rattle.railml_text.specs.declared.fault.TextWhat.{TextWhat as What};
ghost use Rattle.railml_text.specs.Cutting.{start_of as start};
ghost use Rattle.railml_read.specs.Document.{AreRows, GivesRows, IsReadFault, IsTextFault};
ghost use Rattle.railml_read.specs.Formed.{AreFormed};
ghost use Rattle.railml_read.specs.Signals.{AreSignals, GivesSignals, AreRising};
ghost use Rattle.railml_read.specs.Progress.{state_of, marks_of};
ghost use Rattle.railml_read.specs.Passing.{IsReadThrough, HasMarks, fault_at as text_fault_at};

use crate::progress::Progress;
use crate::{ReadFault, Records, SignalRows};
use railml_text::{ItemFault, TextWhat, scan};
use std::alloc::Global;

/// The bytes of a byte order mark, which is passed over at the start.
const BYTE_ORDER_MARK: &[u8] = b"\xEF\xBB\xBF";

/// The place of the first item.
fn start_of(bytes: &[u8]) -> usize
    ensures { result ≡ start bytes.now }
{
    if bytes.starts_with(BYTE_ORDER_MARK) {
        BYTE_ORDER_MARK.len()
    } else {
        0
    }
}

/// The fault of an item at a place.
fn fault_at(fault: ItemFault, at: usize) -> ReadFault
    ensures { result ≡ text_fault_at fault at }
{
    match fault {
        ItemFault::Item(what) => ReadFault::Text { what, at },
        ItemFault::Memory => ReadFault::Memory,
    }
}

/// Takes each item into account, or answers the fault of the first that has one.
fn read_items(alloc: Global, bytes: &[u8]) -> Result<Progress, ReadFault>
    requires utf8 { IsUtf8 bytes.now }
    requires few { length bytes.now ≤ MAX_FILE_BYTES }
    ensures through { IfOk result (λ p. IsReadThrough bytes.now (state_of p) p.has_root) }
    ensures marks { IfOk result (λ p. HasMarks bytes.now (state_of p) p.has_root (marks_of p)) }
    ensures fault { IfErr result (λ e. (e ≡ ReadFault.Memory) ⊎ IsReadFault bytes.now e) }
{
    let mut progress = Progress::new(alloc);
    let mut at = start_of(bytes);
    let mut first = true;
    while at < bytes.len() {
        let item = match scan(alloc, bytes, at, first) {
            Ok(item) => item,
            Err(fault) => return Err(fault_at(fault, at)),
        };
        if let Some(what) = progress.fault_of(&item.kind) {
            return Err(ReadFault::Text { what, at });
        }
        progress.add(alloc, at, item.kind)?;
        at = item.end;
        first = false;
    }
    Ok(progress)
}

/// What is kept of a text that is UTF-8, or its fault.
fn read_text(alloc: Global, bytes: &[u8]) -> Result<Progress, ReadFault>
    requires utf8 { IsUtf8 bytes.now }
    requires few { length bytes.now ≤ MAX_FILE_BYTES }
    ensures rows { IfOk result (λ p. AreRows bytes.now p.rows.items) }
    ensures signals { IfOk result (λ p. AreSignals bytes.now p.signals.items) }
    ensures sound { OnOk result ((what : What) (at : ℕ) → IsTextFault bytes.now what at → ⊥) }
    ensures fault { IfErr result (λ e. (e ≡ ReadFault.Memory) ⊎ IsReadFault bytes.now e) }
    ensures formed { IfOk result (λ p. AreFormed p.rows.items) }
    ensures rising { IfOk result (λ p. AreRising p.signals.items) }
{
    let progress = read_items(alloc, bytes)?;
    let at = bytes.len();
    if !progress.is_closed() {
        return Err(ReadFault::Text {
            what: TextWhat::Unfinished,
            at,
        });
    }
    if !progress.has_infrastructure {
        return Err(ReadFault::Text {
            what: TextWhat::NoInfrastructure,
            at,
        });
    }
    Ok(progress)
}

/// What is kept of any text, or its fault.
fn read_bytes(alloc: Global, bytes: &[u8]) -> Result<Progress, ReadFault>
    requires { length bytes.now ≤ MAX_FILE_BYTES }
    ensures rows { IfOk result (λ p. AreRows bytes.now p.rows.items) }
    ensures signals { IfOk result (λ p. AreSignals bytes.now p.signals.items) }
    ensures sound { OnOk result ((what : What) (at : ℕ) → IsTextFault bytes.now what at → ⊥) }
    ensures fault { IfErr result (λ e. (e ≡ ReadFault.Memory) ⊎ IsReadFault bytes.now e) }
    ensures formed { IfOk result (λ p. AreFormed p.rows.items) }
    ensures rising { IfOk result (λ p. AreRising p.signals.items) }
{
    if let Err(e) = std::str::from_utf8(bytes) {
        return Err(ReadFault::Text {
            what: TextWhat::NotUtf8,
            at: e.valid_up_to(),
        });
    }
    read_text(alloc, bytes)
}

/// The rows of a text, or its fault.
fn rows_or_fault(alloc: Global, bytes: &[u8]) -> Result<Records, ReadFault>
    requires { length bytes.now ≤ MAX_FILE_BYTES }
    ensures rows { IfOk result (λ rows. AreRows bytes.now rows) }
    ensures sound { OnOk result ((what : What) (at : ℕ) → IsTextFault bytes.now what at → ⊥) }
    ensures fault { IfErr result (λ e. (e ≡ ReadFault.Memory) ⊎ IsReadFault bytes.now e) }
    ensures formed { IfOk result (λ rows. AreFormed rows) }
{
    match read_bytes(alloc, bytes) {
        Ok(progress) => Ok(progress.into_rows()),
        Err(fault) => Err(fault),
    }
}

/// The signals of a text, or its fault.
fn signals_or_fault(alloc: Global, bytes: &[u8]) -> Result<SignalRows, ReadFault>
    requires { length bytes.now ≤ MAX_FILE_BYTES }
    ensures signals { IfOk result (λ signals. AreSignals bytes.now signals) }
    ensures sound { OnOk result ((what : What) (at : ℕ) → IsTextFault bytes.now what at → ⊥) }
    ensures fault { IfErr result (λ e. (e ≡ ReadFault.Memory) ⊎ IsReadFault bytes.now e) }
    ensures rising { IfOk result (λ signals. AreRising signals) }
{
    match read_bytes(alloc, bytes) {
        Ok(progress) => Ok(progress.into_signals()),
        Err(fault) => Err(fault),
    }
}

/// The rows of the document's selected elements, or the fault of its text.
///
/// The text is cut into items from left to right, and the fault is that of the first item that has one. `NotUtf8`
/// comes before all others, at the length of the longest front that is UTF-8. `Unfinished` of the whole text and
/// `NoInfrastructure` come after all items, at the text's length.
pub fn read(alloc: Global, bytes: &[u8]) -> Result<Records, ReadFault>
    requires { length bytes.now ≤ MAX_FILE_BYTES }
    ensures answers { AnswersExactly result ReadFault.Memory (GivesRows bytes.now) (IsReadFault bytes.now) }
    // How the rows are formed, for whoever reads them.
    ensures formed { IfOk result (λ rows. AreFormed rows) }
{
    rows_or_fault(alloc, bytes)
}

/// The signals of the document, or the fault of its text, which is that of `read`.
pub fn read_signals(alloc: Global, bytes: &[u8]) -> Result<SignalRows, ReadFault>
    requires { length bytes.now ≤ MAX_FILE_BYTES }
    ensures answers { AnswersExactly result ReadFault.Memory (GivesSignals bytes.now) (IsReadFault bytes.now) }
    // For whoever places them.
    ensures rising { IfOk result (λ signals. AreRising signals) }
{
    signals_or_fault(alloc, bytes)
}
