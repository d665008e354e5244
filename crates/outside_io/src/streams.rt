// The loops over a reader and a writer.
ghost use Rattle.std.specs.Prelude.{◌≡◌, ◌≤◌, ◌++◌, [], None, take, IfOk, IfSome, OnOk, OnErr, MatchBool};
ghost use Rattle.std.specs.Io.{ReadsAtMost, WritesAtMost};
ghost use Rattle.std.specs.Io.KnownBytes.{Appends, ReadConsumes, WriteAppends};
ghost use Rattle.outside_io.specs.Contents.{ReadsFront, Begins};
ghost use Rattle.outside_io.specs.Given.{AppendsPrefix};
ghost use Rattle.outside_io.specs.Streams.{AddsPiece};

use crate::FileFault;
use std::io::{self, ErrorKind, Read, Write};

/// How many bytes one read asks for at most.
const PIECE: usize = 65_536;

/// Reads from where the source is to its end, but no more than `limit` bytes, and appends to `into` what came.
/// `Failed` where a read failed; `into` then has what came before.
pub fn read_up_to<S: Read>(
    source: &mut S,
    limit: usize,
    into: &mut Vec<u8>,
) -> Result<(), FileFault>
    ensures at_most { OnOk result (ReadsFront None [] limit into.old.items into.new.items) }
    ensures front { OnOk result (IfSome (S.remaining source.old) (λ left. into.new.items ≡ into.old.items
        ++ take limit left)) }
    ensures begins { Begins into.old.items into.new.items }
{
    let mut left = limit;
    while left > 0 {
        let came = read_piece(source, left.min(PIECE), into)?;
        if came == 0 {
            break;
        }
        left -= came;
    }
    Ok(())
}

/// Appends to `into` what one read gives, at most `most` bytes, and tells how many came: none at the
/// end of the source alone. After an error `into` is as it was.
fn read_piece<S: Read>(source: &mut S, most: usize, into: &mut Vec<u8>) -> Result<usize, FileFault>
    requires some { 1 ≤ most }
    requires not_many { most ≤ PIECE }
    ensures ok { IfOk result (λ n. AddsPiece most n into.old.items into.new.items (S.remaining source.old)
        (S.remaining source.new)) }
    ensures err { OnErr result (into.new.items ≡ into.old.items) }
{
    let start = into.len();
    into.resize(start + most, 0)?;
    match read_once(source, &mut into[start..]) {
        Ok(came) => {
            into.truncate(start + came);
            Ok(came)
        }
        Err(_) => {
            into.truncate(start);
            Err(FileFault::Failed)
        }
    }
}

/// One read. It is tried again where a signal interrupts it.
#[tactic(auto, using(crate::proofs::StreamLemmas::read_kept))]
fn read_once<S: Read>(source: &mut S, buf: &mut [u8]) -> io::Result<usize>
    ensures bound { ReadsAtMost result buf.new }
    ensures bytes { ReadConsumes (S.remaining source.old) (S.remaining source.new) result buf.new }
{
    for _ in 0..u64::MAX {
        match source.read(buf) {
            Err(e) if e.kind() == ErrorKind::Interrupted => {}
            read => return read,
        }
    }
    source.read(buf)
}

/// One write. It is tried again where a signal interrupts it.
#[tactic(auto, using(crate::proofs::StreamLemmas::write_kept))]
fn write_once<W: Write>(out: &mut W, bytes: &[u8]) -> io::Result<usize>
    ensures bound { WritesAtMost result bytes.now }
    ensures bytes { WriteAppends (W.contents out.old) (W.contents out.new) result bytes.now }
{
    for _ in 0..u64::MAX {
        match out.write(bytes) {
            Err(e) if e.kind() == ErrorKind::Interrupted => {}
            written => return written,
        }
    }
    out.write(bytes)
}

/// Writes all bytes, and tells whether it could. A write that failed or took nothing ends it.
pub fn write_whole<W: Write>(out: &mut W, bytes: &[u8]) -> bool
    ensures { MatchBool result (Appends (W.contents out.old) (W.contents out.new) bytes.now)
        (AppendsPrefix (W.contents out.old) (W.contents out.new) bytes.now) }
{
    let mut rest = bytes;
    while !rest.is_empty() {
        match write_once(out, rest) {
            Ok(taken) if taken > 0 => rest = &rest[taken..],
            _ => return false,
        }
    }
    true
}
