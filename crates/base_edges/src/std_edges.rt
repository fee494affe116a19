//! A source over a reader of std and a sink over a writer of std: the edge to the system.

ghost use Rattle.std.specs.Prelude.{◌≡◌, ◌<◌, ◌≤◌, [], length, take, Some, IfNone, IfSome};
ghost use Rattle.std.specs.Io.KnownBytes.{Appends, Consumes, IsAtEnd};
ghost use Rattle.base_edges.specs.StdEdges.{reader_of, source_faults, sink_faults, writer_of};

use crate::counts::risen;
use crate::sink::{Gave, Sink};
use crate::source::{Source, Took};
use std::io::{ErrorKind, Read, Write};

/// A reader of std as a source, unbuffered. It tells of its bytes what the reader tells.
#[derive(Drop)]
pub struct StdSource<R> {
    reader: R,
    faults: u64,
}

impl<R: Read> StdSource<R> {
    /// The reader as a source that hasn't failed yet.
    pub fn new(reader: R) -> StdSource<R>
        ensures reader { reader_of result ≡ reader }
        ensures faults { source_faults result ≡ 0 }
    {
        StdSource { reader, faults: 0 }
    }
}

impl<R: Read> Source for StdSource<R> {
    ghost left = { λ s. R.remaining (reader_of s) };

    ghost faults = { source_faults };

    /// One read. One that a signal interrupts is done again; a read of nothing is the end, and an error a fault.
    fn take(&mut self, into: &mut [u8]) -> Took {
        match read_through(&mut self.reader, into) {
            Some(0) => Took::End,
            Some(taken) => Took::Some(taken),
            None => {
                self.faults = risen(self.faults);
                Took::Failed
            }
        }
    }
}

/// One read, done again where a signal interrupts it; `None` at an error.
fn read_through<R: Read>(reader: &mut R, into: &mut [u8]) -> Option<usize>
    ensures room { IfSome result (λ n. n ≤ length into.new) }
    ensures bytes { IfSome result (λ n. Consumes (R.remaining reader.old) (R.remaining reader.new) (take n into.new)) }
    ensures end { result ≡ Some 0 → 0 < length into.old → IsAtEnd (R.remaining reader.new) }
    ensures none { IfNone result (Consumes (R.remaining reader.old) (R.remaining reader.new) []) }
{
    for _ in 0..u64::MAX {
        match reader.read(into) {
            Ok(taken) => return Some(taken),
            // The system was interrupted, which is no fault: the call is made again.
            Err(error) if error.kind() == ErrorKind::Interrupted => {}
            Err(_) => return None,
        }
    }
    None
}

/// A writer of std as a sink, unbuffered. It tells of its bytes what the writer tells.
#[derive(Drop)]
pub struct StdSink<W> {
    writer: W,
    faults: u64,
}

impl<W: Write> StdSink<W> {
    /// The writer as a sink that hasn't failed yet.
    pub fn new(writer: W) -> StdSink<W>
        ensures writer { writer_of result ≡ writer }
        ensures faults { sink_faults result ≡ 0 }
    {
        StdSink { writer, faults: 0 }
    }
}

impl<W: Write> Sink for StdSink<W> {
    ghost held = { λ s. W.contents (writer_of s) };

    ghost faults = { sink_faults };

    /// One write, none of an empty piece. One that a signal interrupts is done again; an error, and a write that takes
    /// nothing, are faults.
    fn give(&mut self, piece: &[u8]) -> Gave {
        if piece.is_empty() {
            return Gave::Some(0);
        }
        match write_through(&mut self.writer, piece) {
            Some(given) if given > 0 => Gave::Some(given),
            _ => {
                self.faults = risen(self.faults);
                Gave::Failed
            }
        }
    }
}

/// One write, done again where a signal interrupts it; `None` at an error.
fn write_through<W: Write>(writer: &mut W, piece: &[u8]) -> Option<usize>
    ensures most { IfSome result (λ n. n ≤ length piece.now) }
    ensures bytes { IfSome result (λ n. Appends (W.contents writer.old) (W.contents writer.new) (take n piece.now)) }
    ensures none { IfNone result (Appends (W.contents writer.old) (W.contents writer.new) []) }
{
    for _ in 0..u64::MAX {
        match writer.write(piece) {
            Ok(given) => return Some(given),
            Err(error) if error.kind() == ErrorKind::Interrupted => {}
            Err(_) => return None,
        }
    }
    None
}
