//! What the forms of the edges give and take, byte for byte, and whole texts through them.

use base_edges::{
    BytesSink, BytesSource, Gave, ReadFault, Sink, Source, StdSink, StdSource, Took, give_whole,
    read_whole,
};
use std::alloc::{AllocError, Global};
use std::io::{self, Cursor, ErrorKind, Read, Write};
use std::test::Fail;

const TEXT: &[u8] = b"plan.";

/// More bytes than most sources of these tests have.
const LIMIT: usize = 20_000;

/// A source of the text that fails at a place.
fn text_source(alloc: Global, fail_at: Option<usize>) -> Result<BytesSource, AllocError> {
    Ok(BytesSource::new(TEXT.to_vec(alloc)?, fail_at))
}

/// Gives or takes one byte a call, through another source or sink.
#[derive(Drop)]
struct OneByte<T>(T);

impl<S: Source> Source for OneByte<S> {
    ghost left = { λ s. S.left s.0 };

    ghost faults = { λ s. S.faults s.0 };

    fn take(&mut self, into: &mut [u8]) -> Took {
        self.0.take(&mut into[..1])
    }
}

impl<K: Sink> Sink for OneByte<K> {
    ghost held = { λ k. K.held k.0 };

    ghost faults = { λ k. K.faults k.0 };

    fn give(&mut self, piece: &[u8]) -> Gave {
        match piece {
            [] => Gave::Some(0),
            [first, ..] => self.0.give(&[*first]),
        }
    }
}

/// Whether a source that fails after its third byte is refused, and how often it failed.
fn failing_source_is_refused(alloc: Global) -> Result<(bool, u64), AllocError> {
    let mut source = OneByte(text_source(alloc, Some(3))?);
    let is_refused = matches!(
        read_whole(alloc, &mut source, LIMIT),
        Err(ReadFault::Source)
    );
    Ok((is_refused, source.0.faults()))
}

#[test]
fn a_source_of_single_bytes_is_read_whole(rt: HostRuntime) -> Result<(), Fail> {
    let mut source = OneByte(text_source(rt.alloc(), None)?);
    let read = read_whole(rt.alloc(), &mut source, LIMIT)?;
    assert_eq!(rt; read.as_slice(), TEXT);
    assert_eq!(rt; failing_source_is_refused(rt.alloc())?, (true, 1));
    Ok(())
}

/// How many bytes are read of a source of `len`, and what it gives next.
fn read_of(alloc: Global, len: usize) -> Result<(usize, Took), ReadFault> {
    let mut source = BytesSource::new(vec![in alloc; 7u8; len]?, None);
    let read = read_whole(alloc, &mut source, LIMIT)?.len();
    Ok((read, source.take(&mut [0; 2])))
}

#[test]
fn reading_stops_one_byte_past_the_limit(rt: HostRuntime) -> Result<(), Fail> {
    for (len, read, left) in [
        (20_000, 20_000, Took::End),
        (20_001, 20_001, Took::End),
        (20_002, 20_001, Took::Some(1)),
    ] {
        assert_eq!(rt; read_of(rt.alloc(), len)?, (read, left), "of {len}");
    }
    Ok(())
}

#[test]
fn a_text_is_given_byte_for_byte(rt: HostRuntime) {
    let mut sink = OneByte(BytesSink::new(rt.alloc(), None));
    assert!(rt; give_whole(&mut sink, TEXT).is_ok());
    assert_eq!(rt; sink.0.held(), TEXT);
    assert_eq!(rt; sink.0.faults(), 0);
}

/// Is interrupted once before each byte, and breaks after its last.
#[derive(Drop)]
struct Shaky<'a> {
    bytes: &'a [u8],
    is_interrupted: bool,
}

impl Read for Shaky<'_> {
    fn read(&mut self, buf: &mut [u8]) -> io::Result<usize> {
        self.is_interrupted = !self.is_interrupted;
        if self.is_interrupted {
            return Err(io::Error::from(ErrorKind::Interrupted));
        }
        match self.bytes {
            [] => Err(io::Error::from(ErrorKind::BrokenPipe)),
            [first, rest @ ..] => {
                if buf.is_empty() {
                    return Ok(0);
                }
                self.bytes = rest;
                buf[0] = *first;
                Ok(1)
            }
        }
    }
}

impl Write for Shaky<'_> {
    fn write(&mut self, buf: &[u8]) -> io::Result<usize> {
        self.is_interrupted = !self.is_interrupted;
        if self.is_interrupted {
            return Err(io::Error::from(ErrorKind::Interrupted));
        }
        match self.bytes {
            [] => Err(io::Error::from(ErrorKind::BrokenPipe)),
            [_, rest @ ..] => {
                self.bytes = rest;
                Ok(buf.len().min(1))
            }
        }
    }

    fn flush(&mut self) -> io::Result<()> {
        Ok(())
    }
}

/// What a source over the text takes in pieces of four bytes, with what is in the buffer after each.
fn taken_of_text() -> ([Took; 3], [[u8; 4]; 2]) {
    let mut source = StdSource::new(TEXT);
    let mut buffer = [b'-'; 4];
    let first = source.take(&mut buffer);
    let full = buffer;
    let second = source.take(&mut buffer);
    let last = buffer;
    ([first, second, source.take(&mut buffer)], [full, last])
}

/// What a source over a reader that is interrupted and then breaks takes.
fn taken_of_shaky() -> [Took; 2] {
    let mut source = StdSource::new(Shaky {
        bytes: b"p",
        is_interrupted: false,
    });
    let mut buffer = [b'-'; 4];
    [source.take(&mut buffer), source.take(&mut buffer)]
}

#[test]
fn readers_of_std_are_sources(rt: HostRuntime) -> Result<(), Fail> {
    let (took, stood) = taken_of_text();
    assert_eq!(rt; took, [Took::Some(4), Took::Some(1), Took::End]);
    assert_eq!(rt; stood, [*b"plan", *b".lan"]);
    assert_eq!(rt; taken_of_shaky(), [Took::Some(1), Took::Failed]);
    let mut source = StdSource::new(Cursor::new(TEXT));
    assert_eq!(rt;
        read_whole(rt.alloc(), &mut source, LIMIT)?.as_slice(),
        TEXT
    );
    Ok(())
}

/// What a sink over a buffer of two bytes gives of the text, twice, and what is in it. A writer that is full takes nothing.
fn given_to_two() -> ([Gave; 2], [u8; 2]) {
    let mut room = [0; 2];
    let mut sink = StdSink::new(room.as_mut_slice());
    let gave = [sink.give(TEXT), sink.give(TEXT)];
    (gave, room)
}

/// What a sink over a writer that is interrupted and then breaks gives.
fn given_to_shaky() -> [Gave; 2] {
    let mut sink = StdSink::new(Shaky {
        bytes: b"p",
        is_interrupted: false,
    });
    [sink.give(TEXT), sink.give(TEXT)]
}

/// What a sink over a vector gives of two letters and of nothing, and whether it gives the rest of the text.
fn given_to_vector(written: &mut Vec<u8>) -> ([Gave; 2], bool) {
    let mut sink = StdSink::new(written);
    let gave = [sink.give(b"pl"), sink.give(b"")];
    (gave, give_whole(&mut sink, b"an.").is_ok())
}

#[test]
fn writers_of_std_are_sinks(rt: HostRuntime) {
    assert_eq!(rt; given_to_two(), ([Gave::Some(2), Gave::Failed], *b"pl"));
    assert_eq!(rt; given_to_shaky(), [Gave::Some(1), Gave::Failed]);
    let mut written = Vec::new(rt.alloc());
    let given = given_to_vector(&mut written);
    assert_eq!(rt; given, ([Gave::Some(2), Gave::Some(0)], true));
    assert_eq!(rt; written.as_slice(), TEXT);
}
