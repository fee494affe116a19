//! A source read as a whole.

ghost use Rattle.std.specs.Prelude.{◌≡◌, ◌<◌, ◌≤◌, ◌+◌, length, vec_len, Ok, true, false, IfOk, OnOk, IsErrOf};
ghost use Rattle.std.specs.Io.KnownBytes.{IsAtEnd};
ghost use Rattle.base_edges.specs.Edges.{Rose};
ghost use Rattle.base_edges.specs.Whole.{Moves, ReadsWhole};

use super::fault::ReadFault;
use crate::source::{Source, Took};
use std::alloc::Global;

/// How many bytes are asked for at once.
const PIECE: usize = 8192;

/// The bytes that the source has left, to its end or to one byte past the limit.
pub fn read_whole<S: Source>(
    alloc: Global,
    source: &mut S,
    limit: usize,
) -> Result<Vec<u8>, ReadFault>
    requires { limit < usize.MAX }
    ensures ok { IfOk result (λ bytes. ReadsWhole limit (S.left source.old) (S.left source.new) bytes.items) }
    ensures failed { IsErrOf result ReadFault.Source → Rose (S.faults source.old) (S.faults source.new) }
    ensures never_falls { S.faults source.old ≤ S.faults source.new }
{
    let mut buffer = [0u8; PIECE];
    let mut bytes = Vec::new(alloc);
    while bytes.len() <= limit {
        if !append_piece(source, limit, &mut buffer, &mut bytes)? {
            return Ok(bytes);
        }
    }
    Ok(bytes)
}

/// Appends what one call of the source gives, up to one byte past the limit; `false` at the source's end.
fn append_piece<S: Source>(
    source: &mut S,
    limit: usize,
    buffer: &mut [u8],
    bytes: &mut Vec<u8>,
) -> Result<bool, ReadFault>
    requires few { limit < usize.MAX }
    requires room { 0 < length buffer.old }
    requires below { vec_len bytes.old ≤ limit }
    ensures moved { OnOk result (Moves (S.left source.old) (S.left source.new) bytes.old.items bytes.new.items) }
    ensures more { result ≡ Ok true → vec_len bytes.old < vec_len bytes.new }
    ensures within { vec_len bytes.new ≤ limit + 1 }
    ensures end { result ≡ Ok false → IsAtEnd (S.left source.new) }
    ensures end_is_below { result ≡ Ok false → vec_len bytes.new ≤ limit }
    ensures failed { IsErrOf result ReadFault.Source → Rose (S.faults source.old) (S.faults source.new) }
    ensures never_falls { S.faults source.old ≤ S.faults source.new }
{
    let room = buffer.len().min(limit + 1 - bytes.len());
    match source.take(&mut buffer[..room]) {
        Took::Some(taken) => {
            bytes.extend_from_slice(&buffer[..taken])?;
            Ok(true)
        }
        Took::End => Ok(false),
        Took::Failed => Err(ReadFault::Source),
    }
}
