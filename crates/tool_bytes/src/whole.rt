//! An input read to its end, and a text written whole.

ghost use Rattle.std.specs.Prelude.{◌≡◌, ◌≤◌, length, OnOk, OnErr, IsErrOf};
ghost use Rattle.tool_bytes.specs.Causes.{Rose};
ghost use Rattle.tool_bytes.specs.Limits.{most_bytes};
ghost use Rattle.tool_bytes.specs.Whole.{ReadsWhole, WritesWhole};

use crate::ends::{Failed, InputError, Sink, Source};
use std::alloc::Global;

/// The most bytes that an input may have.
pub const MAX_BYTES: usize = 67_108_864;

const PIECE_BYTES: usize = 65_536;

/// Reads all bytes up to the end of the input, and never more than one above [`MAX_BYTES`], of a source that tells its
/// bytes (not in Plonky3).
///
/// `ReadFault` comes only where the source's count of faults rose in this call, `TooLarge` exactly where that one byte more
/// was read, and `OutOfMemory` where out of memory. Unless it answers `ReadFault`, the count is as it was, so no fault is passed over.
#[tactic(auto, using(crate::proofs::Bytes::steps))]
pub fn read_whole<S: Source>(alloc: Global, source: &mut S) -> Result<Vec<u8>, InputError>
    ensures bytes { ReadsWhole most_bytes (S.left source.old) (S.left source.new) result }
    ensures later { S.faults source.old ≤ S.faults source.new }
    ensures fault { IsErrOf result InputError.ReadFault
        → Rose (S.faults source.old) (S.faults source.new) }
    ensures no_fault { (IsErrOf result InputError.ReadFault → ⊥)
        → S.faults source.new ≡ S.faults source.old }
{
    let mut bytes = Vec::new(alloc);
    let mut piece = [0; PIECE_BYTES];
    while bytes.len() <= MAX_BYTES {
        let room = (MAX_BYTES + 1 - bytes.len()).min(PIECE_BYTES);
        match source.read(&mut piece[..room]) {
            Ok(0) => return Ok(bytes),
            Ok(n) => bytes.extend_from_slice(&piece[..n])?,
            Err(Failed) => return Err(InputError::ReadFault),
        }
    }
    Err(InputError::TooLarge)
}

/// Writes until all of the text is taken.
///
/// `Failed` comes only where the sink's count of faults rose in this call. Then the front of the text was written, and not all of it.
/// At `Ok` the count is as it was, so no fault is passed over.
#[tactic(auto, using(crate::proofs::Bytes::steps))]
pub fn write_whole<K: Sink>(sink: &mut K, text: &[u8]) -> Result<(), Failed>
    ensures text { WritesWhole (K.written sink.old) (K.written sink.new) text.now result }
    ensures later { K.faults sink.old ≤ K.faults sink.new }
    ensures fault { OnErr result (Rose (K.faults sink.old) (K.faults sink.new)) }
    ensures no_fault { OnOk result (K.faults sink.new ≡ K.faults sink.old) }
{
    let mut rest = text;
    while !rest.is_empty() {
        let n = sink.write(rest)?;
        rest = &rest[n..];
    }
    Ok(())
}
