//! A run of a program.

ghost use Rattle.std.specs.Prelude.{◌≡◌, ◌≤◌, false, map, string_bytes, IsErrOf};
ghost use Rattle.tool_bytes.specs.Causes.{Rose};
ghost use Rattle.tool_bytes.specs.Limits.{most_bytes};
ghost use Rattle.tool_run.specs.Run.{IsSilent, NamesReader, Outcome, ReadsInput};

use crate::commands::Commands;
use std::alloc::Global;
use tool_bytes::{Failed, InputError, Sink, Source, read_whole, write_whole};
use tool_verifier::Status;

/// Reads the whole input where a command reads it, and nothing where it doesn't.
fn read_input<S: Source>(alloc: Global, reads: bool, source: &mut S) -> Result<Vec<u8>, InputError>
    ensures bytes { ReadsInput most_bytes reads (S.left source.old) (S.left source.new) result }
    ensures later { S.faults source.old ≤ S.faults source.new }
    ensures fault { IsErrOf result InputError.ReadFault
        → Rose (S.faults source.old) (S.faults source.new) }
    ensures no_fault { (IsErrOf result InputError.ReadFault → ⊥)
        → S.faults source.new ≡ S.faults source.old }
    ensures unread { reads ≡ false → source.new ≡ source.old }
{
    if reads {
        read_whole(alloc, source)
    } else {
        Ok(Vec::new(alloc))
    }
}

/// Does what the words say, which are those after the program's name: reads the input where they name a command that reads it,
/// and then writes one text (not in Plonky3). `C` has the program's commands.
///
/// The text is built whole before the first write. It is the answer of the command that the words name, and where they name none
/// the program's text for such words, with the status `Usage`.
///
/// `ReadFault` and `WriteFault` come only where the source's or the sink's count of faults rose, and with any other status that count
/// is as it was. `TooLarge` comes only where one byte more than [`MAX_BYTES`](tool_bytes::MAX_BYTES) was read, and `OutOfMemory` where
/// out of memory. What is said of bytes holds of ends that tell them; of these no run reads more.
pub fn run<C: Commands, S: Source, K: Sink>(
    alloc: Global,
    words: &[String],
    source: &mut S,
    sink: &mut K,
) -> Status
    ensures outcome { Outcome C.program most_bytes (map string_bytes words.now)
        (S.left source.old) (S.left source.new) (K.written sink.old) (K.written sink.new) result }

    // The counts never fall, and a fault is answered only where one rose.
    ensures reads_later { S.faults source.old ≤ S.faults source.new }
    ensures writes_later { K.faults sink.old ≤ K.faults sink.new }
    ensures read_fault { result ≡ Status.ReadFault
        → Rose (S.faults source.old) (S.faults source.new) }
    ensures write_fault { result ≡ Status.WriteFault
        → Rose (K.faults sink.old) (K.faults sink.new) }

    // With another status no fault is passed over: the count is as it was.
    ensures no_read_fault { (result ≡ Status.ReadFault → ⊥)
        → S.faults source.new ≡ S.faults source.old }
    ensures no_write_fault { (result ≡ Status.WriteFault → ⊥)
        → K.faults sink.new ≡ K.faults sink.old }

    // What isn't asked stays as it was, whether or not it tells its bytes.
    ensures unread { (NamesReader C.program (map string_bytes words.now) → ⊥)
        → source.new ≡ source.old }
    ensures unwritten { IsSilent result → sink.new ≡ sink.old }
{
    let Some(command) = C::from_words(words) else {
        return match write_whole(sink, C::usage()) {
            Ok(()) => Status::Usage,
            Err(Failed) => Status::WriteFault,
        };
    };
    let bytes = match read_input(alloc, command.reads_input(), source) {
        Ok(bytes) => bytes,
        Err(InputError::ReadFault) => return Status::ReadFault,
        Err(InputError::TooLarge) => return Status::TooLarge,
        Err(InputError::OutOfMemory) => return Status::OutOfMemory,
    };
    let Ok(answer) = command.answer(alloc, bytes) else {
        return Status::OutOfMemory;
    };
    match write_whole(sink, &answer.text) {
        Ok(()) => answer.status,
        Err(Failed) => Status::WriteFault,
    }
}
