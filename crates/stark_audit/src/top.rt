//! The top call.

ghost use Rattle.std.specs.Prelude.{◌≡◌, ◌≤◌, map, string_bytes};
ghost use Rattle.tool_bytes.specs.Causes.{Rose};
ghost use Rattle.tool_bytes.specs.Limits.{most_bytes};
ghost use Rattle.tool_run.specs.Run.{IsSilent, NamesReader, Outcome};
ghost use Rattle.stark_audit.specs.Answer.{audit_program};

use crate::command::Command;
use std::alloc::Global;
use tool_bytes::{Sink, Source};
use tool_verifier::Status;

/// Does what the words say, which are those after the program's name: reads the input where they name a command, and then writes one text
/// (not in Plonky3).
///
/// The text is built whole before the first write. The word `explain` reads a proof file, and writes the report on it: each step of its
/// transcript, and the checks that are asked and fail. It answers `Done` exactly where `verify` accepts the file, and else `Refused`, with
/// `verify`'s refusal as the first that is named. `BadInput` comes exactly where the bytes are no proof file, with the line at fault. All
/// other words are `Usage`.
///
/// `ReadFault` and `WriteFault` come only where the source's or the sink's count of faults rose, and with any other status that count
/// is as it was. `TooLarge` comes only where one byte more than [`MAX_BYTES`](tool_bytes::MAX_BYTES) was read, and `OutOfMemory` where out
/// of memory. What is said of bytes holds of ends that tell them; of these no run reads more.
pub fn run_explain<S: Source, K: Sink>(
    alloc: Global,
    words: &[String],
    source: &mut S,
    sink: &mut K,
) -> Status
    ensures outcome { Outcome audit_program most_bytes (map string_bytes words.now)
        (S.left source.old) (S.left source.new) (K.written sink.old) (K.written sink.new) result }

    // The counts never fall, and a fault is answered only where one rose.
    ensures reads_later { S.faults source.old ≤ S.faults source.new }
    ensures writes_later { K.faults sink.old ≤ K.faults sink.new }
    ensures read_fault { result ≡ Status.ReadFault
        → Rose (S.faults source.old) (S.faults source.new) }
    ensures write_fault { result ≡ Status.WriteFault
        → Rose (K.faults sink.old) (K.faults sink.new) }

    // With another status no fault is passed over: the count is as it was.
    ensures no_read_fault { (result ≡ Status.ReadFault → ⊥)
        → S.faults source.new ≡ S.faults source.old }
    ensures no_write_fault { (result ≡ Status.WriteFault → ⊥)
        → K.faults sink.new ≡ K.faults sink.old }

    // What isn't asked stays as it was, whether or not it tells its bytes.
    ensures unread { (NamesReader audit_program (map string_bytes words.now) → ⊥)
        → source.new ≡ source.old }
    ensures unwritten { IsSilent result → sink.new ≡ sink.old }
{
    tool_run::run::<Command, S, K>(alloc, words, source, sink)
}
