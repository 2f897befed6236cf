//! The top call.
ghost use Rattle.std.specs.Prelude.{◌≡◌, ◌≤◌, map, string_bytes};
ghost use Rattle.tool_bytes.specs.Causes.{Rose};
ghost use Rattle.tool_bytes.specs.Limits.{most_bytes};
ghost use Rattle.tool_run.specs.Run.{IsSilent, NamesReader, Outcome};
ghost use Rattle.stark_chain.specs.Answer.{chain_program};

use crate::command::ChainCommand;
use std::alloc::Global;
use tool_bytes::{Sink, Source};
use tool_verifier::Status;

/// Does what the words say, which are those after the program's name (not in Plonky3): the word `prove` reads a job and writes its proof file, the word
/// `verify` reads a proof file and writes `accepted`, or what is refused. All others are `Usage`.
///
/// `outcome` says of `verify` that `Done` comes exactly where the bytes are the text of a proof file that passes every check, and that the rows that it
/// commits to are then those of a chain from the file's `start` to its `end`, unless the drawn alpha or the drawn zeta is unlucky; and of `prove` that each
/// text with `Done` is that of the job's honest proof, which `verify` reads whole and for which it writes `accepted`.
///
/// `ReadFault` and `WriteFault` come only where the source's or the sink's count of faults rose, and with any other status that count is as it
/// was. `TooLarge` comes only where one byte more than [`MAX_BYTES`](tool_bytes::MAX_BYTES) was read, and `OutOfMemory` where out of memory.
pub fn run_chain<S: Source, K: Sink>(
    alloc: Global,
    words: &[String],
    source: &mut S,
    sink: &mut K,
) -> Status
    ensures outcome { Outcome chain_program most_bytes (map string_bytes words.now)
        (S.left source.old) (S.left source.new) (K.written sink.old) (K.written sink.new) result }

    // The counts never fall, and a fault is answered only where one rose.
    ensures reads_later { S.faults source.old ≤ S.faults source.new }
    ensures writes_later { K.faults sink.old ≤ K.faults sink.new }
    ensures read_fault { result ≡ Status.ReadFault
        → Rose (S.faults source.old) (S.faults source.new) }
    ensures write_fault { result ≡ Status.WriteFault
        → Rose (K.faults sink.old) (K.faults sink.new) }

    // With another status no fault is passed over: the count is as it was.
    ensures no_read_fault { (result ≡ Status.ReadFault → ⊥)
        → S.faults source.new ≡ S.faults source.old }
    ensures no_write_fault { (result ≡ Status.WriteFault → ⊥)
        → K.faults sink.new ≡ K.faults sink.old }

    // What isn't asked stays as it was, whether or not it tells its bytes.
    ensures unread { (NamesReader chain_program (map string_bytes words.now) → ⊥)
        → source.new ≡ source.old }
    ensures unwritten { IsSilent result → sink.new ≡ sink.old }
{
    tool_run::run::<ChainCommand, S, K>(alloc, words, source, sink)
}
