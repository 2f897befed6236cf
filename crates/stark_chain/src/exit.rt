//! The exit status of a run.

ghost use Rattle.std.specs.Prelude.{◌≡◌, ◌≤◌, map, string_bytes};
ghost use Rattle.std.specs.Process.{exit_status};
ghost use Rattle.tool_bytes.specs.Causes.{Rose};
ghost use Rattle.tool_bytes.specs.Limits.{most_bytes};
ghost use Rattle.tool_run.specs.Exit.{status_told};
ghost use Rattle.tool_run.specs.Run.{IsSilent, NamesReader, Outcome};
ghost use Rattle.tool_verifier.specs.Status.{status_number};
ghost use Rattle.stark_chain.specs.Answer.{chain_program};

use crate::command::ChainCommand;
use std::alloc::Global;
use std::process::ExitCode;
use tool_bytes::{Sink, Source};
use tool_verifier::Status;

/// Does what [`run_chain`](crate::run_chain) does, and answers the exit code of its status, with which the program ends
/// (not in Plonky3).
///
/// What the clauses of `run_chain` say of its status they say here of the status that the exit code tells.
pub fn run_chain_to_exit<S: Source, K: Sink>(
    alloc: Global,
    words: &[String],
    source: &mut S,
    sink: &mut K,
) -> ExitCode
    // The exit status is the number of the status of which the other clauses speak.
    ensures exit { exit_status result ≡ status_number (status_told result) }

    ensures outcome { Outcome chain_program most_bytes (map string_bytes words.now)
        (S.left source.old) (S.left source.new) (K.written sink.old) (K.written sink.new)
        (status_told result) }

    ensures reads_later { S.faults source.old ≤ S.faults source.new }
    ensures writes_later { K.faults sink.old ≤ K.faults sink.new }
    ensures read_fault { status_told result ≡ Status.ReadFault
        → Rose (S.faults source.old) (S.faults source.new) }
    ensures write_fault { status_told result ≡ Status.WriteFault
        → Rose (K.faults sink.old) (K.faults sink.new) }
    ensures no_read_fault { (status_told result ≡ Status.ReadFault → ⊥)
        → S.faults source.new ≡ S.faults source.old }
    ensures no_write_fault { (status_told result ≡ Status.WriteFault → ⊥)
        → K.faults sink.new ≡ K.faults sink.old }
    ensures unread { (NamesReader chain_program (map string_bytes words.now) → ⊥)
        → source.new ≡ source.old }
    ensures unwritten { IsSilent (status_told result) → sink.new ≡ sink.old }
{
    tool_run::run_to_exit::<ChainCommand, S, K>(alloc, words, source, sink)
}
