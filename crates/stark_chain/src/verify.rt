//! What `verify` answers.
ghost use Rattle.std.specs.Prelude.{◌≡◌, IfOk};
ghost use Rattle.stark_chain.specs.Answer.{IsFileAnswer};
ghost use Rattle.stark_chain.specs.Seen.{read_file};
ghost use Rattle.stark_chain.specs.Texts.{FileWithin};

use crate::file::ChainFile;
use chain_proofs::{has_stated_height, verify_chain};
use p3_field::Mem;
use std::alloc::Global;
use tool_verifier::{Answer, Status, fault_line, mismatch_line};

const ACCEPTED: &[u8] = b"accepted\n";

// The answer of a refusal with this line.
fn refused(text: Vec<u8>) -> Answer
    ensures status { result.status ≡ Status.Refused }
    ensures text { result.text ≡ text }
{
    Answer {
        status: Status::Refused,
        text,
    }
}

/// What `verify` answers for a proof file within its limits (not in Plonky3): `Refused` with `HeightMismatch 0`, where the proof states another height
/// for its first table; else `Refused` with the first check of the batch verifier that fails, at the challenges that are drawn again from the transcript of
/// version 2; and else `Done` with `accepted`. Then the rows that the proof commits to are those of a chain of compressions that lead from the file's
/// `start` to its `end`, unless the drawn alpha or the drawn zeta is unlucky. The only error is running out of memory.
pub fn answer_verify(alloc: Global, file: &ChainFile) -> Mem<Answer>
    requires { FileWithin (read_file file.now) }
    ensures { IfOk result (λ a. IsFileAnswer (read_file file.now) a.status a.text.items) }
{
    let log_rows = file.log_rows as usize;
    if !has_stated_height(log_rows, &file.proof) {
        return Ok(refused(mismatch_line(alloc, 0)?));
    }
    match verify_chain(alloc, &file.start, &file.end, log_rows, &file.proof) {
        Ok(()) => Ok(Answer {
            status: Status::Done,
            text: Vec::from_slice(alloc, ACCEPTED)?,
        }),
        Err(error) => Ok(refused(fault_line(alloc, &error)?)),
    }
}
