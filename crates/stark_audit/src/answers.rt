//! What the command answers for the bytes of an input.

ghost use Rattle.std.specs.Prelude.{IfOk};
ghost use Rattle.stark_audit.specs.Answer.{IsExplainAnswer};

use crate::report::explain;
use p3_field::Mem;
use std::alloc::Global;
use tool_proof_files::read_proof_file;
use tool_run::bad_input;
use tool_verifier::Answer;

/// What `explain` answers for all the bytes of an input, which are let go once they are read.
pub(crate) fn explain_answer(alloc: Global, bytes: Vec<u8>) -> Mem<Answer>
    ensures { IfOk result (λ a. IsExplainAnswer bytes.items a.status a.text.items) }
{
    let read = read_proof_file(alloc, &bytes);
    drop(bytes);
    match read {
        Ok(file) => explain(alloc, &file),
        Err(error) => bad_input(alloc, error),
    }
}
