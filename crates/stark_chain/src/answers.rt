//! What the commands answer for the bytes of an input.
ghost use Rattle.std.specs.Prelude.{IfOk};
ghost use Rattle.stark_chain.specs.Answer.{IsProveAnswer, IsVerifyAnswer};

use crate::file::read_chain_file;
use crate::job::read_chain_job;
use crate::prove::answer_prove;
use crate::verify::answer_verify;
use p3_field::Mem;
use std::alloc::Global;
use tool_run::bad_input;
use tool_verifier::Answer;

/// What `prove` answers for all the bytes of an input, which are let go once they are read.
pub(crate) fn job_answer(alloc: Global, bytes: Vec<u8>) -> Mem<Answer>
    ensures { IfOk result (λ a. IsProveAnswer bytes.items a.status a.text.items) }
{
    let read = read_chain_job(alloc, &bytes);
    drop(bytes);
    match read {
        Ok(job) => answer_prove(alloc, &job),
        Err(error) => bad_input(alloc, error),
    }
}

/// The same of `verify`.
pub(crate) fn file_answer(alloc: Global, bytes: Vec<u8>) -> Mem<Answer>
    ensures { IfOk result (λ a. IsVerifyAnswer bytes.items a.status a.text.items) }
{
    let read = read_chain_file(alloc, &bytes);
    drop(bytes);
    match read {
        Ok(file) => answer_verify(alloc, &file),
        Err(error) => bad_input(alloc, error),
    }
}
