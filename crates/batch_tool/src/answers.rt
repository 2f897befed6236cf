//! What the commands answer for the bytes of an input.

ghost use Rattle.std.specs.Prelude.{IfOk};
ghost use Rattle.batch_tool.specs.Answer.{IsBalanceAnswer, IsProveAnswer, IsVerifyAnswer};

use p3_field::Mem;
use p3_uni_stark::TranscriptVersion;
use std::alloc::Global;
use tool_balance::answer_balance;
use tool_jobs::read_job;
use tool_proof_files::read_proof_file;
use tool_prover::answer_prove;
use tool_run::bad_input;
use tool_verifier::{Answer, answer_verify};

/// What `prove` answers for all the bytes of an input over the transcript of this version, which are let go once they are read.
pub(crate) fn job_answer(alloc: Global, version: TranscriptVersion, bytes: Vec<u8>) -> Mem<Answer>
    ensures { IfOk result (λ a. IsProveAnswer version bytes.items a.status a.text.items) }
{
    let read = read_job(alloc, &bytes);
    drop(bytes);
    match read {
        Ok(job) => answer_prove(alloc, version, &job),
        Err(error) => bad_input(alloc, error),
    }
}

/// The same of `verify`.
pub(crate) fn file_answer(alloc: Global, bytes: Vec<u8>) -> Mem<Answer>
    ensures { IfOk result (λ a. IsVerifyAnswer bytes.items a.status a.text.items) }
{
    let read = read_proof_file(alloc, &bytes);
    drop(bytes);
    match read {
        Ok(file) => answer_verify(alloc, &file),
        Err(error) => bad_input(alloc, error),
    }
}

/// The same of `balance`.
pub(crate) fn balance_answer(alloc: Global, bytes: Vec<u8>) -> Mem<Answer>
    ensures { IfOk result (λ a. IsBalanceAnswer bytes.items a.status a.text.items) }
{
    let read = read_proof_file(alloc, &bytes);
    drop(bytes);
    match read {
        Ok(file) => answer_balance(alloc, &file),
        Err(error) => bad_input(alloc, error),
    }
}
