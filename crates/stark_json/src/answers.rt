//! What the commands answer for the bytes of an input.

ghost use Rattle.std.specs.Prelude.{◌≡◌, codes, IfOk, IsErr};
ghost use Rattle.stark_json.specs.Answer.{IsFromJsonAnswer, IsToJsonAnswer, IsVerifyJsonAnswer};

use json_proof_files::{JsonError, from_json, to_json};
use p3_field::Mem;
use std::alloc::{AllocError, Global};
use tool_proof_files::{read_proof_file, write_proof_file};
use tool_run::bad_input;
use tool_verifier::{Answer, Status, answer_verify};

/// What `to-json` answers for all the bytes of an input, which are let go once they are read.
pub(crate) fn to_json_answer(alloc: Global, bytes: Vec<u8>) -> Mem<Answer>
    ensures { IfOk result (λ a. IsToJsonAnswer bytes.items a.status a.text.items) }
{
    let read = read_proof_file(alloc, &bytes);
    drop(bytes);
    match read {
        Ok(file) => Ok(done(to_json(alloc, &file)?)),
        Err(error) => bad_input(alloc, error),
    }
}

/// The same of `from-json`.
pub(crate) fn from_json_answer(alloc: Global, bytes: Vec<u8>) -> Mem<Answer>
    ensures { IfOk result (λ a. IsFromJsonAnswer bytes.items a.status a.text.items) }
{
    let read = from_json(alloc, &bytes);
    drop(bytes);
    match read {
        Ok(file) => Ok(done(write_proof_file(alloc, &file)?)),
        Err(error) => bad_json(alloc, error),
    }
}

/// The same of `verify-json`.
pub(crate) fn verify_json_answer(alloc: Global, bytes: Vec<u8>) -> Mem<Answer>
    ensures { IfOk result (λ a. IsVerifyJsonAnswer bytes.items a.status a.text.items) }
{
    let read = from_json(alloc, &bytes);
    drop(bytes);
    match read {
        Ok(file) => answer_verify(alloc, &file),
        Err(error) => bad_json(alloc, error),
    }
}

// The answer of a command that did its work.
fn done(text: Vec<u8>) -> Answer
    ensures status { result.status ≡ Status.Done }
    ensures text { result.text ≡ text }
{
    Answer {
        status: Status::Done,
        text,
    }
}

// What a command answers for bytes that are no file's JSON. Out of memory wherever the reading was.
fn bad_json(alloc: Global, error: JsonError) -> Mem<Answer>
    ensures json { error ≡ JsonError.NotJson
        → IfOk result (λ a. (a.status ≡ Status.BadInput) × (a.text.items ≡ codes "bad json\n")) }
    ensures tree { error ≡ JsonError.NotProof
        → IfOk result (λ a. (a.status ≡ Status.BadInput) × (a.text.items ≡ codes "bad tree\n")) }
    ensures memory { error ≡ JsonError.OutOfMemory → IsErr result }
{
    let text = match error {
        JsonError::NotJson => Vec::from_slice(alloc, b"bad json\n")?,
        JsonError::NotProof => Vec::from_slice(alloc, b"bad tree\n")?,
        JsonError::OutOfMemory => return Err(AllocError),
    };
    Ok(Answer {
        status: Status::BadInput,
        text,
    })
}
