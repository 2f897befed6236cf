//! A proof as a proof file of the program.

use crate::statement::Kept;
use p3_field::Mem;
use std::alloc::Global;
use tool_lines::push_number;
use tool_proof_files::read_proof_file;
use tool_verifier::answer_verify;

/// What the program's `verify` answers to the file of what is stated, with these numbers of a proof: the status and the line, or `no file`.
pub fn file_answer(alloc: Global, kept: &Kept, numbers: &[u64]) -> Mem<String> {
    let mut text = Vec::new(alloc);
    push_number(&mut text, 1)?;
    for number in kept.statement.iter().chain(numbers) {
        push_number(&mut text, *number)?;
    }
    let Ok(file) = read_proof_file(alloc, &text) else {
        return String::from_str(alloc, "no file");
    };
    let answer = answer_verify(alloc, &file)?;
    let status = answer.status.number();
    let text = std::str::from_utf8(&answer.text).unwrap_or("").trim_end();
    format!(in alloc; "{status} {text}")
}
