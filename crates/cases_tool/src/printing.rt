//! Prints answers, a line each.

use crate::reading::as_lines;
use batch_tool::Answer;
use p3_field::Mem;
use sha2::{Digest, Sha256};
use std::alloc::Global;
use std::io;

/// A text as a word: `/` stands for the end of a line, and `-` for no text.
pub fn shown(alloc: Global, text: &[u8]) -> Mem<String> {
    if text.is_empty() {
        return String::from_str(alloc, "-");
    }
    as_lines(text).replace(alloc, '\n', "/")
}

/// Prints a text; of one of more than 2000 bytes the numbers of its lines and bytes, its SHA-256, and how it begins.
pub fn print_text<R: Print + AllocGlobal>(rt: &R, text: &[u8]) -> io::Result<()> {
    let alloc = rt.alloc();
    let bytes = text.len();
    if bytes <= 2000 {
        return rt.println(shown(alloc, text)?);
    }
    let lines = as_lines(text).lines().count();
    let sum = hex::encode(alloc, Sha256::digest(text))?;
    let begun = shown(alloc, &text[..20])?;
    println!(rt; "{lines} lines, {bytes} bytes, {sum}, beginning {begun}")
}

/// Prints an answer: the number of its status, and its text.
pub fn print_answer<R: Print + AllocGlobal>(rt: &R, answer: &Answer) -> io::Result<()> {
    let status = answer.status.number();
    print!(rt; "{status} ")?;
    print_text(rt, &answer.text)
}
