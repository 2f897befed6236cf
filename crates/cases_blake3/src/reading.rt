//! What the words of a case say, and how an answer is written.

use blake3_compress::TraceError;
use p3_field::Mem;
use std::alloc::Global;
use std::fmt::{Display, Write};

/// The number that a word is; zero where it is none.
pub fn number(word: &str) -> usize {
    word.parse::<usize>().unwrap_or(0)
}

/// The number of 64 bits that a word is in base 16; zero where it is none.
pub fn long(word: &str) -> u64 {
    u64::from_str_radix(word, 16).unwrap_or(0)
}

/// The number of 32 bits that a word is in base 16; zero where it is none.
pub fn short(word: &str) -> u32 {
    u32::from_str_radix(word, 16).unwrap_or(0)
}

/// Up to four parts of a word like `inputs.1.1`: a name, and numbers.
pub fn parts(word: &str) -> (&str, [usize; 3]) {
    let mut pieces = word.split('.');
    let name = pieces.next().unwrap_or("");
    let first = number(pieces.next().unwrap_or(""));
    let second = number(pieces.next().unwrap_or(""));
    let third = number(pieces.next().unwrap_or(""));
    (name, [first, second, third])
}

/// Appends a word to an answer.
pub fn push_word<T: Display + Drop>(out: &mut String, word: T) -> Mem<()> {
    if !out.is_empty() {
        out.push(' ')?;
    }
    write!(out, "{word}")
}

/// Appends numbers of 32 bits to an answer, in base 16.
pub fn push_shorts(out: &mut String, numbers: &[u32]) -> Mem<()> {
    for number in numbers {
        push_word(out, format_args!("{number:08x}"))?;
    }
    Ok(())
}

/// The error's text.
pub fn error_shown(alloc: Global, error: TraceError) -> Mem<String> {
    format!(in alloc; "{error}")
}
