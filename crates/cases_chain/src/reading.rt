//! What the words of a case say, and how an answer is written.

use p3_field::Mem;
use std::alloc::Global;
use std::fmt::{Display, Write};

/// The number that a word is; zero where it is none.
pub fn number(word: &str) -> usize {
    word.parse::<usize>().unwrap_or(0)
}

/// The number of 32 bits that a word is in base 16; zero where it is none.
fn short(word: &str) -> u32 {
    u32::from_str_radix(word, 16).unwrap_or(0)
}

/// The chaining value that a case's word lists, in base 16 and with commas between.
pub fn chaining_of(word: &str) -> [u32; 8] {
    let mut words = [0u32; 8];
    for (i, piece) in word.split(',').enumerate() {
        if i < 8 {
            words[i] = short(piece);
        }
    }
    words
}

/// The block that a case's word lists.
fn block_of(word: &str) -> [u32; 16] {
    let mut words = [0u32; 16];
    for (i, piece) in word.split(',').enumerate() {
        if i < 16 {
            words[i] = short(piece);
        }
    }
    words
}

/// The blocks of words.
pub fn blocks_of(alloc: Global, words: &[&str]) -> Mem<Vec<[u32; 16]>> {
    let mut blocks = Vec::new(alloc);
    for word in words {
        blocks.push(block_of(word))?;
    }
    Ok(blocks)
}

/// Appends a word to an answer.
pub fn push_word<T: Display + Drop>(out: &mut String, word: T) -> Mem<()> {
    if !out.is_empty() {
        out.push(' ')?;
    }
    write!(out, "{word}")
}
