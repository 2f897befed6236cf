//! Reads a case: what is called, and the words and numbers that it is called with.

use p3_field::{BabyBear, FieldCore, Mem, RingCore};
use std::alloc::Global;

/// A case: two words for what is called, and up to three lists of words with colons between.
#[derive(Drop)]
pub struct Case<'a> {
    /// The first word.
    pub subject: &'a str,
    /// The second word, up to its first point.
    pub call: &'a str,
    /// The numbers after its points.
    pub at: [usize; 3],
    /// The words after the second.
    pub first: Vec<&'a str>,
    /// The words after the first colon.
    pub second: Vec<&'a str>,
    /// The words after the second colon.
    pub third: Vec<&'a str>,
}

/// The case of a line.
pub fn case_of(alloc: Global, line: &str) -> Mem<Case<'_>> {
    let mut lists = line.split(" :");
    let mut words = lists.next().unwrap_or("").split_whitespace();
    let subject = words.next().unwrap_or("");
    let (call, at) = parts(words.next().unwrap_or(""));
    let first = words.collect(alloc)?;
    let second = lists.next().unwrap_or("").split_whitespace();
    let third = lists.next().unwrap_or("").split_whitespace();
    Ok(Case {
        subject,
        call,
        at,
        first,
        second: second.collect(alloc)?,
        third: third.collect(alloc)?,
    })
}

/// The number that a word is; zero where it is none.
pub fn number(word: &str) -> usize {
    word.parse::<usize>().unwrap_or(0)
}

/// The parts of a word like `mul.0.1`: a name, and three numbers, of which those that lack are zero.
pub fn parts(word: &str) -> (&str, [usize; 3]) {
    let mut pieces = word.split('.');
    let name = pieces.next().unwrap_or("");
    let first = number(pieces.next().unwrap_or(""));
    let second = number(pieces.next().unwrap_or(""));
    let third = number(pieces.next().unwrap_or(""));
    (name, [first, second, third])
}

/// The word of 32 bits whose number stands at a place; zero where there is none.
pub fn short(words: &[&str], place: usize) -> u32 {
    match words.get(place) {
        Some(word) => (number(word) % 4_294_967_296) as u32,
        None => 0,
    }
}

/// The elements of the base field whose numbers the words are.
pub fn bears(alloc: Global, words: &[&str]) -> Mem<Vec<BabyBear>> {
    let mut elements = Vec::new(alloc);
    for word in words {
        elements.push(BabyBear::from_u64(number(word) as u64))?;
    }
    Ok(elements)
}
