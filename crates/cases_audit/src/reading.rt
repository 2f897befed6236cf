//! The proof file of a case.

use p3_field::Mem;
use std::alloc::Global;
use std::rt::Files;
use std::{fs, io};
use tool_lines::push_number;

/// The text of a file with edits: a name, and edits after slashes.
pub fn edited_file<R: Files + AllocGlobal>(rt: &R, rest: &str) -> io::Result<Vec<u8>> {
    let alloc = rt.alloc();
    let mut parts = rest.split('/');
    let name = parts.next().unwrap_or("").trim();
    let text = fs::read(rt, name)?;
    let numbers = numbers_of(alloc, as_text(&text), '\n')?;
    let mut edits = Vec::new(alloc);
    for part in parts {
        edits.push(numbers_of(alloc, part, ' ')?)?;
    }
    Ok(text_of(alloc, &edited(alloc, &numbers, &edits)?)?)
}

// The words that are numbers, between these characters.
fn numbers_of(alloc: Global, text: &str, between: char) -> Mem<Vec<u64>> {
    let mut numbers = Vec::new(alloc);
    for word in text.split(between) {
        if let Ok(number) = word.parse() {
            numbers.push(number)?;
        }
    }
    Ok(numbers)
}

// The numbers with these edits made, in the order of their places. An edit is a place, how many numbers are removed there, and what is put there.
fn edited(alloc: Global, numbers: &[u64], edits: &[Vec<u64>]) -> Mem<Vec<u64>> {
    let mut all = Vec::new(alloc);
    let mut from = 0usize;
    for edit in edits {
        let [at, removed, inserted @ ..] = edit.as_slice() else {
            return Ok(Vec::new(alloc));
        };
        let at = *at as usize;
        all.extend_from_slice(numbers.get(from..at).unwrap_or(&[]))?;
        all.extend_from_slice(inserted)?;
        from = at.saturating_add(*removed as usize);
    }
    all.extend_from_slice(numbers.get(from..).unwrap_or(&[]))?;
    Ok(all)
}

// A line for each number.
fn text_of(alloc: Global, numbers: &[u64]) -> Mem<Vec<u8>> {
    let mut text = Vec::new(alloc);
    for number in numbers {
        push_number(&mut text, *number)?;
    }
    Ok(text)
}

/// Bytes as text, where they are UTF-8.
pub fn as_text(bytes: &[u8]) -> &str {
    str::from_utf8(bytes).unwrap_or("")
}
