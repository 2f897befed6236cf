//! The text of a case.

use p3_field::Mem;
use std::alloc::Global;
use std::rt::Files;
use std::{fs, io};

/// What stands in the place of a line.
#[derive(Drop)]
pub struct Edit {
    /// The line's number, from 1.
    pub line: usize,
    /// The lines in its place, each with its end: none removes the line.
    pub text: Vec<u8>,
}

/// The text that a word names, with the edits among these words.
pub fn text_of<R: Files + AllocGlobal>(
    rt: &R,
    word: &str,
    more: &[&str],
    last: &[u8],
) -> io::Result<Vec<u8>> {
    let text = named(rt, word, last)?;
    let edits = edits_of(rt.alloc(), more)?;
    if edits.is_empty() {
        return Ok(text);
    }
    Ok(edited(rt.alloc(), &text, &edits)?)
}

// What a word names: after `@` a file, or the last proof file where there is no name; after `*` as many ones; else what it spells.
fn named<R: Files + AllocGlobal>(rt: &R, word: &str, last: &[u8]) -> io::Result<Vec<u8>> {
    let alloc = rt.alloc();
    if word == "@" {
        return Ok(last.to_vec(alloc)?);
    }
    if let Some(name) = word.strip_prefix('@') {
        return fs::read(rt, name);
    }
    if let Some(count) = word.strip_prefix('*') {
        return Ok(vec![in alloc; b'1'; count.parse::<usize>().unwrap_or(0)]?);
    }
    Ok(spelled(alloc, word)?)
}

/// The text that a word spells: `/` ends a line, `_` is a blank, `^` is a carriage return, and `-` alone is no byte.
pub fn spelled(alloc: Global, word: &str) -> Mem<Vec<u8>> {
    if word == "-" {
        return Ok(Vec::new(alloc));
    }
    let lines = word.replace(alloc, '/', "\n")?;
    let blanks = lines.replace(alloc, '_', " ")?;
    let text = blanks.replace(alloc, '^', "\r")?;
    Ok(text.into_bytes())
}

// The edits that words like `4=2/` spell. Other words are none.
fn edits_of(alloc: Global, words: &[&str]) -> Mem<Vec<Edit>> {
    let mut edits = Vec::new(alloc);
    for word in words {
        if let Some((line, lines)) = word.split_once('=') {
            let text = spelled(alloc, lines)?;
            let line = line.parse::<usize>().unwrap_or(0);
            edits.push(Edit { line, text })?;
        }
    }
    Ok(edits)
}

/// A text as lines.
pub fn as_lines(text: &[u8]) -> &str {
    str::from_utf8(text).unwrap_or("")
}

/// A text with edits.
pub fn edited(alloc: Global, text: &[u8], edits: &[Edit]) -> Mem<Vec<u8>> {
    let mut out = Vec::new(alloc);
    for (place, line) in as_lines(text).lines().enumerate() {
        push_line(&mut out, line, edits, place.saturating_add(1))?;
    }
    Ok(out)
}

// Appends the line of this number, or what the first edit of it puts in its place.
fn push_line(out: &mut Vec<u8>, line: &str, edits: &[Edit], number: usize) -> Mem<()> {
    for edit in edits {
        if edit.line == number {
            return out.extend_from_slice(&edit.text);
        }
    }
    out.extend_from_slice(line.as_bytes())?;
    out.push(b'\n')?;
    Ok(())
}
