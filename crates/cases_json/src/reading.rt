//! The text of a case.

use p3_field::Mem;
use std::alloc::Global;
use std::rt::Files;
use std::{fs, io};

/// The text that a word names, with the edits among these words.
pub fn text_of<R: Files + AllocGlobal>(rt: &R, word: &str, more: &[&str]) -> io::Result<Vec<u8>> {
    let mut text = named(rt, word)?;
    for edit in more {
        if let Some((old, new)) = edit.split_once("=>") {
            text = edited(rt.alloc(), text, old, new)?;
        }
    }
    Ok(text)
}

// What a word names: after `@` a file, after `*` so many brackets, after `%` bytes in hexadecimal, else what it spells.
fn named<R: Files + AllocGlobal>(rt: &R, word: &str) -> io::Result<Vec<u8>> {
    let alloc = rt.alloc();
    if let Some(name) = word.strip_prefix('@') {
        return fs::read(rt, name);
    }
    if let Some(count) = word.strip_prefix('*') {
        return Ok(brackets(alloc, count.parse::<usize>().unwrap_or(0))?);
    }
    if let Some(digits) = word.strip_prefix('%') {
        return Ok(hex::decode(alloc, digits).unwrap_or(Vec::new(alloc)));
    }
    Ok(spelled(alloc, word)?.into_bytes())
}

// So many arrays, each in the one before it, the last of them empty.
fn brackets(alloc: Global, count: usize) -> Mem<Vec<u8>> {
    let mut text = vec![in alloc; b'['; count]?;
    text.extend_from_slice(&vec![in alloc; b']'; count]?)?;
    Ok(text)
}

// The text that a word spells: `/` ends a line, `~` is a blank, and `-` alone is no byte.
fn spelled(alloc: Global, word: &str) -> Mem<String> {
    if word == "-" {
        return String::from_str(alloc, "");
    }
    word.replace(alloc, '/', "\n")?.replace(alloc, '~', " ")
}

// A text with what the second word spells in the first place of what the first one does.
fn edited(alloc: Global, text: Vec<u8>, old: &str, new: &str) -> Mem<Vec<u8>> {
    let old = spelled(alloc, old)?;
    let new = spelled(alloc, new)?;
    let mut out = Vec::new(alloc);
    match as_text(&text).split_once(old.as_str()) {
        Some((before, after)) => {
            out.extend_from_slice(before.as_bytes())?;
            out.extend_from_slice(new.as_bytes())?;
            out.extend_from_slice(after.as_bytes())?;
        }
        None => out.extend_from_slice(b"not there")?,
    }
    Ok(out)
}

/// Bytes as text, where they are UTF-8.
pub fn as_text(bytes: &[u8]) -> &str {
    str::from_utf8(bytes).unwrap_or("")
}
