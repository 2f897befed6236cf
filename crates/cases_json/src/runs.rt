//! Runs of the program over ends in memory, and readings.

use crate::reading::as_text;
use p3_field::Mem;
use stark_json::{MemorySink, MemorySource, from_json, run_json, to_json};
use std::alloc::Global;
use std::io;

/// The room of a sink, which no answer here fills.
const ROOM: usize = 100_000;

// The words of a program's call.
fn words_of(alloc: Global, words: &[&str]) -> Mem<Vec<String>> {
    let mut all = Vec::new(alloc);
    for word in words {
        all.push(String::from_str(alloc, *word)?)?;
    }
    Ok(all)
}

/// Runs these words on an input, and prints the number of the status, and the text that was written with `/` for the end of a line.
pub fn ran<R: Print + AllocGlobal>(rt: &R, input: Vec<u8>, words: &[&str]) -> io::Result<()> {
    let alloc = rt.alloc();
    let words = words_of(alloc, words)?;
    let mut source = MemorySource::new(input, Vec::new(alloc));
    let mut sink = MemorySink::new(alloc, ROOM, 1000, Vec::new(alloc))?;
    let status = run_json(alloc, &words, &mut source, &mut sink).number();
    let text = as_text(sink.bytes()).replace(alloc, '\n', "/")?;
    println!(rt; "{status} {text}")
}

/// Reads the JSON of a proof file, and prints the version, how many tables it has, and its JSON again, or why there is none.
pub fn read<R: Print + AllocGlobal>(rt: &R, text: &[u8]) -> io::Result<()> {
    let alloc = rt.alloc();
    match from_json(alloc, text) {
        Ok(file) => {
            let again = to_json(alloc, &file)?;
            let version = file.version;
            let tables = file.tables.len();
            println!(rt; "{version} {tables} {}", as_text(&again))
        }
        Err(error) => println!(rt; "{error:?}"),
    }
}
