//! Runs of the program over ends in memory.

use crate::reading::as_text;
use stark_audit::{MemorySink, MemorySource, run_explain};
use std::io;

/// The room of a sink, which no answer here fills.
const ROOM: usize = 100_000;

// What comes after the steps of a report, after a word that says that they are there.
fn without_steps(text: &str) -> (&str, &str) {
    match text.rsplit_once("opening_argument\n") {
        Some((_steps, rest)) => ("played ", rest),
        None => ("", text),
    }
}

/// Explains an input, and prints the number of the status, and the text that was written with `/` for the end of a line: the whole, or what comes after
/// the steps.
pub fn ran<R: Print + AllocGlobal>(rt: &R, input: Vec<u8>, is_whole: bool) -> io::Result<()> {
    let alloc = rt.alloc();
    let words = vec![in alloc; String::from_str(alloc, "explain")?]?;
    let mut source = MemorySource::new(input, Vec::new(alloc));
    let mut sink = MemorySink::new(alloc, ROOM, 1000, Vec::new(alloc))?;
    let status = run_explain(alloc, &words, &mut source, &mut sink).number();
    let text = as_text(sink.bytes());
    let (played, told) = if is_whole {
        ("", text)
    } else {
        without_steps(text)
    };
    let told = told.replace(alloc, '\n', "/")?;
    println!(rt; "{status} {played}{told}")
}
