//! Cases of proof files as JSON: each line of standard input is a case, and its answer is a line of standard output.
#![tactic(auto)]

mod reading;
mod runs;

use reading::text_of;
use std::io;
use std::rt::Files;

fn main(rt: HostRuntime) -> io::Result<()> {
    for line in rt.lines(rt.alloc()) {
        let line = line?;
        if line.starts_with('#') {
            rt.println(&line)?;
        } else {
            answer(&rt, &line)?;
        }
    }
    Ok(())
}

// Answers a case: a word for the call, one for the text, and more.
fn answer<R: Files + Print + AllocGlobal>(rt: &R, line: &str) -> io::Result<()> {
    let words: Vec<&str> = line.split_whitespace().collect(rt.alloc())?;
    let [call, text, more @ ..] = words.as_slice() else {
        return rt.println("bad case");
    };
    let text = text_of(rt, *text, more)?;
    match *call {
        "words" => runs::ran(rt, text, more),
        "read" => runs::read(rt, &text),
        _ => runs::ran(rt, text, &[*call]),
    }
}
