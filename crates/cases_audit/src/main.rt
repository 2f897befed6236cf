//! Cases of reports on proof files: each line of standard input is a case, and its answer is a line of standard output.
#![tactic(auto)]

mod publics;
mod reading;
mod runs;

use reading::edited_file;
use std::io;
use std::rt::Files;

fn main(rt: HostRuntime) -> io::Result<()> {
    for line in rt.lines(rt.alloc()) {
        let line = line?;
        if line.starts_with('#') {
            rt.println(&line)?;
        } else {
            answer(&rt, &line)?;
        }
    }
    Ok(())
}

// Answers a case: a word for the call, the name of a file, and edits of it.
fn answer<R: Files + Print + AllocGlobal>(rt: &R, line: &str) -> io::Result<()> {
    let Some((call, rest)) = line.split_once(' ') else {
        return rt.println("bad case");
    };
    let text = edited_file(rt, rest)?;
    match call {
        "publics" => publics::named(rt, &text),
        "fails" => runs::ran(rt, text, false),
        _ => runs::ran(rt, text, true),
    }
}
