//! Cases of the program: each line of standard input is a case, and its answer is a line of standard output.
#![tactic(auto)]

mod fields;
mod forms;
mod jobs;
mod nets;
mod printing;
mod reading;
mod runs;
mod tries;

use reading::text_of;
use std::io;
use std::rt::Files;

fn main(rt: HostRuntime) -> io::Result<()> {
    let mut last = Vec::new(rt.alloc());
    for line in rt.lines(rt.alloc()) {
        let line = line?;
        if line.starts_with('#') {
            rt.println(&line)?;
        } else {
            answer(&rt, &line, &mut last)?;
        }
    }
    Ok(())
}

// Answers a case: a word for the call, one for the text, and more. The text of the last run of `prove 1` is kept.
fn answer<R: Files + Print + AllocGlobal>(
    rt: &R,
    line: &str,
    last: &mut Vec<u8>,
) -> io::Result<()> {
    let words: Vec<&str> = line.split_whitespace().collect(rt.alloc())?;
    let [call, text, more @ ..] = words.as_slice() else {
        return rt.println("bad case");
    };
    let text = text_of(rt, *text, more, last)?;
    match *call {
        "prove" => {
            *last = runs::proved(rt, text)?;
            Ok(())
        }
        "verify" => runs::words(rt, text, &["verify"]),
        "balance" => runs::words(rt, text, &["balance"]),
        "words" => runs::words(rt, text, more),
        "ends" => runs::ends(rt, text, more),
        "room" => runs::room(rt, text, more),
        "steady" => runs::steady(rt, text, more),
        "endless" => runs::endless(rt, more),
        "gist" => runs::gist(rt, text, more),
        "played" => runs::played(rt, text),
        "cut" => tries::cut(rt, &text),
        "changed" => tries::changed(rt, &text, more),
        "ground" => tries::ground(rt, &text, more),
        "part" | "field" => fields::proof(rt, *call, &text, more),
        "parts" => forms::parts(rt, &text, more),
        "whole" => forms::whole(rt, &text, more),
        "forms" => forms::printed(rt, more),
        "memory" => forms::memory(rt),
        "nets" => nets::nets(rt, more),
        "file" | "answer_verify" => jobs::file(rt, *call, &text),
        _ => jobs::job(rt, *call, &text, more),
    }
}
