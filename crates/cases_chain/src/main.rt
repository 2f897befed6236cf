//! Cases of chains of compressions as tables: each line of standard input is a case, and its answer is a line of standard output.
#![tactic(auto)]

mod chains;
mod declared;
mod reading;

use p3_field::Mem;
use std::alloc::Global;
use std::io;
use std::io::{BufRead, BufReader};

fn main(rt: HostRuntime) -> io::Result<()> {
    let alloc = rt.alloc();
    for line in BufReader::new(alloc, rt.reader())?.lines(alloc) {
        let line = line?;
        let answer = answer(alloc, &line)?;
        println!(rt; "{answer}")?;
    }
    Ok(())
}

/// The answer to a line: a remark is its own.
fn answer(alloc: Global, line: &str) -> Mem<String> {
    let words: Vec<&str> = line.split_whitespace().collect(alloc)?;
    match *words.as_slice() {
        ["declared"] => declared::declared(alloc),
        ["next"] => declared::next_columns(alloc),
        ["recorded"] => declared::recorded(alloc),
        ["rows" | "check" | "changed" | "public", ..] => chains::answer(alloc, &words),
        ["#", ..] => String::from_str(alloc, line),
        _ => String::from_str(alloc, "bad case"),
    }
}
