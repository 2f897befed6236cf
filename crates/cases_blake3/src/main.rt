//! Cases of BLAKE3's compression and its AIRs: each line of standard input is a case, and its answer is a line of standard output.
#![tactic(auto)]

mod airs;
mod binary;
mod binary_rows;
mod packed;
mod prime;
mod prime_rows;
mod published;
mod reading;

use p3_field::Mem;
use std::alloc::Global;
use std::io;
use std::io::{BufRead, BufReader};

fn main(rt: HostRuntime) -> io::Result<()> {
    let alloc = rt.alloc();
    for line in BufReader::new(alloc, rt.reader())?.lines(alloc) {
        let line = line?;
        let answer = answer(alloc, &line)?;
        println!(rt; "{answer}")?;
    }
    Ok(())
}

/// The answer to a line, of the module that knows its first word: a remark is its own.
fn answer(alloc: Global, line: &str) -> Mem<String> {
    let words: Vec<&str> = line.split_whitespace().collect(alloc)?;
    match *words.as_slice() {
        ["hash", length] => published::hash_shown(alloc, length),
        ["prime", ref case @ ..] => prime::answer(alloc, case),
        ["binary", ref case @ ..] => binary::answer(alloc, case),
        ["packed", ref case @ ..] => packed::answer(alloc, case),
        ["#", ..] => String::from_str(alloc, line),
        _ => String::from_str(alloc, "bad case"),
    }
}
