//! Cases of proofs of any job's tables by `prove_batch`: each line of standard input is a case, and its answer is a line of standard output.
#![tactic(auto)]

mod configs;
mod jobs;
mod proved;
mod texts;

use p3_field::Mem;
use std::alloc::Global;
use std::io;

// The answer to a line: a remark is its own.
fn answer(alloc: Global, line: &str) -> Mem<String> {
    let words: Vec<&str> = line.split_whitespace().collect(alloc)?;
    match *words.as_slice() {
        ["#", ..] => String::from_str(alloc, line),
        ["texts"] => texts::texts(alloc),
        [call, config, ref job @ ..] => jobs::answer(alloc, call, config, job),
        _ => String::from_str(alloc, "bad case"),
    }
}

fn main(rt: HostRuntime) -> io::Result<()> {
    let alloc = rt.alloc();
    for line in rt.lines(alloc) {
        let answer = answer(alloc, &line?)?;
        rt.println(&answer)?;
    }
    Ok(())
}
