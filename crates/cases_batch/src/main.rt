//! Answers the cases of its standard input, one line each: calls of what a batch STARK shares, checks, sets up, folds and draws.
#![tactic(auto)]

mod checks;
mod expressions;
mod folds;
mod points;
mod quotients;
mod reading;
mod setup;
mod shapes;
mod sizes;
mod statement;
mod tables;
mod transcript;
mod twice;

use p3_field::Mem;
use reading::bad_case;
use std::alloc::Global;
use std::io;

// The answer to a line: a remark is its own.
fn answer(alloc: Global, line: &str) -> Mem<String> {
    let words: Vec<&str> = line.split_whitespace().collect(alloc)?;
    let [call, rest @ ..] = words.as_slice() else {
        return bad_case(alloc);
    };
    match *call {
        "#" => String::from_str(alloc, line),
        "empty" => setup::empty(alloc, rest),
        "fits" => statement::fits(alloc, rest),
        "degree" => expressions::degrees(alloc, rest),
        "openings" => sizes::openings(alloc, rest),
        "instances" => setup::instances(alloc, rest),
        "instance" => setup::instance(alloc, rest),
        "setup" => setup::setup(alloc, rest),
        "encoding" => shapes::encoding(alloc, rest),
        "encodings" => shapes::encodings(alloc, rest),
        "separator" => shapes::separator(alloc, rest),
        "prover" | "verifier" | "layout" => transcript::played(alloc, call, rest),
        _ => tables::answer(alloc, call, rest),
    }
}

fn main(rt: HostRuntime) -> io::Result<()> {
    for line in rt.lines(rt.alloc()) {
        let answer = answer(rt.alloc(), &line?)?;
        println!(rt; "{answer}")?;
    }
    Ok(())
}
