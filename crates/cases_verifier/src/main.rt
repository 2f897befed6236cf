//! Answers the cases of its standard input, one line each: calls of the verifier of a batch and of its parts.
#![tactic(auto)]

mod challengers;
mod claims;
mod draws;
mod edits;
mod files;
mod identities;
mod plain;
mod proofs;
mod reading;
mod settings;
mod soundness;
mod statement;
mod verify;
mod writing;

use batch_statement::SharedData;
use p3_field::Mem;
use reading::{Case, case_of};
use statement::{Kept, Stated};
use std::alloc::Global;
use std::io;
use writing::bad_case;

// What the verifier says over the configuration of this name, and after a bar what the program's `verify` answers to the same proof as a file.
fn with_file(alloc: Global, kept: &Kept, name: &str, numbers: &[u64]) -> Mem<String> {
    let said = verify::tables(alloc, &kept.stated, name, &[], numbers)?;
    let answered = files::file_answer(alloc, kept, numbers)?;
    format!(in alloc; "{said} | {answered}")
}

// The answer to a call on what is stated, of the proof with the numbers that the case's edits leave.
fn proof_answer(alloc: Global, kept: &Kept, case: &Case) -> Mem<String> {
    let [head, edits @ ..] = case.groups.as_slice() else {
        return bad_case(alloc);
    };
    let numbers = edits::edited(alloc, &kept.numbers, edits)?;
    let stated = &kept.stated;
    match case.call {
        "verify" => verify::tables(alloc, stated, case.name, head, &numbers),
        "file" => with_file(alloc, kept, case.name, &numbers),
        "column" => verify::column(alloc, head, &numbers),
        "claims" => claims::claims(alloc, stated, head, &numbers),
        "shape" => draws::shape(alloc, stated, case.name, &numbers),
        "draws" => draws::draws(alloc, case.name, head, &numbers),
        "counts" => soundness::counts(alloc, head),
        _ => bad_case(alloc),
    }
}

// The answer to a line.
fn answer(alloc: Global, kept: &mut Kept, line: &str) -> Mem<String> {
    let case = case_of(alloc, line)?;
    match case.call {
        "#" => String::from_str(alloc, line),
        "tables" | "proof" | "height" => statement::keep(alloc, kept, &case),
        "identity" => identities::identity_case(alloc, &case),
        "row" => identities::row_case(alloc, &case),
        "broken" => soundness::broken(alloc, &case.groups),
        _ => proof_answer(alloc, kept, &case),
    }
}

fn main(rt: HostRuntime) -> io::Result<()> {
    let alloc = rt.alloc();
    let stated = Stated {
        airs: Vec::new(alloc),
        publics: Vec::new(alloc),
        common: SharedData::new(None, Vec::new(alloc)),
    };
    let mut kept = Kept {
        stated,
        statement: Vec::new(alloc),
        numbers: Vec::new(alloc),
    };
    for line in rt.lines(alloc) {
        let answer = answer(alloc, &mut kept, &line?)?;
        rt.println(&answer)?;
    }
    Ok(())
}
