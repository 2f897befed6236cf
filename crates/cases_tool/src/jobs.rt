//! Jobs and proof files that are read, and what is made of them.

use crate::printing::{print_answer, print_text};
use batch_tool::{
    answer_prove, answer_verify, read_job, read_proof_file, write_job, write_proof_file,
};
use p3_field::{BabyBear, PrimeCore64};
use p3_matrix::RowMajorMatrix;
use p3_uni_stark::TranscriptVersion;
use std::io;
use tool_jobs::{first_unbalanced, statements_of, traces_of};
use tool_lines::{Form, print_items};

/// Calls of the job that a text is; prints why it is none.
pub fn job<R: Print + AllocGlobal>(
    rt: &R,
    call: &str,
    text: &[u8],
    words: &[&str],
) -> io::Result<()> {
    let alloc = rt.alloc();
    let job = match read_job(alloc, text) {
        Ok(job) => job,
        Err(error) => return println!(rt; "{error:?}"),
    };
    match call {
        "job" => print_text(rt, &write_job(alloc, &job)?),
        "unbalanced" => print_value(rt, first_unbalanced(alloc, &job)?),
        "statements" => {
            let statements = statements_of(alloc, &job)?;
            println!(rt; "{statements:?}")
        }
        "traces" => print_traces(rt, &traces_of(alloc, &job)?),
        "cells" => print_cells(rt, &traces_of(alloc, &job)?, words),
        "answer_prove" => { print_answer(rt, &answer_prove(alloc, TranscriptVersion::V1, &job)?) }
        _ => rt.println("bad case"),
    }
}

// Prints the number of a value.
fn print_value(rt: &impl Print, value: Option<BabyBear>) -> io::Result<()> {
    match value {
        Some(value) => rt.println(value.as_canonical_u64()),
        None => rt.println("none"),
    }
}

// Prints the cells of each trace, row by row.
fn print_traces<R: Print + AllocGlobal>(
    rt: &R,
    traces: &[RowMajorMatrix<BabyBear>],
) -> io::Result<()> {
    let mut out = Vec::new(rt.alloc());
    for trace in traces {
        print_items::<BabyBear>(trace.as_slice(), &mut out)?;
        out.push(b';')?;
    }
    print_text(rt, &out)
}

// Prints how many traces there are, how many cells the first has, and its cells at these places.
fn print_cells<R: Print + AllocGlobal>(
    rt: &R,
    traces: &[RowMajorMatrix<BabyBear>],
    places: &[&str],
) -> io::Result<()> {
    let count = traces.len();
    let Some(first) = traces.first() else {
        return rt.println("none");
    };
    let cells = first.as_slice();
    let mut out = Vec::new(rt.alloc());
    for place in places {
        if let Some(cell) = cells.get(place.parse::<usize>().unwrap_or(0)) {
            BabyBear::print(cell, &mut out)?;
        }
    }
    let size = cells.len();
    print!(rt; "{count} {size} ")?;
    print_text(rt, &out)
}

/// Calls of the proof file that a text is; prints why it is none.
pub fn file<R: Print + AllocGlobal>(rt: &R, call: &str, text: &[u8]) -> io::Result<()> {
    let alloc = rt.alloc();
    let file = match read_proof_file(alloc, text) {
        Ok(file) => file,
        Err(error) => return println!(rt; "{error:?}"),
    };
    match call {
        "file" => print_text(rt, &write_proof_file(alloc, &file)?),
        _ => print_answer(rt, &answer_verify(alloc, &file)?),
    }
}
