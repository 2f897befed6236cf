//! Answers the cases of its standard input, one line each: calls of fields, matrices, transforms and challengers.
#![tactic(auto)]

mod challengers;
mod cosets;
mod fields;
mod matrices;
mod numbers;
mod printing;
mod reading;
mod sides;
mod steps;
mod transcripts;
mod transforms;

use p3_challenger::Sha256Challenger;
use p3_dft::{NaiveDft, Radix2Dit};
use p3_field::{BabyBear, Gf256, QuarticExtension};
use reading::{Case, case_of};
use std::io;

// Calls of what keeps no state.
fn answer<R: Print + AllocGlobal>(rt: &R, case: &Case) -> io::Result<()> {
    let (call, numbers) = (case.call, case.numbers.as_slice());
    match case.subject {
        "base" => fields::over_base::<BabyBear, R>(rt, call, numbers),
        "quartic" => fields::over_base::<QuarticExtension, R>(rt, call, numbers),
        "byte" => fields::field::<Gf256, Gf256, R>(rt, call, numbers),
        "number" => numbers::number(rt, call, numbers),
        "coset" => cosets::coset(rt, call, numbers),
        "matrix" => matrices::matrix(rt, call, numbers),
        "column" => transforms::column(rt, call, numbers),
        "naive" => transforms::transform(rt, &NaiveDft, call, numbers),
        "radix2" => transforms::transform(rt, &Radix2Dit, call, numbers),
        "both" => transforms::both(rt, call, numbers),
        "columns" => transforms::columns(rt, numbers),
        "round" => transforms::round_trip(rt, numbers),
        "transcript" => transcripts::transcript(rt, call, numbers),
        _ => rt.println("bad case"),
    }
}

fn main(rt: HostRuntime) -> io::Result<()> {
    let mut challenger = Sha256Challenger::new();
    for line in rt.lines(rt.alloc()) {
        let line = line?;
        let case = case_of(rt.alloc(), &line)?;
        match case.subject {
            "#" => rt.println(&line)?,
            "challenger" => challengers::challenger(&rt, &mut challenger, &case)?,
            _ => answer(&rt, &case)?,
        }
    }
    Ok(())
}
