//! Answers the cases of its standard input, a line each: calls of AIRs, builders and gadgets, of the check of rows, and of lookups.
#![tactic(auto)]

mod cells;
mod columns;
mod gadgets;
mod lookups;
mod numbers;
mod printing;
mod programs;
mod reading;
mod recorded;
mod sending;
mod tables;
mod texts;

use air_tables::SwapAir;
use p3_field::{BabyBear, Mem, QuarticExtension};
use printing::push_word;
use reading::{Case, case_of};
use std::alloc::Global;
use std::io;

// Appends the answer to a case, of the module that knows its first word.
fn push_answer(alloc: Global, out: &mut String, case: &Case) -> Mem<()> {
    match case.subject {
        "gadget" => gadgets::gadget(alloc, out, case),
        "base" => programs::values::<BabyBear>(alloc, out, case),
        "quartic" => programs::values::<QuarticExtension>(alloc, out, case),
        "recorded" => programs::recorded(alloc, out, case),
        "swap" => tables::table(alloc, out, &SwapAir, case),
        "sending" => tables::table(alloc, out, &sending::sending_air(alloc)?, case),
        "check" => tables::check(alloc, out, case),
        "lookups" => lookups::lookups(alloc, out, case),
        "argument" => columns::argument(alloc, out, case),
        "column" => columns::column(alloc, out, case),
        "number" => numbers::number(alloc, out, case),
        "text" => texts::text(alloc, out, case),
        _ => push_word(out, "bad case"),
    }
}

// The answer to a line: a remark is its own.
fn answer(alloc: Global, line: &str) -> Mem<String> {
    let mut out = String::new(alloc);
    let case = case_of(alloc, line)?;
    if case.subject == "#" {
        push_word(&mut out, line)?;
    } else {
        push_answer(alloc, &mut out, &case)?;
    }
    Ok(out)
}

fn main(rt: HostRuntime) -> io::Result<()> {
    for line in rt.lines(rt.alloc()) {
        let line = line?;
        rt.println(&answer(rt.alloc(), &line)?)?;
    }
    Ok(())
}
