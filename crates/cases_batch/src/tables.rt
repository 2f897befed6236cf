//! The tables of cases, each with the lookups that a case names.
ghost use Rattle.std.specs.Prelude.{◌≡◌, ◌<◌, IfOk, IsTrue, All, length};
ghost use Rattle.p3_lookup.specs.Written.{read_all};
ghost use Rattle.commit_core.specs.Periodic.{IsPeriod};
ghost use Rattle.batch_constraints.specs.BatchTrees.{AreLookupsOf};

use crate::reading::{bad_case, number};
use crate::twice::TwiceAir;
use crate::{checks, folds, quotients, sizes};
use air_core::{Air, BaseAir};
use air_tables::{SendingAir, SwapAir, WheelAir};
use commit_core::PeriodicColumns;
use p3_field::{BabyBear, FieldCore, Mem, RingCore};
use p3_lookup::{LogUpGadget, Lookup, Lookups};
use std::alloc::Global;
use tool_tables::{ToolAir, WordsAir};

/// The sending table with the rows 1, 2, .., 2^`log_rows` in its preprocessed column, and a periodic column of the value 3.
pub fn sending_air(alloc: Global, log_rows: usize) -> Mem<SendingAir<BabyBear>>
    requires { log_rows < 64 }
{
    let mut steps = Vec::new(alloc);
    for step in 0..1u64 << log_rows {
        steps.push(BabyBear::from_u64(step + 1))?;
    }
    let column = Vec::from_array(alloc, [BabyBear::from_u64(3)])?;
    Ok(SendingAir {
        steps,
        periodic: Vec::from_array(alloc, [column])?,
    })
}

/// The program's table of this name, where it has 2^`log_rows` rows.
pub fn tool_air(alloc: Global, name: &str, log_rows: usize) -> Mem<ToolAir<BabyBear>>
    requires { log_rows < 64 }
{
    match name {
        "swap" => Ok(ToolAir::Swap(SwapAir)),
        "wheel" => Ok(ToolAir::Wheel(WheelAir::new(alloc, log_rows)?)),
        "take" => Ok(ToolAir::Words(WordsAir::Take)),
        _ => Ok(ToolAir::Words(WordsAir::Give)),
    }
}

/// Whether a table's periodic columns fit so many rows.
pub fn have_periods<A: Air<BabyBear>>(air: &A, rows: usize) -> bool
    ensures fit { IsTrue result
        → All (λ c. IsPeriod rows (length c)) (A.declaration air.now).periodic }
    ensures filled { IsTrue result → All (λ c. 0 < length c) (A.declaration air.now).periodic }
{
    match PeriodicColumns::new(air.periodic_columns(), rows) {
        Ok(_) => true,
        Err(_) => false,
    }
}

// The lookups of a table, packed within a budget, which are its own at zero; none of them for `none`.
fn lookups_within<A: Air<BabyBear>>(alloc: Global, air: &A, budget: &str) -> Mem<Lookups<BabyBear>>
    ensures { IfOk result (λ l. AreLookupsOf (A.declaration air.now) (read_all l)) }
{
    if budget == "none" {
        return Ok(Lookups::new(Vec::new(alloc)));
    }
    let own = Lookups::from_air(alloc, air)?;
    let gadget = LogUpGadget::new();
    let packed = own.pack_same_bus_with_degree(alloc, number(budget), &gadget, 0)?;
    Ok(packed)
}

// The answer to a call of a table with these lookups.
fn answer_with<A: Air<BabyBear>>(
    alloc: Global,
    air: &A,
    lookups: &[Lookup<BabyBear>],
    call: &str,
    log_rows: usize,
    words: &[&str],
) -> Mem<String>
    requires lookups { AreLookupsOf (A.declaration air.now) (read_all lookups.now) }
    requires rows { log_rows < 64 }
{
    match call {
        "sizes" => sizes::sizes(alloc, air, lookups, log_rows),
        "chunks" => sizes::chunks(alloc, air, lookups, log_rows, words),
        "check" => checks::check(alloc, air, lookups, words),
        "verifier_fold" => folds::verifier_fold(alloc, air, lookups, words),
        "prover_fold" => folds::prover_fold(alloc, air, lookups, words),
        "quotient" => quotients::quotient(alloc, air, lookups, log_rows, words),
        _ => bad_case(alloc),
    }
}

// The same with the lookups that the first word names.
fn answer_of<A: Air<BabyBear>>(
    alloc: Global,
    air: &A,
    call: &str,
    log_rows: usize,
    words: &[&str],
) -> Mem<String>
    requires { log_rows < 64 }
{
    let [budget, ref rest @ ..] = *words else {
        return bad_case(alloc);
    };
    let lookups = lookups_within(alloc, air, budget)?;
    answer_with(alloc, air, lookups.as_slice(), call, log_rows, rest)
}

/// The answer to a call of the table that the first word names, where the second is the logarithm of its number of rows.
pub fn answer(alloc: Global, call: &str, words: &[&str]) -> Mem<String> {
    let [name, log_rows, ref rest @ ..] = *words else {
        return bad_case(alloc);
    };
    let log_rows = number(log_rows).min(20);
    match name {
        "sending" => answer_of(alloc, &sending_air(alloc, log_rows)?, call, log_rows, rest),
        "twice" => answer_of(alloc, &TwiceAir, call, log_rows, rest),
        _ => answer_of(
            alloc,
            &tool_air(alloc, name, log_rows)?,
            call,
            log_rows,
            rest,
        ),
    }
}
