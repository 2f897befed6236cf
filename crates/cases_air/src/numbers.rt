//! Degrees, challenges, terminals and the bound on multiplicities.
ghost use Rattle.std.specs.Prelude.{◌≡◌, length};

use crate::lookups::lookup_of;
use crate::printing::{push_values, push_word};
use crate::reading::{Case, bears, number as number_of};
use air_core::constraint_degree_from_poly_degree;
use p3_field::{BabyBear, FieldCore, Mem, RingCore};
use p3_lookup::{
    Challenges, LogUpGadget, LookupProtocol, LookupTerminal, Lookups,
    check_multiplicity_height_bound,
};
use std::alloc::Global;

/// Calls of plain numbers.
pub fn number(alloc: Global, out: &mut String, case: &Case) -> Mem<()> {
    match case.call {
        "constraint_degree" if case.at[1] > 0 => push_word(
            out,
            constraint_degree_from_poly_degree(case.at[0], case.at[1]),
        ),
        "num_challenges" => push_word(out, LogUpGadget::new().num_challenges()),
        "challenges" => push_challenges(alloc, out, case),
        "terminals" => push_terminals(alloc, out, case),
        "bound" => push_bound(alloc, out, case),
        _ => push_word(out, "bad case"),
    }
}

// The challenges of a width and a number of buses: both that are drawn, and each bus's base.
fn push_challenges(alloc: Global, out: &mut String, case: &Case) -> Mem<()> {
    let drawn = bears(alloc, &case.first)?;
    let [alpha, beta] = *drawn.as_slice() else {
        return push_word(out, "bad case");
    };
    let challenges = Challenges::new(alloc, alpha, beta, case.at[0], case.at[1])?;
    push_values(alloc, out, &[challenges.alpha, challenges.beta])?;
    push_values(alloc, out, &challenges.bus_prefix)
}

// What is said of the sum of terminals, of which a word that is no number stands for none.
fn push_terminals(alloc: Global, out: &mut String, case: &Case) -> Mem<()> {
    let mut terminals = Vec::new(alloc);
    for word in &case.first {
        let terminal = match word.parse::<u64>() {
            Ok(n) => Some(LookupTerminal(BabyBear::from_u64(n))),
            Err(_) => None,
        };
        terminals.push(terminal)?;
    }
    match LogUpGadget::new().verify_terminal_sum::<BabyBear>(&terminals) {
        Ok(()) => push_word(out, "zero"),
        Err(error) => push_word(out, error),
    }
}

// What is said of the bounds of tables' counts: the first list has a height for each, and the second a lookup.
fn push_bound(alloc: Global, out: &mut String, case: &Case) -> Mem<()> {
    let mut heights = Vec::new(alloc);
    for word in &case.first {
        heights.push(number_of(word))?;
    }
    let mut tables = Vec::new(alloc);
    for word in &case.second {
        let mut lookups = Vec::new(alloc);
        lookups.push(lookup_of(alloc, word)?)?;
        tables.push(Lookups::new(lookups))?;
    }
    if heights.len() != tables.len() {
        return push_word(out, "bad case");
    }
    match check_multiplicity_height_bound::<BabyBear>(&tables, &heights) {
        Ok(()) => push_word(out, "below"),
        Err(error) => push_word(out, error),
    }
}
