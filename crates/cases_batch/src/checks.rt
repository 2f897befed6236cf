//! The check of a table's rows with its lookups.
ghost use Rattle.p3_lookup.specs.Written.{read_all};
ghost use Rattle.batch_constraints.specs.BatchTrees.{AreLookupsOf};

use crate::quotients::is_shaped;
use crate::reading::{bad_case, matrix, values};
use crate::tables::have_periods;
use air_core::{Air, BaseAir};
use batch_check::check_constraints;
use p3_field::{BabyBear, Mem};
use p3_lookup::{LogUpGadget, Lookup};
use std::alloc::Global;

/// What the check says of rows: the words are the main trace, the preprocessed one, the permutation columns, and the challenges, the terminal
/// and the public values.
pub fn check<A: Air<BabyBear>>(
    alloc: Global,
    air: &A,
    lookups: &[Lookup<BabyBear>],
    words: &[&str],
) -> Mem<String>
    requires { AreLookupsOf (A.declaration air.now) (read_all lookups.now) }
{
    let [main, preprocessed, columns, challenges, terminals, publics] = *words else {
        return bad_case(alloc);
    };
    let main = matrix(alloc, air.width(), main)?;
    let preprocessed = matrix(alloc, air.preprocessed_width(), preprocessed)?;
    let rows = preprocessed.height();
    let preprocessed = if rows == 0 { None } else { Some(&preprocessed) };
    let columns = matrix(alloc, lookups.len() + 1, columns)?;
    let challenges: Vec<BabyBear> = values(alloc, challenges)?;
    let terminals: Vec<BabyBear> = values(alloc, terminals)?;
    let publics: Vec<BabyBear> = values(alloc, publics)?;
    if main.height() == 0
        || main.width() != air.width()
        || !is_shaped(preprocessed, air.preprocessed_width(), rows)
        || !have_periods(air, main.height())
        || publics.len() != air.num_public_values()
        || columns.width() != lookups.len() + 1
        || challenges.len() / 2 != lookups.len()
        || challenges.len() % 2 != 0
        || terminals.len() != 1
    {
        return bad_case(alloc);
    }
    match check_constraints(
        alloc,
        air,
        &main,
        preprocessed,
        &columns,
        &challenges,
        &terminals,
        &publics,
        lookups,
        &LogUpGadget::new(),
    ) {
        Ok(()) => String::from_str(alloc, "holds"),
        Err(error) => format!(in alloc; "{error}"),
    }
}
