//! The folds of a table's constraints by both folders, where each selector is one.
ghost use Rattle.std.specs.Prelude.{◌≡◌, IsTrue, length};
ghost use Rattle.p3_lookup.specs.Written.{read_all};
ghost use Rattle.batch_constraints.specs.BatchTrees.{AreLookupsOf};
ghost use Rattle.cases_batch.specs.Cells.{HasCells};

use crate::points::{Point, point_of};
use crate::reading::{bad_case, coefficients, number, values};
use air_core::{Air, BaseAir};
use p3_field::{BabyBear, FieldCore, Mem, QuarticExtension, RingCore};
use p3_lookup::{LogUpGadget, Lookup};
use p3_uni_stark::{ProverFolder, VerifierFolder};
use prover_folder::{ProverFolderWithLookups, prover_fold_with_lookups};
use std::alloc::Global;
use verifier_folder::{VerifierFolderWithLookups, verifier_fold_with_lookups};

// Whether a point has as many values as a table with so many lookups reads.
fn has_cells<V, A: Air<BabyBear>>(air: &A, lookups: usize, point: &Point<V>) -> bool
    ensures { IsTrue result → HasCells (A.declaration air.now) lookups point.now }
{
    if point.local.len() != air.width()
        || point.next.len() != air.width()
        || point.preprocessed.len() != air.preprocessed_width()
        || point.periodic.len() != air.periodic_columns().len()
        || point.publics.len() != air.num_public_values()
        || point.columns.len() <= lookups
        || point.next_columns.len() <= lookups
        || point.challenges.len() / 2 < lookups
        || point.terminals.is_empty()
    {
        return false;
    }
    true
}

/// The verifier's fold by a challenge, which follows the nine words of the point.
pub fn verifier_fold<A: Air<BabyBear>>(
    alloc: Global,
    air: &A,
    lookups: &[Lookup<BabyBear>],
    words: &[&str],
) -> Mem<String>
    requires { AreLookupsOf (A.declaration air.now) (read_all lookups.now) }
{
    if words.len() != 10 {
        return bad_case(alloc);
    }
    let point: Point<QuarticExtension> = point_of(alloc, words)?;
    let alpha = QuarticExtension::from_u64(number(words[9]) as u64);
    if !has_cells(air, lookups.len(), &point) {
        return bad_case(alloc);
    }
    let folder = VerifierFolderWithLookups {
        inner: VerifierFolder {
            main_local: &point.local,
            main_next: &point.next,
            preprocessed_local: &point.preprocessed,
            preprocessed_next: &point.preprocessed,
            periodic_values: &point.periodic,
            public_values: &point.publics,
            is_first_row: QuarticExtension::ONE,
            is_last_row: QuarticExtension::ONE,
            is_transition: QuarticExtension::ONE,
            alpha,
            accumulator: QuarticExtension::ZERO,
        },
        permutation_local: &point.columns,
        permutation_next: &point.next_columns,
        permutation_challenges: &point.challenges,
        permutation_values: &point.terminals,
    };
    let sum = verifier_fold_with_lookups(air, lookups, &LogUpGadget::new(), folder);
    coefficients(alloc, &[sum])
}

/// The prover's sum by powers of a challenge, which follow the nine words of the point.
pub fn prover_fold<A: Air<BabyBear>>(
    alloc: Global,
    air: &A,
    lookups: &[Lookup<BabyBear>],
    words: &[&str],
) -> Mem<String>
    requires { AreLookupsOf (A.declaration air.now) (read_all lookups.now) }
{
    if words.len() != 10 {
        return bad_case(alloc);
    }
    let point: Point<BabyBear> = point_of(alloc, words)?;
    let powers: Vec<QuarticExtension> = values(alloc, words[9])?;
    if !has_cells(air, lookups.len(), &point) {
        return bad_case(alloc);
    }
    let folder = ProverFolderWithLookups {
        inner: ProverFolder {
            main_local: &point.local,
            main_next: &point.next,
            preprocessed_local: &point.preprocessed,
            preprocessed_next: &point.preprocessed,
            periodic_values: &point.periodic,
            public_values: &point.publics,
            is_first_row: BabyBear::ONE,
            is_last_row: BabyBear::ONE,
            is_transition: BabyBear::ONE,
            alpha_powers: &powers,
            constraint_index: 0,
            accumulator: QuarticExtension::ZERO,
        },
        permutation_local: &point.columns,
        permutation_next: &point.next_columns,
        permutation_challenges: &point.challenges,
        permutation_values: &point.terminals,
    };
    let sum = prover_fold_with_lookups(air, lookups, &LogUpGadget::new(), folder);
    coefficients(alloc, &[sum])
}
