//! Calls of the plain scheme that commit to rounds of matrices.

use crate::claims::push_claims;
use crate::reading::{Coset, coset_of, matrix_of, number, values_of};
use crate::schemes::{Plain, column, evaluated, plainly, quotient, within};
use commit_core::PcsFailure;
use example_commit::{Round, preprocessed_verified, rounds_verified};
use p3_challenger::Sha256Challenger;
use p3_dft::TwoAdicSubgroupDft;
use p3_field::{BabyBear, ExtensionField, Mem};
use plain_pcs::PlainProverError;
use std::alloc::Global;

// Matrices that are committed to together, and the points at which each is opened.
type Matrices<E> = Round<Coset, BabyBear, E>;

// The round of pairs of lists, a matrix with its domain and its points. A list of no numbers is no matrix.
fn round_of<E: ExtensionField<BabyBear>>(alloc: Global, lists: &[Vec<usize>]) -> Mem<Matrices<E>> {
    let mut evaluations = Vec::new(alloc);
    let mut points = Vec::new(alloc);
    for (place, list) in lists.iter().enumerate() {
        if place % 2 == 1 {
            points.push(values_of(alloc, list)?)?;
        } else if let ([_, _, rest @ ..], Some(domain)) = (list.as_slice(), coset_of(list)) {
            if let Some(matrix) = matrix_of(alloc, rest)? {
                evaluations.push((domain, matrix))?;
            }
        }
    }
    Ok(Round {
        evaluations,
        points,
    })
}

/// Commits to rounds, a group of lists each: to all of them, with whether both challengers end in one state and what is claimed; or to
/// the last.
pub fn committed<D: TwoAdicSubgroupDft<BabyBear> + Drop, E: ExtensionField<BabyBear>>(
    alloc: Global,
    pcs: &Plain<D>,
    call: &str,
    numbers: &[usize],
    groups: &[Vec<Vec<usize>>],
) -> Result<String, PcsFailure<PlainProverError>> {
    let start = Sha256Challenger::new();
    let mut rounds = Vec::new(alloc);
    for lists in groups {
        rounds.push(round_of::<E>(alloc, lists)?)?;
    }
    let verified = if call == "rounds" {
        rounds_verified(alloc, pcs, rounds, start)?
    } else {
        let Some(last) = rounds.pop() else {
            return Ok(String::from_str(alloc, "bad case")?);
        };
        if call != "preprocessed" {
            return of_round(alloc, pcs, call, numbers, last);
        }
        preprocessed_verified(alloc, pcs, rounds, last, start)?
    };
    let Some(verified) = verified else {
        return Ok(String::from_str(alloc, "not accepted")?);
    };
    let mut out = format!(in alloc; "{}", verified.prover == verified.verifier)?;
    push_claims(&mut out, alloc, &verified.claims)?;
    Ok(out)
}

// Calls of the matrices of one round, or of its last one.
fn of_round<D: TwoAdicSubgroupDft<BabyBear> + Drop, E: ExtensionField<BabyBear>>(
    alloc: Global,
    pcs: &Plain<D>,
    call: &str,
    numbers: &[usize],
    round: Matrices<E>,
) -> Result<String, PcsFailure<PlainProverError>> {
    let Round {
        mut evaluations,
        points,
    } = round;
    if call == "evaluated" || call == "preprocessed_evaluated" {
        return evaluated::<D, E>(alloc, pcs, call, numbers, evaluations);
    }
    let Some((domain, matrix)) = evaluations.pop() else {
        return Ok(String::from_str(alloc, "bad case")?);
    };
    match call {
        "quotient" => quotient::<D, E>(alloc, pcs, domain, matrix, number(numbers, 1)),
        "within" => within::<D, E>(alloc, pcs, domain, matrix),
        "column" => column(alloc, pcs, domain, matrix, &points),
        _ => plainly::<D, E>(alloc, pcs, call, evaluations, (domain, matrix)),
    }
}
