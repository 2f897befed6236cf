//! Calls of the plain scheme for multilinear polynomials, with points in the quartic extension.

use crate::reading::{lists_of, number, values_of};
use crate::writing::{listed, push_values, push_word, shown};
use commit_core::PcsFailure;
use commit_rows::MultilinearPcs;
use example_commit::witness_verified;
use p3_challenger::Sha256Challenger;
use p3_field::{BabyBear, ExtensionField, Mem, QuarticExtension};
use plain_pcs::{
    PlainEvaluations, PlainMultilinear, PlainMultilinearError, PlainMultilinearProverError,
};
use std::alloc::Global;

/// Calls of the scheme of so many variables: the second list has a polynomial's values, the third the claimed values, and the
/// others are points.
pub fn multilinear(alloc: Global, call: &str, lists: &[Vec<usize>]) -> Mem<String> {
    let [numbers, values, claimed, points @ ..] = lists else {
        return String::from_str(alloc, "bad case");
    };
    let variables = number(numbers, 0);
    if variables >= 64 {
        return String::from_str(alloc, "bad case");
    }
    let pcs = PlainMultilinear::<BabyBear>::new(variables);
    let values = values_of::<BabyBear>(alloc, values)?;
    let points = lists_of::<QuarticExtension>(alloc, points)?;
    match call {
        "commit" => committed(alloc, &pcs, values),
        "verify" => {
            let claimed = values_of::<QuarticExtension>(alloc, claimed)?;
            shown(alloc, verified(alloc, &pcs, values, claimed, points))
        }
        _ => shown(alloc, opened(alloc, &pcs, call, values, points)),
    }
}

// The number of variables, and whether the challenger stays as it was; then whether it is as one that observes the commitment, and the
// committed values, or why they are refused.
fn committed(
    alloc: Global,
    pcs: &PlainMultilinear<BabyBear>,
    values: Vec<BabyBear>,
) -> Mem<String> {
    let start = Sha256Challenger::new();
    let mut challenger = start;
    let variables = MultilinearPcs::<QuarticExtension, Sha256Challenger>::num_vars(pcs);
    let made = MultilinearPcs::<QuarticExtension, Sha256Challenger>::commit(
        pcs,
        alloc,
        values,
        &mut challenger,
    );
    let mut out = format!(in alloc; "{variables} {}", challenger == start)?;
    match made {
        Ok((commitment, _kept)) => {
            let mut verifier = start;
            MultilinearPcs::<QuarticExtension, Sha256Challenger>::observe_commitment(
                pcs,
                &commitment,
                &mut verifier,
            );
            push_word(&mut out, challenger == verifier)?;
            push_values(&mut out, alloc, &commitment.values)?;
        }
        Err(failure) => push_word(&mut out, format_args!("{failure:?}"))?,
    }
    Ok(out)
}

// What is opened at the points: by the caller of any scheme; or by the call alone, after whether the challenger stays as it was.
fn opened(
    alloc: Global,
    pcs: &PlainMultilinear<BabyBear>,
    call: &str,
    values: Vec<BabyBear>,
    points: Vec<Vec<QuarticExtension>>,
) -> Result<String, PcsFailure<PlainMultilinearProverError>> {
    let start = Sha256Challenger::new();
    if call == "witness" {
        let (_commitment, opened) = witness_verified(alloc, pcs, values, &points, start)?;
        return Ok(listed(alloc, &opened)?);
    }
    let mut challenger = start;
    let opened = pcs.open(alloc, PlainEvaluations { values }, &points, &mut challenger)?;
    let mut out = format!(in alloc; "{}", challenger == start)?;
    push_values(&mut out, alloc, &opened)?;
    Ok(out)
}

// The verifier's answer to claimed values.
fn verified(
    alloc: Global,
    pcs: &PlainMultilinear<BabyBear>,
    values: Vec<BabyBear>,
    claimed: Vec<QuarticExtension>,
    points: Vec<Vec<QuarticExtension>>,
) -> Result<String, PcsFailure<PlainMultilinearError>> {
    let mut challenger = Sha256Challenger::new();
    pcs.verify(
        alloc,
        &PlainEvaluations { values },
        &claimed,
        &mut challenger,
        &points,
    )?;
    Ok(String::from_str(alloc, "accepted")?)
}
