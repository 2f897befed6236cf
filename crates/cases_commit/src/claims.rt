//! Claims on the plain scheme's commitments, as a case lists them.

use crate::reading::{Coset, coset_of, lists_of, matrix_of, number, values_of};
use crate::writing::{push_values, push_word};
use commit_core::{CommitmentOpening, OpeningRequest};
use example_commit::fault_of_claims;
use p3_challenger::{CanObserve, Sha256Challenger};
use p3_dft::TwoAdicSubgroupDft;
use p3_field::{BabyBear, ExtensionField, Mem, PrimeCore64, RingCore};
use plain_pcs::{PlainCommitment, PlainPcs, PlainProof};
use std::alloc::Global;

/// Claims on a plain commitment.
pub type Claim<E> = CommitmentOpening<E, PlainCommitment<BabyBear>, Coset>;

// The claims of pairs of lists: a committed matrix, with its width before its values; and the claim on it, with its domain and the
// size of a group before its groups, each a point and the values there.
fn claim_of<E: ExtensionField<BabyBear>>(alloc: Global, lists: &[Vec<usize>]) -> Mem<Claim<E>> {
    let mut matrices = Vec::new(alloc);
    let mut claimed = Vec::new(alloc);
    for (place, list) in lists.iter().enumerate() {
        if place % 2 == 0 {
            if let Some(matrix) = matrix_of(alloc, list)? {
                matrices.push(matrix)?;
            }
        } else if let ([_, _, size, groups @ ..], Some(domain)) = (
            list.as_slice(),
            coset_of(list),
        ) {
            let mut points = Vec::new(alloc);
            for group in groups.chunks((*size).max(1)) {
                if let [point, values @ ..] = group {
                    points.push((E::from_u64(*point as u64), values_of(alloc, values)?))?;
                }
            }
            claimed.push((domain, points))?;
        }
    }
    let commitment = PlainCommitment::new(alloc, matrices)?;
    CommitmentOpening::from_tuple(alloc, (commitment, claimed))
}

/// Appends claims, each commitment's after a `/`: a matrix's domain, and its points and their values.
pub fn push_claims<E: ExtensionField<BabyBear>>(
    out: &mut String,
    alloc: Global,
    claims: &[Claim<E>],
) -> Mem<()> {
    for claim in claims {
        push_word(out, "/")?;
        for matrix in &claim.matrices {
            let (shift, log_size) = (matrix.domain.shift(), matrix.domain.log_size());
            push_word(
                out,
                format_args!("on {} {log_size}", shift.as_canonical_u64()),
            )?;
            for opening in &matrix.points {
                push_word(out, "at")?;
                push_values(out, alloc, &[opening.point])?;
                push_word(out, "is")?;
                push_values(out, alloc, &opening.values)?;
            }
        }
    }
    Ok(())
}

/// Claims, a group of lists for each commitment, and the verifier's answer to them.
pub fn verified<D: TwoAdicSubgroupDft<BabyBear> + Drop, E: ExtensionField<BabyBear>>(
    alloc: Global,
    pcs: &PlainPcs<BabyBear, D>,
    rounds: &[Vec<Vec<usize>>],
) -> Mem<String> {
    let mut claims = Vec::new(alloc);
    for lists in rounds {
        claims.push(claim_of::<E>(alloc, lists)?)?;
    }
    let mut out = String::new(alloc);
    push_claims(&mut out, alloc, &claims)?;
    let mut challenger = Sha256Challenger::new();
    match fault_of_claims(alloc, pcs, claims, &PlainProof, &mut challenger)? {
        None => push_word(&mut out, "/ accepted")?,
        Some(error) => push_word(&mut out, format_args!("/ {error}"))?,
    }
    Ok(out)
}

/// The prover data and the points of a copy of a request, whose prover data is a number here.
pub fn request(alloc: Global, lists: &[Vec<usize>]) -> Mem<String> {
    let [numbers, points @ ..] = lists else {
        return String::from_str(alloc, "bad case");
    };
    let prover_data = number(numbers, 0);
    let points = lists_of::<BabyBear>(alloc, points)?;
    let copy = OpeningRequest::from((&prover_data, points)).try_clone(alloc)?;
    let mut out = format!(in alloc; "{}", *copy.prover_data)?;
    for list in &copy.points {
        push_values(&mut out, alloc, list)?;
    }
    Ok(out)
}

/// Whether a challenger that observes a commitment to the later lists, each a width and values, is as one that observes the
/// elements of the first list.
pub fn observed(alloc: Global, lists: &[Vec<usize>]) -> Mem<String> {
    let [elements, others @ ..] = lists else {
        return String::from_str(alloc, "bad case");
    };
    let mut matrices = Vec::new(alloc);
    for list in others {
        if let Some(matrix) = matrix_of(alloc, list)? {
            matrices.push(matrix)?;
        }
    }
    let mut challenger = Sha256Challenger::new();
    challenger.observe(&PlainCommitment::new(alloc, matrices)?);
    let mut again = Sha256Challenger::new();
    again.observe_slice(&values_of::<BabyBear>(alloc, elements)?);
    format!(in alloc; "{}", challenger == again)
}
