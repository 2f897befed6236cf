//! Callers of any scheme that commits, over the laws of its trait alone: they commit, open, and verify what was opened.
//! What each gives besides its values shows what it did: a commitment with the proof that the verifier was asked about, or
//! the verifier's answer where the laws leave it open.
#![tactic(auto)]

mod agreeing;
mod evaluated;
mod faults;
mod preprocessed;
mod quotients;
mod rounds;
mod rows;
mod several;
mod witnesses;

ghost use Rattle.std.specs.Prelude.{◌≡◌, ◌⊎◌, ◌↔◌, ℕ, ◌<◌, List, [], ◌∷◌, length, get_or, IfOk, IsTrue, IsSome, IfSome};
ghost use Rattle.p3_matrix.specs.Matrix.{Rows, column};
ghost use Rattle.p3_matrix.specs.Interpolation.{IsInterpolatedAt};
ghost use Rattle.commit_core.specs.Claims.{CommitmentClaim, Request};
ghost use Rattle.commit_core.specs.Failure.{IfRefused};
ghost use Rattle.commit_core.specs.Commitments.{Committed, IsCommitment, OpenedCommitment, nested, values_of};
ghost use Rattle.example_commit.specs.Single.{claim_of, AreValues};

pub use agreeing::committed_both_ways;
use commit_core::{
    CommitmentOpening, MatrixOpening, OpenedValues, OpeningRequest, Pcs, PcsFailure, PointOpening,
    PolynomialSpace,
};
pub use evaluated::committed_and_evaluated;
pub use faults::{fault_of_claims, fault_of_rows, rows_verified_twice};
use p3_field::{
    BasedVectorSpace, ExtensionField, Field, FieldCore, Mem, PrimeCharacteristicRing, RingCore,
    TwoAdicCore,
};
use p3_matrix::RowMajorMatrix;
pub use preprocessed::preprocessed_verified;
pub use quotients::quotient_committed_twice;
pub use rounds::Round;
pub use rows::{OpenedRow, committed_and_opened};
pub use several::{VerifiedRounds, rounds_verified};
use std::alloc::Global;
pub use witnesses::witness_verified;

// The list of one item.
fn one<T: Drop>(alloc: Global, item: T) -> Mem<Vec<T>>
    ensures { IfOk result (λ v. v.items ≡ item ∷ []) }
{
    let mut list = Vec::new(alloc);
    list.push(item)?;
    Ok(list)
}

// The item of a list that has one.
fn only<T: Drop>(mut list: Vec<T>) -> T
    requires { (x : T) × (list.items ≡ x ∷ []) }
    ensures { list.items ≡ result ∷ [] }
{
    list.pop().unwrap()
}

// The values of a matrix's columns at the one point at which it was opened.
fn only_values<E: Drop>(opened: OpenedValues<E>) -> Vec<E>
    requires { (xs : List E) × (nested opened ≡ ((xs ∷ []) ∷ []) ∷ []) }
    ensures { nested opened ≡ ((result.items ∷ []) ∷ []) ∷ [] }
{
    only(only(only(opened)))
}

// Opens prover data of one matrix at one point.
fn opened<E: ExtensionField<P::Val>, C, P: Pcs<E, C>>(
    alloc: Global,
    pcs: &P,
    prover_data: &P::ProverData,
    point: E,
    challenger: &mut C,
) -> Result<(Vec<E>, P::Proof), PcsFailure<P::ProverError>>
    requires made { P.made pcs.now prover_data.now }
    requires held { (commitment : P.Commitment)
        × ((c : Committed P.Val) × P.holds pcs.now prover_data.now commitment (c ∷ [])) }
    ensures refused { IfRefused result
        (P.open_fault pcs.now (record { prover_data = prover_data.now; points = (point ∷ []) ∷ [] }
        ∷ [])) }
    ensures values { IfOk result
        (λ w. (commitment : P.Commitment) (c : Committed P.Val)
        → P.holds pcs.now prover_data.now commitment (c ∷ [])
        → w.0.items ≡ values_of E.ring E.embed c point) }
    ensures accepted { IfOk result
        (λ w. (commitment : P.Commitment) (c : Committed P.Val) (d : P.Domain)
        → P.holds pcs.now prover_data.now commitment (c ∷ []) → (P.excludes pcs.now point → ⊥)
        → P.Domain.points d ≡ c.size
        → P.opens pcs.now challenger.old (claim_of commitment d point w.0.items ∷ []) w.1) }
{
    let points = one(alloc, one(alloc, point)?)?;
    let requests = one(
        alloc,
        OpeningRequest {
            prover_data,
            points,
        },
    )?;
    let (values, proof) = pcs.open(alloc, requests, challenger)?;
    Ok((only_values(values), proof))
}

// The claim that the one matrix of a commitment has these values at a point.
fn single_claim<E: Drop, Commitment: Drop, Domain: Drop>(
    alloc: Global,
    commitment: Commitment,
    domain: Domain,
    point: E,
    values: Vec<E>,
) -> Mem<CommitmentOpening<E, Commitment, Domain>>
    ensures { IfOk result (λ claim. claim ≡ claim_of commitment domain point values.items) }
{
    let points = one(alloc, PointOpening { point, values })?;
    let matrices = one(alloc, MatrixOpening { domain, points })?;
    Ok(CommitmentOpening {
        commitment,
        matrices,
    })
}

// Whether the scheme's verifier accepts that one matrix has these values at one point.
fn verified<E: ExtensionField<P::Val>, C, P: Pcs<E, C>>(
    alloc: Global,
    pcs: &P,
    claim: CommitmentOpening<E, P::Commitment, P::Domain>,
    proof: &P::Proof,
    challenger: &mut C,
) -> Mem<bool>
    ensures { IfOk result (λ b. IsTrue b ↔ P.opens pcs.now challenger.old (claim ∷ []) proof.now) }
{
    let claims = one(alloc, claim)?;
    match pcs.verify(alloc, claims, proof, challenger) {
        Ok(()) => Ok(true),
        Err(PcsFailure::Refused(_)) => Ok(false),
        Err(PcsFailure::OutOfMemory) => Err(std::alloc::AllocError),
    }
}

/// The values at one point of the polynomials of a committed matrix, with the proof that a verifier accepted (not
/// in Plonky3).
#[derive(Drop)]
pub struct VerifiedValues<E, Commitment, Proof> {
    /// The commitment to the matrix.
    pub commitment: Commitment,
    /// A value for each column.
    pub values: Vec<E>,
    /// The proof that opens the commitment at the point as these values.
    pub proof: Proof,
}

/// Commits to a matrix on a domain, opens it at a point, and verifies the opening (not in Plonky3): what was opened, or
/// None where the verifier refuses it. It refuses only at a point that the scheme excludes. The values are those of the
/// interpolants of the matrix's columns, one for each column. `challenger` is the transcript's state before the opening,
/// from which the proof opens the claim that the commitment's matrix, on `domain`, has these values at the point.
///
/// `Refused` comes only where the scheme refuses to commit to the matrix, or to open what it gave for a commitment to it.
/// `OutOfMemory` may come in place of any answer.
pub fn committed_and_verified<E: ExtensionField<P::Val>, C: Copy, P: Pcs<E, C>>(
    alloc: Global,
    pcs: &P,
    domain: P::Domain,
    matrix: RowMajorMatrix<P::Val>,
    point: E,
    challenger: C,
) -> Result<Option<VerifiedValues<E, P::Commitment, P::Proof>>, PcsFailure<P::ProverError>>
    ensures refused { IfRefused result (λ e. P.commit_fault pcs.now ((domain, matrix) ∷ []) e
        ⊎ ((w : P.Commitment × P.ProverData)
        × IsCommitment P.Val.ring P.Domain.points P.Domain.point_at (P.commits pcs.now)
        (P.made pcs.now) (P.holds pcs.now) ((domain, matrix) ∷ []) w
        × P.open_fault pcs.now (record { prover_data = w.1; points = (point ∷ []) ∷ [] } ∷ []) e)) }
    ensures accepted { (P.excludes pcs.now point → ⊥) → IfOk result IsSome }
    ensures committed { IfOk result
        (λ o. IfSome o (λ v. P.commits pcs.now ((domain, matrix) ∷ []) v.commitment)) }
    ensures opens { IfOk result
        (λ o. IfSome o (λ v. P.opens pcs.now challenger
        (claim_of v.commitment domain point v.values.items ∷ []) v.proof)) }
    ensures values { IfOk result
        (λ o. IfSome o (λ v. AreValues P.Val.ring E.ring E.embed (P.Domain.point_at domain) matrix
        point v.values.items)) }
{
    let (commitment, prover_data) = pcs.commit(alloc, one(alloc, (domain, matrix))?)?;
    let mut prover = challenger;
    let (values, proof) = opened(alloc, pcs, &prover_data, point, &mut prover)?;
    let claimed = Vec::from_slice(alloc, &values)?;
    let verified_commitment = pcs.clone_commitment(alloc, &commitment)?;
    let claim = single_claim(alloc, verified_commitment, domain, point, claimed)?;
    let mut verifier = challenger;
    if verified(alloc, pcs, claim, &proof, &mut verifier)? {
        Ok(Some(VerifiedValues {
            commitment,
            values,
            proof,
        }))
    } else {
        Ok(None)
    }
}
