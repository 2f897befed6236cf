//! Schemes that commit to polynomials and open them at points.
ghost use Rattle.std.specs.Prelude.{◌≡◌, ℕ, ◌^◌, ◌<◌, ◌≤◌, List, All, length, IfOk, IsOk};
ghost use Rattle.std.specs.Int.{IsPowerOfTwo};
ghost use Rattle.p3_matrix.specs.Matrix.{Rows};
ghost use Rattle.commit_core.specs.Claims.{CommitmentClaim, Request};
ghost use Rattle.commit_core.specs.Failure.{NoneOf, FaultUnless, RefusedBy, IfRefused, VerifiedBy};
ghost use Rattle.commit_core.specs.Commitments.{IsSubgroup, Committed, IsCommitment, OpenedCommitment, AreOpenedCommitments, nested, AreClaims, IsOpening, AreAskedAlike};

use crate::claims::{CommitmentOpening, OpenedValues, OpeningRequest};
use crate::domain::PolynomialSpace;
use crate::failure::PcsFailure;
use p3_field::{
    BasedVectorSpace, ExtensionField, Field, FieldCore, Mem, PrimeCharacteristicRing, RingCore,
    TwoAdicCore,
};
use p3_matrix::RowMajorMatrix;
use std::alloc::Global;

/// The field of a domain's points and values.
pub type Val<D> = <D as PolynomialSpace>::Val;

/// A scheme that commits to matrices of values on domains, read as polynomials column by column, and proves their
/// values at points (`Pcs` of `p3-commit`).
pub trait Pcs<Challenge, Challenger>
where
    Challenge: ExtensionField<Self::Val>,
{
    /// The field of the committed values.
    type Val: TwoAdicCore;

    /// The domains on which columns are given.
    type Domain: PolynomialSpace<Val = Self::Val>;

    /// What a verifier gets of committed matrices.
    type Commitment: Drop;

    /// The prover data of them.
    type ProverData: Drop;

    /// A proof of opened values.
    type Proof: Drop;

    /// Why a proof is refused.
    type Error: Drop;

    /// Why the scheme refuses to commit or to open.
    type ProverError: Drop;

    // why the scheme refuses to commit to the matrices on these domains
    ghost commit_fault: { Self → List (Self.Domain × Rows Self.Val) → Self.ProverError → Type 0 };

    // this is a commitment to the matrices on these domains
    ghost commits: { Self → List (Self.Domain × Rows Self.Val) → Self.Commitment → Type 0 };

    // the scheme made this prover data
    ghost made: { Self → Self.ProverData → Type 0 };

    // how many matrices prover data has
    ghost matrix_count: { Self → Self.ProverData → ℕ };

    // prover data belongs to this commitment, and holds these polynomials
    ghost holds: { Self → Self.ProverData → Self.Commitment → List (Committed Self.Val) → Type 0 };

    // why the scheme refuses to open
    ghost open_fault: { Self → List (Request Self.ProverData Challenge) → Self.ProverError
        → Type 0 };

    // a proof that opening these requests from this challenger's state gives
    ghost proves: { Self → Challenger → List (Request Self.ProverData Challenge) → Self.Proof
        → Type 0 };

    // the state in which the opening that gives this proof leaves the challenger
    ghost after_open: { Self → Challenger → List (Request Self.ProverData Challenge) → Self.Proof
        → Challenger };

    // the state in which a verification that accepts leaves it
    ghost after_verify: { Self → Challenger
        → List (CommitmentClaim Challenge Self.Commitment Self.Domain) → Self.Proof → Challenger };

    // a point at which honest openings may be refused
    ghost excludes: { Self → Challenge → Type 0 };

    // the proof opens the claims from this challenger's state
    ghost opens: { Self → Challenger → List (CommitmentClaim Challenge Self.Commitment Self.Domain)
        → Self.Proof → Type 0 };

    // the first fault of a proof that doesn't
    ghost fault: { Self → Challenger → List (CommitmentClaim Challenge Self.Commitment Self.Domain)
        → Self.Proof → Self.Error → Type 0 };

    /// The subgroup with `degree` points, as the domain whose first point is one: point i is the i-th power of the field's
    /// generator of that subgroup. `degree`, which counts points, must be a power of two and at most 2^`TWO_ADICITY`.
    fn natural_domain_for_degree(&self, degree: usize) -> Self::Domain
        requires power { IsPowerOfTwo degree }
        requires fits { degree ≤ 2 ^ Self.Val.TWO_ADICITY }
        ensures { IsSubgroup Self.Val.ring Self.Val.root degree (Self.Domain.points result)
            (Self.Domain.point_at result) };

    /// Commits to the interpolants of the columns of matrices, each on its domain. `Refused` comes exactly where
    /// `commit_fault` names a cause.
    fn commit(
        &self,
        alloc: Global,
        evaluations: Vec<(Self::Domain, RowMajorMatrix<Self::Val>)>,
    ) -> Result<(Self::Commitment, Self::ProverData), PcsFailure<Self::ProverError>>
        ensures refusal { RefusedBy (commit_fault self.now evaluations.items) result }
        ensures committed { IfOk result
            (IsCommitment Self.Val.ring Self.Domain.points Self.Domain.point_at (commits self.now)
            (made self.now) (holds self.now) evaluations.items) };

    /// Opens committed polynomials at points. The values stand in the order of the requests, of their matrices, of the
    /// points, and of the columns. From the same state of the challenger the proof is accepted for the claims with
    /// these values and domains of the committed sizes, unless a point is excluded, and the verification then leaves the
    /// challenger as the opening did (`one_state`). `Refused` comes exactly where `open_fault` names a cause, and leaves the
    /// challenger as it was.
    fn open(
        &self,
        alloc: Global,
        requests: Vec<OpeningRequest<'_, Self::ProverData, Challenge>>,
        challenger: &mut Challenger,
    ) -> Result<(OpenedValues<Challenge>, Self::Proof), PcsFailure<Self::ProverError>>
        requires { All (λ r. made self.now r.prover_data) requests.items }
        ensures refusal { RefusedBy (open_fault self.now requests.entry.items) result }
        ensures unchanged { IfRefused result (λ _. challenger.new ≡ challenger.old) }
        ensures proof { IfOk result (λ w. proves self.now challenger.old requests.entry.items w.1) }
        ensures after { IfOk result
            (λ w. challenger.new ≡ after_open self.now challenger.old requests.entry.items w.1) }
        ensures opening { IfOk result
            (λ w. (held : List (OpenedCommitment Self.Commitment Self.Val))
            → AreOpenedCommitments (holds self.now) requests.entry.items held
            → IsOpening Challenge.ring Challenge.embed Self.Domain.points (excludes self.now)
            (λ claims. opens self.now challenger.old claims w.1) requests.entry.items (nested w.0)
            held) };

    /// Whether the proof opens the claims from the challenger's state: Ok exactly where it does (`opens`), and else
    /// `Refused` of the first fault. Where it does, the challenger is then in the state that `after_verify` names.
    fn verify(
        &self,
        alloc: Global,
        claims: Vec<CommitmentOpening<Challenge, Self::Commitment, Self::Domain>>,
        proof: &Self::Proof,
        challenger: &mut Challenger,
    ) -> Result<(), PcsFailure<Self::Error>>
        ensures verdict { VerifiedBy (opens self.now challenger.old claims.items proof.now)
            (fault self.now challenger.old claims.items proof.now) result }
        ensures after { IsOk result
            → challenger.new ≡ after_verify self.now challenger.old claims.items proof.now };

    /// A commitment equal to this one.
    fn clone_commitment(&self, alloc: Global, c: &Self::Commitment) -> Mem<Self::Commitment>
        ensures { IfOk result (λ d. d ≡ c.now) };

    // prover data holds polynomials of each of its matrices
    ghost holds_all: { (s : Self) (d : Self.ProverData) (c : Self.Commitment)
        (cs : List (Committed Self.Val)) → holds s d c cs → length cs ≡ matrix_count s d };

    // a proof that opens the claims has no fault
    ghost opens_faultless: { (s : Self) (t : Challenger)
        (claims : List (CommitmentClaim Challenge Self.Commitment Self.Domain)) (p : Self.Proof)
        → opens s t claims p → NoneOf (fault s t claims p) };

    // one that doesn't open them has a first fault
    ghost some_fault: { (s : Self) (t : Challenger)
        (claims : List (CommitmentClaim Challenge Self.Commitment Self.Domain)) (p : Self.Proof)
        → FaultUnless (opens s t claims p) (fault s t claims p) };

    // the first fault is one
    ghost one_fault: { (s : Self) (t : Challenger)
        (claims : List (CommitmentClaim Challenge Self.Commitment Self.Domain)) (p : Self.Proof)
        (e g : Self.Error)
        → fault s t claims p e → fault s t claims p g → e ≡ g };

    // and so is the cause to refuse to commit, and to open
    ghost one_commit_fault: { (s : Self) (es : List (Self.Domain × Rows Self.Val))
        (e g : Self.ProverError) → commit_fault s es e → commit_fault s es g → e ≡ g };

    ghost one_open_fault: { (s : Self) (rs : List (Request Self.ProverData Challenge))
        (e g : Self.ProverError) → open_fault s rs e → open_fault s rs g → e ≡ g };

    // Which of a commitment's prover data is asked makes no difference to a refusal: requests for the same points of the same
    // commitments are refused alike.
    ghost opened_alike: { (s : Self) (rs qs : List (Request Self.ProverData Challenge))
        (e : Self.ProverError) → AreAskedAlike (holds s) rs qs → open_fault s rs e
        → open_fault s qs e };

    // Where the proof of an opening opens the claims of what was asked for, the verification leaves the challenger as the
    // opening did.
    ghost one_state: { (s : Self) (t : Challenger)
        (requests : List (Request Self.ProverData Challenge))
        (held : List (OpenedCommitment Self.Commitment Self.Val))
        (claims : List (CommitmentClaim Challenge Self.Commitment Self.Domain)) (p : Self.Proof)
        → proves s t requests p → AreOpenedCommitments (holds s) requests held
        → AreClaims Challenge.ring Challenge.embed Self.Domain.points held requests claims
        → opens s t claims p
        → after_open s t requests p ≡ after_verify s t claims p };
}
