//! What the plain scheme takes, and what opened claims say: laws as the contracts of functions that compute nothing.
ghost use Rattle.std.specs.Prelude.{◌≡◌, ℕ, ◌+◌, ◌-◌, ◌^◌, ◌≤◌, List, Some, All, length, slice_get};
ghost use Rattle.p3_field.specs.Domain.{CosetData};
ghost use Rattle.p3_matrix.specs.Matrix.{Rows};
ghost use Rattle.commit_core.specs.Claims.{Request, MatrixClaim, CommitmentClaim};
ghost use Rattle.commit_core.specs.Commitments.{AreExtensions};
ghost use Rattle.commit_core.specs.Failure.{NoneOf};
ghost use Rattle.plain_pcs.specs.Scheme.{Blowup, scheme, PlainCommitmentData};
ghost use Rattle.plain_pcs.specs.Extension.{Extends};
ghost use Rattle.plain_pcs.specs.Checks.{Opens};
ghost use Rattle.plain_pcs.specs.Binding.{IsBound};
ghost use Rattle.plain_pcs.specs.Refusals.{IsWithinBounds, CommitFault, ExtensionsFault, QuotientFault, OpenFault};

use p3_field::{
    BasedVectorSpace, ExtensionField, Field, FieldCore, PrimeCharacteristicRing, RingCore,
    TwoAdicCore, TwoAdicField,
};

/// Within its bounds the plain scheme has no cause to refuse (not in Plonky3): to commit to matrices that have columns, a
/// row for each point of their domain and at most 2^`log_max_trace_height` rows, or to extend them; to commit to extensions
/// that it gave; to commit to a quotient whose parts have at most so many rows; to open where each request has one list of
/// points per matrix.
pub fn nothing_is_refused_within_bounds<F: TwoAdicField, E>()
    ensures commit { (b : Blowup) (evaluated : List (CosetData F × Rows F))
        → b.log_blowup ≤ F.TWO_ADICITY
        → All (IsWithinBounds (scheme F.ring F.inv F.root F.GENERATOR F.TWO_ADICITY b)) evaluated
        → NoneOf (CommitFault (scheme F.ring F.inv F.root F.GENERATOR F.TWO_ADICITY b) evaluated) }
    ensures extensions { (b : Blowup) (chunks : List (CosetData F × Rows F)) (ldes : List (Rows F))
        → AreExtensions (Extends (scheme F.ring F.inv F.root F.GENERATOR F.TWO_ADICITY b)) chunks
        ldes
        → NoneOf (ExtensionsFault (scheme F.ring F.inv F.root F.GENERATOR F.TWO_ADICITY b) ldes) }
    ensures quotient { (b : Blowup) (d : CosetData F) (log_rows log_parts : ℕ)
        → b.log_blowup ≤ F.TWO_ADICITY
        → d.log_size ≡ log_rows + log_parts → log_rows ≤ F.TWO_ADICITY - b.log_blowup
        → NoneOf (QuotientFault (scheme F.ring F.inv F.root F.GENERATOR F.TWO_ADICITY b) d
        (2 ^ log_parts)) }
    ensures open { (requests : List (Request (List (CosetData F × Rows F)) E))
        → All (λ r. length r.points ≡ length r.prover_data) requests → NoneOf (OpenFault requests) }
{}

/// Where the plain scheme opens claims, the claim on each matrix speaks of one polynomial for each of its columns, which the
/// commitment alone fixes (not in Plonky3): the degree is below the size of the claim's domain, and the claimed values at
/// each point are those of the polynomials.
pub fn opened_claims_bind<F: TwoAdicField, E: ExtensionField<F>>()
    ensures { (b : Blowup) (claims : List (CommitmentClaim E (PlainCommitmentData F) (CosetData F)))
        → Opens (scheme F.ring F.inv F.root F.GENERATOR F.TWO_ADICITY b) E.ring E.embed claims
        → (round matrix : ℕ) (c : CommitmentClaim E (PlainCommitmentData F) (CosetData F))
        (m : Rows F) (d : MatrixClaim E (CosetData F))
        → slice_get claims round ≡ Some c → slice_get c.commitment.matrices matrix ≡ Some m
        → slice_get c.matrices matrix ≡ Some d
        → IsBound (scheme F.ring F.inv F.root F.GENERATOR F.TWO_ADICITY b) E.ring E.embed m d }
{}
