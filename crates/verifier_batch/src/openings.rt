//! All checks of what a batch proof opens.
ghost use Rattle.std.specs.Prelude.{◌≡◌, ℕ, length, map, IfOk};
ghost use Rattle.air_core.specs.Shape.{width_of};
ghost use Rattle.verifier_claims.specs.Claims.{claims, place_of_preprocessed};
ghost use Rattle.verifier_batch.specs.OpeningChecks.{claim_checks, claimed, opening_checks, HasShapeFor, AreLogChunks, made_domains};
ghost use Rattle.batch_statement.specs.Statement.{AirTable, WellFormed, read_common, stated};
ghost use Rattle.batch_statement.specs.Verdict.{IsVerdict};

use crate::backend::opened_claims;
use air_core::{Air, BaseAir};
use batch_config::Settings;
use batch_statement::{
    BatchCommitments, BatchOpenedValues, BatchProof, BatchVerificationError, CommonData,
    TablesProof,
};
use commit_core::{CosetPcs, Pcs, PolynomialSpace, UnivariateStarkPcs};
use p3_field::{
    BasedVectorSpace, ExtensionField, Field, FieldCore, Mem, PrimeCharacteristicRing, PrimeCore64,
    PrimeField64, RingCore, TwoAdicCore, TwoAdicField,
};
use p3_uni_stark::{Challenge, Challenger, Commitment, Domain, PcsError, StarkGenericConfig, Val};
use std::alloc::Global;
use verifier_claims::{OpeningArgumentWithQuotientDomains, commitments_with_opening_points};

// How many preprocessed columns each table has.
fn widths_of<F: FieldCore, A: BaseAir<F>>(alloc: Global, airs: &[A]) -> Mem<Vec<usize>>
    ensures { IfOk result (λ v.
        v.items ≡ map (λ a. width_of (A.declaration a).preprocessed) airs.now) }
{
    airs.iter()
        .map(|air| air.preprocessed_width())
        .collect(alloc)
}

// The commitments of a proof.
fn commitments_of<F, E, Com, Opening>(
    proof: &TablesProof<F, E, Com, Opening>,
) -> &BatchCommitments<Com>
    ensures { result.now ≡ proof.now.commitments }
{
    &proof.commitments
}

// What it opens of each table.
fn opened_of<F, E, Com, Opening>(proof: &TablesProof<F, E, Com, Opening>) -> &BatchOpenedValues<E>
    ensures { result.now ≡ proof.now.instances }
{
    &proof.opened_values
}

// Its degree bits.
fn bits_of<F, E, Com, Opening>(proof: &TablesProof<F, E, Com, Opening>) -> &[usize]
    ensures { result.now ≡ proof.now.degree_bits }
{
    &proof.degree_bits
}

// The backend's part of it.
fn opening_of<F, E, Com, Opening>(proof: &TablesProof<F, E, Com, Opening>) -> &Opening
    ensures { result.now ≡ proof.now.opening_proof }
{
    &proof.opening_proof
}

/// The claims of a proof at `zeta`, after the checks that there is a domain for each table's quotient (`QuotientDomainTooLarge`) and that
/// each preprocessed matrix was committed for its table's height (`PreprocessedMetadataMismatch`), in the order of `claim_checks`. With the claims
/// it gives for each table the domains of its quotient's chunks, and the place of the claim on preprocessed columns, where there is one.
///
/// The common data is well-formed for the AIRs, no check of the proof's shape fails (`verifier_shape`), and `chunks` has
/// for each table the logarithm of the number of its quotient's chunks before masking.
pub fn proof_claims<SC: StarkGenericConfig, A: Air<Val<SC>>>(
    alloc: Global,
    config: &SC,
    airs: &[A],
    public_values: &[Vec<Val<SC>>],
    common: &CommonData<SC>,
    proof: &BatchProof<SC>,
    chunks: &[usize],
    zeta: Challenge<SC>,
) -> Result<OpeningArgumentWithQuotientDomains<SC>, BatchVerificationError<PcsError<SC>>>
    requires formed { WellFormed (map A.declaration airs.now) (read_common common.now) }
    requires shape { HasShapeFor SC.Pcs.Error SC.Val.ring (⟦<SC as Settings>⟧.setting config.now)
        (stated A.declaration A.trees airs.now public_values.now common.now) proof.now }
    requires chunks { AreLogChunks (⟦<SC as Settings>⟧.setting config.now)
        (stated A.declaration A.trees airs.now public_values.now common.now) proof.now
        (length airs.now) chunks.now }
    ensures verdict { let statement = stated A.declaration A.trees airs.now public_values.now
        common.now in
        IsVerdict (claim_checks (⟦<SC as Settings>⟧.setting config.now) statement proof.now)
        result }
    ensures claims { let setting = ⟦<SC as Settings>⟧.setting config.now in
        let statement = stated A.declaration A.trees airs.now public_values.now common.now in
        IfOk result (λ w. w.0.items ≡ claims setting (claimed setting statement proof.now) zeta) }
    ensures domains { IfOk result
        (λ w. map (λ d. d.items) w.1.items
        ≡ made_domains (⟦<SC as Settings>⟧.setting config.now)
        (stated A.declaration A.trees airs.now public_values.now common.now) proof.now
        (length airs.now)) }
    ensures place { IfOk result
        (λ w. w.2 ≡ place_of_preprocessed proof.now.commitments common.now.preprocessed) }
{
    let widths = widths_of(alloc, airs)?;
    commitments_with_opening_points(
        alloc,
        config,
        airs,
        zeta,
        commitments_of(proof),
        opened_of(proof),
        common,
        bits_of(proof),
        &widths,
        chunks,
    )
}

/// The checks of what a batch proof opens, in the order of `opening_checks`: for each table the domain of its quotient
/// (`QuotientDomainTooLarge`), for each preprocessed matrix the height for which it was committed
/// (`PreprocessedMetadataMismatch`), and last the backend's check that the proof opens its claims at `zeta`
/// (`InvalidOpeningArgument`, with the backend's first fault). The answer is the refusal of the first that fails; where none
/// does, for each table the domains of its quotient's chunks. After `verify_batch` of `p3-batch-stark`.
///
/// The common data is well-formed for the AIRs, no check of the proof's shape fails (`verifier_shape`), and `chunks` has
/// for each table the logarithm of the number of its quotient's chunks before masking. `challenger` is in the state from
/// which the backend verifies.
pub fn check_openings<SC: StarkGenericConfig, A: Air<Val<SC>>>(
    alloc: Global,
    config: &SC,
    airs: &[A],
    public_values: &[Vec<Val<SC>>],
    common: &CommonData<SC>,
    proof: &BatchProof<SC>,
    chunks: &[usize],
    zeta: Challenge<SC>,
    challenger: Challenger<SC>,
) -> Result<Vec<Vec<Domain<SC>>>, BatchVerificationError<PcsError<SC>>>
    requires formed { WellFormed (map A.declaration airs.now) (read_common common.now) }
    requires shape { HasShapeFor SC.Pcs.Error SC.Val.ring (⟦<SC as Settings>⟧.setting config.now)
        (stated A.declaration A.trees airs.now public_values.now common.now) proof.now }
    requires chunks { AreLogChunks (⟦<SC as Settings>⟧.setting config.now)
        (stated A.declaration A.trees airs.now public_values.now common.now) proof.now
        (length airs.now) chunks.now }
    ensures verdict { let statement = stated A.declaration A.trees airs.now public_values.now
        common.now in
        IsVerdict (opening_checks (⟦<SC as Settings>⟧.setting config.now)
        (⟦<SC as Settings>⟧.backend config.now) statement proof.now zeta challenger) result }
    ensures domains { IfOk result
        (λ v. map (λ d. d.items) v.items
        ≡ made_domains (⟦<SC as Settings>⟧.setting config.now)
        (stated A.declaration A.trees airs.now public_values.now common.now) proof.now
        (length airs.now)) }
{
    let (claims, domains, place) = proof_claims(
        alloc,
        config,
        airs,
        public_values,
        common,
        proof,
        chunks,
        zeta,
    )?;
    opened_claims(alloc, config, claims, opening_of(proof), challenger, place)?;
    Ok(domains)
}
