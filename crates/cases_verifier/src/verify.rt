//! The verifier of a batch over four configurations.
ghost use Rattle.std.specs.Prelude.{◌≡◌, ◌<◌, ℕ, [], map, length, IsOk};
ghost use Rattle.std.specs.Prelude.{slice_index_or as get_or};
ghost use Rattle.air_tables.specs.Swap.{swap_trees};
ghost use Rattle.batch_statement.specs.Words.{bits_at};
ghost use Rattle.batch_statement.specs.Statement.{WellFormed, read_common, stated};
ghost use Rattle.law_soundness.specs.Meaning.{HoldUnlessUnlucky, IsAlphaUnlucky, IsZetaUnlucky};
ghost use Rattle.law_soundness.specs.Swapped.{EndsSwapped, swap_publics};

use crate::plain::Plain;
use crate::proofs::proof_of;
use crate::reading::quartics;
use crate::settings::{few_bits, fixed_config, small_config, zero_config};
use crate::statement::{Common, Stated};
use crate::writing::bad_case;
use air_core::{Air, BaseAir};
use batch_config::Settings;
use batch_statement::{BatchProof, BatchVerificationError, CommonData, SharedData};
use commit_core::{CosetPcs, Pcs, PolynomialSpace, UnivariateStarkPcs};
use law_soundness::{PlainConfig, accepted_holds, accepted_swaps_end};
use p3_challenger::{CanObserve, CanSample, CanSampleBits, GrindingChallenger};
use p3_dft::TwoAdicSubgroupDft;
use p3_field::{
    BabyBear, BasedVectorSpace, ExtensionField, Field, FieldCore, Mem, PrimeCharacteristicRing,
    PrimeCore64, PrimeField64, QuarticExtension, RingCore, TwoAdicCore, TwoAdicField,
};
use p3_uni_stark::{PcsError, StarkGenericConfig, TranscriptVersion};
use plain_pcs::{PlainCommitment, PlainPcs};
use std::alloc::Global;
use tool_proof_text::CommitmentText;
use tool_statement::tool_config;
use verifier_batch::verify_batch;

/// `verify_batch` over the plain scheme. Where it answers Ok, each constraint of each committed table is zero on each of its rows, or a drawn
/// challenge is unlucky (`holds`). Where no drawn challenge is, the third public value of each table with the constraints of a swap table is the
/// second where the table has one row, and else the first (`swaps`).
pub fn verified<F, D, E, C, A>(
    alloc: Global,
    config: &PlainConfig<F, D, E, C>,
    airs: &[A],
    proof: &BatchProof<PlainConfig<F, D, E, C>>,
    public_values: &[Vec<F>],
    common: &CommonData<PlainConfig<F, D, E, C>>,
) -> Result<(), BatchVerificationError<PcsError<PlainConfig<F, D, E, C>>>>
where
    F: TwoAdicField + PrimeField64,
    D: TwoAdicSubgroupDft<F>,
    E: ExtensionField<F>,
    C: Copy
        + CanObserve<E>
        + CanSample<E>
        + CanSample<F>
        + GrindingChallenger<Witness = F>
        + CanObserve<PlainCommitment<F>>,
    A: Air<F>,
    requires { WellFormed (map A.declaration airs.now) (read_common common.now) }
    ensures holds { let c = ⟦<PlainConfig<F, D, E, C> as Settings>⟧.setting config.now in
        let s = stated A.declaration A.trees airs.now public_values.now common.now in
        IsOk result → HoldUnlessUnlucky c config.now.pcs.log_blowup s proof.now }
    ensures swaps { let c = ⟦<PlainConfig<F, D, E, C> as Settings>⟧.setting config.now in
        let s = stated A.declaration A.trees airs.now public_values.now common.now in
        IsOk result → (IsAlphaUnlucky c config.now.pcs.log_blowup s proof.now → ⊥)
        → (IsZetaUnlucky c config.now.pcs.log_blowup s proof.now → ⊥)
        → (i : ℕ) (air : A) (a b x : F) → i < length airs.now
        → A.trees (get_or airs.now i air) ≡ swap_trees → get_or s.publics i [] ≡ swap_publics a b x
        → EndsSwapped (bits_at proof.now.degree_bits i) a b x }
{
    verify_batch(alloc, config, airs, proof, public_values, common)?;
    accepted_holds(config, airs, proof, public_values, common);
    accepted_swaps_end(config, airs, proof, public_values, common);
    Ok(())
}

// What the verifier says of a proof, if there is one: `accepted`, or the refusal's text.
fn said<D, E, C, A>(
    alloc: Global,
    config: &PlainConfig<BabyBear, D, E, C>,
    airs: &[A],
    publics: &[Vec<BabyBear>],
    common: &Common,
    proof: Option<BatchProof<PlainConfig<BabyBear, D, E, C>>>,
) -> Mem<String>
where
    D: TwoAdicSubgroupDft<BabyBear>,
    E: ExtensionField<BabyBear>,
    C: Copy
        + CanObserve<E>
        + CanSample<E>
        + CanSample<BabyBear>
        + GrindingChallenger<Witness = BabyBear>
        + CanObserve<PlainCommitment<BabyBear>>,
    A: Air<BabyBear>,
{
    let Some(proof) = proof else {
        return bad_case(alloc);
    };
    if !common.fits(alloc, airs)? {
        return String::from_str(alloc, "unfit data");
    }
    match verified(alloc, config, airs, &proof, publics, common) {
        Ok(()) => String::from_str(alloc, "accepted"),
        Err(error) => format!(in alloc; "{error}"),
    }
}

// What the verifier says over the smaller configuration, which grinds so many bits.
fn small<A: Air<BabyBear>>(
    alloc: Global,
    bits: u64,
    airs: &[A],
    publics: &[Vec<BabyBear>],
    common: &Common,
    numbers: &[u64],
) -> Mem<String> {
    let Some(bits) = few_bits(bits) else {
        return bad_case(alloc);
    };
    let proof = proof_of::<CommitmentText, BabyBear>(alloc, numbers)?;
    said(alloc, &small_config(bits), airs, publics, common, proof)
}

// What the verifier says of what is stated, where the challenges that it draws are these two.
fn fixed(alloc: Global, stated: &Stated, challenges: &[u64], numbers: &[u64]) -> Mem<String> {
    let challenges = quartics(alloc, challenges)?;
    let [alpha, zeta] = challenges.as_slice() else {
        return bad_case(alloc);
    };
    let proof = proof_of::<CommitmentText, QuarticExtension>(alloc, numbers)?;
    said(
        alloc,
        &fixed_config(*alpha, *zeta),
        &stated.airs,
        &stated.publics,
        &stated.common,
        proof,
    )
}

/// What the verifier says of what is stated, over the configuration of this name.
pub fn tables(
    alloc: Global,
    stated: &Stated,
    name: &str,
    head: &[u64],
    numbers: &[u64],
) -> Mem<String> {
    let (airs, publics, common) = (&stated.airs, &stated.publics, &stated.common);
    match name {
        "tool" => {
            let proof = proof_of::<CommitmentText, QuarticExtension>(alloc, numbers)?;
            said(
                alloc,
                &tool_config(TranscriptVersion::V1),
                airs,
                publics,
                common,
                proof,
            )
        }
        "zero" => {
            let proof = proof_of::<CommitmentText, QuarticExtension>(alloc, numbers)?;
            said(alloc, &zero_config(), airs, publics, common, proof)
        }
        "small" => small(alloc, 0, airs, publics, common, numbers),
        "fixed" => fixed(alloc, stated, head, numbers),
        _ => bad_case(alloc),
    }
}

/// What it says over the smaller configuration of a table of one column without constraints, which hints at a degree, and may declare a periodic
/// column of so many zeros.
pub fn column(alloc: Global, head: &[u64], numbers: &[u64]) -> Mem<String> {
    let [hint, bits, periods @ ..] = head else {
        return bad_case(alloc);
    };
    let mut periodic = Vec::new(alloc);
    for period in periods {
        periodic.push(vec![in alloc; BabyBear::ZERO; *period as usize]?)?;
    }
    let air = Plain {
        columns: 1,
        public_values: 0,
        hint: Some(*hint as usize),
        periodic,
    };
    let common = SharedData::empty(alloc, 1)?;
    small(alloc, *bits, &[air], &[Vec::new(alloc)], &common, numbers)
}
