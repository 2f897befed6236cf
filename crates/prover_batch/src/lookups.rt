//! The prover's stage of the lookups: their challenges, the permutation columns, and the challenge that folds the constraints.
ghost use Rattle.std.specs.Prelude.{◌≡◌, ◌^◌, ◌<◌, ◌++◌, ◌⊎◌, false, IfOk, is_some, map, option_map};
ghost use Rattle.std.specs.Option.{option_copied};
ghost use Rattle.batch_transcript.specs.BatchScript.{from_lookup, from_quotient};
ghost use Rattle.prover_answer.specs.Batch.{CommitsToSome, IsTracedAll, all_challenges, all_permutations, folding};
ghost use Rattle.prover_answer.specs.Proving.{HaveFractionsFor, IsPairGroundOf, fraction_part, lookup_part, permutation_part};
ghost use Rattle.prover_answer.specs.Verdict.{IsProverAnswer};
ghost use Rattle.prover_batch.specs.Stages.{pair_state, permutation_commitment, quotient_state, shape_of, terminals_of};

use crate::transcript::Transcript;
use air_core::{Air, BaseAir};
use batch_setup::{Committed, StarkInstance};
use batch_statement::CommonData;
use batch_transcript::TranscriptError;
use commit_core::{CosetPcs, Pcs, PolynomialSpace, UnivariateStarkPcs};
use p3_challenger::{CanObserve, CanSample, CanSampleBits, GrindingChallenger};
use p3_field::{
    BasedVectorSpace, ExtensionField, Field, FieldCore, PrimeCharacteristicRing, PrimeCore64,
    PrimeField64, RingCore, TwoAdicCore, TwoAdicField,
};
use p3_lookup::{LogUpGadget, LookupTerminal};
use p3_uni_stark::{Challenge, Commitment, PcsProverError, StarkGenericConfig, Val};
use prover_answer::{Batches, GrindStep, ProverSettings, ProvingError};
use prover_commits::{Permutations, commit_permutations, permutation_columns};
use std::alloc::Global;
use verifier_draws::terminals_there;

/// What a prover has after the stage of the lookups, over fields, commitments and prover data of these types.
#[derive(Drop)]
pub struct LookupStage<F, E, Com, PD> {
    /// The grinding value before the lookups' pair: None where no table has lookups.
    pub witness: Option<F>,
    /// For each table the challenges of its lookups.
    pub challenges: Vec<Vec<E>>,
    /// For each table its terminal, where it has lookups.
    pub terminals: Vec<Option<LookupTerminal<E>>>,
    /// The commitment to the permutation columns and its prover data, where there are some.
    pub permutation: Option<(Com, PD)>,
    /// The challenge that folds the constraints.
    pub alpha: E,
}

// A transcript's refusal to draw the lookups' pair, as a prover's.
fn lookup_refusal<R>(error: TranscriptError) -> ProvingError<R>
    requires { error ≡ TranscriptError.WitnessNotFound ⊎ error ≡ TranscriptError.OutOfMemory }
    ensures witness { error ≡ TranscriptError.WitnessNotFound
        → result ≡ ProvingError.WitnessNotFound GrindStep.Lookup }
    ensures memory { error ≡ TranscriptError.OutOfMemory → result ≡ ProvingError.OutOfMemory }
{
    match error {
        TranscriptError::WitnessNotFound => ProvingError::WitnessNotFound {
            step: GrindStep::Lookup,
        },
        TranscriptError::OutOfMemory => ProvingError::OutOfMemory,
        TranscriptError::Failure(_) => unreachable!(),
    }
}

// The commitment, where something is committed.
pub(crate) fn commitment_of<Com, PD>(committed: &Option<(Com, PD)>) -> Option<&Com>
    ensures value { option_copied result ≡ option_map (λ c. c.0) committed.now }
    ensures variant { is_some result ≡ is_some (option_map (λ c. c.0) committed.now) }
{
    match committed {
        Some((commitment, _)) => Some(commitment),
        None => None,
    }
}

/// The prover data, where something is committed.
pub fn data_of<Com, PD>(committed: &Option<(Com, PD)>) -> Option<&PD>
    ensures { option_map (λ d. d.now) result ≡ option_map (λ c. c.1) committed.now }
{
    match committed {
        Some((_, data)) => Some(data),
        None => None,
    }
}

// Grinds for the lookups' pair and draws it, commits to the permutation columns, and draws the challenge that folds the constraints.
pub(crate) fn lookup_stage<SC: StarkGenericConfig, A: Air<Val<SC>>>(
    alloc: Global,
    config: &SC,
    instances: &[StarkInstance<'_, SC, A>],
    common: &CommonData<SC>,
    transcript: &mut Transcript<SC>,
) -> Result<
    LookupStage<Val<SC>, Challenge<SC>, Commitment<SC>, Committed<SC>>,
    ProvingError<PcsProverError<SC>>,
>
    requires plain { SC.Pcs.ZK ≡ false }
    requires traced { let b = ⟦<SC as Batches<A>>⟧.batch config.now instances.now common.now in
        IsTracedAll b }
    requires turn { transcript.old.remaining
        ≡ from_lookup SC.Challenge.DIMENSION transcript.old.shape }
    requires shape { let b = ⟦<SC as Batches<A>>⟧.batch config.now instances.now common.now in
        transcript.old.shape ≡ shape_of b }
    requires few { 2 ^ transcript.old.shape.lookup_pow_bits < SC.Val.ORDER_U64 }
    requires state { let b = ⟦<SC as Batches<A>>⟧.batch config.now instances.now common.now in
        transcript.old.state ≡ pair_state b }
    ensures verdict { let b = ⟦<SC as Batches<A>>⟧.batch config.now instances.now common.now in
        let k = ⟦<SC as ProverSettings>⟧.prover_backend config.now in
        IsProverAnswer (lookup_part b ++ (fraction_part b ++ permutation_part k b)) result }
    ensures witness { let b = ⟦<SC as Batches<A>>⟧.batch config.now instances.now common.now in
        IfOk result (λ r. IsPairGroundOf b r.witness) }
    ensures challenges { let b = ⟦<SC as Batches<A>>⟧.batch config.now instances.now common.now in
        IfOk result
        (λ r. map (λ v. v.items) r.challenges.items ≡ all_challenges b r.witness) }
    ensures terminals { let b = ⟦<SC as Batches<A>>⟧.batch config.now instances.now common.now in
        IfOk result
        (λ r. map (option_map (λ t. t.0)) r.terminals.items ≡ terminals_of b r.witness) }
    ensures fractions { let b = ⟦<SC as Batches<A>>⟧.batch config.now instances.now common.now in
        IfOk result (λ r. HaveFractionsFor b r.witness) }
    ensures committed { let b = ⟦<SC as Batches<A>>⟧.batch config.now instances.now common.now in
        IfOk result (λ r. CommitsToSome (⟦<SC as ProverSettings>⟧.commits_to config.now)
        (all_permutations b r.witness) r.permutation) }
    ensures permutation { let b = ⟦<SC as Batches<A>>⟧.batch config.now instances.now common.now in
        IfOk result
        (λ r. option_map (λ c. c.0) r.permutation ≡ permutation_commitment b r.witness) }
    ensures alpha { let b = ⟦<SC as Batches<A>>⟧.batch config.now instances.now common.now in
        IfOk result (λ r. r.alpha ≡ folding b r.witness) }
    ensures state { let b = ⟦<SC as Batches<A>>⟧.batch config.now instances.now common.now in
        IfOk result (λ r. transcript.new.state ≡ quotient_state b r.witness) }
    ensures turn { IfOk result
        (λ r. transcript.new.remaining
        ≡ from_quotient SC.Challenge.DIMENSION transcript.new.shape) }
    ensures shape { IfOk result (λ r. transcript.new.shape ≡ transcript.old.shape) }
{
    let (challenges, witness) = match transcript.lookup_phase(
        alloc,
        &common.lookups,
        &LogUpGadget,
    ) {
        Ok(drawn) => drawn,
        Err(error) => return Err(lookup_refusal(error)),
    };
    let Permutations { columns, terminals } = permutation_columns(
        alloc,
        config,
        instances,
        common,
        &challenges,
    )?;
    let permutation = commit_permutations(alloc, config, columns)?;
    let present = terminals_there(alloc, &terminals)?;
    let alpha = transcript.permutation_phase(commitment_of(&permutation), &present);
    Ok(LookupStage {
        witness,
        challenges,
        terminals,
        permutation,
        alpha,
    })
}
