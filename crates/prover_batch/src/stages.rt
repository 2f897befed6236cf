//! The stages of a batch's proof between the commitment to its traces and the openings, along the prover's transcript.
ghost use Rattle.std.specs.Prelude.{◌≡◌, ◌++◌, ◌^◌, ◌<◌, false, IfOk, map, option_map};
ghost use Rattle.p3_field.specs.Checks.{in_turn};
ghost use Rattle.batch_transcript.specs.BatchScript.{from_lookup, from_opening};
ghost use Rattle.prover_answer.specs.Batch.{CommitsToSome, HasProverData, IsTracedAll, all_challenges, all_chunks, all_permutations, folding, main_matrices, preprocessed_all, table_count};
ghost use Rattle.prover_answer.specs.Proving.{HaveFractionsFor, IsGroundOf, extension_part, fraction_part, lookup_part, ood_part, permutation_part, quotient_part};
ghost use Rattle.prover_answer.specs.Verdict.{IsProverAnswer};
ghost use Rattle.prover_batch.specs.Stages.{main_of, pair_state, permutation_commitment, point_of, quotient_of, shape_of, state_of_opening, terminals_of};

use crate::lookups::{LookupStage, lookup_stage};
use crate::quotients::{QuotientStage, quotient_stage};
use crate::transcript::Transcript;
use air_core::{Air, BaseAir};
use batch_setup::{Committed, ProverData, StarkInstance};
use commit_core::{CosetPcs, Pcs, PolynomialSpace, UnivariateStarkPcs};
use p3_challenger::{CanObserve, CanSample, CanSampleBits, GrindingChallenger};
use p3_field::{
    BasedVectorSpace, ExtensionField, Field, FieldCore, PrimeCharacteristicRing, PrimeCore64,
    PrimeField64, RingCore, TwoAdicCore, TwoAdicField,
};
use p3_uni_stark::{Challenge, Commitment, PcsProverError, StarkGenericConfig, Val};
use prover_answer::{Batches, ProverSettings, ProvingError};
use std::alloc::Global;

/// What the stages of the lookups and of the quotients give, over a configuration.
pub type Stages<SC> = (
    LookupStage<Val<SC>, Challenge<SC>, Commitment<SC>, Committed<SC>>,
    QuotientStage<Val<SC>, Challenge<SC>, Commitment<SC>, Committed<SC>>,
);

/// The stages of a batch's proof along its transcript (`prove_batch` of `p3-batch-stark`), from the draw of the lookups' pair to that of
/// the point of the openings: the permutation columns and their commitment, the quotients' chunks and theirs.
///
/// The checks of these stages before a refusal hold, and it says why; in order they are (`verdict`): `WitnessNotFound` of `Lookup`,
/// `LookupDenominatorZero`, `Pcs` of `PermutationCommitment`, of `QuotientEvaluations` and of `QuotientCommitment`, `WitnessNotFound` of
/// `Ood`. Only out of memory is free. Where none fails it is what the honest proof is made of, for the values that are ground, with the
/// lookups' challenges and that which folds the constraints (`challenges`, `alpha`), and the transcript stands where the openings are
/// proved (`state`, `turn`), of the shape that it had (`shape`).
///
/// The backend masks nothing, the batch is traced, the prover data belongs to its commitments, and the transcript stands after the
/// commitments to the traces, as `bound_transcript` gives it.
pub fn drawn_stages<SC: StarkGenericConfig, A: Air<Val<SC>>>(
    alloc: Global,
    config: &SC,
    instances: &[StarkInstance<'_, SC, A>],
    prover_data: &ProverData<SC>,
    main: &Committed<SC>,
    transcript: &mut Transcript<SC>,
) -> Result<Stages<SC>, ProvingError<PcsProverError<SC>>>
    requires plain { SC.Pcs.ZK ≡ false }
    requires traced { let b = ⟦<SC as Batches<A>>⟧.batch config.now instances.now
        prover_data.now.common in IsTracedAll b }
    requires prover_data { let b = ⟦<SC as Batches<A>>⟧.batch config.now instances.now
        prover_data.now.common in
        HasProverData (⟦<SC as ProverSettings>⟧.commits_to config.now) (preprocessed_all b)
        b.statement.common.preprocessed prover_data.now.prover_only.preprocessed_prover_data }
    requires main { let b = ⟦<SC as Batches<A>>⟧.batch config.now instances.now
        prover_data.now.common in
        ⟦<SC as ProverSettings>⟧.commits_to config.now (main_matrices b) (main_of b, main.now) }
    requires turn { transcript.old.remaining
        ≡ from_lookup SC.Challenge.DIMENSION transcript.old.shape }
    requires shape { let b = ⟦<SC as Batches<A>>⟧.batch config.now instances.now
        prover_data.now.common in transcript.old.shape ≡ shape_of b }
    requires few_lookup { 2 ^ transcript.old.shape.lookup_pow_bits < SC.Val.ORDER_U64 }
    requires few_ood { 2 ^ transcript.old.shape.ood_pow_bits < SC.Val.ORDER_U64 }
    requires state { let b = ⟦<SC as Batches<A>>⟧.batch config.now instances.now
        prover_data.now.common in transcript.old.state ≡ pair_state b }
    ensures verdict { let b = ⟦<SC as Batches<A>>⟧.batch config.now instances.now
        prover_data.now.common in let k = ⟦<SC as ProverSettings>⟧.prover_backend config.now in
        IsProverAnswer ((lookup_part b ++ (fraction_part b ++ permutation_part k b))
        ++ ((in_turn (table_count b) (extension_part k b) ++ quotient_part k b) ++ ood_part b))
        result }
    ensures ground { let b = ⟦<SC as Batches<A>>⟧.batch config.now instances.now
        prover_data.now.common in IfOk result (λ r. IsGroundOf b r.0.witness r.1.witness) }
    ensures challenges { let b = ⟦<SC as Batches<A>>⟧.batch config.now instances.now
        prover_data.now.common in
        IfOk result (λ r. map (λ v. v.items) r.0.challenges.items ≡ all_challenges b r.0.witness) }
    ensures terminals { let b = ⟦<SC as Batches<A>>⟧.batch config.now instances.now
        prover_data.now.common in IfOk result (λ r. map (option_map (λ t. t.0)) r.0.terminals.items
        ≡ terminals_of b r.0.witness) }
    ensures permutation { let b = ⟦<SC as Batches<A>>⟧.batch config.now instances.now
        prover_data.now.common in
        IfOk result (λ r. CommitsToSome (⟦<SC as ProverSettings>⟧.commits_to config.now)
        (all_permutations b r.0.witness) r.0.permutation) }
    ensures columns { let b = ⟦<SC as Batches<A>>⟧.batch config.now instances.now
        prover_data.now.common in IfOk result (λ r. option_map (λ c. c.0) r.0.permutation
        ≡ permutation_commitment b r.0.witness) }
    ensures quotient { let b = ⟦<SC as Batches<A>>⟧.batch config.now instances.now
        prover_data.now.common in
        IfOk result (λ r. ⟦<SC as ProverSettings>⟧.commits_to config.now (all_chunks b r.0.witness)
        (r.1.commitment, r.1.data)) }
    ensures chunks { let b = ⟦<SC as Batches<A>>⟧.batch config.now instances.now
        prover_data.now.common in IfOk result (λ r. r.1.commitment ≡ quotient_of b r.0.witness) }
    ensures fractions { let b = ⟦<SC as Batches<A>>⟧.batch config.now instances.now
        prover_data.now.common in IfOk result (λ r. HaveFractionsFor b r.0.witness) }
    ensures alpha { let b = ⟦<SC as Batches<A>>⟧.batch config.now instances.now
        prover_data.now.common in IfOk result (λ r. r.0.alpha ≡ folding b r.0.witness) }
    ensures zeta { let b = ⟦<SC as Batches<A>>⟧.batch config.now instances.now
        prover_data.now.common in
        IfOk result (λ r. r.1.zeta ≡ point_of b r.0.witness r.1.witness) }
    ensures state { let b = ⟦<SC as Batches<A>>⟧.batch config.now instances.now
        prover_data.now.common in
        IfOk result (λ r. transcript.new.state ≡ state_of_opening b r.0.witness r.1.witness) }
    ensures turn { IfOk result
        (λ r. transcript.new.remaining ≡ from_opening SC.Challenge.DIMENSION transcript.new.shape) }
    ensures shape { IfOk result (λ r. transcript.new.shape ≡ transcript.old.shape) }
{
    let common = &prover_data.common;
    let preprocessed = prover_data.prover_only.preprocessed_prover_data.as_ref();
    let lookups = lookup_stage(alloc, config, instances, common, transcript)?;
    let quotients = quotient_stage(
        alloc,
        config,
        instances,
        common,
        preprocessed,
        main,
        &lookups,
        transcript,
    )?;
    Ok((lookups, quotients))
}
