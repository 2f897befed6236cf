//! The prover's stage of the quotients: the commitment to their chunks, and the point of the openings.
ghost use Rattle.std.specs.Prelude.{◌≡◌, ◌^◌, ◌<◌, ◌++◌, false, IfOk, map, option_map};
ghost use Rattle.p3_field.specs.Checks.{in_turn};
ghost use Rattle.batch_transcript.specs.BatchScript.{from_opening, from_quotient};
ghost use Rattle.prover_answer.specs.Batch.{CommitsToSome, HasProverData, IsTracedAll, all_challenges, all_chunks, all_permutations, folding, main_matrices, preprocessed_all, table_count};
ghost use Rattle.prover_answer.specs.Proving.{HaveFractionsFor, IsGroundOf, IsPairGroundOf, extension_part, ood_part, quotient_part};
ghost use Rattle.prover_answer.specs.Verdict.{IsProverAnswer};
ghost use Rattle.prover_batch.specs.Stages.{point_of, quotient_of, quotient_state, shape_of, state_of_opening, terminals_of};

use crate::lookups::{LookupStage, data_of};
use crate::transcript::{Transcript, bind_quotient};
use air_core::{Air, BaseAir};
use batch_setup::{Committed, StarkInstance};
use batch_statement::CommonData;
use commit_core::{CosetPcs, Pcs, PolynomialSpace, UnivariateStarkPcs};
use p3_challenger::{CanObserve, CanSample, CanSampleBits, GrindingChallenger};
use p3_field::{
    BasedVectorSpace, ExtensionField, Field, FieldCore, PrimeCharacteristicRing, PrimeCore64,
    PrimeField64, RingCore, TwoAdicCore, TwoAdicField,
};
use p3_uni_stark::{Challenge, Commitment, PcsProverError, StarkGenericConfig, Val};
use prover_answer::{Batches, GrindStep, ProverSettings, ProvingError};
use prover_quotients::commit_quotients;
use std::alloc::Global;

/// What a prover has after the stage of the quotients.
#[derive(Drop)]
pub struct QuotientStage<F, E, Com, PD> {
    /// The commitment to all chunks.
    pub commitment: Com,
    /// Its prover data.
    pub data: PD,
    /// The grinding value before the point is drawn.
    pub witness: F,
    /// The point of the openings.
    pub zeta: E,
}

// Commits to the quotients' chunks, grinds for the point of the openings, and draws it.
pub(crate) fn quotient_stage<SC: StarkGenericConfig, A: Air<Val<SC>>>(
    alloc: Global,
    config: &SC,
    instances: &[StarkInstance<'_, SC, A>],
    common: &CommonData<SC>,
    preprocessed: Option<&Committed<SC>>,
    main: &Committed<SC>,
    lookups: &LookupStage<Val<SC>, Challenge<SC>, Commitment<SC>, Committed<SC>>,
    transcript: &mut Transcript<SC>,
) -> Result<
    QuotientStage<Val<SC>, Challenge<SC>, Commitment<SC>, Committed<SC>>,
    ProvingError<PcsProverError<SC>>,
>
    requires plain { SC.Pcs.ZK ≡ false }
    requires traced { let b = ⟦<SC as Batches<A>>⟧.batch config.now instances.now common.now in
        IsTracedAll b }
    requires turn { transcript.old.remaining
        ≡ from_quotient SC.Challenge.DIMENSION transcript.old.shape }
    requires shape { let b = ⟦<SC as Batches<A>>⟧.batch config.now instances.now common.now in
        transcript.old.shape ≡ shape_of b }
    requires few { 2 ^ transcript.old.shape.ood_pow_bits < SC.Val.ORDER_U64 }
    requires state { let b = ⟦<SC as Batches<A>>⟧.batch config.now instances.now common.now in
        transcript.old.state ≡ quotient_state b lookups.now.witness }
    requires preprocessed { let b = ⟦<SC as Batches<A>>⟧.batch config.now instances.now
        common.now in
        HasProverData (⟦<SC as ProverSettings>⟧.commits_to config.now) (preprocessed_all b)
        b.statement.common.preprocessed (option_map (λ d. d.now) preprocessed) }
    requires main { let b = ⟦<SC as Batches<A>>⟧.batch config.now instances.now common.now in
        (root : SC.Pcs.Commitment)
        × (⟦<SC as ProverSettings>⟧.commits_to config.now) (main_matrices b) (root, main.now) }
    requires witness { let b = ⟦<SC as Batches<A>>⟧.batch config.now instances.now common.now in
        IsPairGroundOf b lookups.now.witness }
    requires fractions { let b = ⟦<SC as Batches<A>>⟧.batch config.now instances.now common.now in
        HaveFractionsFor b lookups.now.witness }
    requires challenges { let b = ⟦<SC as Batches<A>>⟧.batch config.now instances.now common.now in
        map (λ v. v.items) lookups.now.challenges.items
        ≡ all_challenges b lookups.now.witness }
    requires terminals { let b = ⟦<SC as Batches<A>>⟧.batch config.now instances.now common.now in
        map (option_map (λ t. t.0)) lookups.now.terminals.items
        ≡ terminals_of b lookups.now.witness }
    requires permutation { let b = ⟦<SC as Batches<A>>⟧.batch config.now instances.now
        common.now in CommitsToSome (⟦<SC as ProverSettings>⟧.commits_to config.now)
        (all_permutations b lookups.now.witness) lookups.now.permutation }
    requires alpha { let b = ⟦<SC as Batches<A>>⟧.batch config.now instances.now common.now in
        lookups.now.alpha ≡ folding b lookups.now.witness }
    ensures verdict { let b = ⟦<SC as Batches<A>>⟧.batch config.now instances.now common.now in
        let k = ⟦<SC as ProverSettings>⟧.prover_backend config.now in
        IsProverAnswer ((in_turn (table_count b) (extension_part k b) ++ quotient_part k b)
        ++ ood_part b) result }
    ensures committed { let b = ⟦<SC as Batches<A>>⟧.batch config.now instances.now common.now in
        IfOk result (λ r. (⟦<SC as ProverSettings>⟧.commits_to config.now)
        (all_chunks b lookups.now.witness) (r.commitment, r.data)) }
    ensures commitment { let b = ⟦<SC as Batches<A>>⟧.batch config.now instances.now common.now in
        IfOk result (λ r. r.commitment ≡ quotient_of b lookups.now.witness) }
    ensures witness { let b = ⟦<SC as Batches<A>>⟧.batch config.now instances.now common.now in
        let k = ⟦<SC as ProverSettings>⟧.prover_backend config.now in
        IfOk result (λ r. IsGroundOf b lookups.now.witness r.witness) }
    ensures zeta { let b = ⟦<SC as Batches<A>>⟧.batch config.now instances.now common.now in
        IfOk result (λ r. r.zeta ≡ point_of b lookups.now.witness r.witness) }
    ensures state { let b = ⟦<SC as Batches<A>>⟧.batch config.now instances.now common.now in
        IfOk result
        (λ r. transcript.new.state ≡ state_of_opening b lookups.now.witness r.witness) }
    ensures turn { IfOk result
        (λ r. transcript.new.remaining ≡ from_opening SC.Challenge.DIMENSION transcript.new.shape) }
    ensures shape { IfOk result (λ r. transcript.new.shape ≡ transcript.old.shape) }
{
    let (commitment, data) = commit_quotients(
        alloc,
        config,
        instances,
        common,
        preprocessed,
        main,
        data_of(&lookups.permutation),
        &lookups.challenges,
        &lookups.terminals,
        lookups.alpha,
    )?;
    bind_quotient(transcript, &commitment, None);
    match transcript.ood_phase() {
        Ok(drawn) => Ok(QuotientStage {
            commitment,
            data,
            witness: drawn.1,
            zeta: drawn.0,
        }),
        Err(_) => Err(ProvingError::WitnessNotFound {
            step: GrindStep::Ood,
        }),
    }
}
