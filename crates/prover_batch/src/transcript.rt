//! A prover's transcript of a batch as far as the challenges of its lookups.
ghost use Rattle.std.specs.Prelude.{◌≡◌, ◌^◌, ◌<◌, [], IfOk, is_some, map};
ghost use Rattle.std.specs.Option.{option_copied};
ghost use Rattle.batch_transcript.specs.BatchScript.{from_lookup, from_ood, from_quotient, quotient_script};
ghost use Rattle.batch_transcript.specs.Running.{Plays};
ghost use Rattle.prover_answer.specs.Batch.{IsTracedAll};
ghost use Rattle.prover_batch.specs.Stages.{main_of, pair_state, shape_of};

use air_core::{Air, BaseAir};
use batch_setup::{StarkInstance, lent_airs};
use batch_statement::CommonData;
use batch_transcript::{BatchChallenger, BatchProverTranscript};
use commit_core::{CosetPcs, Pcs, PolynomialSpace, UnivariateStarkPcs};
use p3_challenger::{CanObserve, CanSample, CanSampleBits, GrindingChallenger};
use p3_field::{
    BasedVectorSpace, ExtensionField, Field, FieldCore, Mem, PrimeCharacteristicRing, PrimeCore64,
    PrimeField64, RingCore, TwoAdicCore, TwoAdicField,
};
use p3_uni_stark::{Challenge, Challenger, Commitment, StarkGenericConfig, Val};
use prover_answer::Batches;
use std::alloc::Global;
use verifier_draws::{batch_shape, preprocessed_commitment};

/// A prover's transcript over a configuration.
pub type Transcript<SC> = BatchProverTranscript<
    Challenger<SC>,
    Val<SC>,
    Challenge<SC>,
    Commitment<SC>,
>;

// The public values of instances, in order.
fn public_values<F: Field, A>(
    alloc: Global,
    instances: &[batch_setup::TableInstance<F, A>],
) -> Mem<Vec<Vec<F>>>
    ensures { IfOk result (λ v.
        map (λ p. p.items) v.items ≡ map (λ i. i.public_values) instances.now) }
{
    let mut values = Vec::with_capacity(alloc, instances.len())?;
    for instance in instances {
        values.push(instance.public_values.to_vec(alloc)?)?;
    }
    Ok(values)
}

/// The transcript of a batch after its degree bits, the commitment to its traces, its public values and the commitment to its preprocessed
/// traces (`prove_batch` of `p3-batch-stark`): there the lookups' pair is drawn. The batch is traced, and these are its degree bits and
/// the commitment to its traces. The one error is running out of memory.
pub fn bound_transcript<SC: StarkGenericConfig, A: Air<Val<SC>>>(
    alloc: Global,
    config: &SC,
    instances: &[StarkInstance<'_, SC, A>],
    common: &CommonData<SC>,
    degree_bits: &[usize],
    main: &Commitment<SC>,
) -> Mem<Transcript<SC>>
    requires traced { let b = ⟦<SC as Batches<A>>⟧.batch config.now instances.now common.now in
        IsTracedAll b }
    requires degree_bits { let b = ⟦<SC as Batches<A>>⟧.batch config.now instances.now
        common.now in degree_bits.now ≡ b.degree_bits }
    requires main { let b = ⟦<SC as Batches<A>>⟧.batch config.now instances.now common.now in
        main.now ≡ main_of b }
    ensures state { let b = ⟦<SC as Batches<A>>⟧.batch config.now instances.now common.now in
        IfOk result (λ t. t.state ≡ pair_state b) }
    ensures turn { IfOk result (λ t. t.remaining ≡ from_lookup SC.Challenge.DIMENSION t.shape) }
    ensures shape { let b = ⟦<SC as Batches<A>>⟧.batch config.now instances.now common.now in
        IfOk result (λ t. t.shape ≡ shape_of b) }
    ensures few_lookup { IfOk result (λ t. 2 ^ t.shape.lookup_pow_bits < SC.Val.ORDER_U64) }
    ensures few_ood { IfOk result (λ t. 2 ^ t.shape.ood_pow_bits < SC.Val.ORDER_U64) }
{
    let airs = lent_airs(alloc, instances)?;
    let values = public_values(alloc, instances)?;
    let lookup_bits = config.lookup_proof_of_work_bits();
    let ood_bits = config.ood_proof_of_work_bits();
    let version = config.transcript_version();
    let shape = batch_shape(
        alloc,
        &airs,
        common,
        version,
        SC::Pcs::ZK,
        lookup_bits,
        ood_bits,
    )?;
    let mut transcript = BatchProverTranscript::new(alloc, config.initialise_challenger(), shape)?;
    transcript.instance_bindings(degree_bits);
    transcript.main_phase(main, &values);
    transcript.preprocessed_phase(preprocessed_commitment(common));
    Ok(transcript)
}

// Binds the commitment to the quotients, then the randomization's, where there is one; both are lent alike.
pub(crate) fn bind_quotient<
    'a,
    F: PrimeField64,
    EF: ExtensionField<F>,
    Com,
    C: GrindingChallenger<Witness = F>
        + CanObserve<EF>
        + CanObserve<Com>
        + CanSample<F>
        + CanSample<EF>,
>(
    transcript: &mut BatchProverTranscript<C, F, EF, Com>,
    quotient: &'a Com,
    randomization: Option<&'a Com>,
)
    requires turn { transcript.old.remaining ≡ from_quotient EF.DIMENSION transcript.old.shape }
    requires count { is_some randomization ≡ transcript.old.shape.has_randomization_commitment }
    ensures plays { Plays (⟦<C as BatchChallenger<F, EF, Com>>⟧.functions)
        (quotient_script quotient.now (option_copied randomization.entry)) transcript.old
        transcript.new [] }
    ensures turn { transcript.new.remaining ≡ from_ood EF.DIMENSION transcript.new.shape }
{
    transcript.quotient_phase(quotient, randomization);
}
