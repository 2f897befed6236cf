//! The openings of a batch.
ghost use Rattle.std.specs.Prelude.{◌≡◌, ◌^◌, false, List, All, IfOk, option_map};
ghost use Rattle.p3_field.specs.Poly.{tabulate};
ghost use Rattle.commit_core.specs.Commitments.{AreOpenedCommitments, OpenedCommitment, IsOpening, nested};
ghost use Rattle.prover_answer.specs.Batch.{HasProverData, IsTracedAll, log_parts_at, preprocessed_all, table_count};
ghost use Rattle.prover_answer.specs.Verdict.{IsProverVerdict};
ghost use Rattle.prover_openings.specs.Asked.{kept_of};
ghost use Rattle.prover_openings.specs.Check.{AreOpenedAll, IsLeftAfter, IsOpenedBy, IsProofOfAsked, IsReady, IsTakenForAll, KeepsState, opening_request_checks};

use crate::requests::all_requests;
use crate::tables::opened_tables;
use air_core::{Air, BaseAir};
use batch_setup::{Committed, StarkInstance};
use batch_statement::{CommonData, OpenedValuesWithLookups};
use commit_core::{
    CosetPcs, OpenedValues, OpeningRequest, Pcs, PcsFailure, PolynomialSpace, UnivariateStarkPcs,
};
use p3_field::{
    BasedVectorSpace, ExtensionField, Field, FieldCore, PrimeCharacteristicRing, PrimeCore64,
    PrimeField64, RingCore, TwoAdicCore, TwoAdicField,
};
use p3_uni_stark::{Challenge, Challenger, PcsProof, PcsProverError, StarkGenericConfig, Val};
use prover_answer::{Batches, ProverPhase, ProverSettings, ProvingError};
use std::alloc::Global;

// What the backend opens of requests, of which the one at this place is that of preprocessed matrices. The answer is `Pcs`
// exactly where the backend refuses.
#[tactic(auto, unfolding(p3_field::specs::Checks::NoneFails, p3_field::specs::Checks::FirstFails))]
fn opened_requests<SC: StarkGenericConfig>(
    alloc: Global,
    config: &SC,
    requests: Vec<OpeningRequest<'_, Committed<SC>, Challenge<SC>>>,
    preprocessed: Option<usize>,
    challenger: &mut Challenger<SC>,
) -> Result<(OpenedValues<Challenge<SC>>, PcsProof<SC>), ProvingError<PcsProverError<SC>>>
    requires plain { SC.Pcs.ZK ≡ false }
    requires made { All (λ r. SC.Pcs.made (SC.pcs_of config.now) r.prover_data) requests.items }
    ensures verdict { IsOpenedBy (SC.Pcs.open_fault (SC.pcs_of config.now) requests.entry.items)
        result }
    ensures unchanged { KeepsState result challenger.new challenger.old }
    ensures after { IfOk result
        (λ w. challenger.new ≡ SC.Pcs.after_open (SC.pcs_of config.now) challenger.old
        requests.entry.items w.1) }
    ensures proof { IfOk result
        (λ w. SC.Pcs.proves (SC.pcs_of config.now) challenger.old requests.entry.items w.1) }
    ensures opening { IfOk result
        (λ w. (held : List (OpenedCommitment SC.Pcs.Commitment SC.Val))
        → AreOpenedCommitments (SC.Pcs.holds (SC.pcs_of config.now)) requests.entry.items held
        → IsOpening SC.Challenge.ring SC.Challenge.embed
        ⟦<<SC::Pcs as Pcs<SC::Challenge, SC::Challenger>>::Domain as PolynomialSpace>⟧.points
        (SC.Pcs.excludes (SC.pcs_of config.now))
        (λ claims. SC.Pcs.opens (SC.pcs_of config.now) challenger.old claims w.1)
        requests.entry.items (nested w.0) held) }
{
    match config
        .pcs()
        .open_with_preprocessing(alloc, requests, challenger, preprocessed)
    {
        Ok(opening) => Ok(opening),
        Err(PcsFailure::OutOfMemory) => Err(ProvingError::OutOfMemory),
        Err(PcsFailure::Refused(source)) => Err(ProvingError::Pcs {
            phase: ProverPhase::Opening,
            source,
        }),
    }
}

// The place of the opening request for preprocessed matrices, where their prover data is there.
fn place_of<D>(preprocessed: Option<&D>) -> Option<usize>
    ensures { result ≡ option_map (λ d. 2) preprocessed.entry }
{
    match preprocessed {
        None => None,
        Some(_) => Some(2),
    }
}

// Opens what a batch's prover committed to, where the degree bits and the numbers of the quotients' chunks are known.
pub(crate) fn open_counted<SC: StarkGenericConfig, A: Air<Val<SC>>>(
    alloc: Global,
    config: &SC,
    instances: &[StarkInstance<'_, SC, A>],
    common: &CommonData<SC>,
    preprocessed: Option<&Committed<SC>>,
    main: &Committed<SC>,
    permutation: Option<&Committed<SC>>,
    quotient: &Committed<SC>,
    degree_bits: &[usize],
    chunk_counts: &[usize],
    zeta: Challenge<SC>,
    challenger: &mut Challenger<SC>,
) -> Result<
    (Vec<OpenedValuesWithLookups<Challenge<SC>>>, PcsProof<SC>),
    ProvingError<PcsProverError<SC>>,
>
    requires plain { SC.Pcs.ZK ≡ false }
    requires traced { let b = ⟦<SC as Batches<A>>⟧.batch config.now instances.now common.now in
        IsTracedAll b }
    requires bits { let b = ⟦<SC as Batches<A>>⟧.batch config.now instances.now common.now in
        degree_bits.now ≡ b.degree_bits }
    requires chunks { let b = ⟦<SC as Batches<A>>⟧.batch config.now instances.now common.now in
        chunk_counts.now ≡ tabulate (table_count b) (λ i. 2 ^ log_parts_at b i) }
    requires preprocessed { let b = ⟦<SC as Batches<A>>⟧.batch config.now instances.now
        common.now in
        HasProverData (⟦<SC as ProverSettings>⟧.commits_to config.now) (preprocessed_all b)
        b.statement.common.preprocessed (option_map (λ d. d.now) preprocessed) }
    requires ready { let b = ⟦<SC as Batches<A>>⟧.batch config.now instances.now common.now in
        let k = ⟦<SC as ProverSettings>⟧.prover_backend config.now in
        IsReady k b (kept_of main.now quotient.now preprocessed permutation)
        (⟦<SC as ProverSettings>⟧.commits_to config.now) zeta challenger.old }
    ensures verdict { let b = ⟦<SC as Batches<A>>⟧.batch config.now instances.now common.now in
        let k = ⟦<SC as ProverSettings>⟧.prover_backend config.now in
        IsProverVerdict (opening_request_checks k b
        (kept_of main.now quotient.now preprocessed.entry permutation.entry)) result }
    ensures opened { let b = ⟦<SC as Batches<A>>⟧.batch config.now instances.now common.now in
        IfOk result (λ r. AreOpenedAll b r.0.items) }
    ensures proves { let b = ⟦<SC as Batches<A>>⟧.batch config.now instances.now common.now in
        let k = ⟦<SC as ProverSettings>⟧.prover_backend config.now in
        IfOk result (λ r. IsProofOfAsked k b
        (kept_of main.now quotient.now preprocessed.entry permutation.entry)
        (SC.Pcs.proves (SC.pcs_of config.now)) r.1) }
    ensures unchanged { KeepsState result challenger.new challenger.old }
    ensures after { let b = ⟦<SC as Batches<A>>⟧.batch config.now instances.now common.now in
        IfOk result (λ r. IsLeftAfter b
        (kept_of main.now quotient.now preprocessed.entry permutation.entry)
        (SC.Pcs.after_open (SC.pcs_of config.now)) challenger.new r.1) }
    ensures taken { let b = ⟦<SC as Batches<A>>⟧.batch config.now instances.now common.now in
        let k = ⟦<SC as ProverSettings>⟧.prover_backend config.now in
        IfOk result (λ r. IsTakenForAll k b (SC.Pcs.opens (SC.pcs_of config.now)) r.1) }
{
    let masks = config.is_zk();
    let requests = all_requests(
        alloc,
        main,
        quotient,
        preprocessed,
        permutation,
        instances,
        common,
        degree_bits,
        chunk_counts,
        masks,
        zeta,
    )?;
    let place = place_of(preprocessed);
    let (values, proof) = opened_requests(alloc, config, requests, place, challenger)?;
    let tables = opened_tables(alloc, values, preprocessed.is_some(), common, chunk_counts)?;
    Ok((tables, proof))
}
