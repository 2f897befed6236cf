//! The quotients of a batch, and their commitment.
ghost use Rattle.std.specs.Prelude.{◌≡◌, ℕ, ◌<◌, ◌++◌, [], IfOk, length, map, Option, false};
ghost use Rattle.std.specs.Option.{option_map};
ghost use Rattle.p3_field.specs.Checks.{in_turn};
ghost use Rattle.commit_core.specs.Commitments.{AreExtensions, IsCommitment};
ghost use Rattle.p3_lookup.specs.Written.{read_all};
ghost use Rattle.p3_field.specs.Domain.{CosetData};
ghost use Rattle.p3_matrix.specs.Matrix.{Rows};
ghost use Rattle.std.specs.Prelude.{List};
ghost use Rattle.law_honest.specs.HonestProof.{terminals as honest_terminals};
ghost use Rattle.prover_answer.specs.Batch.{HasProverData, IsTracedAll, all_challenges, all_chunks, all_permutations, folding, log_parts_at, main_matrices, preprocessed_all, table_count};
ghost use Rattle.prover_answer.specs.Proving.{IsPairGroundOf, extension_part, quotient_part};
ghost use Rattle.prover_answer.specs.Verdict.{IsProverAnswer, IsProverVerdict};
ghost use Rattle.prover_quotients.specs.Asked.{committing, extending, extending_at};
ghost use Rattle.prover_quotients.specs.Places.{permutation_matrix_place};
ghost use Rattle.prover_quotients.specs.Tables.{AreGiven, HasProverDataOfSome, chunks_below, chunks_by};

use crate::places::{Places, permutation_places, preprocessed_place};
use crate::table::table_chunks;
use air_core::{Air, BaseAir};
use batch_setup::{Committed, StarkInstance};
use batch_statement::CommonData;
use commit_core::{CosetPcs, Pcs, PcsFailure, PolynomialSpace, UnivariateStarkPcs};
use p3_field::{
    BasedVectorSpace, ExtensionField, Field, FieldCore, Mem, PrimeCharacteristicRing, PrimeCore64,
    PrimeField64, RingCore, TwoAdicCore, TwoAdicField,
};
use p3_lookup::LookupTerminal;
use p3_matrix::RowMajorMatrix;
use p3_uni_stark::{Challenge, Commitment, Domain, PcsProverError, StarkGenericConfig, Val};
use prover_answer::{Batches, ProverPhase, ProverSettings, ProvingError};
use std::alloc::Global;

// The chunks of the quotient of one table of a batch, whose permutation columns stand at this place.
fn chunks_at<SC: StarkGenericConfig, A: Air<Val<SC>>>(
    alloc: Global,
    config: &SC,
    instances: &[StarkInstance<'_, SC, A>],
    common: &CommonData<SC>,
    preprocessed: Option<&Committed<SC>>,
    main: &Committed<SC>,
    permutation: Option<&Committed<SC>>,
    challenges: &[Vec<Challenge<SC>>],
    terminals: &[Option<LookupTerminal<Challenge<SC>>>],
    alpha: Challenge<SC>,
    index: usize,
    place: Option<usize>,
) -> Mem<Vec<(Domain<SC>, RowMajorMatrix<Val<SC>>)>>
    requires plain { SC.Pcs.ZK ≡ false }
    requires traced { let b = ⟦<SC as Batches<A>>⟧.batch config.now instances.now common.now in
        IsTracedAll b }
    requires given { let b = ⟦<SC as Batches<A>>⟧.batch config.now instances.now common.now in
        AreGiven b (map (λ v. v.items) challenges.now)
        (⟦<SC as ProverSettings>⟧.prover_backend config.now) (option_map (λ d. d.now) preprocessed)
        main.now
        (option_map (λ d. d.now) permutation) (map (option_map (λ t. t.0)) terminals.now) }
    requires index { index < length instances.now }
    requires place { place ≡ permutation_matrix_place (map read_all common.now.lookups) index }
    ensures { let b = ⟦<SC as Batches<A>>⟧.batch config.now instances.now common.now in
        IfOk result (λ v. v.items ≡ chunks_by b (map (λ v. v.items) challenges.now) alpha index) }
{
    let places = Places {
        main: index,
        preprocessed: preprocessed_place(common, index, instances.len()),
        permutation: place,
    };
    table_chunks(
        alloc,
        config,
        &instances[index],
        &common.lookups[index],
        preprocessed,
        main,
        permutation,
        places,
        &challenges[index],
        &terminals[index],
        alpha,
    )
}

// The extensions of the chunks of one quotient.
#[tactic(auto, unfolding(p3_field::specs::Checks::NoneFails, p3_field::specs::Checks::FirstFails))]
fn extended<SC: StarkGenericConfig>(
    alloc: Global,
    config: &SC,
    chunks: Vec<(Domain<SC>, RowMajorMatrix<Val<SC>>)>,
    count: usize,
) -> Result<Vec<RowMajorMatrix<Val<SC>>>, ProvingError<PcsProverError<SC>>>
    ensures verdict { IsProverVerdict
        (extending (⟦<SC as ProverSettings>⟧.prover_backend config.now) chunks.items count) result }
    ensures extensions { IfOk result
        (λ v. AreExtensions (SC.Pcs.extends (SC.pcs_of config.now)) chunks.items v.items) }
{
    match config.pcs().get_quotient_ldes(alloc, chunks, count) {
        Ok(ldes) => Ok(ldes),
        Err(PcsFailure::OutOfMemory) => Err(ProvingError::OutOfMemory),
        Err(PcsFailure::Refused(source)) => Err(ProvingError::Pcs {
            phase: ProverPhase::QuotientEvaluations,
            source,
        }),
    }
}

// The extensions of the chunks of one table's quotient.
fn extensions_at<SC: StarkGenericConfig, A: Air<Val<SC>>>(
    alloc: Global,
    config: &SC,
    instances: &[StarkInstance<'_, SC, A>],
    common: &CommonData<SC>,
    preprocessed: Option<&Committed<SC>>,
    main: &Committed<SC>,
    permutation: Option<&Committed<SC>>,
    challenges: &[Vec<Challenge<SC>>],
    terminals: &[Option<LookupTerminal<Challenge<SC>>>],
    alpha: Challenge<SC>,
    index: usize,
    place: Option<usize>,
) -> Result<Vec<RowMajorMatrix<Val<SC>>>, ProvingError<PcsProverError<SC>>>
    requires plain { SC.Pcs.ZK ≡ false }
    requires traced { let b = ⟦<SC as Batches<A>>⟧.batch config.now instances.now common.now in
        IsTracedAll b }
    requires given { let b = ⟦<SC as Batches<A>>⟧.batch config.now instances.now common.now in
        AreGiven b (map (λ v. v.items) challenges.now)
        (⟦<SC as ProverSettings>⟧.prover_backend config.now) (option_map (λ d. d.now) preprocessed)
        main.now
        (option_map (λ d. d.now) permutation) (map (option_map (λ t. t.0)) terminals.now) }
    requires index { index < length instances.now }
    requires place { place ≡ permutation_matrix_place (map read_all common.now.lookups) index }
    ensures verdict { let b = ⟦<SC as Batches<A>>⟧.batch config.now instances.now common.now in
        IsProverVerdict (extending_at (⟦<SC as ProverSettings>⟧.prover_backend config.now) b
        (map (λ v. v.items) challenges.now) alpha index) result }
    ensures extensions { let b = ⟦<SC as Batches<A>>⟧.batch config.now instances.now common.now in
        IfOk result (λ v. AreExtensions (SC.Pcs.extends (SC.pcs_of config.now))
        (chunks_by b (map (λ v. v.items) challenges.now) alpha index) v.items) }
{
    let chunks = chunks_at(
        alloc,
        config,
        instances,
        common,
        preprocessed,
        main,
        permutation,
        challenges,
        terminals,
        alpha,
        index,
        place,
    )?;
    let count = chunks.len();
    extended(alloc, config, chunks, count)
}

// The extensions of the chunks of all quotients, one table after the other.
fn all_extensions<SC: StarkGenericConfig, A: Air<Val<SC>>>(
    alloc: Global,
    config: &SC,
    instances: &[StarkInstance<'_, SC, A>],
    common: &CommonData<SC>,
    preprocessed: Option<&Committed<SC>>,
    main: &Committed<SC>,
    permutation: Option<&Committed<SC>>,
    challenges: &[Vec<Challenge<SC>>],
    terminals: &[Option<LookupTerminal<Challenge<SC>>>],
    alpha: Challenge<SC>,
) -> Result<Vec<RowMajorMatrix<Val<SC>>>, ProvingError<PcsProverError<SC>>>
    requires plain { SC.Pcs.ZK ≡ false }
    requires traced { let b = ⟦<SC as Batches<A>>⟧.batch config.now instances.now common.now in
        IsTracedAll b }
    requires given { let b = ⟦<SC as Batches<A>>⟧.batch config.now instances.now common.now in
        AreGiven b (map (λ v. v.items) challenges.now)
        (⟦<SC as ProverSettings>⟧.prover_backend config.now) (option_map (λ d. d.now) preprocessed)
        main.now
        (option_map (λ d. d.now) permutation) (map (option_map (λ t. t.0)) terminals.now) }
    ensures verdict { let b = ⟦<SC as Batches<A>>⟧.batch config.now instances.now common.now in
        IsProverVerdict (in_turn (length instances.now)
        (extending_at (⟦<SC as ProverSettings>⟧.prover_backend config.now) b
        (map (λ v. v.items) challenges.now) alpha)) result }
    ensures extensions { let b = ⟦<SC as Batches<A>>⟧.batch config.now instances.now common.now in
        IfOk result (λ v. AreExtensions (SC.Pcs.extends (SC.pcs_of config.now))
        (chunks_below b (map (λ v. v.items) challenges.now) alpha (length instances.now)) v.items) }
{
    let places = permutation_places(alloc, &common.lookups)?;
    let mut ldes = Vec::new(alloc);
    for index in 0..instances.len() {
        let mut own = extensions_at(
            alloc,
            config,
            instances,
            common,
            preprocessed,
            main,
            permutation,
            challenges,
            terminals,
            alpha,
            index,
            places[index],
        )?;
        ldes.append(&mut own)?;
    }
    Ok(ldes)
}

// The commitment to these extensions, and its prover data.
#[tactic(auto, unfolding(p3_field::specs::Checks::NoneFails, p3_field::specs::Checks::FirstFails))]
fn committed<SC: StarkGenericConfig>(
    alloc: Global,
    config: &SC,
    ldes: Vec<RowMajorMatrix<Val<SC>>>,
) -> Result<(Commitment<SC>, Committed<SC>), ProvingError<PcsProverError<SC>>>
    ensures verdict { IsProverVerdict
        (committing (⟦<SC as ProverSettings>⟧.prover_backend config.now) ldes.items) result }
    ensures committed { IfOk result
        (λ w. (chunks : List (CosetData SC.Val × Rows SC.Val))
        → AreExtensions (SC.Pcs.extends (SC.pcs_of config.now)) chunks ldes.items
        → IsCommitment SC.Val.ring
        ⟦<<SC::Pcs as Pcs<SC::Challenge, SC::Challenger>>::Domain as PolynomialSpace>⟧.points
        ⟦<<SC::Pcs as Pcs<SC::Challenge, SC::Challenger>>::Domain as PolynomialSpace>⟧.point_at
        (SC.Pcs.commits (SC.pcs_of config.now))
        (SC.Pcs.made (SC.pcs_of config.now)) (SC.Pcs.holds (SC.pcs_of config.now)) chunks w) }
{
    match config.pcs().commit_ldes(alloc, ldes) {
        Ok(kept) => Ok(kept),
        Err(PcsFailure::OutOfMemory) => Err(ProvingError::OutOfMemory),
        Err(PcsFailure::Refused(source)) => Err(ProvingError::Pcs {
            phase: ProverPhase::QuotientCommitment,
            source,
        }),
    }
}

/// The commitment to the quotients' chunks of a batch, with the prover data of them (not in Plonky3; a part of `prove_batch` of
/// `p3-batch-stark`): table by table the values of its columns on the domain of its quotient, the values there of the quotient, which are split
/// in chunks, and their extensions; and one commitment to all. The chunks are those of the honest quotients, in the order of the tables
/// (`committed`).
///
/// The batch is traced, and nothing is masked. What is kept of the preprocessed traces and of the traces is that of commitments to them, and so
/// is what is kept of the permutation columns, where there are some. The challenges of the tables' lookups, the terminals and `alpha` are those
/// of an honest proof for the grinding value before the lookups' pair, which is one.
///
/// The answer is `Pcs` with `QuotientEvaluations` for the first table whose chunks the backend refuses to extend, and where it extends all,
/// `Pcs` with `QuotientCommitment` where it refuses to commit to the extensions that it gave (`verdict`). Out of memory may come in place of any
/// answer.
pub fn commit_quotients<SC: StarkGenericConfig, A: Air<Val<SC>>>(
    alloc: Global,
    config: &SC,
    instances: &[StarkInstance<'_, SC, A>],
    common: &CommonData<SC>,
    preprocessed: Option<&Committed<SC>>,
    main: &Committed<SC>,
    permutation: Option<&Committed<SC>>,
    challenges: &[Vec<Challenge<SC>>],
    terminals: &[Option<LookupTerminal<Challenge<SC>>>],
    alpha: Challenge<SC>,
) -> Result<(Commitment<SC>, Committed<SC>), ProvingError<PcsProverError<SC>>>
    requires plain { SC.Pcs.ZK ≡ false }
    requires traced { let b = ⟦<SC as Batches<A>>⟧.batch config.now instances.now common.now in
        IsTracedAll b }
    requires preprocessed { let b = ⟦<SC as Batches<A>>⟧.batch config.now instances.now
        common.now in HasProverData (⟦<SC as ProverSettings>⟧.commits_to config.now)
        (preprocessed_all b) b.statement.common.preprocessed
        (option_map (λ d. d.now) preprocessed) }
    requires main { let b = ⟦<SC as Batches<A>>⟧.batch config.now instances.now common.now in
        (commitment : SC.Pcs.Commitment)
        × ⟦<SC as ProverSettings>⟧.commits_to config.now (main_matrices b) (commitment, main.now) }
    requires drawn { let b = ⟦<SC as Batches<A>>⟧.batch config.now instances.now common.now in
        (w : Option SC.Val) × IsPairGroundOf b w
        × (map (λ v. v.items) challenges.now ≡ all_challenges b w)
        × (map (option_map (λ t. t.0)) terminals.now
        ≡ honest_terminals b.setting b.prover b.statement b.traces b.degree_bits w)
        × (alpha ≡ folding b w)
        × HasProverDataOfSome (⟦<SC as ProverSettings>⟧.commits_to config.now)
        (all_permutations b w) (option_map (λ d. d.now) permutation) }
    ensures verdict { let b = ⟦<SC as Batches<A>>⟧.batch config.now instances.now common.now in
        let k = ⟦<SC as ProverSettings>⟧.prover_backend config.now in
        IsProverAnswer (in_turn (table_count b) (extension_part k b) ++ quotient_part k b) result }
    ensures committed { let b = ⟦<SC as Batches<A>>⟧.batch config.now instances.now common.now in
        IfOk result (λ c. (w : Option SC.Val) → IsPairGroundOf b w
        → ⟦<SC as ProverSettings>⟧.commits_to config.now (all_chunks b w) c) }
{
    let ldes = all_extensions(
        alloc,
        config,
        instances,
        common,
        preprocessed,
        main,
        permutation,
        challenges,
        terminals,
        alpha,
    )?;
    committed(alloc, config, ldes)
}
