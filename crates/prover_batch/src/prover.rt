//! The prover of a batch.
ghost use Rattle.std.specs.Prelude.{◌≡◌, ◌++◌, ◌^◌, ◌<◌, ℕ, false, IfOk, None, length, map, option_map};
ghost use Rattle.p3_field.specs.Checks.{in_turn};
ghost use Rattle.batch_transcript.specs.BatchScript.{from_lookup};
ghost use Rattle.law_valid.specs.Valid.{Valid};
ghost use Rattle.verifier_batch.specs.BatchChecks.{Accepted};
ghost use Rattle.law_acceptance.specs.Honest.{HaveFewRows, IsOutsideRows};
ghost use Rattle.law_acceptance.specs.Quotients.{HaveFoldQuotients};
ghost use Rattle.law_honest.specs.HonestProof.{IsHonest};
ghost use Rattle.prover_answer.specs.Batch.{CommitsToSome, HasProverData, IsTracedAll, all_chunks, all_permutations, main_matrices, preprocessed_all, table_at, table_count};
ghost use Rattle.prover_answer.specs.Proving.{AvoidsExcluded, HaveFractionsFor, IsGroundOf, IsHonestProof, extension_part, fraction_part, lookup_part, ood_part, opening_part, permutation_part, proving_checks, quotient_part};
ghost use Rattle.prover_answer.specs.Verdict.{IsProverAnswer, IsProverVerdict};
ghost use Rattle.prover_batch.specs.Stages.{main_of, pair_state, permutation_commitment, point_of, quotient_of, shape_of, state_of_opening, terminals_of};

use crate::{LookupStage, QuotientStage, bound_transcript, data_of, drawn_stages};
use air_core::{Air, BaseAir};
use batch_config::Settings;
use batch_setup::{Committed, ProverData, StarkInstance, degree_bits};
use batch_statement::{
    BatchCommitments, BatchOpenedValues, BatchProof, OpenedValuesWithLookups, TablesProof,
};
use commit_core::{CosetPcs, Pcs, PolynomialSpace, UnivariateStarkPcs};
use p3_challenger::{CanObserve, CanSample, CanSampleBits, GrindingChallenger};
use p3_field::{
    BasedVectorSpace, ExtensionField, Field, FieldCore, PrimeCharacteristicRing, PrimeCore64,
    PrimeField64, RingCore, TwoAdicCore, TwoAdicField,
};
use p3_uni_stark::{Challenge, Commitment, PcsProverError, StarkGenericConfig, Val};
use prover_answer::{Batches, ProverSettings, ProvingError};
use prover_commits::{check_bound, commit_traces};
use prover_openings::open_batch;
use std::alloc::Global;

// The proof of what the stages gave.
fn assembled<F: Drop, E: Drop, Com: Drop, PD: Drop, Opening>(
    bits: Vec<usize>,
    main: Com,
    lookups: LookupStage<F, E, Com, PD>,
    quotients: QuotientStage<F, E, Com, PD>,
    opened: Vec<OpenedValuesWithLookups<E>>,
    opening_proof: Opening,
) -> TablesProof<F, E, Com, Opening>
    ensures { result ≡ record {
      commitments = record {
        main = main;
        permutation = option_map (λ c. c.0) lookups.permutation;
        quotient_chunks = quotients.commitment;
        random = None;
      };
      instances = opened.items;
      opening_proof = opening_proof;
      lookup_terminals = map (option_map (λ t. t.0)) lookups.terminals.items;
      degree_bits = bits.items;
      lookup_pow_witness = lookups.witness;
      ood_pow_witness = quotients.witness;
    } }
{
    TablesProof {
        commitments: BatchCommitments {
            main,
            permutation: lookups.permutation.map(|(commitment, _)| commitment),
            quotient_chunks: quotients.commitment,
            random: None,
        },
        opened_values: BatchOpenedValues { instances: opened },
        opening_proof,
        lookup_terminals: lookups.terminals,
        degree_bits: bits,
        lookup_pow_witness: lookups.witness,
        ood_pow_witness: quotients.witness,
    }
}

/// Proves a batch of tables as `prove_batch` does, and gives with the proof the point of its openings (not in Plonky3), which a caller
/// may look at without drawing it again.
pub fn prove_batch_with_point<SC: StarkGenericConfig, A: Air<Val<SC>>>(
    alloc: Global,
    config: &SC,
    instances: &[StarkInstance<'_, SC, A>],
    prover_data: &ProverData<SC>,
) -> Result<(BatchProof<SC>, Challenge<SC>), ProvingError<PcsProverError<SC>>>
    requires plain { SC.Pcs.ZK ≡ false }
    requires traced { let b = ⟦<SC as Batches<A>>⟧.batch config.now instances.now
        prover_data.now.common in IsTracedAll b }
    requires prover_data { let b = ⟦<SC as Batches<A>>⟧.batch config.now instances.now
        prover_data.now.common in
        HasProverData (⟦<SC as ProverSettings>⟧.commits_to config.now) (preprocessed_all b)
        b.statement.common.preprocessed prover_data.now.prover_only.preprocessed_prover_data }
    ensures verdict { let b = ⟦<SC as Batches<A>>⟧.batch config.now instances.now
        prover_data.now.common in let k = ⟦<SC as ProverSettings>⟧.prover_backend config.now in
        IsProverAnswer (proving_checks k b) result }
    ensures first { let b = ⟦<SC as Batches<A>>⟧.batch config.now instances.now
        prover_data.now.common in let k = ⟦<SC as ProverSettings>⟧.prover_backend config.now in
        IsProverVerdict (proving_checks k b) result }
    ensures proved { let b = ⟦<SC as Batches<A>>⟧.batch config.now instances.now
        prover_data.now.common in let k = ⟦<SC as ProverSettings>⟧.prover_backend config.now in
        IfOk result (λ r. IsHonestProof k b r.0) }
    ensures accepted { let b = ⟦<SC as Batches<A>>⟧.batch config.now instances.now
        prover_data.now.common in let k = ⟦<SC as ProverSettings>⟧.prover_backend config.now in
        IfOk result (λ r. HaveFewRows b.setting b.statement b.traces b.degree_bits
        → Valid b.setting SC.Val.eq b.prover.commitment_of b.statement b.traces b.degree_bits
        → ((i : ℕ) → i < length instances.now
        → IsOutsideRows b.setting (table_at b i)
        (point_of b r.0.lookup_pow_witness r.0.ood_pow_witness))
        → AvoidsExcluded k b r.0.lookup_pow_witness r.0.ood_pow_witness
        → Accepted b.setting (⟦<SC as Settings>⟧.backend config.now) b.statement r.0) }
    ensures quotients { let b = ⟦<SC as Batches<A>>⟧.batch config.now instances.now
        prover_data.now.common in
        IfOk result (λ r. HaveFewRows b.setting b.statement b.traces b.degree_bits
        → Valid b.setting SC.Val.eq b.prover.commitment_of b.statement b.traces b.degree_bits
        → HaveFoldQuotients b.setting b.prover b.statement b.traces b.degree_bits
        r.0.lookup_pow_witness) }
    ensures point { let b = ⟦<SC as Batches<A>>⟧.batch config.now instances.now
        prover_data.now.common in
        IfOk result (λ r. r.1 ≡ point_of b r.0.lookup_pow_witness r.0.ood_pow_witness) }
{
    let common = &prover_data.common;
    check_bound(alloc, config, instances, common)?;
    let (main, main_data) = commit_traces(alloc, config, instances, common)?;
    let bits = degree_bits(alloc, instances, config.is_zk())?;
    let mut transcript = bound_transcript(alloc, config, instances, common, &bits, &main)?;
    let drawn = drawn_stages(
        alloc,
        config,
        instances,
        prover_data,
        &main_data,
        &mut transcript,
    );
    let mut challenger = transcript.abort();
    let (lookups, quotients) = drawn?;
    let (opened, opening_proof) = open_batch(
        alloc,
        config,
        instances,
        common,
        prover_data.prover_only.preprocessed_prover_data.as_ref(),
        &main_data,
        data_of(&lookups.permutation),
        &quotients.data,
        quotients.zeta,
        &mut challenger,
    )?;
    let zeta = quotients.zeta;
    let proof = assembled(bits, main, lookups, quotients, opened, opening_proof);
    Ok((proof, zeta))
}

/// Proves a batch of tables (`prove_batch` of `p3-batch-stark`).
///
/// The refusal is that of the first check that fails (`first`): the checks before it hold, and it says why (`verdict`). In
/// the order of the work they are (`proving_checks`):
///
/// - `MultiplicityBound`: on this bus, and on none before it, the counts, each as large as it is trusted to be, may add up to the
///   order of the field;
/// - `Pcs` of `TraceCommitment`: the backend refuses to commit to the traces;
/// - `WitnessNotFound` of `Lookup`: some table has lookups, and no element passes the grinding before their challenges;
/// - `LookupDenominatorZero`: a denominator is zero, the first by tables and then by rows;
/// - `Pcs` of `PermutationCommitment`, of `QuotientEvaluations` and of `QuotientCommitment`: the backend refuses to commit to the
///   permutation columns, to extend the chunks of a table's quotient, or to commit to these;
/// - `WitnessNotFound` of `Ood`: no element passes the grinding before the point is drawn;
/// - `Pcs` of `Opening`: the backend refuses to open.
///
/// Where none fails it is the honest proof, with the backend's proof of its openings (`proved`): so of a valid statement it is a proof
/// that `verify_batch` accepts, unless the point lies on the rows of a table, or the point or a next point is one that the backend
/// excludes (`accepted`), where each table has fewer than 2^63 rows. Then the quotient that the chunks of each table are parts of is at every
/// point that of the fold of its constraints by the vanishing polynomial of its rows (`quotients`). Out of memory may come in place of any
/// answer.
///
/// The backend masks nothing. The batch is traced: the common data is well-formed, with these tables' degree bits and the commitment
/// to their preprocessed traces; widths, heights and numbers of public values are as declared; heights are powers of two within the
/// backend's bounds; periodic columns fit; the quotients' domains exist. The prover data belongs to that commitment. The constraints need
/// not hold; no clause says that what is proved then is refused.
pub fn prove_batch<SC: StarkGenericConfig, A: Air<Val<SC>>>(
    alloc: Global,
    config: &SC,
    instances: &[StarkInstance<'_, SC, A>],
    prover_data: &ProverData<SC>,
) -> Result<BatchProof<SC>, ProvingError<PcsProverError<SC>>>
    requires plain { SC.Pcs.ZK ≡ false }
    requires traced { let b = ⟦<SC as Batches<A>>⟧.batch config.now instances.now
        prover_data.now.common in IsTracedAll b }
    requires prover_data { let b = ⟦<SC as Batches<A>>⟧.batch config.now instances.now
        prover_data.now.common in
        HasProverData (⟦<SC as ProverSettings>⟧.commits_to config.now) (preprocessed_all b)
        b.statement.common.preprocessed prover_data.now.prover_only.preprocessed_prover_data }
    ensures verdict { let b = ⟦<SC as Batches<A>>⟧.batch config.now instances.now
        prover_data.now.common in let k = ⟦<SC as ProverSettings>⟧.prover_backend config.now in
        IsProverAnswer (proving_checks k b) result }
    ensures first { let b = ⟦<SC as Batches<A>>⟧.batch config.now instances.now
        prover_data.now.common in let k = ⟦<SC as ProverSettings>⟧.prover_backend config.now in
        IsProverVerdict (proving_checks k b) result }
    ensures proved { let b = ⟦<SC as Batches<A>>⟧.batch config.now instances.now
        prover_data.now.common in let k = ⟦<SC as ProverSettings>⟧.prover_backend config.now in
        IfOk result (IsHonestProof k b) }
    ensures accepted { let b = ⟦<SC as Batches<A>>⟧.batch config.now instances.now
        prover_data.now.common in let k = ⟦<SC as ProverSettings>⟧.prover_backend config.now in
        IfOk result (λ q. HaveFewRows b.setting b.statement b.traces b.degree_bits
        → Valid b.setting SC.Val.eq b.prover.commitment_of b.statement b.traces b.degree_bits
        → ((i : ℕ) → i < length instances.now
        → IsOutsideRows b.setting (table_at b i)
        (point_of b q.lookup_pow_witness q.ood_pow_witness))
        → AvoidsExcluded k b q.lookup_pow_witness q.ood_pow_witness
        → Accepted b.setting (⟦<SC as Settings>⟧.backend config.now) b.statement q) }
    ensures quotients { let b = ⟦<SC as Batches<A>>⟧.batch config.now instances.now
        prover_data.now.common in
        IfOk result (λ q. HaveFewRows b.setting b.statement b.traces b.degree_bits
        → Valid b.setting SC.Val.eq b.prover.commitment_of b.statement b.traces b.degree_bits
        → HaveFoldQuotients b.setting b.prover b.statement b.traces b.degree_bits
        q.lookup_pow_witness) }
{
    let (proof, _point) = prove_batch_with_point(alloc, config, instances, prover_data)?;
    Ok(proof)
}
