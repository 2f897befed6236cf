//! The preprocessed traces of a batch's tables: their heights, their entries, and what is committed of them.
ghost use Rattle.std.specs.Prelude.{◌≡◌, ℕ, ◌-◌, ◌^◌, ◌<◌, ◌≤◌, ◌++◌, length, map, IfErr, IfOk};
ghost use Rattle.std.specs.Prelude.{slice_index_or as get_or};
ghost use Rattle.p3_field.specs.Checks.{in_turn};
ghost use Rattle.p3_field.specs.Poly.{tabulate};
ghost use Rattle.commit_core.specs.Commitments.{IsCommitment};
ghost use Rattle.batch_statement.specs.Statement.{with_entry};
ghost use Rattle.batch_setup.specs.Packed.{source_of};
ghost use Rattle.batch_setup.specs.Preprocessed.{height_checks, height_at, natural, on_domain, committed_below, trace_at, entry_with, entry_at, commit_checks, IsPrepared};
ghost use Rattle.batch_setup.specs.Verdict.{IsSetUp};

use crate::error::{ProverPhase, SetupError};
use crate::powers::power_of_two;
use crate::prover_data::Committed;
use air_core::{Air, BaseAir};
use batch_statement::{PreprocessedInstanceMeta, PreprocessedTraces};
use commit_core::{CosetPcs, Pcs, PcsFailure, PolynomialSpace, UnivariateStarkPcs};
use p3_field::{
    BasedVectorSpace, ExtensionField, Field, FieldCore, Mem, PrimeCharacteristicRing, PrimeCore64,
    PrimeField64, RingCore, TwoAdicCore, TwoAdicField, TwoAdicMultiplicativeCoset,
};
use p3_matrix::RowMajorMatrix;
use p3_uni_stark::{Commitment, Domain, PcsProverError, StarkGenericConfig, Val};
use std::alloc::Global;

// Whether a preprocessed trace has as many rows as its table.
#[tactic(auto, unfolding(p3_field::specs::Checks::NoneFails, p3_field::specs::Checks::FirstFails))]
fn check_height<F, E>(
    instance: usize,
    trace: &Option<RowMajorMatrix<F>>,
    bits: usize,
    masks: usize,
) -> Result<(), SetupError<E>>
    requires { bits < 64 }
    ensures verdict { IsSetUp (height_checks masks instance bits trace.now) result }
    ensures no_memory { IfErr result (λ e. e ≡ SetupError.PreprocessedHeight instance) }
{
    match trace {
        None => Ok(()),
        Some(trace) => {
            if trace.height() != power_of_two(bits.saturating_sub(masks)) {
                return Err(SetupError::PreprocessedHeight { instance });
            }
            Ok(())
        }
    }
}

// The preprocessed trace of a table.
fn table_trace<F: Field, A: BaseAir<F>, E>(
    alloc: Global,
    instance: usize,
    air: &A,
    bits: usize,
    masks: usize,
) -> Result<Option<RowMajorMatrix<F>>, SetupError<E>>
    requires { bits < 64 }
    ensures verdict { IsSetUp
        (height_checks masks instance bits (A.declaration air.now).preprocessed) result }
    ensures trace { IfOk result (λ t. t ≡ (A.declaration air.now).preprocessed) }
{
    let trace = air.preprocessed_trace(alloc)?;
    check_height(instance, &trace, bits, masks)?;
    Ok(trace)
}

// The entry of a table with such a trace, which is the matrix at this place.
fn entry_of<F>(
    trace: &Option<RowMajorMatrix<F>>,
    matrix_index: usize,
    bits: usize,
) -> Option<PreprocessedInstanceMeta>
    ensures { result ≡ entry_with matrix_index bits trace.now }
{
    match trace {
        None => None,
        Some(trace) => Some(PreprocessedInstanceMeta {
            matrix_index,
            width: trace.width(),
            degree_bits: bits,
        }),
    }
}

// The tables with an entry, in order.
fn tables_with_entry(alloc: Global, entries: &[Option<PreprocessedInstanceMeta>]) -> Mem<Vec<usize>>
    ensures { IfOk result (λ v. v.items ≡ with_entry 0 entries.now) }
{
    let mut tables = Vec::new(alloc);
    for i in 0..entries.len() {
        if let Some(_) = &entries[i] {
            tables.push(i)?;
        }
    }
    Ok(tables)
}

/// The subgroup of size 2^`log`, as a domain of the backend (not in Plonky3). There is one: `log` is at most the field's two-adicity,
/// and below 64.
pub fn natural_domain<SC: StarkGenericConfig>(config: &SC, log: usize) -> Domain<SC>
    requires fits { log < 64 }
    requires two_adic { log ≤ SC.Val.TWO_ADICITY }
    ensures { result ≡ natural SC.Val.ring.one log }
{
    config.pcs().natural_domain_for_degree(power_of_two(log))
}

// What is committed, and after it the trace, where there is one, on the natural domain of its extended degree.
fn with_trace<SC: StarkGenericConfig>(
    config: &SC,
    evaluations: Vec<(Domain<SC>, RowMajorMatrix<Val<SC>>)>,
    trace: Option<RowMajorMatrix<Val<SC>>>,
    bits: usize,
) -> Mem<Vec<(Domain<SC>, RowMajorMatrix<Val<SC>>)>>
    requires fits { bits < 64 }
    requires two_adic { bits ≤ SC.Val.TWO_ADICITY }
    ensures { IfOk result (λ v.
        v.items ≡ evaluations.items ++ on_domain SC.Val.ring.one bits trace) }
{
    match trace {
        None => Ok(evaluations),
        Some(trace) => {
            let mut evaluations = evaluations;
            let domain = natural_domain(config, bits);
            evaluations.push((domain, trace))?;
            Ok(evaluations)
        }
    }
}

// The preprocessed trace of one table of a batch.
fn trace_of_table<F: Field, A: Air<F>, E>(
    alloc: Global,
    instance: usize,
    airs: &[A],
    degree_bits: &[usize],
    masks: usize,
) -> Result<Option<RowMajorMatrix<F>>, SetupError<E>>
    requires airs { instance < length airs.now }
    requires bits { instance < length degree_bits.now }
    requires fits { get_or degree_bits.now instance 0 < 64 }
    ensures verdict { IsSetUp
        (height_at masks (map (source_of A.declaration A.trees A.interactions) airs.now)
        degree_bits.now instance) result }
    ensures trace { IfOk result
        (λ t. t ≡ trace_at (map (source_of A.declaration A.trees A.interactions) airs.now)
        instance) }
{
    table_trace(
        alloc,
        instance,
        &airs[instance],
        degree_bits[instance],
        masks,
    )
}

// The entries of a batch's tables, and what is committed of them. The answer is `PreprocessedHeight` exactly for the first
// table whose preprocessed trace has another height than the table.
fn batch_traces<SC: StarkGenericConfig, A: Air<Val<SC>>, R>(
    alloc: Global,
    config: &SC,
    airs: &[A],
    degree_bits: &[usize],
    masks: usize,
) -> Result<
    (
        Vec<Option<PreprocessedInstanceMeta>>,
        Vec<(Domain<SC>, RowMajorMatrix<Val<SC>>)>,
    ),
    SetupError<R>,
>
    requires bits { length degree_bits.now ≡ length airs.now }
    requires fits { (i : ℕ) → i < length airs.now → get_or degree_bits.now i 0 < 64 }
    requires two_adic { (i : ℕ) → i < length airs.now
        → get_or degree_bits.now i 0 ≤ SC.Val.TWO_ADICITY }
    ensures verdict { IsSetUp
        (in_turn (length airs.now)
        (height_at masks (map (source_of A.declaration A.trees A.interactions) airs.now)
        degree_bits.now)) result }
    ensures entries { IfOk result
        (λ p. p.0.items ≡ tabulate (length airs.now)
        (entry_at SC.Val.ring.one (map (source_of A.declaration A.trees A.interactions) airs.now)
        degree_bits.now)) }
    ensures committed { IfOk result
        (λ p. p.1.items ≡ committed_below SC.Val.ring.one
        (map (source_of A.declaration A.trees A.interactions) airs.now) degree_bits.now
        (length airs.now)) }
{
    let mut entries = Vec::new(alloc);
    let mut evaluations = Vec::new(alloc);
    for instance in 0..airs.len() {
        let bits = degree_bits[instance];
        let trace = trace_of_table(alloc, instance, airs, degree_bits, masks)?;
        entries.push(entry_of(&trace, evaluations.len(), bits))?;
        evaluations = with_trace(config, evaluations, trace, bits)?;
    }
    Ok((entries, evaluations))
}

// The commitment to what is given, with these entries, and its prover data. Of nothing there is neither. The answer is
// `Pcs` exactly where the backend refuses.
fn committed<SC: StarkGenericConfig>(
    alloc: Global,
    config: &SC,
    entries: Vec<Option<PreprocessedInstanceMeta>>,
    evaluations: Vec<(Domain<SC>, RowMajorMatrix<Val<SC>>)>,
) -> Result<
    (
        Option<PreprocessedTraces<Commitment<SC>>>,
        Option<Committed<SC>>,
    ),
    SetupError<PcsProverError<SC>>,
>
    ensures verdict { IsSetUp
        (commit_checks (SC.Pcs.commit_fault (SC.pcs_of config.now)) evaluations.items) result }
    ensures data { IfOk result (λ w. IsPrepared
        (λ es p. IsCommitment SC.Val.ring
        ⟦<<SC::Pcs as Pcs<SC::Challenge, SC::Challenger>>::Domain as PolynomialSpace>⟧.points
        ⟦<<SC::Pcs as Pcs<SC::Challenge, SC::Challenger>>::Domain as PolynomialSpace>⟧.point_at
        (SC.Pcs.commits (SC.pcs_of config.now))
        (SC.Pcs.made (SC.pcs_of config.now)) (SC.Pcs.holds (SC.pcs_of config.now)) es p)
        entries.items evaluations.items w.0 w.1) }
{
    if evaluations.is_empty() {
        return Ok((None, None));
    }
    let matrix_to_instance = tables_with_entry(alloc, &entries)?;
    match config.pcs().commit_preprocessing(alloc, evaluations) {
        Ok((commitment, data)) => {
            let traces = PreprocessedTraces {
                commitment,
                instances: entries,
                matrix_to_instance,
            };
            Ok((Some(traces), Some(data)))
        }
        Err(PcsFailure::OutOfMemory) => Err(SetupError::OutOfMemory),
        Err(PcsFailure::Refused(source)) => Err(SetupError::Pcs {
            phase: ProverPhase::PreprocessingCommitment,
            source,
        }),
    }
}

// The commitment to the preprocessed traces of a batch's tables, and its prover data.
pub(crate) fn prepared<SC: StarkGenericConfig, A: Air<Val<SC>>>(
    alloc: Global,
    config: &SC,
    airs: &[A],
    degree_bits: &[usize],
    masks: usize,
) -> Result<
    (
        Option<PreprocessedTraces<Commitment<SC>>>,
        Option<Committed<SC>>,
    ),
    SetupError<PcsProverError<SC>>,
>
    requires bits { length degree_bits.now ≡ length airs.now }
    requires fits { (i : ℕ) → i < length airs.now → get_or degree_bits.now i 0 < 64 }
    requires two_adic { (i : ℕ) → i < length airs.now
        → get_or degree_bits.now i 0 ≤ SC.Val.TWO_ADICITY }
    ensures verdict { let sources = map (source_of A.declaration A.trees A.interactions) airs.now in
        IsSetUp (in_turn (length airs.now) (height_at masks sources degree_bits.now)
        ++ commit_checks (SC.Pcs.commit_fault (SC.pcs_of config.now))
        (committed_below SC.Val.ring.one sources degree_bits.now (length airs.now))) result }
    ensures data { let sources = map (source_of A.declaration A.trees A.interactions) airs.now in
        IfOk result (λ w. IsPrepared
        (λ es p. IsCommitment SC.Val.ring
        ⟦<<SC::Pcs as Pcs<SC::Challenge, SC::Challenger>>::Domain as PolynomialSpace>⟧.points
        ⟦<<SC::Pcs as Pcs<SC::Challenge, SC::Challenger>>::Domain as PolynomialSpace>⟧.point_at
        (SC.Pcs.commits (SC.pcs_of config.now))
        (SC.Pcs.made (SC.pcs_of config.now)) (SC.Pcs.holds (SC.pcs_of config.now)) es p)
        (tabulate (length airs.now) (entry_at SC.Val.ring.one sources degree_bits.now))
        (committed_below SC.Val.ring.one sources degree_bits.now (length airs.now)) w.0 w.1) }
{
    let (entries, evaluations) = batch_traces(alloc, config, airs, degree_bits, masks)?;
    committed(alloc, config, entries, evaluations)
}
