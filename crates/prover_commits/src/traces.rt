//! The commitment to the traces of a batch.
ghost use Rattle.std.specs.Prelude.{◌≡◌, ◌^◌, ◌≤◌, false, map, All, IfOk};
ghost use Rattle.std.specs.Int.{IsPowerOfTwo};
ghost use Rattle.p3_field.specs.Domain.{subgroup};
ghost use Rattle.p3_matrix.specs.Matrix.{height};
ghost use Rattle.batch_setup.specs.Setup.{ArePowers, log_of};
ghost use Rattle.prover_answer.specs.Batch.{IsTracedAll, main_matrices};
ghost use Rattle.prover_answer.specs.Proving.{trace_part};
ghost use Rattle.prover_answer.specs.Verdict.{IsProverVerdict};

use crate::commitment::commit_matrices;
use crate::domains::rows_domain;
use air_core::{Air, BaseAir};
use batch_setup::{Committed, ProverPhase, StarkInstance};
use batch_statement::CommonData;
use commit_core::{CosetPcs, Pcs, PolynomialSpace, UnivariateStarkPcs};
use p3_field::{
    BasedVectorSpace, ExtensionField, Field, FieldCore, Mem, PrimeCharacteristicRing, PrimeCore64,
    PrimeField64, RingCore, TwoAdicCore, TwoAdicField,
};
use p3_matrix::RowMajorMatrix;
use p3_uni_stark::{Commitment, Domain, PcsProverError, StarkGenericConfig, Val};
use prover_answer::{Batches, ProverSettings, ProvingError};
use std::alloc::Global;

// A copy of a trace, on the domain of its rows.
fn on_rows<SC: StarkGenericConfig>(
    alloc: Global,
    config: &SC,
    trace: &RowMajorMatrix<Val<SC>>,
) -> Mem<(Domain<SC>, RowMajorMatrix<Val<SC>>)>
    requires power { IsPowerOfTwo (height trace.now) }
    requires fits { height trace.now ≤ 2 ^ SC.Val.TWO_ADICITY }
    ensures { IfOk result (λ p. p ≡ (subgroup SC.Val.ring (log_of (height trace.now)), trace.now)) }
{
    let copy = trace.try_clone(alloc)?;
    Ok((rows_domain(config, trace.height()), copy))
}

// Copies of the instances' traces, each on the domain of its rows, in order.
fn traces_on_rows<SC: StarkGenericConfig, A: Air<Val<SC>>>(
    alloc: Global,
    config: &SC,
    instances: &[StarkInstance<'_, SC, A>],
) -> Mem<Vec<(Domain<SC>, RowMajorMatrix<Val<SC>>)>>
    requires powers { ArePowers instances.now }
    requires fit { All (λ i. height i.trace ≤ 2 ^ SC.Val.TWO_ADICITY) instances.now }
    ensures { IfOk result (λ v.
        v.items ≡ map (λ i. (subgroup SC.Val.ring (log_of (height i.trace)), i.trace))
        instances.now) }
{
    let mut traces = Vec::with_capacity(alloc, instances.len())?;
    for instance in instances {
        traces.push(on_rows(alloc, config, instance.trace)?)?;
    }
    Ok(traces)
}

/// The commitment to the traces of a batch, each on the domain of its rows, and the prover data of them (`prove_batch` of
/// `p3-batch-stark`). Each trace is copied once, since the backend takes matrices by value. The answer is `Pcs` with the phase
/// `TraceCommitment` exactly where the backend refuses. Only out of memory is free.
///
/// The batch is traced, and the backend masks nothing.
pub fn commit_traces<SC: StarkGenericConfig, A: Air<Val<SC>>>(
    alloc: Global,
    config: &SC,
    instances: &[StarkInstance<'_, SC, A>],
    common: &CommonData<SC>,
) -> Result<(Commitment<SC>, Committed<SC>), ProvingError<PcsProverError<SC>>>
    requires plain { SC.Pcs.ZK ≡ false }
    requires traced { let b = ⟦<SC as Batches<A>>⟧.batch config.now instances.now common.now in
        IsTracedAll b }
    ensures verdict { let b = ⟦<SC as Batches<A>>⟧.batch config.now instances.now common.now in
        IsProverVerdict (trace_part (⟦<SC as ProverSettings>⟧.prover_backend config.now) b) result }
    ensures committed { let b = ⟦<SC as Batches<A>>⟧.batch config.now instances.now common.now in
        IfOk result (⟦<SC as ProverSettings>⟧.commits_to config.now (main_matrices b)) }
{
    let traces = traces_on_rows(alloc, config, instances)?;
    commit_matrices(alloc, config, ProverPhase::TraceCommitment, traces)
}
