//! The check of what a batch may send on its buses.
ghost use Rattle.std.specs.Prelude.{◌≡◌, length, map, IfOk};
ghost use Rattle.p3_lookup.specs.Bound.{IsFirstOverload};
ghost use Rattle.p3_lookup.specs.Written.{read_all};
ghost use Rattle.p3_matrix.specs.Matrix.{height};
ghost use Rattle.prover_answer.specs.Batch.{IsTracedAll};
ghost use Rattle.prover_answer.specs.Proving.{bound_part};
ghost use Rattle.prover_answer.specs.Verdict.{IsProverVerdict};

use air_core::{Air, BaseAir};
use batch_setup::{StarkInstance, TableInstance};
use batch_statement::CommonData;
use commit_core::{CosetPcs, Pcs, PolynomialSpace, UnivariateStarkPcs};
use p3_field::{
    BasedVectorSpace, ExtensionField, Field, FieldCore, Mem, PrimeCharacteristicRing, PrimeCore64,
    PrimeField64, RingCore, TwoAdicCore, TwoAdicField,
};
use p3_lookup::{LookupError, check_multiplicity_height_bound};
use p3_uni_stark::{PcsProverError, StarkGenericConfig, Val};
use prover_answer::{Batches, ProvingError};
use std::alloc::Global;

// The heights of the instances' traces, in order.
fn heights<F, A>(alloc: Global, instances: &[TableInstance<F, A>]) -> Mem<Vec<usize>>
    ensures { IfOk result (λ v. v.items ≡ map (λ i. height i.trace) instances.now) }
{
    let mut heights = Vec::with_capacity(alloc, instances.len())?;
    for instance in instances {
        heights.push(instance.trace.height())?;
    }
    Ok(heights)
}

/// Whether on each bus of a batch the sum of the bounds of all counts, each times its table's height, is below the order of the field
/// (`check_multiplicity_height_bound` as `prove_batch` of `p3-batch-stark` calls it): the answer is `MultiplicityBound` exactly where on some
/// bus it isn't, and names the first such bus. Only out of memory is free.
pub fn check_bound<SC: StarkGenericConfig, A: Air<Val<SC>>>(
    alloc: Global,
    config: &SC,
    instances: &[StarkInstance<'_, SC, A>],
    common: &CommonData<SC>,
) -> Result<(), ProvingError<PcsProverError<SC>>>
    requires { let b = ⟦<SC as Batches<A>>⟧.batch config.now instances.now common.now in
        IsTracedAll b }
    ensures { let b = ⟦<SC as Batches<A>>⟧.batch config.now instances.now common.now in
        IsProverVerdict (bound_part b) result }
{
    let heights = heights(alloc, instances)?;
    match check_multiplicity_height_bound(&common.lookups, &heights) {
        Ok(()) => Ok(()),
        Err(LookupError::MultiplicityBound { bus }) => Err(ProvingError::MultiplicityBound { bus }),
        Err(_) => unreachable!(),
    }
}
