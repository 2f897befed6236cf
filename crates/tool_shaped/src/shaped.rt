//! Whether tables have the shapes that a prover of batches asks for.
ghost use Rattle.std.specs.Prelude.{◌≡◌, ◌↔◌, All, IfOk, IsTrue};
ghost use Rattle.law_joining.specs.Shaped.{IsShaped};
ghost use Rattle.tool_shaped.specs.Parts.{HasInstanceShape};

use crate::shape::instance_has_shape;
use air_core::{Air, BaseAir};
use batch_config::Settings;
use batch_setup::{StarkInstance, TableInstance};
use commit_core::{CosetPcs, Pcs, PolynomialSpace, UnivariateStarkPcs};
use p3_field::{
    BasedVectorSpace, ExtensionField, Field, FieldCore, Mem, PrimeCharacteristicRing, PrimeCore64,
    PrimeField64, RingCore, TwoAdicCore, TwoAdicField,
};
use p3_uni_stark::{StarkGenericConfig, Val};
use std::alloc::Global;

// The logarithms of the fewest and of the most rows of a trace that the backend takes.
fn row_bounds<SC: StarkGenericConfig>(config: &SC) -> (usize, usize)
    ensures least { result.0 ≡ (⟦<SC as Settings>⟧.setting config.now).log_min }
    ensures most { result.1 ≡ (⟦<SC as Settings>⟧.setting config.now).log_max }
{
    let pcs = config.pcs();
    (pcs.log_min_trace_height(), pcs.log_max_trace_height())
}

// Whether each instance has the shape that its AIR declares, where the logarithms of the heights lie within these bounds.
fn instances_have_shapes<F: TwoAdicField, A: Air<F>>(
    alloc: Global,
    instances: &[TableInstance<'_, F, A>],
    least: usize,
    most: usize,
) -> Mem<bool>
    ensures { IfOk result (λ b. IsTrue b ↔ All (HasInstanceShape F.ring F.TWO_ADICITY least most
        A.declaration A.trees A.interactions) instances.now) }
{
    for instance in instances {
        let shaped = instance_has_shape(alloc, instance, least, most)?;
        if !shaped {
            return Ok(false);
        }
    }
    Ok(true)
}

/// Whether a table has the shape that its AIR declares, and that `prove_batch` asks for (not in Plonky3): the AIR's columns, at least one; as many
/// rows as a power of two within the backend's bounds, as many as the preprocessed trace has, and a multiple of each periodic column's length,
/// which is a power of two; as many public values as declared; and a subgroup of the field for the rows times the chunks of the quotient.
///
/// The only error is running out of memory.
pub fn is_shaped<SC: StarkGenericConfig, A: Air<Val<SC>>>(
    alloc: Global,
    config: &SC,
    instance: &StarkInstance<'_, SC, A>,
) -> Mem<bool>
    ensures { IfOk result (λ b. IsTrue b ↔ IsShaped (⟦<SC as Settings>⟧.setting config.now)
        A.declaration A.trees A.interactions instance.now) }
{
    let bounds = row_bounds(config);
    instance_has_shape(alloc, instance, bounds.0, bounds.1)
}

/// Whether each table of a batch has the shape that its AIR declares, as [`is_shaped`] tells it of one (not in Plonky3). Where this is true of
/// the instances and `airs_have_one_width` of `batch_statement` is of their AIRs, and the configuration serves (`Serves` of `law_joining`),
/// the laws `batch_traced` and `batch_kept` of `law_joining` show what `prove_batch` asks for.
///
/// The only error is running out of memory.
pub fn are_shaped<SC: StarkGenericConfig, A: Air<Val<SC>>>(
    alloc: Global,
    config: &SC,
    instances: &[StarkInstance<'_, SC, A>],
) -> Mem<bool>
    ensures { IfOk result (λ b. IsTrue b ↔ All (IsShaped (⟦<SC as Settings>⟧.setting config.now)
        A.declaration A.trees A.interactions) instances.now) }
{
    let bounds = row_bounds(config);
    instances_have_shapes(alloc, instances, bounds.0, bounds.1)
}
