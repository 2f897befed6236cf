//! The instances of a batch.
ghost use Rattle.std.specs.Int.{IsPowerOfTwo};
ghost use Rattle.std.specs.Prelude.{◌≡◌, ◌+◌, ◌≤◌, length, map, IfOk, MatchResult};
ghost use Rattle.p3_matrix.specs.Matrix.{height};
ghost use Rattle.batch_setup.specs.Setup.{instances_of, airs_of, bits_of, log_of, ArePowers, HaveOneLength, IsLengthMismatch};

use crate::error::SetupError;
use crate::lent::LentAir;
use p3_field::{Field, FieldCore, Mem, RingCore};
use p3_matrix::{RowMajorMatrix, log2_strict_usize};
use p3_uni_stark::{StarkGenericConfig, Val};
use std::alloc::Global;
use std::marker::Model;

/// A table to be proved: its AIR, its trace, and its public values. A contract sees it as the record `Instance`.
#[derive(Drop)]
pub struct TableInstance<'a, F, A> {
    /// The AIR.
    pub air: &'a A,
    /// The trace, row by row.
    pub trace: &'a RowMajorMatrix<F>,
    /// The public values.
    pub public_values: Vec<F>,
}

impl<'a, F, A> Model for TableInstance<'a, F, A> {
    ghost use Rattle.batch_setup.specs.Setup.{Instance};

    ghost Value = { Instance A F };

    ghost view = { λ i. record {
      air = i.air.now;
      trace = i.trace.now;
      public_values = i.public_values.items;
    } };
}

/// An instance over a configuration (`StarkInstance` of `p3-batch-stark`).
pub type StarkInstance<'a, SC, A> = TableInstance<'a, Val<SC>, A>;

impl<'a, F: Field, A> TableInstance<'a, F, A> {
    // The instance with a copy of these public values.
    fn new(
        alloc: Global,
        air: &'a A,
        trace: &'a RowMajorMatrix<F>,
        public_values: &[F],
    ) -> Mem<Self>
        ensures { IfOk result (λ i.
            i ≡ record { air = air.now; trace = trace.now; public_values = public_values.now }) }
    {
        let public_values = public_values.to_vec(alloc)?;
        Ok(TableInstance {
            air,
            trace,
            public_values,
        })
    }

    // The instances of as many AIRs as traces and lists of public values, in order.
    fn paired(
        alloc: Global,
        airs: &'a [A],
        traces: &'a [RowMajorMatrix<F>],
        public_values: &[Vec<F>],
    ) -> Mem<Vec<Self>>
        requires traces { length traces.now ≡ length airs.now }
        requires public_values { length public_values.now ≡ length airs.now }
        ensures { IfOk result (λ v.
            v.items ≡ instances_of airs.now traces.now (map (λ p. p.items) public_values.now)) }
    {
        let mut instances = Vec::with_capacity(alloc, airs.len())?;
        for i in 0..airs.len() {
            instances.push(TableInstance::new(alloc, &airs[i], &traces[i], &public_values[i])?)?;
        }
        Ok(instances)
    }

    /// The instances with these AIRs, traces and public values, in order (`StarkInstance::new_multiple`). The answer is
    /// `LengthMismatch` exactly where the lists differ in their lengths.
    pub fn new_multiple<E>(
        alloc: Global,
        airs: &'a [A],
        traces: &'a [RowMajorMatrix<F>],
        public_values: &[Vec<F>],
    ) -> Result<Vec<Self>, SetupError<E>>
        ensures { let publics = map (λ p. p.items) public_values.now in
            MatchResult result (λ v. HaveOneLength airs.now traces.now publics
            × (v.items ≡ instances_of airs.now traces.now publics))
            (λ e. IsLengthMismatch airs.now traces.now publics e) }
    {
        if traces.len() != airs.len() {
            return Err(SetupError::LengthMismatch);
        }
        if public_values.len() != airs.len() {
            return Err(SetupError::LengthMismatch);
        }
        let instances = TableInstance::paired(alloc, airs, traces, public_values)?;
        Ok(instances)
    }
}

/// The AIRs of instances, lent, in order (not in Plonky3). The only error is running out of memory.
pub fn lent_airs<'a, F, A>(
    alloc: Global,
    instances: &[TableInstance<'a, F, A>],
) -> Mem<Vec<LentAir<'a, A>>>
    ensures { IfOk result (λ v. v.items ≡ airs_of instances.now) }
{
    let mut airs = Vec::with_capacity(alloc, instances.len())?;
    for instance in instances {
        airs.push(LentAir::new(instance.air))?;
    }
    Ok(airs)
}

// The degree bits of a trace: the logarithm of its height, and what masking adds.
fn bits_of_trace<F>(trace: &RowMajorMatrix<F>, masks: usize) -> usize
    requires masks { masks ≤ 1 }
    requires power { IsPowerOfTwo (height trace.now) }
    ensures { result ≡ log_of (height trace.now) + masks }
{
    log2_strict_usize(trace.height()) + masks
}

/// The degree bits of instances, in order (not in Plonky3): the logarithm of each trace's height, and one more where the backend masks. Each
/// height is a power of two. The only error is running out of memory.
pub fn degree_bits<F, A>(
    alloc: Global,
    instances: &[TableInstance<F, A>],
    masks: usize,
) -> Mem<Vec<usize>>
    requires masks { masks ≤ 1 }
    requires powers { ArePowers instances.now }
    ensures { IfOk result (λ v. v.items ≡ bits_of masks instances.now) }
{
    let mut bits = Vec::with_capacity(alloc, instances.len())?;
    for instance in instances {
        bits.push(bits_of_trace(instance.trace, masks))?;
    }
    Ok(bits)
}
