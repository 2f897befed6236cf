//! The numbers of the chunks of a batch's quotients.
ghost use Rattle.std.specs.Prelude.{◌≡◌, ℕ, ◌^◌, ◌<◌, length, map, IfOk};
ghost use Rattle.p3_field.specs.Poly.{tabulate};
ghost use Rattle.p3_matrix.specs.Matrix.{height};
ghost use Rattle.p3_lookup.specs.Written.{read_all};
ghost use Rattle.batch_constraints.specs.BatchTrees.{AreLookupsOf};
ghost use Rattle.batch_setup.specs.Setup.{airs_of};
ghost use Rattle.verifier_shape.specs.ShapeChecks.{chunks_of_table};
ghost use Rattle.batch_statement.specs.Statement.{tables_of};
ghost use Rattle.prover_openings.specs.Counts.{IsCountable, log_count_at};

use air_core::{Air, AirLayout, BaseAir};
use batch_constraints::get_log_num_quotient_chunks;
use batch_setup::TableInstance;
use p3_field::{Field, FieldCore, Mem, RingCore};
use p3_lookup::{LogUpGadget, Lookups};
use std::alloc::Global;

// 2^`log`.
fn power_of_two(log: usize) -> usize
    requires { log < 64 }
    ensures { result ≡ 2 ^ log }
{
    1 << log
}

// The logarithm of the number of chunks of the quotient of a table with so many rows.
fn log_count<F: Field, A: Air<F>>(
    alloc: Global,
    air: &A,
    rows: usize,
    lookups: &Lookups<F>,
) -> Mem<usize>
    requires lookups { AreLookupsOf (A.declaration air.now) (read_all lookups.now) }
    requires rows { 0 < rows }
    ensures { IfOk result (λ k.
        k ≡ chunks_of_table F.ring 0 rows
        (record { declaration = A.declaration air.now; trees = A.trees air.now })
        (read_all lookups.now)) }
{
    let layout = AirLayout::from_air::<F, A>(air);
    let gadget = LogUpGadget::new();
    get_log_num_quotient_chunks(alloc, air, layout, rows, lookups.as_slice(), 0, &gadget)
}

// The number of chunks of one table's quotient.
fn count_at<F: Field, A: Air<F>>(
    alloc: Global,
    index: usize,
    instances: &[TableInstance<'_, F, A>],
    lookups: &[Lookups<F>],
) -> Mem<usize>
    requires instances { index < length instances.now }
    requires lookups { index < length lookups.now }
    requires countable { IsCountable F.ring
        (tables_of A.declaration A.trees (airs_of instances.now)) (map (λ i. i.trace) instances.now)
        (map read_all lookups.now) index }
    ensures { IfOk result (λ n.
        n ≡ 2 ^ log_count_at F.ring (tables_of A.declaration A.trees (airs_of instances.now))
        (map (λ i. i.trace) instances.now) (map read_all lookups.now) index) }
{
    let instance = &instances[index];
    let rows = instance.trace.height();
    let log = log_count(alloc, instance.air, rows, &lookups[index])?;
    Ok(power_of_two(log))
}

// The numbers of chunks of all tables' quotients, where nothing is masked.
pub(crate) fn all_counts<F: Field, A: Air<F>>(
    alloc: Global,
    instances: &[TableInstance<'_, F, A>],
    lookups: &[Lookups<F>],
) -> Mem<Vec<usize>>
    requires lookups { length lookups.now ≡ length instances.now }
    requires countable { (i : ℕ) → i < length instances.now
        → IsCountable F.ring (tables_of A.declaration A.trees (airs_of instances.now))
        (map (λ i. i.trace) instances.now) (map read_all lookups.now) i }
    ensures { IfOk result (λ v. v.items
        ≡ tabulate (length instances.now)
        (λ i. 2 ^ log_count_at F.ring (tables_of A.declaration A.trees (airs_of instances.now))
        (map (λ i. i.trace) instances.now) (map read_all lookups.now) i)) }
{
    let mut counts = Vec::with_capacity(alloc, instances.len())?;
    for index in 0..instances.len() {
        counts.push(count_at(alloc, index, instances, lookups)?)?;
    }
    Ok(counts)
}
