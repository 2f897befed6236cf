//! All checks of a proof's shape.
ghost use Rattle.std.specs.Prelude.{◌≡◌, ℕ, ◌+◌, ◌^◌, ◌<◌, ◌≤◌, length, map, IfOk, IfErr};
ghost use Rattle.std.specs.Prelude.{slice_index_or as get_or};
ghost use Rattle.p3_field.specs.Checks.{in_turn};
ghost use Rattle.p3_field.specs.Poly.{tabulate};
ghost use Rattle.p3_lookup.specs.Bus.{bus_count, batch_buses};
ghost use Rattle.p3_lookup.specs.Written.{read_all};
ghost use Rattle.batch_constraints.specs.BatchTrees.{AreLookupsOf};
ghost use Rattle.batch_statement.specs.Statement.{Statement, WellFormed, read_common, tables_of, stated};
ghost use Rattle.verifier_shape.specs.ShapeChecks.{HaveItemForEachTable, bus_bound_part, bounds_with, log_chunks_at, opened_by, shape_checks, size_part, HasRightCounts};
ghost use Rattle.batch_statement.specs.Verdict.{IsDecided, IsVerdict};

use crate::bounds::check_bounds;
use crate::counts::{check_counts, check_permutation};
use crate::sizes::check_sizes;
use crate::tables::check_tables;
use air_core::{Air, BaseAir};
use batch_statement::{BatchVerificationError, SharedData, TablesProof};
use p3_field::{Field, FieldCore, PrimeCore64, PrimeField64, RingCore};
use std::alloc::Global;

/// The numbers of a configuration that a proof's shape depends on.
#[derive(Clone, Copy)]
pub struct ShapeBounds {
    /// Whether the backend masks what it commits to.
    pub zk: bool,
    /// By how many bits it does: one where it masks, else zero.
    pub masks: usize,
    /// The least degree bits: the least log height of a trace, and `masks` more.
    pub least: usize,
    /// The greatest degree bits.
    pub most: usize,
    /// The dimension of the challenges' field over the traces'.
    pub dimension: usize,
}

// The checks of the tables' sizes, which give the logarithms of the numbers of their quotients' chunks before masking.
fn batch_sizes<F: PrimeField64, A: Air<F>, E, Com, Opening, R>(
    alloc: Global,
    airs: &[A],
    public_values: &[Vec<F>],
    common: &SharedData<F, Com>,
    proof: &TablesProof<F, E, Com, Opening>,
    bounds: ShapeBounds,
) -> Result<Vec<usize>, BatchVerificationError<R>>
    requires fits { bounds.most < 64 }
    requires masked { bounds.masks ≤ bounds.least }
    requires masks { bounds.masks ≤ 1 }
    requires formed { WellFormed (map A.declaration airs.now) (read_common common.now) }
    requires counted { HaveItemForEachTable
        (stated A.declaration A.trees airs.now public_values.now common.now) proof.now }
    ensures verdict { IsVerdict (size_part F.ring (bounds_with F.ORDER_U64 bounds)
        (stated A.declaration A.trees airs.now public_values.now common.now) proof.now) result }
    ensures chunks { IfOk result (λ v. v.items
        ≡ tabulate (length airs.now)
        (log_chunks_at F.ring bounds.masks (tables_of A.declaration A.trees airs.now)
        (map read_all common.now.lookups) proof.now.degree_bits)) }
{
    check_sizes(
        alloc,
        airs,
        &common.lookups,
        &proof.degree_bits,
        bounds.least,
        bounds.most,
        bounds.masks,
    )
}

// The check of each bus.
fn batch_bounds<F: PrimeField64, A: Air<F>, E, Com, Opening, R>(
    alloc: Global,
    airs: &[A],
    public_values: &[Vec<F>],
    common: &SharedData<F, Com>,
    proof: &TablesProof<F, E, Com, Opening>,
    bounds: ShapeBounds,
) -> Result<(), BatchVerificationError<R>>
    requires counted { HaveItemForEachTable
        (stated A.declaration A.trees airs.now public_values.now common.now) proof.now }
    requires fits { (i : ℕ) → i < length airs.now → get_or proof.now.degree_bits i 0 < 64 }
    ensures { IsVerdict (bus_bound_part (bounds_with F.ORDER_U64 bounds)
        (stated A.declaration A.trees airs.now public_values.now common.now) proof.now) result }
{
    check_bounds(alloc, &common.lookups, &proof.degree_bits, bounds.masks)
}

// The checks of what is opened of the tables, whose quotients' numbers of chunks were found.
fn batch_opened<F: PrimeField64, A: Air<F>, E, Com, Opening, R>(
    airs: &[A],
    public_values: &[Vec<F>],
    common: &SharedData<F, Com>,
    proof: &TablesProof<F, E, Com, Opening>,
    chunks: &[usize],
    bounds: ShapeBounds,
) -> Result<(), BatchVerificationError<R>>
    requires counted { HaveItemForEachTable
        (stated A.declaration A.trees airs.now public_values.now common.now) proof.now }
    requires chunks { length chunks.now ≡ length airs.now }
    requires fits { (i : ℕ) → i < length airs.now → get_or chunks.now i 0 + bounds.masks < 64 }
    ensures { IsDecided (in_turn (length airs.now)
        (opened_by (tables_of A.declaration A.trees airs.now) (map (λ v. v.items) public_values.now)
        (map read_all common.now.lookups) proof.now.instances proof.now.lookup_terminals chunks.now
        bounds.masks bounds.dimension)) result }
{
    check_tables(
        airs,
        public_values,
        &common.lookups,
        proof.instances(),
        proof.terminals(),
        chunks,
        bounds.masks,
        bounds.dimension,
    )
}

/// All checks of a proof's shape, in the order of `shape_checks`: the counts and what is random, each table's degree bits and
/// number of chunks, the bound on each bus, what is opened of each table, the presence of permutation columns. The answer is
/// the refusal of the first that fails; where none does, for each table the logarithm of the number of its quotient's chunks
/// before masking. Out of memory comes only where the counts are right, and what is random is there as it has to be (`memory`).
///
/// The common data is well-formed for the AIRs. `masks` is at most one and at most `least`, and `most` is below 64.
pub fn check_shape<F: PrimeField64, A: Air<F>, E, Com, Opening, R>(
    alloc: Global,
    airs: &[A],
    public_values: &[Vec<F>],
    common: &SharedData<F, Com>,
    proof: &TablesProof<F, E, Com, Opening>,
    bounds: ShapeBounds,
) -> Result<Vec<usize>, BatchVerificationError<R>>
    requires fits { bounds.most < 64 }
    requires masked { bounds.masks ≤ bounds.least }
    requires masks { bounds.masks ≤ 1 }
    requires formed { WellFormed (map A.declaration airs.now) (read_common common.now) }
    ensures verdict { IsVerdict (shape_checks F.ring (bounds_with F.ORDER_U64 bounds)
        (stated A.declaration A.trees airs.now public_values.now common.now) proof.now) result }
    ensures chunks { IfOk result (λ v. v.items
        ≡ tabulate (length airs.now)
        (log_chunks_at F.ring bounds.masks (tables_of A.declaration A.trees airs.now)
        (map read_all common.now.lookups) proof.now.degree_bits)) }
    ensures memory { IfErr result (λ e. e ≡ BatchVerificationError.OutOfMemory
        → HasRightCounts R bounds.zk
        (stated A.declaration A.trees airs.now public_values.now common.now) proof.now) }
{
    check_counts(airs, public_values, common, proof, bounds.zk)?;
    let chunks = batch_sizes(alloc, airs, public_values, common, proof, bounds)?;
    batch_bounds(alloc, airs, public_values, common, proof, bounds)?;
    batch_opened(airs, public_values, common, proof, &chunks, bounds)?;
    check_permutation(airs, public_values, common, proof)?;
    Ok(chunks)
}
