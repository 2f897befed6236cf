//! The checks of a proof's shape, of which all that are asked and fail are named.
ghost use Rattle.std.specs.Prelude.{◌≡◌, ◌↔◌, ℕ, ◌+◌, ◌^◌, ◌<◌, ◌≤◌, ◌++◌, [], IsTrue, IfOk, OnOk, length, map, option_map};
ghost use Rattle.std.specs.Prelude.{slice_index_or as get_or};
ghost use Rattle.p3_field.specs.Checks.{NoneFails, in_turn};
ghost use Rattle.p3_field.specs.Poly.{tabulate};
ghost use Rattle.p3_lookup.specs.Written.{read_all};
ghost use Rattle.batch_constraints.specs.BatchTrees.{AreLookupsOf};
ghost use Rattle.batch_statement.specs.Statement.{WellFormed, read_common, tables_of, stated};
ghost use Rattle.batch_statement.specs.Verdict.{IsVerdict};
ghost use Rattle.verifier_shape.specs.ShapeChecks.{HaveItemForEachTable, bounds_with, bus_bound_part, count_checks, log_chunks_at, permutation_check, size_part, sizes_at, HasRightShape};
ghost use Rattle.audit_batch.specs.Asked.{always, in_order, of_each};
ghost use Rattle.audit_batch.specs.Named.{AreNamedAfter};
ghost use Rattle.audit_batch.specs.Parts.{shape_asked};
ghost use Rattle.audit_batch.specs.Shape.{opened_asked, opened_asked_at, opened_asked_by, shape_parts};

use crate::naming::{name_answer, name_test};
use crate::opened::name_opened;
use air_core::{Air, BaseAir};
use batch_statement::{BatchVerificationError, OpenedValuesWithLookups, SharedData, TablesProof};
use p3_field::{Field, FieldCore, Mem, PrimeCore64, PrimeField64, RingCore};
use p3_lookup::{LookupTerminal, Lookups};
use p3_uni_stark::{InvalidProofShapeError, VerificationError};
use std::alloc::Global;
use verifier_shape::{
    ShapeBounds, are_counted, check_bounds, check_permutation, is_randomized, size_at,
};

// The checks of the counts and of what is random. It tells whether the counts are right.
fn name_counts<F: Field, A: Air<F>, E, Com, Opening, R: Drop>(
    faults: &mut Vec<BatchVerificationError<R>>,
    airs: &[A],
    public_values: &[Vec<F>],
    common: &SharedData<F, Com>,
    proof: &TablesProof<F, E, Com, Opening>,
    zk: bool,
) -> Mem<bool>
    ensures named { OnOk result (AreNamedAfter faults.old.items
        (always (count_checks zk
        (stated A.declaration A.trees airs.now public_values.now common.now) proof.now))
        faults.new.items) }
    ensures counted { IfOk result
        (λ b. IsTrue b ↔ HaveItemForEachTable
        (stated A.declaration A.trees airs.now public_values.now common.now) proof.now) }
{
    let counted = are_counted(airs, public_values, common, proof);
    let randomized = is_randomized(proof, zk);
    let miscounted = VerificationError::InvalidProofShape(
        InvalidProofShapeError::InstanceCountMismatch,
    );
    name_test(
        faults,
        counted,
        BatchVerificationError::Verification(miscounted),
    )?;
    let unrandom = BatchVerificationError::Verification(VerificationError::RandomizationError);
    name_test(faults, randomized, unrandom)?;
    Ok(counted)
}

// The checks of the tables' sizes, one table after the other. Where none fails it gives the logarithms of the numbers of their
// quotients' chunks before masking.
fn name_sizes<F: Field, A: Air<F>, R: Drop>(
    faults: &mut Vec<BatchVerificationError<R>>,
    alloc: Global,
    airs: &[A],
    lookups: &[Lookups<F>],
    degree_bits: &[usize],
    bounds: ShapeBounds,
) -> Mem<Vec<usize>>
    requires fits { bounds.most < 64 }
    requires masked { bounds.masks ≤ bounds.least }
    requires masks { bounds.masks ≤ 1 }
    requires lookups { length lookups.now ≡ length airs.now }
    requires bits { length degree_bits.now ≡ length airs.now }
    requires reads { (i : ℕ) (a : A) → i < length airs.now
        → AreLookupsOf (A.declaration (get_or airs.now i a)) (read_all (get_or lookups.now i [])) }
    ensures named { let sizes = sizes_at F.ring bounds.least bounds.most bounds.masks
        (tables_of A.declaration A.trees airs.now) (map read_all lookups.now) degree_bits.now in
        OnOk result (AreNamedAfter faults.old.items
        (of_each (length airs.now) (λ i. in_order (sizes i))) faults.new.items) }
    ensures chunks { let tables = tables_of A.declaration A.trees airs.now in
        let lists = map read_all lookups.now in
        IfOk result (λ v. NoneFails
        (in_turn (length airs.now)
        (sizes_at {R = R} F.ring bounds.least bounds.most bounds.masks tables lists
        degree_bits.now))
        → v.items ≡ tabulate (length airs.now)
        (log_chunks_at F.ring bounds.masks tables lists degree_bits.now)) }
{
    let mut chunks = Vec::new(alloc);
    for index in 0..airs.len() {
        let size = size_at(
            alloc,
            index,
            airs,
            lookups,
            degree_bits,
            bounds.least,
            bounds.most,
            bounds.masks,
        );
        let count = name_answer(faults, size)?;
        chunks.push(count.unwrap_or(0))?;
    }
    Ok(chunks)
}

// 2^`log`.
fn power_of_two(log: usize) -> usize
    requires { log < 64 }
    ensures { result ≡ 2 ^ log }
{
    1 << log
}

// The checks of what is opened of one table of a batch.
fn name_table<F: Field, A: Air<F>, E, R: Drop>(
    faults: &mut Vec<BatchVerificationError<R>>,
    index: usize,
    airs: &[A],
    public_values: &[Vec<F>],
    lookups: &[Lookups<F>],
    instances: &[OpenedValuesWithLookups<E>],
    terminals: &[Option<LookupTerminal<E>>],
    log_chunks: usize,
    dimension: usize,
) -> Mem<()>
    requires fits { log_chunks < 64 }
    requires airs { index < length airs.now }
    requires publics { index < length public_values.now }
    requires lookups { index < length lookups.now }
    requires instances { index < length instances.now }
    requires terminals { index < length terminals.now }
    ensures { OnOk result (AreNamedAfter faults.old.items
        (opened_asked_at (tables_of A.declaration A.trees airs.now)
        (map (λ v. v.items) public_values.now) (map read_all lookups.now) instances.now
        (map (option_map (λ t. t.0)) terminals.now) (2 ^ log_chunks) dimension index)
        faults.new.items) }
{
    let table = &lookups[index];
    name_opened(
        faults,
        index,
        &airs[index],
        &public_values[index],
        power_of_two(log_chunks),
        dimension,
        table.as_slice().len(),
        &instances[index],
        terminals[index].is_some(),
    )
}

// The checks of what is opened of the tables, one table after the other: the quotient of table i has 2^(`chunks[i]` + `masks`)
// chunks.
fn name_tables<F: Field, A: Air<F>, E, R: Drop>(
    faults: &mut Vec<BatchVerificationError<R>>,
    airs: &[A],
    public_values: &[Vec<F>],
    lookups: &[Lookups<F>],
    instances: &[OpenedValuesWithLookups<E>],
    terminals: &[Option<LookupTerminal<E>>],
    chunks: &[usize],
    masks: usize,
    dimension: usize,
) -> Mem<()>
    requires publics { length public_values.now ≡ length airs.now }
    requires lookups { length lookups.now ≡ length airs.now }
    requires instances { length instances.now ≡ length airs.now }
    requires terminals { length terminals.now ≡ length airs.now }
    requires chunks { length chunks.now ≡ length airs.now }
    requires fits { (i : ℕ) → i < length airs.now → get_or chunks.now i 0 + masks < 64 }
    ensures { OnOk result (AreNamedAfter faults.old.items (of_each (length airs.now)
        (opened_asked_by (tables_of A.declaration A.trees airs.now)
        (map (λ v. v.items) public_values.now) (map read_all lookups.now) instances.now
        (map (option_map (λ t. t.0)) terminals.now) chunks.now masks dimension)) faults.new.items) }
{
    for index in 0..airs.len() {
        name_table(
            faults,
            index,
            airs,
            public_values,
            lookups,
            instances,
            terminals,
            chunks[index] + masks,
            dimension,
        )?;
    }
    Ok(())
}

// The check of each bus.
fn batch_bounds<F: PrimeField64, A: Air<F>, E, Com, Opening, R>(
    alloc: Global,
    airs: &[A],
    public_values: &[Vec<F>],
    common: &SharedData<F, Com>,
    proof: &TablesProof<F, E, Com, Opening>,
    bounds: ShapeBounds,
) -> Result<(), BatchVerificationError<R>>
    requires counted { HaveItemForEachTable
        (stated A.declaration A.trees airs.now public_values.now common.now) proof.now }
    requires fits { (i : ℕ) → i < length airs.now → get_or proof.now.degree_bits i 0 < 64 }
    ensures { IsVerdict (bus_bound_part (bounds_with F.ORDER_U64 bounds)
        (stated A.declaration A.trees airs.now public_values.now common.now) proof.now) result }
{
    check_bounds(alloc, &common.lookups, &proof.degree_bits, bounds.masks)
}

// The checks of what is opened of the tables, whose quotients' numbers of chunks were found.
fn name_batch_tables<F: PrimeField64, A: Air<F>, E, Com, Opening, R: Drop>(
    faults: &mut Vec<BatchVerificationError<R>>,
    airs: &[A],
    public_values: &[Vec<F>],
    common: &SharedData<F, Com>,
    proof: &TablesProof<F, E, Com, Opening>,
    chunks: &[usize],
    bounds: ShapeBounds,
) -> Mem<()>
    requires counted { HaveItemForEachTable
        (stated A.declaration A.trees airs.now public_values.now common.now) proof.now }
    requires chunks { length chunks.now ≡ length airs.now }
    requires fits { (i : ℕ) → i < length airs.now → get_or chunks.now i 0 + bounds.masks < 64 }
    ensures { OnOk result (AreNamedAfter faults.old.items
        (of_each (length airs.now) (opened_asked_by (tables_of A.declaration A.trees airs.now)
        (map (λ v. v.items) public_values.now) (map read_all common.now.lookups) proof.now.instances
        proof.now.lookup_terminals chunks.now bounds.masks bounds.dimension)) faults.new.items) }
{
    name_tables(
        faults,
        airs,
        public_values,
        &common.lookups,
        proof.instances(),
        proof.terminals(),
        chunks,
        bounds.masks,
        bounds.dimension,
    )
}

// The checks that are asked where the counts and the tables' sizes are right.
fn name_sized<F: PrimeField64, A: Air<F>, E, Com, Opening, R: Drop>(
    faults: &mut Vec<BatchVerificationError<R>>,
    alloc: Global,
    airs: &[A],
    public_values: &[Vec<F>],
    common: &SharedData<F, Com>,
    proof: &TablesProof<F, E, Com, Opening>,
    chunks: &[usize],
    bounds: ShapeBounds,
) -> Mem<()>
    requires counted { HaveItemForEachTable
        (stated A.declaration A.trees airs.now public_values.now common.now) proof.now }
    requires bits { (i : ℕ) → i < length airs.now → get_or proof.now.degree_bits i 0 < 64 }
    requires chunks { length chunks.now ≡ length airs.now }
    requires fits { (i : ℕ) → i < length airs.now → get_or chunks.now i 0 + bounds.masks < 64 }
    ensures { let statement = stated A.declaration A.trees airs.now public_values.now common.now in
        OnOk result (AreNamedAfter faults.old.items
        (in_order (bus_bound_part (bounds_with F.ORDER_U64 bounds) statement proof.now)
        ++ of_each (length airs.now)
        (opened_asked_by statement.tables statement.publics statement.common.lookups
        proof.now.instances proof.now.lookup_terminals
        chunks.now bounds.masks bounds.dimension)
        ++ always (permutation_check statement proof.now)) faults.new.items) }
{
    let loads = batch_bounds(alloc, airs, public_values, common, proof, bounds);
    name_answer(faults, loads)?;
    name_batch_tables(faults, airs, public_values, common, proof, chunks, bounds)?;
    let permutation = check_permutation(airs, public_values, common, proof);
    name_answer(faults, permutation)?;
    Ok(())
}

/// Names the checks of a proof's shape that are asked and fail (`shape_asked`): the counts and what is random; where the counts are right,
/// each table's size; where these are right too, the first overloaded bus, what is opened of each table, and the presence of
/// permutation columns. Where no check of the shape fails it gives for each table the logarithm of the number of its quotient's chunks
/// before masking.
pub(crate) fn name_shape<F: PrimeField64, A: Air<F>, E, Com, Opening, R: Drop>(
    faults: &mut Vec<BatchVerificationError<R>>,
    alloc: Global,
    airs: &[A],
    public_values: &[Vec<F>],
    common: &SharedData<F, Com>,
    proof: &TablesProof<F, E, Com, Opening>,
    bounds: ShapeBounds,
) -> Mem<Vec<usize>>
    requires fits { bounds.most < 64 }
    requires masked { bounds.masks ≤ bounds.least }
    requires masks { bounds.masks ≤ 1 }
    requires formed { WellFormed (map A.declaration airs.now) (read_common common.now) }
    ensures named { OnOk result
        (AreNamedAfter faults.old.items
        (shape_asked (shape_parts F.ring (bounds_with F.ORDER_U64 bounds)
        (stated A.declaration A.trees airs.now public_values.now common.now) proof.now))
        faults.new.items) }
    ensures chunks { let statement = stated A.declaration A.trees airs.now public_values.now
        common.now in
        IfOk result (λ v. HasRightShape R F.ring (bounds_with F.ORDER_U64 bounds) statement
        proof.now
        → v.items ≡ tabulate (length airs.now)
        (log_chunks_at F.ring bounds.masks statement.tables statement.common.lookups
        proof.now.degree_bits)) }
{
    let counted = name_counts(faults, airs, public_values, common, proof, bounds.zk)?;
    if !counted {
        return Ok(Vec::new(alloc));
    }
    let before = faults.len();
    let chunks = name_sizes(
        faults,
        alloc,
        airs,
        &common.lookups,
        &proof.degree_bits,
        bounds,
    )?;
    if faults.len() != before {
        return Ok(chunks);
    }
    name_sized(
        faults,
        alloc,
        airs,
        public_values,
        common,
        proof,
        &chunks,
        bounds,
    )?;
    Ok(chunks)
}
