//! The lookups of a batch's tables, packed within each table's budget.
ghost use Rattle.std.specs.Prelude.{◌≡◌, ℕ, ◌+◌, ◌-◌, ◌^◌, ◌<◌, ◌≤◌, max, min, length, map, IfErr, IfOk};
ghost use Rattle.std.specs.Prelude.{slice_index_or as get_or};
ghost use Rattle.p3_field.specs.Checks.{in_turn};
ghost use Rattle.p3_field.specs.Poly.{tabulate};
ghost use Rattle.p3_lookup.specs.Lookup.{lookups_of};
ghost use Rattle.p3_lookup.specs.Packing.{packed};
ghost use Rattle.p3_lookup.specs.Written.{read_all};
ghost use Rattle.batch_constraints.specs.BatchTrees.{AreLookupsOf};
ghost use Rattle.batch_constraints.specs.Sizing.{table_log_chunks, free_budget as free_budget_of};
ghost use Rattle.batch_setup.specs.Packed.{source_of, log_chunks_with, own_budget, packed_lookups as packed_lookups_of, chunk_count_checks, limit_checks, budget_checks, packed_at, budget_at};
ghost use Rattle.batch_setup.specs.Verdict.{IsSetUp};

use crate::error::SetupError;
use crate::powers::power_of_two;
use air_core::{Air, AirLayout, BaseAir};
use batch_constraints::get_log_num_quotient_chunks;
use p3_field::{Field, FieldCore, Mem, RingCore};
use p3_lookup::{LogUpGadget, Lookups};
use std::alloc::Global;

// The free budget of a table with so many chunks, which stops at the greatest usize.
fn free_budget(log_chunks: usize, masks: usize) -> usize
    requires { masks ≤ 1 }
    ensures { result ≡ min (free_budget_of masks log_chunks) (2 ^ 64 - 1) }
{
    if log_chunks >= 64 {
        return usize::MAX;
    }
    power_of_two(log_chunks).saturating_add(1 - masks)
}

// The lookups of an AIR.
fn own_lookups<F: Field, A: Air<F>>(alloc: Global, air: &A) -> Mem<Lookups<F>>
    ensures own { IfOk result (λ l. read_all l ≡ lookups_of (A.interactions air.now)) }
    ensures fit { IfOk result (λ l. AreLookupsOf (A.declaration air.now) (read_all l)) }
{
    let lookups = Lookups::from_air(alloc, air)?;
    Ok(lookups)
}

// The logarithm of the number of chunks of a table with these lookups and degree bits, before masking.
fn log_chunks_over<F: Field, A: Air<F>>(
    alloc: Global,
    air: &A,
    lookups: &Lookups<F>,
    bits: usize,
    masks: usize,
) -> Mem<usize>
    requires masked { masks ≤ bits }
    requires fits { bits < 64 }
    requires masks { masks ≤ 1 }
    requires lookups { AreLookupsOf (A.declaration air.now) (read_all lookups.now) }
    ensures { IfOk result (λ k.
        k ≡ log_chunks_with F.ring masks bits
        (source_of A.declaration A.trees A.interactions air.now) (read_all lookups.now)) }
{
    let layout = AirLayout::from_air::<F, A>(air);
    let gadget = LogUpGadget::new();
    let height = power_of_two(bits - masks);
    get_log_num_quotient_chunks(
        alloc,
        air,
        layout,
        height,
        lookups.as_slice(),
        masks,
        &gadget,
    )
}

// The lookups of an AIR, packed within the larger of its table's own budget and of the one that is asked for, and the
// table's own budget, which stops at the greatest usize.
fn packed_lookups<F: Field, A: Air<F>>(
    alloc: Global,
    air: &A,
    bits: usize,
    asked: usize,
    masks: usize,
) -> Mem<(Lookups<F>, usize)>
    requires masked { masks ≤ bits }
    requires fits { bits < 64 }
    requires masks { masks ≤ 1 }
    ensures lookups { IfOk result
        (λ p. read_all p.0 ≡ packed_lookups_of F.ring masks bits asked
        (source_of A.declaration A.trees A.interactions air.now)) }
    ensures fit { IfOk result (λ p. AreLookupsOf (A.declaration air.now) (read_all p.0)) }
    ensures budget { IfOk result
        (λ p. p.1 ≡ min (own_budget F.ring masks bits
        (source_of A.declaration A.trees A.interactions air.now)) (2 ^ 64 - 1)) }
{
    let lookups = own_lookups(alloc, air)?;
    let log_chunks = log_chunks_over(alloc, air, &lookups, bits, masks)?;
    let own = free_budget(log_chunks, masks);
    let gadget = LogUpGadget::new();
    let packed = lookups.pack_same_bus_with_degree(alloc, own.max(asked), &gadget, 0)?;
    Ok((packed, own))
}

// Whether a table's number of chunks, with masking, is at most that of the backend's blowup.
#[tactic(auto, unfolding(p3_field::specs::Checks::NoneFails, p3_field::specs::Checks::FirstFails))]
fn check_chunks<E>(
    instance: usize,
    log_chunks: usize,
    masks: usize,
    log_blowup: usize,
) -> Result<(), SetupError<E>>
    ensures verdict { IsSetUp (chunk_count_checks masks log_blowup instance log_chunks) result }
    ensures no_memory { IfErr result (λ e. e ≡ SetupError.OutOfMemory → ⊥) }
{
    if log_blowup < masks || log_chunks > log_blowup - masks {
        return Err(SetupError::LookupBudget {
            instance,
            log_chunks: log_chunks.saturating_add(masks),
            log_blowup,
        });
    }
    Ok(())
}

// The same, where the budget that is asked for is above the table's own.
fn check_budget<F: Field, A: Air<F>, E>(
    alloc: Global,
    instance: usize,
    air: &A,
    packed: &Lookups<F>,
    own: usize,
    bits: usize,
    asked: usize,
    masks: usize,
    log_blowup: usize,
) -> Result<(), SetupError<E>>
    requires masked { masks ≤ bits }
    requires fits { bits < 64 }
    requires masks { masks ≤ 1 }
    requires lookups { AreLookupsOf (A.declaration air.now) (read_all packed.now) }
    ensures { IsSetUp (limit_checks masks log_blowup instance own asked
        (log_chunks_with F.ring masks bits (source_of A.declaration A.trees A.interactions air.now)
        (read_all packed.now))) result }
{
    if asked <= own {
        return Ok(());
    }
    let log_chunks = log_chunks_over(alloc, air, packed, bits, masks)?;
    check_chunks(instance, log_chunks, masks, log_blowup)
}

// The packed lookups of a table. The answer is `LookupBudget` exactly where the budget that is asked for is above the
// table's own and gives it too many chunks.
fn table_lookups<F: Field, A: Air<F>, E>(
    alloc: Global,
    instance: usize,
    air: &A,
    bits: usize,
    asked: usize,
    masks: usize,
    log_blowup: usize,
) -> Result<Lookups<F>, SetupError<E>>
    requires masked { masks ≤ bits }
    requires fits { bits < 64 }
    requires masks { masks ≤ 1 }
    ensures verdict { IsSetUp
        (budget_checks F.ring masks log_blowup instance bits asked
        (source_of A.declaration A.trees A.interactions air.now)) result }
    ensures lookups { IfOk result
        (λ l. read_all l ≡ packed_lookups_of F.ring masks bits asked
        (source_of A.declaration A.trees A.interactions air.now)) }
{
    let (packed, own) = packed_lookups(alloc, air, bits, asked, masks)?;
    check_budget(
        alloc, instance, air, &packed, own, bits, asked, masks, log_blowup,
    )?;
    Ok(packed)
}

// The same of one table of a batch.
fn lookups_at<F: Field, A: Air<F>, E>(
    alloc: Global,
    instance: usize,
    airs: &[A],
    degree_bits: &[usize],
    budgets: &[usize],
    masks: usize,
    log_blowup: usize,
) -> Result<Lookups<F>, SetupError<E>>
    requires airs { instance < length airs.now }
    requires bits { instance < length degree_bits.now }
    requires budgets { instance < length budgets.now }
    requires masked { masks ≤ get_or degree_bits.now instance 0 }
    requires fits { get_or degree_bits.now instance 0 < 64 }
    requires masks { masks ≤ 1 }
    ensures verdict { IsSetUp
        (budget_at F.ring masks log_blowup
        (map (source_of A.declaration A.trees A.interactions) airs.now) degree_bits.now budgets.now
        instance) result }
    ensures lookups { IfOk result
        (λ l. read_all l ≡ packed_at F.ring masks
        (map (source_of A.declaration A.trees A.interactions) airs.now) degree_bits.now budgets.now
        instance) }
{
    table_lookups(
        alloc,
        instance,
        &airs[instance],
        degree_bits[instance],
        budgets[instance],
        masks,
        log_blowup,
    )
}

// The packed lookups of the tables of a batch, one table after the other. The answer is `LookupBudget` exactly for the first
// table whose budget gives it too many chunks.
pub(crate) fn batch_lookups<F: Field, A: Air<F>, E>(
    alloc: Global,
    airs: &[A],
    degree_bits: &[usize],
    budgets: &[usize],
    masks: usize,
    log_blowup: usize,
) -> Result<Vec<Lookups<F>>, SetupError<E>>
    requires bits { length degree_bits.now ≡ length airs.now }
    requires budgets { length budgets.now ≡ length airs.now }
    requires masked { (i : ℕ) → i < length airs.now → masks ≤ get_or degree_bits.now i 0 }
    requires fits { (i : ℕ) → i < length airs.now → get_or degree_bits.now i 0 < 64 }
    requires masks { masks ≤ 1 }
    ensures verdict { IsSetUp
        (in_turn (length airs.now)
        (budget_at F.ring masks log_blowup
        (map (source_of A.declaration A.trees A.interactions) airs.now) degree_bits.now
        budgets.now)) result }
    ensures lookups { IfOk result (λ v. map read_all v.items
        ≡ tabulate (length airs.now)
        (packed_at F.ring masks (map (source_of A.declaration A.trees A.interactions) airs.now)
        degree_bits.now budgets.now)) }
{
    let mut lookups = Vec::new(alloc);
    for instance in 0..airs.len() {
        let packed = lookups_at(
            alloc,
            instance,
            airs,
            degree_bits,
            budgets,
            masks,
            log_blowup,
        )?;
        lookups.push(packed)?;
    }
    Ok(lookups)
}
