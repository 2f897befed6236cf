//! Whether the field has a subgroup for a table's rows times the chunks of its quotient.
ghost use Rattle.std.specs.Int.{IsPowerOfTwo};
ghost use Rattle.std.specs.Prelude.{◌≡◌, ◌↔◌, ◌+◌, ◌<◌, ◌≤◌, IfOk, IsTrue};
ghost use Rattle.p3_lookup.specs.Lookup.{lookups_of};
ghost use Rattle.p3_lookup.specs.Written.{read_all};
ghost use Rattle.batch_constraints.specs.BatchTrees.{AreLookupsOf};
ghost use Rattle.batch_constraints.specs.Sizing.{table_log_chunks};
ghost use Rattle.batch_setup.specs.Packed.{source_of};
ghost use Rattle.tool_shaped.specs.Parts.{HasRoom};

use crate::parts::log_of_rows;
use air_core::{Air, AirLayout, BaseAir};
use batch_constraints::get_log_num_quotient_chunks;
use p3_field::{Field, FieldCore, Mem, RingCore, TwoAdicCore, TwoAdicField};
use p3_lookup::{LogUpGadget, Lookups};
use std::alloc::Global;

// The lookups of an AIR, before packing.
fn own_lookups<F: Field, A: Air<F>>(alloc: Global, air: &A) -> Mem<Lookups<F>>
    ensures own { IfOk result (λ l. read_all l ≡ lookups_of (A.interactions air.now)) }
    ensures fit { IfOk result (λ l. AreLookupsOf (A.declaration air.now) (read_all l)) }
{
    let lookups = Lookups::from_air(alloc, air)?;
    Ok(lookups)
}

// The logarithm of the number of chunks of a table of so many rows with these lookups.
fn log_chunks_over<F: Field, A: Air<F>>(
    alloc: Global,
    air: &A,
    lookups: &Lookups<F>,
    rows: usize,
) -> Mem<usize>
    requires rows { 0 < rows }
    requires lookups { AreLookupsOf (A.declaration air.now) (read_all lookups.now) }
    ensures { IfOk result (λ k.
        k ≡ table_log_chunks F.ring (A.declaration air.now) (A.trees air.now) 0 0 rows
        (read_all lookups.now)) }
{
    let layout = AirLayout::from_air::<F, A>(air);
    let gadget = LogUpGadget::new();
    get_log_num_quotient_chunks(alloc, air, layout, rows, lookups.as_slice(), 0, &gadget)
}

// The same with the AIR's own lookups.
fn own_log_chunks<F: Field, A: Air<F>>(alloc: Global, air: &A, rows: usize) -> Mem<usize>
    requires { 0 < rows }
    ensures { IfOk result (λ k.
        k ≡ table_log_chunks F.ring (A.declaration air.now) (A.trees air.now) 0 0 rows
        (lookups_of (A.interactions air.now))) }
{
    let lookups = own_lookups(alloc, air)?;
    log_chunks_over(alloc, air, &lookups, rows)
}

// Whether the sum of two numbers is at most a third.
fn is_sum_within(a: usize, b: usize, most: usize) -> bool
    ensures { IsTrue result ↔ (a + b ≤ most) }
{
    a <= most && b <= most - a
}

// Whether the field has a subgroup for so many rows times the chunks of the quotient.
pub(crate) fn has_room<F: TwoAdicField, A: Air<F>>(alloc: Global, air: &A, rows: usize) -> Mem<bool>
    requires { IsPowerOfTwo rows }
    ensures { IfOk result (λ b. IsTrue b ↔ HasRoom F.ring F.TWO_ADICITY
        (source_of A.declaration A.trees A.interactions air.now) rows) }
{
    let log_rows = log_of_rows(rows);
    let chunks = own_log_chunks(alloc, air, rows)?;
    Ok(is_sum_within(log_rows, chunks, F::TWO_ADICITY))
}
