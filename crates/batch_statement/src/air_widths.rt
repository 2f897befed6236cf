//! Whether the tuples that AIRs send on one bus have one width.
ghost use Rattle.std.specs.Prelude.{◌≡◌, ◌↔◌, flat_map, map, IfOk, IsTrue};
ghost use Rattle.p3_lookup.specs.Bus.{HaveOneWidth};
ghost use Rattle.p3_lookup.specs.Lookup.{lookups_of};
ghost use Rattle.p3_lookup.specs.Written.{read_all};

use crate::widths::have_one_width;
use air_core::{Air, BaseAir};
use p3_field::{Field, FieldCore, Mem, RingCore};
use p3_lookup::Lookups;
use std::alloc::Global;

// The lookups of each AIR.
fn lookups_of_each<F: Field, A: Air<F>>(alloc: Global, airs: &[A]) -> Mem<Vec<Lookups<F>>>
    ensures { IfOk result (λ v.
        map read_all v.items ≡ map (λ a. lookups_of (A.interactions a)) airs.now) }
{
    let mut tables = Vec::new(alloc);
    for air in airs {
        tables.push(Lookups::from_air(alloc, air)?)?;
    }
    Ok(tables)
}

/// Whether the tuples that these AIRs send on one bus have one width (not in Plonky3): just what `ProverData::from_instances` and
/// `ProverData::from_airs_and_degrees` of `batch_setup` ask of their caller, for AIRs that are known at run time alone. Only out of memory is an error.
pub fn airs_have_one_width<F: Field, A: Air<F>>(alloc: Global, airs: &[A]) -> Mem<bool>
    ensures { IfOk result (λ b. IsTrue b
        ↔ HaveOneWidth (flat_map (λ a. lookups_of (A.interactions a)) airs.now)) }
{
    let tables = lookups_of_each(alloc, airs)?;
    Ok(have_one_width(&tables))
}
