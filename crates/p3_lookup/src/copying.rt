//! Copies of lookups.
ghost use Rattle.std.specs.Prelude.{◌≡◌, ◌++◌, List, map, IfOk};

use crate::from_air::copies;
use crate::kind::kind_copy;
use crate::lookup::{Lookup, Lookups};
use air_core::{Count, SymbolicExpression};
use p3_field::{Field, FieldCore, Mem, RingCore};
use std::alloc::Global;

// Appends copies of tuples.
pub(crate) fn append_tuples<F: Field>(
    alloc: Global,
    tuples: &mut Vec<Vec<SymbolicExpression<F>>>,
    more: &[Vec<SymbolicExpression<F>>],
) -> Mem<()>
    ensures { IfOk result (λ _.
        map (λ v. v.items) tuples.new.items ≡ map (λ v. v.items) tuples.old.items
        ++ map (λ v. v.items) more.now) }
{
    for tuple in more {
        tuples.push(copies(alloc, tuple)?)?;
    }
    Ok(())
}

// Appends copies of counts.
pub(crate) fn append_counts<F: Field>(
    alloc: Global,
    counts: &mut Vec<Count<SymbolicExpression<F>>>,
    more: &[Count<SymbolicExpression<F>>],
) -> Mem<()>
    ensures { IfOk result (λ _. counts.new.items ≡ counts.old.items ++ more.now) }
{
    for count in more {
        counts.push(Count {
            value: count.value.try_clone(alloc)?,
            bound: count.bound,
        })?;
    }
    Ok(())
}

impl<F: Field> Lookup<F> {
    /// A lookup equal to this one (`Clone` of the Rust).
    pub fn try_clone(&self, alloc: Global) -> Mem<Self>
        ensures { IfOk result (λ l. l ≡ self.now) }
    {
        let kind = kind_copy(alloc, &self.kind)?;
        let mut elements = Vec::new(alloc);
        append_tuples(alloc, &mut elements, &self.elements)?;
        let mut multiplicities = Vec::new(alloc);
        append_counts(alloc, &mut multiplicities, &self.multiplicities)?;
        Ok(Lookup::new(kind, elements, multiplicities))
    }
}

// Lookups equal to these.
fn lookup_copies<F: Field>(alloc: Global, lookups: &[Lookup<F>]) -> Mem<Vec<Lookup<F>>>
    ensures { IfOk result (λ v. v.items ≡ lookups.now) }
{
    let mut copies = Vec::with_capacity(alloc, lookups.len())?;
    for i in 0..lookups.len() {
        copies.push(lookups[i].try_clone(alloc)?)?;
    }
    Ok(copies)
}

impl<F: Field> Lookups<F> {
    /// Lookups equal to these (`Clone` of the Rust).
    pub fn try_clone(&self, alloc: Global) -> Mem<Self>
        ensures { IfOk result (λ l. l ≡ self.now) }
    {
        let copies = lookup_copies(alloc, self.as_slice())?;
        Ok(Lookups::new(copies))
    }
}
