//! Lookups of one name packed into fewer ones.
ghost use Rattle.std.specs.Prelude.{◌≡◌, ℕ, ◌≤◌, ◌++◌, List, [], ◌∷◌, length, map, All, ◌<◌, IfOk, IfSome, MatchOption, slice_set, true, false};
ghost use Rattle.air_core.specs.Tree.{Bus};
ghost use Rattle.p3_lookup.specs.Lookup.{HasCountForEach};
ghost use Rattle.p3_lookup.specs.Written.{Written, read, read_all, merged_written};
ghost use Rattle.p3_lookup.specs.Packing.{merged, takes_in, with_lookup, packed_onto, packed, SendTheSame};

use crate::copying::{append_counts, append_tuples};
use crate::degree::degree_of;
use crate::gadget::LogUpGadget;
use crate::kind::{have_one_name, kind_copy};
use crate::lookup::{Lookup, Lookups};
use p3_field::{Field, FieldCore, Mem, RingCore};
use std::alloc::Global;

// The tuples of both lookups, on the bus of the first.
fn merge<F: Field>(alloc: Global, k: &Lookup<F>, l: &Lookup<F>) -> Mem<Lookup<F>>
    ensures { IfOk result (λ m. m ≡ merged_written k.now l.now) }
{
    let kind = kind_copy(alloc, &k.kind)?;
    let mut elements = Vec::new(alloc);
    append_tuples(alloc, &mut elements, &k.elements)?;
    append_tuples(alloc, &mut elements, &l.elements)?;
    let mut multiplicities = Vec::new(alloc);
    append_counts(alloc, &mut multiplicities, &k.multiplicities)?;
    append_counts(alloc, &mut multiplicities, &l.multiplicities)?;
    Ok(Lookup::new(kind, elements, multiplicities))
}

// The merged lookup, where the first takes the second in.
fn taken_in<F: Field>(
    alloc: Global,
    k: &Lookup<F>,
    l: &Lookup<F>,
    budget: usize,
    t: usize,
) -> Mem<Option<Lookup<F>>>
    requires first { HasCountForEach (read k.now) }
    requires second { HasCountForEach (read l.now) }
    ensures { IfOk result (λ o.
        MatchOption o (takes_in F.ring t budget (read k.now) (read l.now) ≡ false)
        (λ m. (read m ≡ merged (read k.now) (read l.now))
        × (takes_in F.ring t budget (read k.now) (read l.now) ≡ true))) }
{
    if !have_one_name(&k.kind, &l.kind) {
        return Ok(None);
    }
    let both = merge(alloc, k, l)?;
    if degree_of(&both, t) <= budget {
        Ok(Some(both))
    } else {
        Ok(None)
    }
}

// The first kept lookup that takes the new one in: its place, and the merged lookup.
fn taker<F: Field>(
    alloc: Global,
    kept: &[Lookup<F>],
    lookup: &Lookup<F>,
    budget: usize,
    t: usize,
) -> Mem<Option<(usize, Lookup<F>)>>
    requires kept { All HasCountForEach (read_all kept.now) }
    requires lookup { HasCountForEach (read lookup.now) }
    ensures within { IfOk result (λ o. IfSome o (λ p. p.0 < length kept.now)) }
    ensures placed { IfOk result
        (λ o. MatchOption o (read_all kept.now ++ read lookup.now ∷ []
        ≡ with_lookup F.ring t budget (read_all kept.now) (read lookup.now))
        (λ p. slice_set (read_all kept.now) p.0 (read p.1)
        ≡ with_lookup F.ring t budget (read_all kept.now) (read lookup.now))) }
{
    for i in 0..kept.len() {
        if let Some(both) = taken_in(alloc, &kept[i], lookup, budget, t)? {
            return Ok(Some((i, both)));
        }
    }
    Ok(None)
}

// The kept lookups with one more, which is merged into the first that takes it in.
fn placed<F: Field>(
    alloc: Global,
    kept: Vec<Lookup<F>>,
    lookup: &Lookup<F>,
    budget: usize,
    t: usize,
) -> Mem<Vec<Lookup<F>>>
    requires kept { All HasCountForEach (read_all kept.items) }
    requires lookup { HasCountForEach (read lookup.now) }
    ensures { IfOk result (λ v.
        read_all v.items ≡ with_lookup F.ring t budget (read_all kept.items) (read lookup.now)) }
{
    let mut kept = kept;
    match taker(alloc, &kept, lookup, budget, t)? {
        Some((i, both)) => {
            kept[i] = both;
            Ok(kept)
        }
        None => {
            kept.push(lookup.try_clone(alloc)?)?;
            Ok(kept)
        }
    }
}

impl<F: Field> Lookups<F> {
    /// The lookups packed into fewer ones (`p3_lookup::Lookups::pack_same_bus_with_degree`): in order, a global one is
    /// appended to the earliest kept one of its name for which the merged lookup's constraints have at most the degree
    /// `budget`, where the transition selector has degree `transition`. Each tuple with its count stands in lookups of the
    /// same kind and name as often as before. Each lookup has as many multiplicities as tuples.
    pub fn pack_same_bus_with_degree(
        self,
        alloc: Global,
        budget: usize,
        _gadget: &LogUpGadget,
        transition: usize,
    ) -> Mem<Self>
        requires { All HasCountForEach (read_all self) }
        ensures packed { IfOk result
            (λ l. read_all l ≡ packed F.ring transition budget (read_all self)) }
        ensures same { IfOk result (λ l. SendTheSame (read_all self) (read_all l)) }
    {
        let kept = all_placed(alloc, self.as_slice(), budget, transition)?;
        Ok(Lookups::new(kept))
    }
}

// All lookups placed, in order.
fn all_placed<F: Field>(
    alloc: Global,
    lookups: &[Lookup<F>],
    budget: usize,
    t: usize,
) -> Mem<Vec<Lookup<F>>>
    requires { All HasCountForEach (read_all lookups.now) }
    ensures { IfOk result (λ v. read_all v.items ≡ packed F.ring t budget (read_all lookups.now)) }
{
    let mut kept = Vec::new(alloc);
    for i in 0..lookups.len() {
        kept = placed(alloc, kept, &lookups[i], budget, t)?;
    }
    Ok(kept)
}
