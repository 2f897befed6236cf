//! The bound on multiplicities.
ghost use Rattle.std.specs.Prelude.{◌≡◌, ℕ, ◌+◌, ◌*◌, ◌<◌, ◌≤◌, ◌==◌, min, List, [], length, map, take, get_or, Result, MatchResult};
ghost use Rattle.p3_lookup.specs.Bus.{sum_of_bounds, opener, batch_buses, lookups_before, bus_in};
ghost use Rattle.p3_lookup.specs.Bound.{bus_load, IsFirstOverload, IsBoundChecked};
ghost use Rattle.p3_lookup.specs.Loads.{is_named_among, named_load, named_loads, AreBoundedBelow};
ghost use Rattle.p3_lookup.specs.Written.{Written, bus_of_kind, read_all};

use crate::kind::{Kind, have_one_name};
use crate::lookup::{Lookup, Lookups};
use crate::terminal::LookupError;
use air_core::{Count, SymbolicExpression};
use p3_field::{FieldCore, PrimeCore64, PrimeField64, RingCore};

// Whether one of the first `count` lookups is on the bus that this kind names.
fn is_named_in<F>(lookups: &[Lookup<F>], count: usize, kind: &Kind) -> bool
    requires { count ≤ length lookups.now }
    ensures { result ≡ is_named_among (bus_of_kind kind.now) (take count (read_all lookups.now)) }
{
    for i in 0..count {
        let lookup = &lookups[i];
        if have_one_name(kind, &lookup.kind) {
            return true;
        }
    }
    false
}

// Whether a lookup is the first of the batch on its bus.
fn opens_bus<F>(lookups: &[Lookups<F>], table: usize, index: usize) -> bool
    requires table { table < length lookups.now }
    requires index { index < length (get_or lookups.now table []) }
    ensures { let tables = map read_all lookups.now in
        result ≡ (opener (batch_buses tables) (lookups_before tables table + index) ==
        lookups_before tables table + index) }
{
    let own = lookups[table].as_slice();
    let lookup = &own[index];
    if is_named_in(own, index, &lookup.kind) {
        return false;
    }
    for earlier in 0..table {
        let others = lookups[earlier].as_slice();
        if is_named_in(others, others.len(), &lookup.kind) {
            return false;
        }
    }
    true
}

// A load with a lookup's bounds times its table's height, at most the limit.
fn with_bounds<E>(load: u64, counts: &[Count<E>], height: usize, limit: u64) -> u64
    requires { load ≤ limit }
    ensures { result ≡ min limit (load + sum_of_bounds counts.now * height) }
{
    let mut load = load;
    for count in counts {
        let more = load as u128 + count.bound as u128 * height as u128;
        load = if more < limit as u128 {
            more as u64
        } else {
            limit
        };
    }
    load
}

// A load with those of a table's lookups that are on the bus that this kind names, at most the limit.
fn with_lookups<F>(load: u64, lookups: &[Lookup<F>], kind: &Kind, height: usize, limit: u64) -> u64
    requires { load ≤ limit }
    ensures { result ≡ min limit
        (load + named_load (bus_of_kind kind.now) height (read_all lookups.now)) }
{
    let mut load = load;
    for i in 0..lookups.len() {
        let lookup = &lookups[i];
        if have_one_name(kind, &lookup.kind) {
            load = with_bounds(load, &lookup.multiplicities, height, limit);
        }
    }
    load
}

// The load of the bus that this kind names, at most the limit.
fn load_of_name<F>(lookups: &[Lookups<F>], heights: &[usize], kind: &Kind, limit: u64) -> u64
    requires { length heights.now ≡ length lookups.now }
    ensures { result ≡ min limit
        (named_loads (bus_of_kind kind.now) (map read_all lookups.now) heights.now) }
{
    let mut load = 0;
    for table in 0..lookups.len() {
        load = with_lookups(load, lookups[table].as_slice(), kind, heights[table], limit);
    }
    load
}

// The load of the bus of a lookup, at most the limit.
fn load_at<F>(
    lookups: &[Lookups<F>],
    heights: &[usize],
    table: usize,
    index: usize,
    limit: u64,
) -> u64
    requires heights { length heights.now ≡ length lookups.now }
    requires table { table < length lookups.now }
    requires index { index < length (get_or lookups.now table []) }
    ensures { let tables = map read_all lookups.now in
        result ≡ min limit (bus_load tables heights.now (bus_in tables table index)) }
{
    let own = lookups[table].as_slice();
    let lookup = &own[index];
    match &lookup.kind {
        Kind::Local => with_bounds(0, &lookup.multiplicities, heights[table], limit),
        Kind::Global(_) => load_of_name(lookups, heights, &lookup.kind, limit),
    }
}

// The number of buses that are open after a table's lookups, where so many were open before them, or the first of these
// buses whose load reaches the limit.
fn opened_by<F>(
    lookups: &[Lookups<F>],
    heights: &[usize],
    table: usize,
    opened: usize,
    limit: u64,
) -> Result<usize, usize>
    requires heights { length heights.now ≡ length lookups.now }
    requires table { table < length lookups.now }
    requires opened { let tables = map read_all lookups.now in
        AreBoundedBelow limit tables heights.now (lookups_before tables table) opened }
    ensures { let tables = map read_all lookups.now in
        MatchResult result (λ n.
        AreBoundedBelow limit tables heights.now
        (lookups_before tables table + length (get_or lookups.now table [])) n)
        (λ b. IsFirstOverload limit tables heights.now b) }
{
    let mut opened = opened;
    for index in 0..lookups[table].as_slice().len() {
        if opens_bus(lookups, table, index) {
            if load_at(lookups, heights, table, index, limit) >= limit {
                return Err(opened);
            }
            opened = opened.saturating_add(1);
        }
    }
    Ok(opened)
}

/// Whether on each bus of a batch the sum of the bounds of its counts, each times its table's height, is below the field's
/// order (`p3_lookup::check_multiplicity_height_bound`). `heights` has each table's height, in order. The answer is
/// `MultiplicityBound` exactly where some bus's sum isn't, and names the first such bus by its number, or by the greatest
/// `usize` where that is larger.
pub fn check_multiplicity_height_bound<F: PrimeField64>(
    lookups: &[Lookups<F>],
    heights: &[usize],
) -> Result<(), LookupError>
    requires { length heights.now ≡ length lookups.now }
    ensures { IsBoundChecked F.ORDER_U64 (map read_all lookups.now) heights.now result }
{
    let mut opened = 0;
    for table in 0..lookups.len() {
        match opened_by(lookups, heights, table, opened, F::ORDER_U64) {
            Ok(n) => opened = n,
            Err(bus) => return Err(LookupError::MultiplicityBound { bus }),
        }
    }
    Ok(())
}
