//! The degree of a table's constraints, and into how many chunks its quotient is split.
ghost use Rattle.std.specs.Prelude.{◌≡◌, ℕ, ◌+◌, ◌-◌, ◌^◌, ◌<◌, ◌≤◌, List, [], ◌++◌, max, length, map, IfOk};
ghost use Rattle.air_core.specs.Layout.{layout_of};
ghost use Rattle.p3_lookup.specs.Written.{read, read_all};
ghost use Rattle.batch_constraints.specs.BatchTrees.{table_trees, AreLookupsOf};
ghost use Rattle.batch_constraints.specs.Fitting.{FewTransitionsFit};
ghost use Rattle.batch_constraints.specs.Sizing.{largest_multiple, largest_degree, constraint_degree, domain_degree, periods_of, hint_of, with_hint, log_chunks};

use crate::symbolic::recorded;
use air_core::{
    Air, AirLayout, BaseAir, InteractionSymbolicBuilder, constraint_degree_from_poly_degree,
};
use commit_core::PolynomialSpace;
use p3_field::{Field, FieldCore, Mem, RingCore};
use p3_lookup::{Lookup, LookupProtocol};
use p3_matrix::log2_ceil_usize;
use std::alloc::Global;

// How many values each column repeats.
fn lengths<F: FieldCore>(alloc: Global, columns: &[Vec<F>]) -> Mem<Vec<usize>>
    ensures { IfOk result (λ v. v.items ≡ map length (map (λ c. c.items) columns.now)) }
{
    let mut lengths = Vec::with_capacity(alloc, columns.len())?;
    for column in columns {
        lengths.push(column.len())?;
    }
    Ok(lengths)
}

// The largest multiple of the height of a table's constraints, where the transition selector has degree `t`.
fn table_multiple<F: Field, A: Air<F>, LG: LookupProtocol>(
    alloc: Global,
    air: &A,
    layout: AirLayout,
    t: usize,
    contexts: &[Lookup<F>],
    lookup_gadget: &LG,
) -> Mem<usize>
    requires layout { layout ≡ layout_of (A.declaration air.now) }
    requires lookups { AreLookupsOf (A.declaration air.now) (read_all contexts.now) }
    ensures { IfOk result (λ d.
        d ≡ largest_multiple t (table_trees F.ring (A.trees air.now) (read_all contexts.now))) }
{
    let builder = recorded(alloc, air, layout, contexts, lookup_gadget)?;
    builder.largest_degree_multiple(t)
}

// The largest degree of the polynomials of a table's constraints.
fn table_degree<F: Field, A: Air<F>, LG: LookupProtocol>(
    alloc: Global,
    air: &A,
    layout: AirLayout,
    trace_len: usize,
    contexts: &[Lookup<F>],
    lookup_gadget: &LG,
) -> Mem<usize>
    requires layout { layout ≡ layout_of (A.declaration air.now) }
    requires lookups { AreLookupsOf (A.declaration air.now) (read_all contexts.now) }
    requires rows { 0 < trace_len }
    ensures { IfOk result (λ d.
        d ≡ largest_degree trace_len (periods_of (A.declaration air.now))
        (table_trees F.ring (A.trees air.now) (read_all contexts.now))) }
{
    let builder = recorded(alloc, air, layout, contexts, lookup_gadget)?;
    let periods = lengths(alloc, air.periodic_columns())?;
    builder.largest_poly_degree(trace_len, &periods)
}

/// The degree of a table's constraints over so many rows, as a multiple of the height: of the AIR's and of those of its
/// lookups. Where the AIR has no periodic column it is the largest `degree_multiple`, else the largest `poly_degree` over
/// the height, rounded up; zero without constraints (`get_max_constraint_degree` of `p3-batch-stark`).
///
/// The height isn't zero. The other conditions are those of `get_symbolic_constraints`.
pub fn get_max_constraint_degree<F: Field, A: Air<F>, LG: LookupProtocol>(
    alloc: Global,
    air: &A,
    layout: AirLayout,
    trace_len: usize,
    contexts: &[Lookup<F>],
    lookup_gadget: &LG,
) -> Mem<usize>
    requires layout { layout ≡ layout_of (A.declaration air.now) }
    requires lookups { AreLookupsOf (A.declaration air.now) (read_all contexts.now) }
    requires rows { 0 < trace_len }
    ensures { IfOk result (λ d.
        d ≡ constraint_degree trace_len (periods_of (A.declaration air.now))
        (table_trees F.ring (A.trees air.now) (read_all contexts.now))) }
{
    if layout.num_periodic_columns == 0 {
        return table_multiple(alloc, air, layout, 0, contexts, lookup_gadget);
    }
    let degree = table_degree(alloc, air, layout, trace_len, contexts, lookup_gadget)?;
    Ok(constraint_degree_from_poly_degree(degree, trace_len))
}

// The logarithm of the number of chunks of the quotient of constraints of this degree.
fn chunks_of(degree: usize, is_zk: usize) -> usize
    requires { is_zk ≤ 1 }
    ensures { result ≡ log_chunks is_zk degree }
{
    log2_ceil_usize(degree.max(2 - is_zk) - (1 - is_zk))
}

// The degree, or the AIR's hint where it is larger.
fn hinted<F: Field, A: BaseAir<F>>(air: &A, degree: usize) -> usize
    ensures { result ≡ with_hint (A.declaration air.now) degree }
{
    match air.max_constraint_degree() {
        Some(hint) => degree.max(hint),
        None => degree,
    }
}

/// The logarithm of the number of chunks of a table's quotient: with d the larger of its constraints' degree and the AIR's
/// hint, the least k for which 2^k is at least max(d + `is_zk`, 2) - 1 (`get_log_num_quotient_chunks` of
/// `p3-batch-stark`).
///
/// Where the AIR has no periodic column, each constraint with fewer transition factors than max(d, 2) fits the chunks
/// (`fits`): over n rows, for any n but zero, its polynomial has a degree below n (2^k + 1). Transition factors count the
/// transition selectors that are multiplied with each other: a sum or a difference takes the larger number, a product adds.
///
/// `is_zk` is at most one. The other conditions are those of `get_max_constraint_degree`.
pub fn get_log_num_quotient_chunks<F: Field, A: Air<F>, LG: LookupProtocol>(
    alloc: Global,
    air: &A,
    layout: AirLayout,
    trace_len: usize,
    contexts: &[Lookup<F>],
    is_zk: usize,
    lookup_gadget: &LG,
) -> Mem<usize>
    requires layout { layout ≡ layout_of (A.declaration air.now) }
    requires lookups { AreLookupsOf (A.declaration air.now) (read_all contexts.now) }
    requires rows { 0 < trace_len }
    requires masks { is_zk ≤ 1 }
    ensures chunks { let trees = table_trees F.ring (A.trees air.now) (read_all contexts.now) in
        IfOk result (λ k. k ≡ log_chunks is_zk
        (with_hint (A.declaration air.now)
        (constraint_degree trace_len (periods_of (A.declaration air.now)) trees))) }
    ensures fits { let trees = table_trees F.ring (A.trees air.now) (read_all contexts.now) in
        let degree = with_hint (A.declaration air.now)
        (constraint_degree trace_len (periods_of (A.declaration air.now)) trees) in
        (A.declaration air.now).periodic ≡ []
        → IfOk result (λ k. FewTransitionsFit (periods_of (A.declaration air.now)) degree (2 ^ k)
        trees) }
{
    let degree = get_max_constraint_degree(alloc, air, layout, trace_len, contexts, lookup_gadget)?;
    Ok(chunks_of(hinted(air, degree), is_zk))
}

/// `get_log_num_quotient_chunks` for a domain: that of the domain's size where the domain's transition selector has degree
/// zero, else by the largest `degree_multiple_with_transition`. The constraints fit the chunks as they do there, where the
/// domain's transition selector has degree zero.
///
/// The domain has a point. The other conditions are those of `get_log_num_quotient_chunks`.
pub fn get_log_num_quotient_chunks_for_domain<
    F: Field,
    A: Air<F>,
    LG: LookupProtocol,
    D: PolynomialSpace<Val = F>,
>(
    alloc: Global,
    air: &A,
    layout: AirLayout,
    domain: D,
    contexts: &[Lookup<F>],
    is_zk: usize,
    lookup_gadget: &LG,
) -> Mem<usize>
    requires layout { layout ≡ layout_of (A.declaration air.now) }
    requires lookups { AreLookupsOf (A.declaration air.now) (read_all contexts.now) }
    requires points { 0 < D.points domain }
    requires masks { is_zk ≤ 1 }
    ensures chunks { let trees = table_trees F.ring (A.trees air.now) (read_all contexts.now) in
        IfOk result (λ k. k ≡ log_chunks is_zk
        (with_hint (A.declaration air.now)
        (domain_degree (D.transition_degree domain) (D.points domain)
        (periods_of (A.declaration air.now)) trees))) }
    ensures fits { let trees = table_trees F.ring (A.trees air.now) (read_all contexts.now) in
        let degree = with_hint (A.declaration air.now)
        (constraint_degree (D.points domain) (periods_of (A.declaration air.now)) trees) in
        D.transition_degree domain ≡ 0 → (A.declaration air.now).periodic ≡ []
        → IfOk result (λ k. FewTransitionsFit (periods_of (A.declaration air.now)) degree (2 ^ k)
        trees) }
{
    let t = domain.transition_degree_multiple();
    if t == 0 {
        let size = domain.size();
        return get_log_num_quotient_chunks(
            alloc,
            air,
            layout,
            size,
            contexts,
            is_zk,
            lookup_gadget,
        );
    }
    let degree = table_multiple(alloc, air, layout, t, contexts, lookup_gadget)?;
    Ok(chunks_of(hinted(air, degree), is_zk))
}
