//! A table's constraints with their places and degree, the chunks of its quotient, and how many values it opens.
ghost use Rattle.std.specs.Prelude.{◌≡◌, ◌<◌};
ghost use Rattle.p3_lookup.specs.Written.{read_all};
ghost use Rattle.batch_constraints.specs.BatchTrees.{AreLookupsOf};

use crate::reading::{bad_case, number};
use air_core::{Air, AirLayout, BaseAir};
use batch_constraints::{
    get_constraint_layout, get_log_num_quotient_chunks, get_log_num_quotient_chunks_for_domain,
    get_max_constraint_degree, get_symbolic_constraints, num_batched_openings,
};
use commit_core::PolynomialSpace;
use p3_field::{
    BabyBear, FieldCore, Mem, RingCore, TwoAdicCore, TwoAdicField, TwoAdicMultiplicativeCoset,
};
use p3_lookup::{LogUpGadget, Lookup};
use p3_uni_stark::OpeningShape;
use std::alloc::Global;

/// How many constraints a table has of its own and of its lookups, their places, and their degree over 2^`log_rows` rows.
pub fn sizes<A: Air<BabyBear>>(
    alloc: Global,
    air: &A,
    lookups: &[Lookup<BabyBear>],
    log_rows: usize,
) -> Mem<String>
    requires lookups { AreLookupsOf (A.declaration air.now) (read_all lookups.now) }
    requires rows { log_rows < 64 }
{
    let gadget = LogUpGadget::new();
    let layout = AirLayout::from_air::<BabyBear, A>(air);
    let (base, extension) = get_symbolic_constraints(alloc, air, layout, lookups, &gadget)?;
    let places = get_constraint_layout(alloc, air, layout, lookups, &gadget)?;
    let rows = 1 << log_rows;
    if rows == 0 {
        return bad_case(alloc);
    }
    let degree = get_max_constraint_degree(alloc, air, layout, rows, lookups, &gadget)?;
    let (own, others) = (places.base_indices, places.ext_indices);
    format!(in alloc;
        "{} {} {own:?} {others:?} {degree}",
        base.len(),
        extension.len()
    )
}

/// The logarithm of the number of chunks of a table's quotient, over 2^`log_rows` rows and over the subgroup of that size, where the word says
/// whether the backend masks.
pub fn chunks<A: Air<BabyBear>>(
    alloc: Global,
    air: &A,
    lookups: &[Lookup<BabyBear>],
    log_rows: usize,
    words: &[&str],
) -> Mem<String>
    requires { AreLookupsOf (A.declaration air.now) (read_all lookups.now) }
{
    let [is_zk] = *words else {
        return bad_case(alloc);
    };
    let Some(domain) = TwoAdicMultiplicativeCoset::new(BabyBear::ONE, log_rows) else {
        return bad_case(alloc);
    };
    let is_zk = number(is_zk).min(1);
    let gadget = LogUpGadget::new();
    let layout = AirLayout::from_air::<BabyBear, A>(air);
    let rows = domain.size();
    if rows == 0 {
        return bad_case(alloc);
    }
    let count = get_log_num_quotient_chunks(alloc, air, layout, rows, lookups, is_zk, &gadget)?;
    let over_domain = get_log_num_quotient_chunks_for_domain(
        alloc, air, layout, domain, lookups, is_zk, &gadget,
    )?;
    format!(in alloc; "{count} {over_domain}")
}

/// How many values a table with next rows and without preprocessed columns opens, over the line and over the circle, where the challenges' field
/// has dimension four: the words are its width, the number of chunks, and that of its lookups.
pub fn openings(alloc: Global, words: &[&str]) -> Mem<String> {
    let [width, chunks, lookups] = *words else {
        return bad_case(alloc);
    };
    let width = number(width).min(1000);
    let chunks = number(chunks).min(1000);
    let lookups = number(lookups).min(1000);
    let line = OpeningShape::Univariate;
    let over_line = num_batched_openings(width, true, 0, false, chunks, lookups, 4, line);
    let circle = OpeningShape::Circle;
    let over_circle = num_batched_openings(width, true, 0, false, chunks, lookups, 4, circle);
    format!(in alloc; "{over_line} {over_circle}")
}
