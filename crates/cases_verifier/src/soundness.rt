//! How many challenges may be unlucky for a table, and which constraints the rows of a swap table break.

ghost use Rattle.std.specs.Prelude.{◌≡◌, ◌<◌, ◌^◌, IfOk};
ghost use Rattle.p3_lookup.specs.Written.{read_all};
ghost use Rattle.batch_constraints.specs.BatchTrees.{AreLookupsOf, layout_with};

use crate::reading::elements;
use crate::statement::air_of;
use crate::writing::bad_case;
use air_check::check_constraints;
use air_core::{Air, AirLayout, BaseAir, InteractionSymbolicBuilder};
use air_tables::SwapAir;
use batch_constraints::get_log_num_quotient_chunks;
use p3_field::{BabyBear, FieldCore, Mem, RingCore};
use p3_lookup::{LogUpGadget, Lookup, LookupProtocol, Lookups};
use p3_matrix::RowMajorMatrix;
use std::alloc::Global;

// The layout of a table with this many lookups.
fn with_lookups(layout: AirLayout, count: usize) -> AirLayout
    requires { count < 2 ^ 63 }
    ensures { result ≡ layout_with layout count }
{
    let (width, terminals) = if count == 0 { (0, 0) } else { (count + 1, 1) };
    AirLayout {
        permutation_width: width,
        num_permutation_challenges: count * 2,
        num_permutation_values: terminals,
        ..layout
    }
}

// All constraints of a table, recorded: its own and those of its lookups.
fn recorded<A: Air<BabyBear>>(
    alloc: Global,
    air: &A,
    lookups: &[Lookup<BabyBear>],
) -> Mem<InteractionSymbolicBuilder<BabyBear>>
    requires { AreLookupsOf (A.declaration air.now) (read_all lookups.now) }
{
    let layout = with_lookups(AirLayout::from_air::<BabyBear, A>(air), lookups.len());
    let mut builder = InteractionSymbolicBuilder::<BabyBear>::new(alloc, layout)?;
    LogUpGadget::new().eval_air_and_lookups(air, &mut builder, lookups)?;
    Ok(builder)
}

// How many alphas may be unlucky, the largest degree of the constraints, and how many zetas may be unlucky.
fn counts_of<A: Air<BabyBear>>(
    alloc: Global,
    air: &A,
    lookups: &[Lookup<BabyBear>],
    rows: usize,
) -> Mem<String>
    requires lookups { AreLookupsOf (A.declaration air.now) (read_all lookups.now) }
    requires rows { 0 < rows }
{
    let builder = recorded(alloc, air, lookups)?;
    let constraints = builder.constraint_layout(alloc)?.total_constraints();
    let mut periods = Vec::new(alloc);
    for column in air.periodic_columns() {
        periods.push(column.len())?;
    }
    let degree = builder.largest_poly_degree(rows, &periods)?;
    let layout = AirLayout::from_air::<BabyBear, A>(air);
    let gadget = LogUpGadget::new();
    let log_chunks = get_log_num_quotient_chunks(alloc, air, layout, rows, lookups, 0, &gadget)?;
    if log_chunks >= 32 {
        return bad_case(alloc);
    }
    let alphas = rows.checked_mul(constraints.saturating_sub(1)).unwrap_or(0);
    let points = rows.checked_mul((1usize << log_chunks) + 1).unwrap_or(0);
    let zetas = degree.max(points.saturating_sub(1));
    format!(in alloc; "{alphas} {degree} {zetas}")
}

// The lookups of a table.
fn lookups_of_air<A: Air<BabyBear>>(alloc: Global, air: &A) -> Mem<Lookups<BabyBear>>
    ensures { IfOk result (λ l. AreLookupsOf (A.declaration air.now) (read_all l)) }
{
    let own = Lookups::from_air(alloc, air)?;
    Ok(own)
}

/// Of a table of this kind with so many rows: how many alphas may be unlucky, the largest degree of the constraints, those of its lookups among
/// them, and how many zetas may be unlucky. By the calls that give the constraints, their degrees and the number of the quotient's chunks.
pub fn counts(alloc: Global, head: &[u64]) -> Mem<String> {
    let [kind, rows] = head else {
        return bad_case(alloc);
    };
    let rows = *rows as usize;
    let Some(air) = air_of(alloc, *kind, 0)? else {
        return bad_case(alloc);
    };
    if rows == 0 {
        return bad_case(alloc);
    }
    let lookups = lookups_of_air(alloc, &air)?;
    counts_of(alloc, &air, lookups.as_slice(), rows)
}

/// The text of what the check of a swap table's rows answers, which have these cells, with these public values; `met` where none is broken.
pub fn broken(alloc: Global, groups: &[Vec<u64>]) -> Mem<String> {
    let [_, cells, publics] = groups else {
        return bad_case(alloc);
    };
    let cells = elements::<BabyBear>(alloc, cells)?;
    let publics = elements::<BabyBear>(alloc, publics)?;
    if cells.len() % 2 != 0 || publics.len() != 3 {
        return bad_case(alloc);
    }
    let rows = RowMajorMatrix::new(cells, 2);
    if rows.height() == 0 {
        return bad_case(alloc);
    }
    match check_constraints(alloc, &SwapAir, &rows, None, &publics) {
        Ok(()) => String::from_str(alloc, "met"),
        Err(error) => format!(in alloc; "{error}"),
    }
}
