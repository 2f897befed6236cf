//! Whether all tuples on one bus have one width.
ghost use Rattle.std.specs.Prelude.{◌≡◌, ◌==◌, ◌↔◌, length, map, flat_map, IsTrue};
ghost use Rattle.std.specs.List.{list_all};
ghost use Rattle.p3_lookup.specs.Bus.{HaveOneWidth};
ghost use Rattle.p3_lookup.specs.Packing.{same_name};
ghost use Rattle.p3_lookup.specs.Written.{bus_of_kind, read_all};
ghost use Rattle.batch_statement.specs.Fitting.{widths_agree as agree_in_width, agree as agree_where_shared, agrees_with as agrees_with_all, fits_among as fits_among_all, have_one_width as have_one_width_each};

use air_core::SymbolicExpression;
use p3_lookup::{Kind, Lookup, Lookups};

// Whether each tuple has this many fields.
fn have_width<F>(tuples: &[Vec<SymbolicExpression<F>>], width: usize) -> bool
    ensures { result ≡ list_all (λ t. length t.items == width) tuples.now }
{
    tuples.iter().all(|tuple| tuple.len() == width)
}

// Whether each of the second tuples has as many fields as each of the first.
fn tuples_agree<F>(
    first: &[Vec<SymbolicExpression<F>>],
    second: &[Vec<SymbolicExpression<F>>],
) -> bool
    ensures { result ≡ list_all (λ s. list_all (λ t. length t.items == length s.items) second.now)
        first.now }
{
    first.iter().all(|tuple| have_width(second, tuple.len()))
}

// Whether the tuples of both lookups have one width.
fn widths_agree<F>(a: &Lookup<F>, b: &Lookup<F>) -> bool
    ensures { result ≡ agree_in_width a.now b.now }
{
    tuples_agree(&a.elements, &b.elements)
}

// Whether both kinds are global, and of one name.
fn share_name(a: &Kind, b: &Kind) -> bool
    ensures { result ≡ same_name (bus_of_kind a.now) (bus_of_kind b.now) }
{
    match a {
        Kind::Local => false,
        Kind::Global(name) => match b {
            Kind::Local => false,
            Kind::Global(other) => name.as_bytes() == other.as_bytes(),
        },
    }
}

// Whether both lookups name different buses, or their tuples have one width.
fn agree<F>(a: &Lookup<F>, b: &Lookup<F>) -> bool
    ensures { result ≡ agree_where_shared a.now b.now }
{
    !share_name(&a.kind, &b.kind) || widths_agree(a, b)
}

// Whether the lookup agrees with each of these.
fn agrees_with_table<F>(lookup: &Lookup<F>, table: &[Lookup<F>]) -> bool
    ensures { result ≡ list_all (agree_where_shared lookup.now) table.now }
{
    table.iter().all(|other| agree(lookup, other))
}

// Whether the lookup agrees with those of each of these tables.
fn agrees_with<F>(lookup: &Lookup<F>, tables: &[Lookups<F>]) -> bool
    ensures { result ≡ agrees_with_all lookup.now tables.now }
{
    tables
        .iter()
        .all(|table| agrees_with_table(lookup, table.as_slice()))
}

// Whether the tuples of the lookup have one width, and it agrees with those of each of these tables.
fn fits_among<F>(tables: &[Lookups<F>], lookup: &Lookup<F>) -> bool
    ensures { result ≡ fits_among_all tables.now lookup.now }
{
    widths_agree(lookup, lookup) && agrees_with(lookup, tables)
}

// Whether this is so of each lookup of a table.
fn table_fits_among<F>(tables: &[Lookups<F>], table: &[Lookup<F>]) -> bool
    ensures { result ≡ list_all (fits_among_all tables.now) table.now }
{
    table.iter().all(|lookup| fits_among(tables, lookup))
}

// Whether all tuples on one bus have one width, as a test of each lookup against all.
fn all_agree<F>(tables: &[Lookups<F>]) -> bool
    ensures { result ≡ have_one_width_each tables.now }
{
    tables
        .iter()
        .all(|table| table_fits_among(tables, table.as_slice()))
}

/// Whether all tuples on one bus have one width, over the lookups of these tables (not in Plonky3). A local lookup has a bus of its own, a global one
/// that of its name. It takes no memory.
pub fn have_one_width<F>(tables: &[Lookups<F>]) -> bool
    ensures { IsTrue result ↔ HaveOneWidth (flat_map (λ ls. ls) (map read_all tables.now)) }
{
    all_agree(tables)
}
