//! Calls of periodic columns and their tables.
ghost use Rattle.std.specs.Prelude.{◌≡◌, ◌^◌, length, IsTrue};
ghost use Rattle.commit_core.specs.Periodic.{IsPeriod};

use crate::reading::{Coset, coset_of, lists_of, number, values_of};
use crate::writing::push_word;
use commit_core::{PeriodicColumns, PeriodicEvaluator, PeriodicLdeTable, PolynomialSpace};
use p3_field::{BabyBear, ExtensionField, Mem, PrimeCore64, RingCore};
use p3_matrix::{RowMajorMatrix, is_power_of_two};
use std::alloc::Global;

/// Columns for the height that is the first number: how many a copy has, its height, the greatest length, whether there are none,
/// and how many are listed; or why they don't fit.
pub fn columns(alloc: Global, lists: &[Vec<usize>]) -> Mem<String> {
    let [numbers, columns @ ..] = lists else {
        return String::from_str(alloc, "bad case");
    };
    let columns = lists_of::<BabyBear>(alloc, columns)?;
    match PeriodicColumns::new(&columns, number(numbers, 0)) {
        Ok(fit) => {
            let copy = fit.clone()?;
            let (count, height) = (copy.len(), copy.height());
            let (most, empty) = (fit.max_period(), fit.is_empty());
            format!(in alloc;
                "{count} {height} {most:?} {empty} {}",
                fit.as_slice().len()
            )
        }
        Err(error) => format!(in alloc; "{error}"),
    }
}

// Whether a column can be laid over a domain.
fn is_period(domain: &Coset, column: &[BabyBear]) -> bool
    ensures { IsTrue result → IsPeriod (2 ^ domain.now.log_size) (length column.now) }
{
    let length = column.len();
    if !is_power_of_two(length) {
        return false;
    }
    let rest = domain.size() % length;
    if rest != 0 {
        return false;
    }
    true
}

/// The values at x of periodic columns' polynomials, by the call for all of them, and then by that for each.
pub fn periodic_values<E: ExtensionField<BabyBear>>(
    alloc: Global,
    domain: &Coset,
    x: E,
    lists: &[Vec<usize>],
) -> Mem<Vec<E>> {
    let columns = lists_of::<BabyBear>(alloc, lists)?;
    let Ok(fit) = PeriodicColumns::new(&columns, domain.size()) else {
        return Ok(Vec::new(alloc));
    };
    let mut values = domain.evaluate_periodic_columns_at(alloc, fit, x)?;
    for column in &columns {
        let column = column.as_slice();
        if is_period(domain, column) {
            values.push(domain.evaluate_periodic_column_at(column, x))?;
        }
    }
    Ok(values)
}

/// A table's height and width and whether it is empty; after how many groups the groups of so many rows repeat; and the first
/// column's cells in these rows.
pub fn table_shown(
    alloc: Global,
    table: &PeriodicLdeTable<BabyBear>,
    packs: &[usize],
    rows: &[usize],
) -> Mem<String> {
    let (height, width) = (table.height(), table.width());
    let mut out = format!(in alloc; "{height} {width} {}", table.is_empty())?;
    for pack in packs {
        if *pack > 0 {
            push_word(&mut out, table.packed_group_period(*pack))?;
        }
    }
    for row in rows {
        if height > 0 && width > 0 {
            push_word(&mut out, table.get(*row, 0).as_canonical_u64())?;
        }
    }
    Ok(out)
}

/// The table of a column, of which the groups and the rows come first. Without values it is that of no column, from the evaluator
/// that takes none, and how many values that has at a point comes last.
pub fn table(alloc: Global, lists: &[Vec<usize>]) -> Mem<String> {
    let [packs, rows, cells] = lists else {
        return String::from_str(alloc, "bad case");
    };
    let column = RowMajorMatrix::new_col(values_of::<BabyBear>(alloc, cells)?);
    if is_power_of_two(column.height()) {
        return table_shown(alloc, &PeriodicLdeTable::new(column), packs, rows);
    }
    let Some(domain) = coset_of(&[1, 2]) else {
        return String::from_str(alloc, "bad case");
    };
    let table = <() as PeriodicEvaluator<BabyBear, Coset>>::eval_on_lde(
        alloc,
        &[],
        &domain,
        &domain,
    )?;
    let values = <() as PeriodicEvaluator<BabyBear, Coset>>::eval_at_point(
        alloc,
        &[],
        &domain,
        BabyBear::from_u64(3),
    )?;
    let mut out = table_shown(alloc, &table, packs, rows)?;
    push_word(&mut out, values.len())?;
    Ok(out)
}
