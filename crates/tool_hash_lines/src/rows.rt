//! The lines of the rows of a table, off the polynomials of its columns.
ghost use Rattle.std.specs.Prelude.{◌≡◌, ◌≤◌, ◌^◌, ◌++◌, OnOk, length, map};
ghost use Rattle.air_core.specs.Joined.{joined};
ghost use Rattle.p3_field.specs.BabyBear.{baby_bear_ring, baby_bear_root};
ghost use Rattle.p3_field.specs.Domain.{point, subgroup};
ghost use Rattle.tool_hash_lines.specs.Columns.{polynomial_cells_at};
ghost use Rattle.tool_hash_lines.specs.RowText.{row_line};

use crate::text::{push_unreadable, push_words};
use crate::words::row_words;
use p3_field::{BabyBear, Mem, RingCore, TwoAdicMultiplicativeCoset};
use std::alloc::Global;

// Appends the line of the row of this number, whose cells are the polynomials' values at a point. On an error a part may stand.
fn push_row(
    alloc: Global,
    text: &mut Vec<u8>,
    polynomials: &[Vec<BabyBear>],
    point: BabyBear,
    row: usize,
) -> Mem<()>
    requires { length polynomials.now ≡ 9168 }
    ensures { OnOk result (text.new.items ≡ text.old.items
        ++ row_line row (polynomial_cells_at (map (λ f. f.items) polynomials.now) point)) }
{
    match row_words(alloc, polynomials, point)? {
        Some(words) => push_words(alloc, text, &words),
        None => push_unreadable(text, row),
    }
}

/// The domain of a table of 2^`k` rows, whose points are those of the rows: the field's subgroup of that size, which it has where `k` is at most 27.
pub fn trace_domain(k: usize) -> TwoAdicMultiplicativeCoset<BabyBear>
    requires { k ≤ 27 }
    ensures { result ≡ subgroup baby_bear_ring k }
{
    match TwoAdicMultiplicativeCoset::new(BabyBear::ONE, k) {
        Some(domain) => domain,
        None => unreachable!(),
    }
}

/// Appends the lines of a table's 2^`k` rows in order: the cells of a row are the values of the table's 9168 polynomials at the row's point. On an error a
/// part may stand.
pub(crate) fn push_rows(
    alloc: Global,
    text: &mut Vec<u8>,
    polynomials: &[Vec<BabyBear>],
    k: usize,
) -> Mem<()>
    requires wide { length polynomials.now ≡ 9168 }
    requires high { k ≤ 27 }
    ensures { OnOk result (text.new.items
        ≡ text.old.items ++ joined (2 ^ k)
        (λ row. row_line row (polynomial_cells_at (map (λ f. f.items) polynomials.now)
        (point baby_bear_ring baby_bear_root (subgroup baby_bear_ring k) row)))) }
{
    let domain = trace_domain(k);
    for row in 0..domain.size() {
        push_row(alloc, text, polynomials, domain.point(row), row)?;
    }
    Ok(())
}
