//! The rows of chains, and the check of them, also with a cell or a public value changed.
ghost use Rattle.std.specs.Prelude.{◌≡◌, length};

use crate::reading::{blocks_of, chaining_of, number, push_word};
use air_check::check_constraints;
use blake3_compress::TraceError;
use chain_air::{ChainAir, chain_end, chain_publics, generate_chain_rows};
use p3_field::{BabyBear, FieldCore, Mem, PrimeCore64, RingCore};
use p3_matrix::RowMajorMatrix;
use std::alloc::Global;

/// The answer to a case of a chain.
pub fn answer(alloc: Global, words: &[&str]) -> Mem<String> {
    match *words {
        ["rows", start, ref blocks @ ..] => {
            rows_shown(alloc, chaining_of(start), &blocks_of(alloc, blocks)?)
        }
        ["check", start, ref blocks @ ..] => {
            checked_with(
                alloc,
                chaining_of(start),
                &blocks_of(alloc, blocks)?,
                None,
                None,
            )
        }
        ["changed", row, column, start, ref blocks @ ..] => {
            let at = Some(
                number(row)
                    .saturating_mul(9168)
                    .saturating_add(number(column)),
            );
            checked_with(
                alloc,
                chaining_of(start),
                &blocks_of(alloc, blocks)?,
                at,
                None,
            )
        }
        ["public", place, start, ref blocks @ ..] => {
            let at = Some(number(place));
            checked_with(
                alloc,
                chaining_of(start),
                &blocks_of(alloc, blocks)?,
                None,
                at,
            )
        }
        _ => String::from_str(alloc, "bad case"),
    }
}

/// A number in base 31 with one digit more.
fn with_digit(sum: BabyBear, digit: BabyBear) -> BabyBear {
    let shifted = sum * BabyBear::from_u64(31);
    shifted + digit
}

/// All cells in one number, as the digits of a number in base 31.
fn fingerprint(row: &[BabyBear]) -> BabyBear {
    let mut sum = BabyBear::ZERO;
    for cell in row {
        sum = with_digit(sum, *cell);
    }
    sum
}

/// How many rows there are, the number of each, and the words that the chain ends with; or why there are none.
fn rows_shown(alloc: Global, start: [u32; 8], blocks: &[[u32; 16]]) -> Mem<String> {
    let rows = match generate_chain_rows(alloc, start, blocks) {
        Ok(rows) => rows,
        Err(error) => return error_shown(alloc, error),
    };
    let mut out = String::new(alloc);
    push_word(&mut out, rows.height())?;
    for i in 0..rows.height() {
        push_word(&mut out, fingerprint(rows.row(i)).as_canonical_u64())?;
    }
    for word in chain_end(start, blocks) {
        push_word(&mut out, format_args!("{word:08x}"))?;
    }
    Ok(out)
}

/// The error's text.
fn error_shown(alloc: Global, error: TraceError) -> Mem<String> {
    format!(in alloc; "{error}")
}

/// What the check says of the rows of a chain and its public values, where the cell at a place, row after row, or a public value, is one more.
fn checked_with(
    alloc: Global,
    start: [u32; 8],
    blocks: &[[u32; 16]],
    cell: Option<usize>,
    public: Option<usize>,
) -> Mem<String> {
    let mut cells = match generate_chain_rows(alloc, start, blocks) {
        Ok(rows) => rows.values,
        Err(error) => return error_shown(alloc, error),
    };
    let mut publics = chain_publics(alloc, &start, &chain_end(start, blocks))?;
    if let Some(place) = cell {
        raise(&mut cells, place);
    }
    if let Some(place) = public {
        raise(&mut publics, place);
    }
    let rows = RowMajorMatrix {
        values: cells,
        width: 9168,
    };
    checked(alloc, &rows, &publics)
}

/// One more at this place, where there is one.
fn raise(values: &mut Vec<BabyBear>, place: usize)
    ensures { length values.new.items ≡ length values.old.items }
{
    if place < values.len() {
        values[place] = values[place] + BabyBear::ONE;
    }
}

/// What the check says of rows and public values.
fn checked(alloc: Global, rows: &RowMajorMatrix<BabyBear>, publics: &[BabyBear]) -> Mem<String>
    requires width { rows.now.width ≡ 9168 }
    requires publics { length publics.now ≡ 32 }
{
    if rows.height() == 0 {
        return String::from_str(alloc, "no row");
    }
    match check_constraints(alloc, &ChainAir::new(), rows, None, publics) {
        Ok(()) => String::from_str(alloc, "met"),
        Err(error) => format!(in alloc; "{error}"),
    }
}
