//! The words of a row, off the polynomials of a table's columns.
ghost use Rattle.std.specs.Prelude.{◌≡◌, ◌+◌, ◌≤◌, ◌<◌, IfOk, MatchOption, if◌then◌else◌, length, map};
ghost use Rattle.p3_field.specs.BabyBear.{baby_bear_ring};
ghost use Rattle.p3_field.specs.Poly.{tabulate};
ghost use Rattle.tool_hash_lines.specs.Columns.{polynomial_cells_at};
ghost use Rattle.tool_hash_lines.specs.RowWords.{HasBitCells, IsReadable, cell_number, printed_words, word_at, word_column};

use p3_dft::polynomial_value;
use p3_field::{BabyBear, FieldCore, Mem, PrimeCore64, RingCore};
use std::alloc::Global;

// The canonical number of the cell in a column at a point.
fn cell(polynomials: &[Vec<BabyBear>], point: BabyBear, column: usize) -> u64
    requires { column < length polynomials.now }
    ensures { result ≡ cell_number (polynomial_cells_at (map (λ f. f.items) polynomials.now) point)
        column }
{
    let value: BabyBear = polynomial_value(&polynomials[column], point);
    value.as_canonical_u64()
}

// The word whose bits are the 32 cells from a column on, the lowest first; None exactly where one of these isn't zero or one.
fn word(polynomials: &[Vec<BabyBear>], point: BabyBear, column: usize) -> Option<u32>
    requires { column + 32 ≤ length polynomials.now }
    ensures { let cells = polynomial_cells_at (map (λ f. f.items) polynomials.now) point in
        MatchOption result (HasBitCells cells column → ⊥)
        (λ w. HasBitCells cells column × (w ≡ word_at cells column)) }
{
    let mut number: u64 = 0;
    let mut bit = 32;
    while bit > 0 {
        bit -= 1;
        let digit = cell(polynomials, point, column + bit);
        if digit > 1 {
            return None;
        }
        number = 2 * number + digit;
    }
    Some(number as u32)
}

// The first of the 32 columns of a printed word: 28 words are a compression's input, and 16 its output.
fn first_column(word: usize) -> usize
    requires { word < 44 }
    ensures { result ≡ word_column word }
{
    if word < 28 {
        32 * word
    } else {
        8656 + 32 * (word - 28)
    }
}

/// The 44 printed words of the row at a point; None exactly where one of their cells isn't zero or one. The only error is running out of memory.
pub(crate) fn row_words(
    alloc: Global,
    polynomials: &[Vec<BabyBear>],
    point: BabyBear,
) -> Mem<Option<Vec<u32>>>
    requires { length polynomials.now ≡ 9168 }
    ensures { let cells = polynomial_cells_at (map (λ f. f.items) polynomials.now) point in
        IfOk result (λ o. MatchOption o (IsReadable cells → ⊥)
        (λ v. IsReadable cells × (v.items ≡ printed_words cells))) }
{
    let mut words = Vec::with_capacity(alloc, 44)?;
    for i in 0..44 {
        match word(polynomials, point, first_column(i)) {
            None => return Ok(None),
            Some(read) => words.push(read)?,
        }
    }
    Ok(Some(words))
}
