//! Words and bits of a row, as expressions and as they are read from its cells.
ghost use Rattle.std.specs.Prelude.{◌≡◌, ℕ, ◌+◌, ◌<◌, ◌≤◌, ◌↔◌, [], IfOk, IsOk, IsTrue, false, length};
ghost use Rattle.p3_field.specs.Ring.{of_nat};
ghost use Rattle.air_core.specs.declared.cells.Cell.TheVariants.{Main as MainCell};
ghost use Rattle.air_core.specs.Tree.{cell as cell_tree};
ghost use Rattle.air_gadgets.specs.Gadgets.{RepresentAt};
ghost use Rattle.blake3_compress.specs.Reading.{from_column, HasWordAt, CountsAt};

use air_core::{AirBuilder, Cell};
use p3_field::{Field, Mem};

/// The cell of a column, as an expression (not in Plonky3, whose AIRs read their columns in place).
pub fn cell_at<AB: AirBuilder>(builder: &mut AB, column: usize) -> Mem<AB::Expr>
    requires { column < (AB.shape builder.old).main }
    ensures later { AB.later builder.old builder.new }
    ensures keeps_shape { AB.shape builder.new ≡ AB.shape builder.old }
    ensures answers { IsTrue AB.never_fails → IsOk result }
    ensures appends { AB.appends builder.old builder.new [] [] }
    ensures represents { IfOk result
        (λ e. AB.represents builder.new e (cell_tree (MainCell false column))) }
{
    builder.cell(Cell::Main {
        next: false,
        column,
    })
}

/// The 32 bits from a column on, as expressions (not in Plonky3). No row of the AIRs has more than 11,536 cells.
pub fn bits_at<AB: AirBuilder>(builder: &mut AB, column: usize) -> Mem<[AB::Expr; 32]>
    requires wide { column + 32 ≤ (AB.shape builder.old).main }
    requires small { column + 32 ≤ 11536 }
    ensures later { AB.later builder.old builder.new }
    ensures keeps_shape { AB.shape builder.new ≡ AB.shape builder.old }
    ensures answers { IsTrue AB.never_fails → IsOk result }
    ensures appends { AB.appends builder.old builder.new [] [] }
    ensures represents { IfOk result
        (λ es. RepresentAt (AB.represents builder.new) es (from_column column)) }
{
    let first = cell_at(builder, column)?;
    let mut cells = [first; 32];
    for i in 0..32 {
        cells[i] = cell_at(builder, column + i)?;
    }
    Ok(cells)
}

// The bit that an element represents: an element that isn't zero counts as one.
fn bit_of<F: Field>(x: F) -> u32
    ensures below { result < 2 }
    ensures zero { (result ≡ 0) ↔ (x ≡ F.ring.zero) }
    ensures bit { (b : ℕ) → b < 2 → x ≡ of_nat F.ring b → result ≡ b }
{
    if x.is_zero() { 0 } else { 1 }
}

/// The word whose 32 bits stand from a column on, the lowest first: that whose bits the cells are (`word`). A cell that isn't
/// zero counts as one, also where it is no bit (`counted`; not in Plonky3). No row of the AIRs has more than 11,536 cells.
pub fn word_at<F: Field>(row: &[F], at: usize) -> u32
    requires fits { at + 32 ≤ length row.now }
    requires wide { length row.now ≤ 11536 }
    ensures counted { CountsAt F.ring row.now at result }
    ensures word { (w : ℕ) → HasWordAt F.ring row.now at w → result ≡ w }
{
    let mut word = 0u32;
    for i in 0..32 {
        word = word % 2147483648 * 2 + bit_of(row[at + (31 - i)]);
    }
    word
}
