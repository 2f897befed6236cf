//! Cells of the row as expressions.
ghost use Rattle.std.specs.Prelude.{◌≡◌, ◌+◌, ◌<◌, ◌≤◌, [], IfOk, IsOk, IsTrue};
ghost use Rattle.std.specs.Int.{bit_at};
ghost use Rattle.air_gadgets.specs.Gadgets.{RepresentAt, number};
ghost use Rattle.blake3_binary.specs.Trees.{from_column};

use air_core::AirBuilder;
use blake3_compress::cell_at;
use p3_field::{Mem, RingCore};

// The 31 carries from a column on.
pub fn carries_at<AB: AirBuilder>(builder: &mut AB, column: usize) -> Mem<[AB::Expr; 31]>
    requires wide { 11536 ≤ (AB.shape builder.old).main }
    requires within { column + 31 ≤ 11536 }
    ensures later { AB.later builder.old builder.new }
    ensures keeps_shape { AB.shape builder.new ≡ AB.shape builder.old }
    ensures answers { IsTrue AB.never_fails → IsOk result }
    ensures appends { AB.appends builder.old builder.new [] [] }
    ensures represents { IfOk result
        (λ es. RepresentAt (AB.represents builder.new) es (from_column column)) }
{
    let first = cell_at(builder, column)?;
    let mut cells = [first; 31];
    for i in 0..31 {
        cells[i] = cell_at(builder, column + i)?;
    }
    Ok(cells)
}

// The bit at place i of a word, as a constant.
fn constant_bit<AB: AirBuilder>(builder: &mut AB, word: u32, i: usize) -> Mem<AB::Expr>
    requires bits { i < 32 }
    ensures later { AB.later builder.old builder.new }
    ensures keeps_shape { AB.shape builder.new ≡ AB.shape builder.old }
    ensures answers { IsTrue AB.never_fails → IsOk result }
    ensures appends { AB.appends builder.old builder.new [] [] }
    ensures represents { IfOk result
        (λ e. AB.represents builder.new e (number AB.F.ring (bit_at word i))) }
{
    let bit = builder.constant(<AB::F as RingCore>::from_u64((word >> (i as u32) & 1) as u64))?;
    Ok(bit)
}

// The 32 bits of a word, as constants.
pub fn constant_bits<AB: AirBuilder>(builder: &mut AB, word: u32) -> Mem<[AB::Expr; 32]>
    ensures later { AB.later builder.old builder.new }
    ensures keeps_shape { AB.shape builder.new ≡ AB.shape builder.old }
    ensures answers { IsTrue AB.never_fails → IsOk result }
    ensures appends { AB.appends builder.old builder.new [] [] }
    ensures represents { IfOk result
        (λ es. RepresentAt (AB.represents builder.new) es (λ i. number AB.F.ring (bit_at word i))) }
{
    let first = constant_bit(builder, word, 0)?;
    let mut bits = [first; 32];
    for i in 0..32 {
        bits[i] = constant_bit(builder, word, i)?;
    }
    Ok(bits)
}
