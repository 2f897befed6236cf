//! Words of the row as expressions (not in Plonky3, whose AIR reads them from its columns).
ghost use Rattle.std.specs.Prelude.{◌≡◌, ◌+◌, ◌<◌, ◌≤◌, [], IfOk, IsOk, IsTrue};
ghost use Rattle.air_gadgets.specs.Gadgets.{RepresentAt};
ghost use Rattle.blake3_prime.specs.Trees.{from_column, packed_limbs};

use crate::BITS_PER_LIMB;
use air_core::AirBuilder;
use air_gadgets::pack_bits_le;
use blake3_compress::{bits_at, cell_at};
use p3_field::Mem;

/// The two limbs from a column on.
pub fn limbs_at<AB: AirBuilder>(builder: &mut AB, column: usize) -> Mem<[AB::Expr; 2]>
    requires wide { 9168 ≤ (AB.shape builder.old).main }
    requires within { column + 2 ≤ 9168 }
    ensures later { AB.later builder.old builder.new }
    ensures keeps_shape { AB.shape builder.new ≡ AB.shape builder.old }
    ensures answers { IsTrue AB.never_fails → IsOk result }
    ensures appends { AB.appends builder.old builder.new [] [] }
    ensures represents { IfOk result
        (λ es. RepresentAt (AB.represents builder.new) es (from_column column)) }
{
    let first = cell_at(builder, column)?;
    let mut cells = [first; 2];
    for i in 0..2 {
        cells[i] = cell_at(builder, column + i)?;
    }
    Ok(cells)
}

/// The limbs of the word whose 32 bits stand from a column on.
pub fn packed_at<AB: AirBuilder>(builder: &mut AB, column: usize) -> Mem<[AB::Expr; 2]>
    requires wide { 9168 ≤ (AB.shape builder.old).main }
    requires within { column + 32 ≤ 9168 }
    ensures later { AB.later builder.old builder.new }
    ensures keeps_shape { AB.shape builder.new ≡ AB.shape builder.old }
    ensures answers { IsTrue AB.never_fails → IsOk result }
    ensures appends { AB.appends builder.old builder.new [] [] }
    ensures represents { IfOk result
        (λ es. RepresentAt (AB.represents builder.new) es
        (packed_limbs AB.F.ring (from_column column))) }
{
    let bits = bits_at(builder, column)?;
    let all = &bits[..];
    let low = pack_bits_le(builder, &all[..BITS_PER_LIMB])?;
    let high = pack_bits_le(builder, &all[BITS_PER_LIMB..])?;
    Ok([low, high])
}
