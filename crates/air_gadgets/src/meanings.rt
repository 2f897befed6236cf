//! What the gadgets' constraints mean: laws as the contracts of functions that compute nothing.
//!
//! Those on words hold over each prime field of more than 2^20 elements, those on bits over each field. They hold
//! whatever values the cells have.
ghost use Rattle.std.specs.Prelude.{ℕ, ◌^◌, ◌<◌};
ghost use Rattle.air_core.specs.declared.cells.Cell.{Cell};
ghost use Rattle.air_core.specs.declared.cells.ExtCell.{ExtCell};
ghost use Rattle.air_gadgets.specs.Words.{cells_reading, Add2Means, Add3Means, XorShiftMeans, PackMeans, PackSums, BitsMean, BoolMeans, XorMeans, XorTells};

use p3_field::{Field, PrimeField64};

/// Over each field the constraint of `assert_bool` is zero exactly where the value is zero or one.
pub fn assert_bool_means<F: Field>()
    ensures { (at : Cell → F) (at_ext : ExtCell → F)
        → BoolMeans F.ring (cells_reading F.ring at at_ext) }
{}

/// Over each field, also where one and one is zero, the expression of `xor` is of bits, as numbers, their exclusive or.
/// Of values that are zero or one it is zero where they are equal, and else one.
pub fn xor_means<F: Field>()
    ensures numbers { (at : Cell → F) (at_ext : ExtCell → F)
        → XorMeans F.ring (cells_reading F.ring at at_ext) }
    ensures values { (at : Cell → F) (at_ext : ExtCell → F)
        → XorTells F.ring (cells_reading F.ring at at_ext) }
{}

/// Where the limbs are below 2^16, the constraints of `add2` are zero exactly where a is b + c modulo 2^32.
pub fn add2_means<F: PrimeField64>()
    requires { 2 ^ 20 < F.ORDER_U64 }
    ensures { (at : Cell → F) (at_ext : ExtCell → F)
        → Add2Means F.ring (cells_reading F.ring at at_ext) }
{}

/// Where the limbs are below 2^16, the constraints of `add3` are zero exactly where a is b + c + d modulo 2^32.
pub fn add3_means<F: PrimeField64>()
    requires { 2 ^ 20 < F.ORDER_U64 }
    ensures { (at : Cell → F) (at_ext : ExtCell → F)
        → Add3Means F.ring (cells_reading F.ring at at_ext) }
{}

/// Where b has bits, the constraints of `xor_32_shift` are zero exactly where c has bits and the limbs of a are those
/// of b xor (c rotated to the left by s).
pub fn xor_32_shift_means<F: PrimeField64>()
    requires { 2 ^ 20 < F.ORDER_U64 }
    ensures { (at : Cell → F) (at_ext : ExtCell → F)
        → XorShiftMeans F.ring (cells_reading F.ring at at_ext) }
{}

/// The expression of `pack_bits_le` is the sum of the values, that at place i times 2^i; of bits it is their number.
pub fn pack_bits_le_means<F: PrimeField64>()
    ensures sum { (at : Cell → F) (at_ext : ExtCell → F)
        → PackSums F.ring (cells_reading F.ring at at_ext) }
    ensures number { (at : Cell → F) (at_ext : ExtCell → F)
        → PackMeans F.ring (cells_reading F.ring at at_ext) }
{}

/// The bits of `u32_to_bits_le` are bits, and the word is their number.
pub fn u32_to_bits_le_means()
    ensures { (w : ℕ) → w < 2 ^ 32 → BitsMean w }
{}
