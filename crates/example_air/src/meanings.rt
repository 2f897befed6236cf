//! What the constraints mean: a law as the contract of a function that computes nothing.
ghost use Rattle.std.specs.Prelude.{◌^◌, ◌<◌};
ghost use Rattle.example_air.specs.Meanings.{ByteRowMeans};

use p3_field::PrimeField64;

/// A row of nine cells meets the constraints of a row of bits exactly where it is the row of a byte: its bits, the lowest first, and the
/// byte. The order of the field is above 2^20.
pub fn rows_are_bytes<F: PrimeField64>()
    requires { 2 ^ 20 < F.ORDER_U64 }
    ensures { ByteRowMeans F.ring }
{}
