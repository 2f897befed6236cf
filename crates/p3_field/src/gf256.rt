//! The field of 256 elements.
ghost use Rattle.std.specs.Prelude.{◌<◌};

mod field;
mod ring;

/// A value of the field of 256 elements, as a polynomial over the field of two elements modulo
/// x^8 + x^4 + x^3 + x + 1: bit i of `value` is the coefficient of x^i. Its `GENERATOR` is 3 (not in Plonky3; the modulus
/// is that of FIPS 197).
#[derive(Clone, Copy, PartialEq, Eq, Debug)]
pub struct Gf256 {
    /// The coefficients.
    pub value: u8,
    ghost in_range: { value < 256 },
}
