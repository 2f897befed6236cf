//! The quartic extension of `BabyBear`: polynomials modulo x^4 - 11.
use crate::baby_bear::BabyBear;

mod field;
pub(crate) mod ring;
mod vector;

/// A value c0 + c1 x + c2 x^2 + c3 x^3 of BabyBear[x] / (x^4 - 11)
/// (`BinomialExtensionField<BabyBear, 4>` of `p3-field`).
#[derive(Clone, Copy, PartialEq, Eq, Debug)]
pub struct QuarticExtension {
    /// The constant coefficient.
    pub c0: BabyBear,
    /// The coefficient of x.
    pub c1: BabyBear,
    /// The coefficient of x^2.
    pub c2: BabyBear,
    /// The coefficient of x^3.
    pub c3: BabyBear,
}
