//! The BabyBear field: numbers modulo p = 15 * 2^27 + 1 = 2013265921.
ghost use Rattle.std.specs.Prelude.{◌<◌};

mod field;
pub(crate) mod ring;

/// A value of the BabyBear field (`BabyBear` of `p3-baby-bear`): a number modulo p = 2013265921.
///
/// Its two-adicity is 27, and its `GENERATOR` is 31, of which each value but zero is a power (`power_of_g` of
/// `specs/Laws/BabyBearOrder.antt`).
#[derive(Clone, Copy, PartialEq, Eq, Debug)]
pub struct BabyBear {
    // The number itself, below p.
    value: u32,
    ghost in_range: { value < 2013265921 },
}

// Values for constants elsewhere in the crate.
pub(crate) const BEAR_0: BabyBear = BabyBear { value: 0 };

pub(crate) const BEAR_1: BabyBear = BabyBear { value: 1 };

pub(crate) const BEAR_2: BabyBear = BabyBear { value: 2 };

pub(crate) const BEAR_31: BabyBear = BabyBear { value: 31 };
