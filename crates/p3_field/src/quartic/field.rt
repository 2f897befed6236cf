//! `QuarticExtension` as a field.
ghost use Rattle.std.specs.Prelude.{◌≡◌};
ghost use Rattle.p3_field.specs.BabyBear.{reduce};
ghost use Rattle.p3_field.specs.Quartic.{of_baby_bear_value, quartic_inv};
ghost use Rattle.p3_field.specs.Laws.QuarticField.{conjugate, even, quartic_field_laws, quartic_31, quartic_eq_same, quartic_same_eq};

use crate::baby_bear::ring::eleven;
use crate::baby_bear::{BEAR_0, BEAR_31, BabyBear};
use crate::quartic::QuarticExtension;
use crate::{FieldCore, RingCore};

#[tactic(auto, using(crate::specs::Laws::QuarticLaws::quartic_same, crate::specs::Laws::QuarticField::quartic_is_zero), unfolding(crate::specs::BabyBear::baby_bear_ring))]
impl FieldCore for QuarticExtension {
    ghost GENERATOR = { of_baby_bear_value (reduce 31) };

    ghost inv = { quartic_inv };

    const GENERATOR: QuarticExtension = QuarticExtension {
        c0: BEAR_31,
        c1: BEAR_0,
        c2: BEAR_0,
        c3: BEAR_0,
    };

    fn is_zero(&self) -> bool {
        *self == QuarticExtension::ZERO
    }

    fn try_inverse(&self) -> Option<QuarticExtension> {
        if self.is_zero() {
            None
        } else {
            Some(self.inverse())
        }
    }

    // With e = a + b x^2 the product of this with its conjugate, the inverse is the conjugate over e,
    // and 1 / e is (a - b x^2) / (a^2 - 11 b^2).
    fn inverse(&self) -> QuarticExtension {
        let conjugate = self.conjugate();
        let product = *self * conjugate;
        let norm = product.c0 * product.c0 - eleven() * (product.c2 * product.c2);
        let scale = norm.inverse();
        conjugate * even(scale * product.c0, -(scale * product.c2))
    }

    ghost field_laws = { quartic_field_laws };

    ghost generator_not_zero = { quartic_31 };

    ghost eq_same = { quartic_eq_same };

    ghost same_eq = { quartic_same_eq };
}

impl QuarticExtension {
    // The value with the odd coefficients negated.
    fn conjugate(self) -> QuarticExtension
        ensures { result ≡ conjugate self }
    {
        QuarticExtension {
            c0: self.c0,
            c1: -self.c1,
            c2: self.c2,
            c3: -self.c3,
        }
    }
}

// a + b x^2.
#[tactic(auto, using(crate::specs::Laws::QuarticLaws::quartic_same), unfolding(crate::specs::BabyBear::baby_bear_ring))]
fn even(a: BabyBear, b: BabyBear) -> QuarticExtension
    ensures { result ≡ even a b }
{
    QuarticExtension {
        c0: a,
        c1: BEAR_0,
        c2: b,
        c3: BEAR_0,
    }
}
