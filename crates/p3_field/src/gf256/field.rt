//! `Gf256` as a field.
ghost use Rattle.std.specs.Prelude.{◌≡◌};
ghost use Rattle.p3_field.specs.Gf256.{of_byte, gf256_ring, gf256_inv};
ghost use Rattle.p3_field.specs.Laws.Gf256Field.{gf256_field_laws, gf256_three, gf256_same_eq, gf256_eq_same};

use crate::gf256::Gf256;
use crate::{FieldCore, PrimeCharacteristicRing, RingCore};

#[tactic(auto, using(crate::specs::Laws::Gf256Field::gf256_is_zero, crate::specs::Laws::Gf256Laws::same_gf256), unfolding(crate::specs::Gf256::gf256_inv))]
impl FieldCore for Gf256 {
    ghost GENERATOR = { of_byte 3 };

    ghost inv = { gf256_inv };

    const GENERATOR: Gf256 = Gf256 { value: 3 };

    fn is_zero(&self) -> bool {
        self.value == 0
    }

    fn try_inverse(&self) -> Option<Gf256> {
        if self.is_zero() {
            None
        } else {
            Some(self.inverse())
        }
    }

    // x^254, since x^255 is one.
    fn inverse(&self) -> Gf256 {
        self.exp_u64(254)
    }

    ghost field_laws = { gf256_field_laws };

    ghost generator_not_zero = { gf256_three };

    ghost eq_same = { gf256_same_eq };

    ghost same_eq = { gf256_eq_same };
}
