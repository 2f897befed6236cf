//! The powers of a challenge.
ghost use Rattle.std.specs.Prelude.{◌≡◌, IfOk};
ghost use Rattle.p3_field.specs.Ring.{pow};
ghost use Rattle.p3_uni_stark.specs.Fold.{fold_powers};

use p3_field::{Field, FieldCore, Mem, PrimeCharacteristicRing, RingCore};
use std::alloc::Global;

// The weights of so many constraints in their fold by a challenge: the greatest power first, and one last.
pub(crate) fn falling_powers<E: Field>(alloc: Global, challenge: E, count: usize) -> Mem<Vec<E>>
    ensures { IfOk result (λ v. v.items ≡ fold_powers E.ring challenge count) }
{
    let mut powers = Vec::with_capacity(alloc, count)?;
    let mut power = E::ONE;
    for _ in 0..count {
        powers.push(power)?;
        power = power * challenge;
    }
    powers.reverse();
    Ok(powers)
}
