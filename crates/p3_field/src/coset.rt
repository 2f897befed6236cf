//! Cosets of the two-adic subgroups.
ghost use Rattle.std.specs.Prelude.{◌≡◌, ◌^◌, ◌<◌, ◌≤◌, ◌⊎◌, ⊤, MatchOption};
ghost use Rattle.p3_field.specs.Domain.{CosetData, point};

use crate::{FieldCore, PrimeCharacteristicRing, TwoAdicCore, TwoAdicField};
use std::alloc::AllocError;
use std::marker::Model;

/// The coset of a subgroup of size 2^`log_size`: the points `shift` * h^i for i below that size,
/// where h is `two_adic_generator(log_size)` (`TwoAdicMultiplicativeCoset` of `p3-field`).
///
/// A contract sees it as its shift and the logarithm of its size. The shift isn't zero, and
/// `log_size` is at most `TWO_ADICITY`: `valid` tells a proof so.
#[derive(Drop, PartialEq, Eq, Debug)]
pub struct TwoAdicMultiplicativeCoset<F: TwoAdicCore> {
    shift: F,
    log_size: usize,
}

impl<F: TwoAdicCore> Model for TwoAdicMultiplicativeCoset<F> {
    ghost Value = { CosetData F };

    ghost view = { λ c. record { shift = c.shift; log_size = c.log_size } };

    ghost inverse = { λ d. record { shift = d.shift; log_size = d.log_size } };

    ghost invariant = { λ c. (c.shift ≡ F.ring.zero → ⊥) × (c.log_size ≤ F.TWO_ADICITY) };
}

impl<F: TwoAdicCore> Clone for TwoAdicMultiplicativeCoset<F> {
    ghost is_clone = { λ x y. y ≡ x };

    ghost is_infallible = { λ _. ⊤ };

    fn clone(&self) -> Result<Self, AllocError> {
        Ok(*self)
    }
}

impl<F: TwoAdicCore> Copy for TwoAdicMultiplicativeCoset<F> {}

impl<F: TwoAdicCore> TwoAdicMultiplicativeCoset<F> {
    /// The coset with this shift and 2^`log_size` points; None exactly where `log_size` is above
    /// `TWO_ADICITY` or the shift is zero.
    pub fn new(shift: F, log_size: usize) -> Option<Self>
        ensures { MatchOption result ((F.TWO_ADICITY < log_size) ⊎ (shift ≡ F.ring.zero))
            (λ c. (c.shift ≡ shift) × (c.log_size ≡ log_size) × (log_size ≤ F.TWO_ADICITY)
            × (shift ≡ F.ring.zero → ⊥)) }
    {
        if log_size > F::TWO_ADICITY || shift.is_zero() {
            None
        } else {
            Some(TwoAdicMultiplicativeCoset { shift, log_size })
        }
    }

    /// Does nothing, and tells the caller's proof what every coset meets, which a proof can't read from the type alone
    /// (not in Plonky3).
    pub fn valid(&self)
        ensures { (self.now.shift ≡ F.ring.zero → ⊥) × (self.now.log_size ≤ F.TWO_ADICITY) }
    {
        let _ = &self.shift;
    }

    /// The shift, which is the first point.
    pub fn shift(&self) -> F
        ensures { result ≡ self.now.shift }
    {
        self.shift
    }

    /// The inverse of the shift.
    pub fn shift_inverse(&self) -> F
        ensures { result ≡ F.inv self.now.shift }
    {
        self.shift.inverse()
    }

    /// The logarithm to base 2 of the number of points.
    pub fn log_size(&self) -> usize
        ensures { result ≡ self.now.log_size }
    {
        self.log_size
    }

    /// The number of points.
    pub fn size(&self) -> usize
        ensures { result ≡ 2 ^ self.now.log_size }
    {
        1 << self.log_size
    }

    /// The generator of the subgroup: the ratio of a point to the one before.
    pub fn subgroup_generator(&self) -> F
        ensures { result ≡ F.root self.now.log_size }
    {
        F::two_adic_generator(self.log_size)
    }
}

impl<F: TwoAdicField> TwoAdicMultiplicativeCoset<F> {
    /// Point `i`: the shift times the generator to the power `i`, for any `i`, since the points
    /// repeat.
    pub fn point(&self, i: usize) -> F
        ensures { result ≡ point F.ring F.root self.now i }
    {
        self.shift * self.subgroup_generator().exp_u64(i as u64)
    }
}
