//! Powers in any ring.
ghost use Rattle.std.specs.Prelude.{◌≡◌, ◌-◌, ◌^◌};
ghost use Rattle.p3_field.specs.Ring.{pow};

use crate::PrimeCharacteristicRing;

// Square and multiply, from the lowest bit of `n`.
pub(crate) fn power<F: PrimeCharacteristicRing>(x: F, n: u64) -> F
    ensures { result ≡ pow F.ring x n }
{
    let mut power = F::ONE;
    let mut base = x;
    let mut rest = n;
    while rest > 0 {
        if rest % 2 == 1 {
            power = power * base;
        }
        base = base.square();
        rest /= 2;
    }
    power
}

// `k` squarings.
pub(crate) fn repeated_square<F: PrimeCharacteristicRing>(x: F, k: usize) -> F
    ensures { result ≡ pow F.ring x (2 ^ k) }
{
    let mut power = x;
    for _ in 0..k {
        power = power.square();
    }
    power
}

// The powers 2^`k` - 1 and 2^`k`: the product of x^(2^i) for i below `k`, and the next square. The two
// products of a turn don't wait for each other, so this takes the time of the squares alone.
pub(crate) fn product_of_squares<F: PrimeCharacteristicRing>(x: F, k: usize) -> (F, F)
    ensures product { result.0 ≡ pow F.ring x (2 ^ k - 1) }
    ensures next { result.1 ≡ pow F.ring x (2 ^ k) }
{
    let mut product = F::ONE;
    let mut square = x;
    for _ in 0..k {
        product = product * square;
        square = square.square();
    }
    (product, square)
}
