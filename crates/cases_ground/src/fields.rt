//! Calls of the fields, over their bounds alone.

use crate::matrices::{flatten, interpolate};
use crate::printing::{print_bears, print_numbers, print_values};
use crate::reading::values_of;
use p3_dft::polynomial_value;
use p3_field::{
    BabyBear, BasedVectorSpace, ExtensionField, FieldCore, Gf256, PrimeCharacteristicRing,
    PrimeCore64, RingCore, TwoAdicCore, TwoAdicField,
};
use p3_matrix::sum_of_powers;
use std::io;

/// An element that a case has as a number.
pub trait Element: FieldCore {
    /// The element of a number.
    fn of(number: u64) -> Self;

    /// The number of this element.
    fn number(&self) -> u64;
}

impl Element for BabyBear {
    fn of(number: u64) -> Self {
        BabyBear::from_u64(number)
    }

    fn number(&self) -> u64 {
        self.as_canonical_u64()
    }
}

impl Element for Gf256 {
    fn of(number: u64) -> Self {
        Gf256 {
            value: (number % 256) as u8,
        }
    }

    fn number(&self) -> u64 {
        self.value as u64
    }
}

/// Calls of any field: of no value, and then of the values that the numbers are.
pub fn field<F: Element, V: ExtensionField<F>, R: Print + AllocGlobal>(
    rt: &R,
    call: &str,
    numbers: &[u64],
) -> io::Result<()> {
    match (call, numbers) {
        ("constants", []) => {
            print_values::<F, V, R>(rt, &[V::ZERO, V::ONE, V::TWO, V::GENERATOR])
        }
        ("number", [n]) => {
            let short = V::from_u16((*n % 65536) as u16);
            print_values::<F, V, R>(rt, &[V::from_u64(*n), short, V::from_bool(*n == 1)])
        }
        ("powers", [n, k, rest @ ..]) => powers::<F, V, R>(rt, *n, *k as usize, rest),
        _ => of_values::<F, V, R>(rt, call, numbers),
    }
}

// The power n of a value, its power 2^k, and the sum of its first 2^k powers.
fn powers<F: Element, V: ExtensionField<F>, R: Print + AllocGlobal>(
    rt: &R,
    n: u64,
    k: usize,
    numbers: &[u64],
) -> io::Result<()> {
    let values: Vec<V> = values_of::<F, V>(rt.alloc(), numbers)?;
    match values.as_slice() {
        [x] => {
            let sum = sum_of_powers(*x, k);
            print_values::<F, V, R>(rt, &[x.exp_u64(n), x.exp_power_of_2(k), sum])
        }
        _ => rt.println("bad case"),
    }
}

// Calls of values alone.
fn of_values<F: Element, V: ExtensionField<F>, R: Print + AllocGlobal>(
    rt: &R,
    call: &str,
    numbers: &[u64],
) -> io::Result<()> {
    let values: Vec<V> = values_of::<F, V>(rt.alloc(), numbers)?;
    match (call, values.as_slice()) {
        ("list", _) => print_values::<F, V, R>(rt, &values),
        ("combined", _) => match V::from_ext_basis_coefficients(&values) {
            Some(sum) => print_values::<F, V, R>(rt, &[sum]),
            None => rt.println("none"),
        },
        ("value", [x]) => {
            print_values::<F, V, R>(rt, &[-*x, x.square(), V::from_bool(x.is_zero())])
        }
        ("inverse", [x]) => match x.try_inverse() {
            Some(inverse) => print_values::<F, V, R>(rt, &[inverse, x.inverse()]),
            None => rt.println("none"),
        },
        ("pair", [x, y]) => print_values::<F, V, R>(rt, &[*x + *y, *x - *y, *x * *y]),
        _ => rt.println("bad case"),
    }
}

// Over the bounds alone.
fn mixed<F: TwoAdicField, EF: ExtensionField<F>>(x: F, y: EF) -> EF {
    EF::from_base(x * F::two_adic_generator(0)) * -y + EF::ONE
}

/// Calls of the base field or of the extension: of a number and then of the values that the other numbers are.
pub fn over_base<V: ExtensionField<BabyBear>, R: Print + AllocGlobal>(
    rt: &R,
    call: &str,
    numbers: &[u64],
) -> io::Result<()> {
    match (call, numbers) {
        ("interpolate", [shift, width, rest @ ..]) => {
            interpolate::<V, R>(rt, BabyBear::from_u64(*shift), *width as usize, rest)
        }
        ("flatten", _) => flatten::<V, R>(rt, numbers),
        ("coefficient" | "mixed" | "polynomial", [n, rest @ ..]) => {
            of_number::<V, R>(rt, call, *n, rest)
        }
        _ => field::<BabyBear, V, R>(rt, call, numbers),
    }
}

// A coefficient of a value, a value times a number, or the value at a number of the polynomial with these coefficients.
fn of_number<V: ExtensionField<BabyBear>, R: Print + AllocGlobal>(
    rt: &R,
    call: &str,
    n: u64,
    numbers: &[u64],
) -> io::Result<()> {
    let values: Vec<V> = values_of::<BabyBear, V>(rt.alloc(), numbers)?;
    match (call, values.as_slice()) {
        ("coefficient", [x]) if (n as usize) < V::DIMENSION => {
            print_bears(rt, &[x.basis_coefficient(n as usize)])
        }
        ("mixed", [y]) => print_values::<BabyBear, V, R>(rt, &[mixed(BabyBear::from_u64(n), *y)]),
        ("polynomial", _) => {
            let value = polynomial_value::<V, V>(&values, V::from_u64(n));
            print_values::<BabyBear, V, R>(rt, &[value])
        }
        _ => rt.println("bad case"),
    }
}
