//! Calls of cosets.

use crate::printing::{print_bears, print_numbers};
use p3_field::{BabyBear, Mem, PrimeCore64, RingCore, TwoAdicMultiplicativeCoset};
use std::io;

// A clone, over the bound alone.
fn cloned<T: Clone>(x: &T) -> Mem<T> {
    x.clone()
}

/// Calls of the coset with a shift and the logarithm of a size, and for some another number.
pub fn coset<R: Print + AllocGlobal>(rt: &R, call: &str, numbers: &[u64]) -> io::Result<()> {
    let [shift, log_size, n] = numbers else {
        return rt.println("bad case");
    };
    let shift = BabyBear::from_u64(*shift);
    let Some(coset) = TwoAdicMultiplicativeCoset::new(shift, *log_size as usize) else {
        return rt.println("none");
    };
    match call {
        "sizes" => print_numbers(rt, &[coset.log_size() as u64, coset.size() as u64]),
        "parts" => {
            let generator = coset.subgroup_generator();
            print_bears(rt, &[coset.shift(), coset.shift_inverse(), generator])
        }
        "point" => print_bears(rt, &[coset.point(*n as usize)]),
        "is_clone" => print_numbers(rt, &[(cloned(&coset)? == coset) as u64]),
        "is_of_size" => {
            let other = TwoAdicMultiplicativeCoset::new(shift, *n as usize);
            print_numbers(rt, &[(other == Some(coset)) as u64])
        }
        _ => rt.println("bad case"),
    }
}
