//! Constants of the fields, and logarithms.

use crate::printing::{print_bears, print_numbers};
use p3_field::{BabyBear, BasedVectorSpace, PrimeCore64, QuarticExtension, TwoAdicCore};
use p3_matrix::{checked_log_size_sum, is_power_of_two, log2_ceil_usize, log2_strict_usize};
use std::io;

// The dimension of a field above the base field.
fn dimension<V: BasedVectorSpace<BabyBear>>() -> u64 {
    V::DIMENSION as u64
}

/// Calls of plain numbers.
pub fn number<R: Print + AllocGlobal>(rt: &R, call: &str, numbers: &[u64]) -> io::Result<()> {
    match (call, numbers) {
        ("constants", []) => {
            let adicity = BabyBear::TWO_ADICITY as u64;
            let (own, quartic) = (dimension::<BabyBear>(), dimension::<QuarticExtension>());
            print_numbers(rt, &[BabyBear::ORDER_U64, adicity, own, quartic])
        }
        ("two_adic_generator", [bits]) if *bits <= 27 => {
            print_bears(rt, &[BabyBear::two_adic_generator(*bits as usize)])
        }
        ("is_power_of_two", [n]) => print_numbers(rt, &[is_power_of_two(*n as usize) as u64]),
        ("log2_ceil", [n]) => print_numbers(rt, &[log2_ceil_usize(*n as usize) as u64]),
        ("log2_strict", [n]) if is_power_of_two(*n as usize) => {
            print_numbers(rt, &[log2_strict_usize(*n as usize) as u64])
        }
        ("checked_log_size_sum", [a, b]) => {
            match checked_log_size_sum(*a as usize, *b as usize) {
                Some((log, size)) => print_numbers(rt, &[log as u64, size as u64]),
                None => rt.println("none"),
            }
        }
        _ => rt.println("bad case"),
    }
}
