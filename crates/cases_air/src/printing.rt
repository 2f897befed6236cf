//! Writes answers.

use p3_field::{BabyBear, BasedVectorSpace, Mem, PrimeCore64};
use std::alloc::Global;
use std::fmt::{Display, Write};

/// Appends a word to an answer.
pub fn push_word<T: Display + Drop>(out: &mut String, word: T) -> Mem<()> {
    if !out.is_empty() {
        out.push(' ')?;
    }
    write!(out, "{word}")
}

/// Appends the coefficients of values, one after another.
pub fn push_values<V: BasedVectorSpace<BabyBear>>(
    alloc: Global,
    out: &mut String,
    values: &[V],
) -> Mem<()> {
    for coefficient in &V::flatten_to_base(alloc, values)? {
        push_word(out, coefficient.as_canonical_u64())?;
    }
    Ok(())
}
