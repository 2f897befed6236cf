//! Writes answers.

use p3_field::{BabyBear, BasedVectorSpace, Mem, PrimeCore64, QuarticExtension};
use std::alloc::Global;
use std::fmt::{Display, Write};

/// The answer to a case that has no such call, or whose numbers don't fit it.
pub fn bad_case(alloc: Global) -> Mem<String> {
    String::from_str(alloc, "bad case")
}

/// Appends a word to an answer.
pub fn push_word<T: Display + Drop>(out: &mut String, word: T) -> Mem<()> {
    if !out.is_empty() {
        out.push(' ')?;
    }
    write!(out, "{word}")
}

/// Appends the coefficients of values, one after another.
pub fn push_values(alloc: Global, out: &mut String, values: &[QuarticExtension]) -> Mem<()> {
    let coefficients: Vec<BabyBear> = QuarticExtension::flatten_to_base(alloc, values)?;
    for coefficient in &coefficients {
        push_word(out, coefficient.as_canonical_u64())?;
    }
    Ok(())
}
