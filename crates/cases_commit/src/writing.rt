//! Writes answers.

use commit_core::PcsFailure;
use p3_field::{BabyBear, BasedVectorSpace, ExtensionField, Mem, PrimeCore64};
use p3_matrix::RowMajorMatrix;
use std::alloc::{AllocError, Global};
use std::fmt::{Display, Write};

/// Appends a word to an answer.
pub fn push_word<T: Display + Drop>(out: &mut String, word: T) -> Mem<()> {
    if !out.is_empty() {
        out.push(' ')?;
    }
    write!(out, "{word}")
}

/// Appends the coefficients of values over the base field, one after another.
pub fn push_values<E: ExtensionField<BabyBear>>(
    out: &mut String,
    alloc: Global,
    values: &[E],
) -> Mem<()> {
    let coefficients = E::flatten_to_base(alloc, values)?;
    for coefficient in &coefficients {
        push_word(out, coefficient.as_canonical_u64())?;
    }
    Ok(())
}

/// Appends matrices, each after a `/`: its values row after row.
pub fn push_matrices(
    out: &mut String,
    alloc: Global,
    matrices: &[RowMajorMatrix<BabyBear>],
) -> Mem<()> {
    for matrix in matrices {
        push_word(out, "/")?;
        push_values(out, alloc, matrix.as_slice())?;
    }
    Ok(())
}

/// The answer that is these values.
pub fn listed<E: ExtensionField<BabyBear>>(alloc: Global, values: &[E]) -> Mem<String> {
    let mut out = String::new(alloc);
    push_values(&mut out, alloc, values)?;
    Ok(out)
}

/// The answer of a scheme, or the text of its refusal.
pub fn shown<E: Display + Drop>(
    alloc: Global,
    answer: Result<String, PcsFailure<E>>,
) -> Mem<String> {
    match answer {
        Ok(text) => Ok(text),
        Err(PcsFailure::Refused(error)) => format!(in alloc; "{error}"),
        Err(PcsFailure::OutOfMemory) => Err(AllocError),
    }
}
