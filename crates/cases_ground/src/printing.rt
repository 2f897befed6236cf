//! Prints answers, a line each.

use crate::fields::Element;
use p3_field::{BabyBear, BasedVectorSpace};
use p3_matrix::RowMajorMatrix;
use std::io;

/// Prints numbers with blanks between them.
pub fn print_numbers(rt: &impl Print, numbers: &[u64]) -> io::Result<()> {
    let mut blank = "";
    for number in numbers {
        print!(rt; "{blank}{number}")?;
        blank = " ";
    }
    rt.println("")
}

/// Prints the coefficients of values, one after another.
pub fn print_values<F: Element, V: BasedVectorSpace<F>, R: Print + AllocGlobal>(
    rt: &R,
    values: &[V],
) -> io::Result<()> {
    let coefficients = V::flatten_to_base(rt.alloc(), values)?;
    let mut blank = "";
    for coefficient in &coefficients {
        let number = coefficient.number();
        print!(rt; "{blank}{number}")?;
        blank = " ";
    }
    rt.println("")
}

/// Prints elements of the base field.
pub fn print_bears<R: Print + AllocGlobal>(rt: &R, values: &[BabyBear]) -> io::Result<()> {
    print_values::<BabyBear, BabyBear, R>(rt, values)
}

/// Prints a matrix: its width and its values.
pub fn print_matrix<R: Print + AllocGlobal>(
    rt: &R,
    m: &RowMajorMatrix<BabyBear>,
) -> io::Result<()> {
    let width = m.width();
    print!(rt; "{width} wide: ")?;
    print_bears(rt, m.as_slice())
}
