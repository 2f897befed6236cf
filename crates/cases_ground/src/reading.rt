//! Reads a case: the words of its line, and what its numbers stand for.

use crate::fields::Element;
use p3_field::{BasedVectorSpace, Mem};
use std::alloc::Global;

/// A case: what is called, by two words, and the numbers that it is called with.
#[derive(Drop)]
pub struct Case<'a> {
    /// The first word.
    pub subject: &'a str,
    /// The second word.
    pub call: &'a str,
    /// The numbers after them.
    pub numbers: Vec<u64>,
}

/// The case of a line, whose words stand between single blanks. The numbers end before the first word that is none.
pub fn case_of(alloc: Global, line: &str) -> Mem<Case<'_>> {
    let mut words = line.split(' ');
    let subject = words.next().unwrap_or("");
    let call = words.next().unwrap_or("");
    let mut numbers = Vec::new(alloc);
    for word in words {
        let Ok(number) = word.parse() else {
            break;
        };
        numbers.push(number)?;
    }
    Ok(Case {
        subject,
        call,
        numbers,
    })
}

/// The values whose coefficients the numbers are, in order; none where a value would lack some.
pub fn values_of<F: Element, V: BasedVectorSpace<F>>(
    alloc: Global,
    numbers: &[u64],
) -> Mem<Vec<V>> {
    let mut coefficients = Vec::new(alloc);
    for number in numbers {
        coefficients.push(F::of(*number))?;
    }
    if coefficients.len() % V::DIMENSION != 0 {
        return Ok(Vec::new(alloc));
    }
    V::reconstitute_from_base(alloc, &coefficients)
}
