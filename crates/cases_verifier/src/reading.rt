//! Reads a case: its words, its numbers, and what they stand for.

use p3_field::{BabyBear, BasedVectorSpace, Mem, QuarticExtension, RingCore};
use std::alloc::Global;

/// A case: what is called, by two words, and numbers, in groups that a slash parts.
#[derive(Drop)]
pub struct Case<'a> {
    /// The first word.
    pub call: &'a str,
    /// The second word.
    pub name: &'a str,
    /// The numbers: those of the call, and those of each group after a slash.
    pub groups: Vec<Vec<u64>>,
}

// The words that are numbers, in order.
fn numbers_of(alloc: Global, text: &str) -> Mem<Vec<u64>> {
    let mut numbers = Vec::new(alloc);
    for word in text.split(' ') {
        if let Ok(number) = word.parse() {
            numbers.push(number)?;
        }
    }
    Ok(numbers)
}

/// The case of a line, whose words stand between single blanks.
pub fn case_of(alloc: Global, line: &str) -> Mem<Case<'_>> {
    let mut words = line.split(' ');
    let call = words.next().unwrap_or("");
    let name = words.next().unwrap_or("");
    let mut groups = Vec::new(alloc);
    for part in line.split('/') {
        groups.push(numbers_of(alloc, part)?)?;
    }
    Ok(Case { call, name, groups })
}

/// The elements of these numbers, of either field.
pub fn elements<V: RingCore>(alloc: Global, numbers: &[u64]) -> Mem<Vec<V>> {
    let mut values = Vec::new(alloc);
    for number in numbers {
        values.push(V::from_u64(*number))?;
    }
    Ok(values)
}

/// The elements of the extension whose coefficients the numbers are, in order; none where one would lack some.
pub fn quartics(alloc: Global, numbers: &[u64]) -> Mem<Vec<QuarticExtension>> {
    let coefficients = elements::<BabyBear>(alloc, numbers)?;
    if coefficients.len() % 4 != 0 {
        return Ok(Vec::new(alloc));
    }
    QuarticExtension::reconstitute_from_base(alloc, &coefficients)
}
