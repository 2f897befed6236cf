//! What the words of a case say, and how an answer is written.
ghost use Rattle.std.specs.Prelude.{◌≡◌, ◌<◌, IfOk};

use p3_field::{BabyBear, BasedVectorSpace, Mem, PrimeCore64, QuarticExtension, RingCore};
use p3_matrix::RowMajorMatrix;
use std::alloc::Global;
use std::fmt::{Display, Write};

/// The answer where there is no such call, or where its condition isn't met.
pub fn bad_case(alloc: Global) -> Mem<String> {
    String::from_str(alloc, "bad case")
}

/// The number that a word is; zero where it is none.
pub fn number(word: &str) -> usize {
    word.parse::<usize>().unwrap_or(0)
}

/// The numbers of a word, with commas between. What is no number, as `-`, is left out.
pub fn numbers(alloc: Global, word: &str) -> Mem<Vec<usize>> {
    let mut numbers = Vec::new(alloc);
    for piece in word.split(',') {
        if let Ok(number) = piece.parse::<usize>() {
            numbers.push(number)?;
        }
    }
    Ok(numbers)
}

/// The elements that the numbers of a word are.
pub fn values<V: RingCore>(alloc: Global, word: &str) -> Mem<Vec<V>> {
    let mut values = Vec::new(alloc);
    for number in &numbers(alloc, word)? {
        values.push(V::from_u64(*number as u64))?;
    }
    Ok(values)
}

/// The values of the extension whose coefficients the numbers of a word are; none where one would lack some.
pub fn quartics(alloc: Global, word: &str) -> Mem<Vec<QuarticExtension>> {
    let coefficients: Vec<BabyBear> = values(alloc, word)?;
    if coefficients.len() % 4 != 0 {
        return Ok(Vec::new(alloc));
    }
    QuarticExtension::reconstitute_from_base(alloc, &coefficients)
}

/// The matrix of this width with the elements of a word row after row; without rows where they don't fill them.
pub fn matrix(alloc: Global, width: usize, word: &str) -> Mem<RowMajorMatrix<BabyBear>> {
    let cells: Vec<BabyBear> = values(alloc, word)?;
    if width == 0 || cells.len() % width != 0 {
        return Ok(RowMajorMatrix::new_col(Vec::new(alloc)));
    }
    Ok(RowMajorMatrix::new(cells, width))
}

/// Appends a word to an answer.
pub fn push_word<T: Display + Drop>(out: &mut String, word: T) -> Mem<()> {
    if !out.is_empty() {
        out.push(' ')?;
    }
    write!(out, "{word}")
}

/// Elements with commas between, and `-` for none.
pub fn joined(alloc: Global, values: &[BabyBear]) -> Mem<String> {
    let mut out = String::new(alloc);
    for value in values {
        let comma = if out.is_empty() { "" } else { "," };
        write!(out, "{comma}{}", value.as_canonical_u64())?;
    }
    if out.is_empty() {
        out.push('-')?;
    }
    Ok(out)
}

/// The coefficients of values, one after another.
pub fn coefficients(alloc: Global, values: &[QuarticExtension]) -> Mem<String> {
    joined(alloc, &QuarticExtension::flatten_to_base(alloc, values)?)
}

/// Bytes in hexadecimal.
pub fn hex(alloc: Global, bytes: &[u8]) -> Mem<String> {
    let mut out = String::new(alloc);
    for byte in bytes {
        write!(out, "{byte:02x}")?;
    }
    Ok(out)
}
