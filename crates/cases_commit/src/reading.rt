//! Reads a case: the lists of numbers of its line, and what they stand for.

use p3_field::{BabyBear, ExtensionField, Mem, RingCore, TwoAdicMultiplicativeCoset};
use p3_matrix::RowMajorMatrix;
use std::alloc::Global;

/// The domains of the cases.
pub type Coset = TwoAdicMultiplicativeCoset<BabyBear>;

/// The lists of a line, group by group: a word after its first two is a list, and a word `/` stands between groups. A list's numbers
/// stand between commas, and end before the first piece that is none, so `-` is the list of none.
pub fn groups_of(alloc: Global, line: &str) -> Mem<Vec<Vec<Vec<usize>>>> {
    let mut groups = Vec::new(alloc);
    let mut lists = Vec::new(alloc);
    for (place, word) in line.split(' ').enumerate() {
        if word == "/" {
            groups.push(lists)?;
            lists = Vec::new(alloc);
        } else if place > 1 {
            let mut numbers = Vec::new(alloc);
            for piece in word.split(',') {
                let Ok(number) = piece.parse() else {
                    break;
                };
                numbers.push(number)?;
            }
            lists.push(numbers)?;
        }
    }
    groups.push(lists)?;
    Ok(groups)
}

/// The number at a place of a list; 0 where there is none.
pub fn number(list: &[usize], place: usize) -> usize {
    list.get(place).copied().unwrap_or(0)
}

/// The values of a field that the numbers are.
pub fn values_of<E: ExtensionField<BabyBear>>(alloc: Global, numbers: &[usize]) -> Mem<Vec<E>> {
    let mut values = Vec::new(alloc);
    for number in numbers {
        values.push(E::from_u64(*number as u64))?;
    }
    Ok(values)
}

/// The same, list by list.
pub fn lists_of<E: ExtensionField<BabyBear>>(
    alloc: Global,
    lists: &[Vec<usize>],
) -> Mem<Vec<Vec<E>>> {
    let mut values = Vec::new(alloc);
    for list in lists {
        values.push(values_of(alloc, list)?)?;
    }
    Ok(values)
}

/// The coset of a list's first two numbers: its shift, and the logarithm of its size.
pub fn coset_of(numbers: &[usize]) -> Option<Coset> {
    Coset::new(
        BabyBear::from_u64(number(numbers, 0) as u64),
        number(numbers, 1),
    )
}

/// The matrix of a list: its width, and then its values row after row.
pub fn matrix_of(alloc: Global, list: &[usize]) -> Mem<Option<RowMajorMatrix<BabyBear>>> {
    let [width, cells @ ..] = list else {
        return Ok(None);
    };
    let (width, values) = (*width, values_of(alloc, cells)?);
    if width == 0 || values.len() % width != 0 {
        return Ok(None);
    }
    Ok(Some(RowMajorMatrix::new(values, width)))
}
