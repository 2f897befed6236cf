//! The numbers of a proof, with some put in the place of others.

use p3_field::Mem;
use std::alloc::Global;

/// The numbers with these edits made, in the order of their places among the numbers. An edit is a place, how many numbers are removed there,
/// and what is put there. Where it has no place, no number is left.
pub fn edited(alloc: Global, numbers: &[u64], edits: &[Vec<u64>]) -> Mem<Vec<u64>> {
    let mut all = Vec::new(alloc);
    let mut from = 0usize;
    for edit in edits {
        let [at, removed, inserted @ ..] = edit.as_slice() else {
            return Ok(Vec::new(alloc));
        };
        let at = *at as usize;
        all.extend_from_slice(numbers.get(from..at).unwrap_or(&[]))?;
        all.extend_from_slice(inserted)?;
        from = at.saturating_add(*removed as usize);
    }
    all.extend_from_slice(numbers.get(from..).unwrap_or(&[]))?;
    Ok(all)
}
