//! Lists whose number of items is a power of two.
ghost use Rattle.std.specs.Prelude.{List, ℕ, ◌≤◌, MatchOption, map};
ghost use Rattle.tool_lines.specs.Texts.{Reads, ReadsKnown, ReadsOne, Stops, list_numbers, one_number};
ghost use Rattle.tool_lines.specs.Counts.{IsCount, PowersWithin};

use crate::forms::Form;
use crate::lists::read_items;
use crate::texts::{ItemError, Reader};
use p3_matrix::is_power_of_two;
use std::alloc::Global;

// The number on the next line, if that is a power of two up to `most`. Nothing is read.
fn next_count(reader: &Reader, most: u32) -> Option<u32>
    requires { 1 ≤ most }
    ensures { MatchOption result (Stops (IsCount most) one_number reader.now reader.now)
        (λ n. (rest : List ℕ) × Reads (IsCount most) one_number reader.now rest n) }
{
    let mut ahead = Reader::new(reader.rest());
    match ahead.number(1, most) {
        Ok(count) => {
            if is_power_of_two(count as usize) {
                Some(count)
            } else {
                None
            }
        }
        Err(_) => None,
    }
}

// Reads the number of a list's items, which is a power of two up to `most`. It is `Malformed` exactly where no such line is next, and
// then nothing is read.
fn read_count(reader: &mut Reader, most: u32) -> Result<u32, ItemError>
    requires { 1 ≤ most }
    ensures { ReadsKnown (IsCount most) one_number reader.old reader.new result }
{
    match next_count(reader, most) {
        Some(count) => reader.number(count, count),
        None => Err(ItemError::Malformed),
    }
}

/// Reads a list whose number of items is a power of two up to `most`: the line of its count, and the items.
///
/// It is `Malformed` exactly where the text's front is no such list's text. No memory is taken for the count before its items are read.
pub fn read_powers<T: Form>(
    alloc: Global,
    reader: &mut Reader,
    most: u32,
) -> Result<Vec<T::Value>, ItemError>
    requires { 1 ≤ most }
    ensures { ReadsOne (λ v. map T.data_of v.items) (PowersWithin most T.within)
        (list_numbers T.numbers) reader.old reader.new result }
{
    let count = read_count(reader, most)?;
    read_items::<T>(alloc, reader, count as usize)
}
