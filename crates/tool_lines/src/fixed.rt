//! Reading parts of a text that the caller knows: numbers that are always the same, and lists whose length no line tells.

ghost use Rattle.std.specs.Prelude.{map};
ghost use Rattle.tool_lines.specs.Texts.{ReadsKnown, ReadsOne, ItemsWithin, Unlimited};
ghost use Rattle.tool_lines.specs.Fixed.{fixed_numbers, headed_numbers};

use crate::forms::Form;
use crate::lists::read_items;
use crate::texts::{ItemError, Reader};
use std::alloc::Global;

/// Reads these numbers, a line for each.
///
/// It is `Malformed` exactly where the text's front is not their lines.
pub fn read_fixed(reader: &mut Reader, numbers: &[u32]) -> Result<(), ItemError>
    ensures { ReadsKnown Unlimited (fixed_numbers numbers.now) reader.old reader.new result }
{
    for number in numbers {
        reader.number(*number, *number)?;
    }
    Ok(())
}

/// Reads the numbers of `head`, and then `count` values.
///
/// It is `Malformed` exactly where the text's front is not the lines of these numbers and the text of so many values.
pub fn read_headed<T: Form>(
    alloc: Global,
    reader: &mut Reader,
    head: &[u32],
    count: usize,
) -> Result<Vec<T::Value>, ItemError>
    ensures { ReadsOne (λ v. map T.data_of v.items) (ItemsWithin count T.within)
        (headed_numbers head.now T.numbers) reader.old reader.new result }
{
    read_fixed(reader, head)?;
    read_items::<T>(alloc, reader, count)
}
