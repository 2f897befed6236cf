//! Lists of values, and values that may be absent.

ghost use Rattle.std.specs.Prelude.{◌≡◌, ◌≤◌, ◌++◌, OnOk, map, option_map};
ghost use Rattle.tool_lines.specs.Texts.{ReadsOne, ItemsWithin, items_numbers, ListWithin, list_numbers, OptionWithin, option_numbers, line_text};

use crate::forms::Form;
use crate::texts::{ItemError, Reader, push_number};
use p3_field::Mem;
use std::alloc::Global;
use std::marker::PhantomData;

/// Reads `count` values, one after the other.
///
/// It is `Malformed` exactly where the text's front is no text of so many values.
pub fn read_items<T: Form>(
    alloc: Global,
    reader: &mut Reader,
    count: usize,
) -> Result<Vec<T::Value>, ItemError>
    ensures { ReadsOne (λ v. map T.data_of v.items) (ItemsWithin count T.within)
        (items_numbers T.numbers) reader.old reader.new result }
{
    let mut items = Vec::new(alloc);
    for _ in 0..count {
        items.push(T::read(alloc, reader)?)?;
    }
    Ok(items)
}

/// Prints values, one after the other. On an error a part of them may stand.
pub fn print_items<T: Form>(items: &[T::Value], out: &mut Vec<u8>) -> Mem<()>
    ensures { OnOk result (out.new.items ≡ out.old.items
        ++ line_text (items_numbers T.numbers (map T.data_of items.now))) }
{
    for item in items {
        T::print(item, out)?;
    }
    Ok(())
}

/// Reads a list of `least` to `most` values: the line of its count, and the values.
///
/// It is `Malformed` exactly where the text's front is no such list's text.
pub fn read_list<T: Form>(
    alloc: Global,
    reader: &mut Reader,
    least: u32,
    most: u32,
) -> Result<Vec<T::Value>, ItemError>
    requires { least ≤ most }
    ensures { ReadsOne (λ v. map T.data_of v.items) (ListWithin least most T.within)
        (list_numbers T.numbers) reader.old reader.new result }
{
    let count = reader.number(least, most)?;
    read_items::<T>(alloc, reader, count as usize)
}

/// Prints a list: the line of its count, and the values. On an error a part of them may stand.
pub fn print_list<T: Form>(items: &[T::Value], out: &mut Vec<u8>) -> Mem<()>
    ensures { OnOk result (out.new.items ≡ out.old.items
        ++ line_text (list_numbers T.numbers (map T.data_of items.now))) }
{
    push_number(out, items.len() as u64)?;
    print_items::<T>(items, out)
}

/// The form of a list of at most `MOST` values: the line of its count, and the values.
pub struct ListOf<T, const MOST: u32> {
    of: PhantomData<T>,
}

impl<T: Form, const MOST: u32> Form for ListOf<T, MOST> {
    type Value = Vec<T::Value>;

    ghost use Rattle.std.specs.Prelude.{List, map};
    ghost use Rattle.tool_lines.specs.Texts.{ListWithin, list_numbers};
    ghost use Rattle.tool_lines.specs.Laws.Grammars.{at_most-grammar};

    ghost Data = { List T.Data };

    ghost data_of = { λ v. map T.data_of v.items };

    ghost within = { ListWithin 0 MOST T.within };

    ghost numbers = { list_numbers T.numbers };

    ghost grammar = { at_most-grammar MOST MOST-fits T.grammar };

    fn read(alloc: Global, reader: &mut Reader) -> Result<Vec<T::Value>, ItemError> {
        read_list::<T>(alloc, reader, 0, MOST)
    }

    fn print(value: &Vec<T::Value>, out: &mut Vec<u8>) -> Mem<()> {
        print_list::<T>(value, out)
    }
}

/// A value that may be absent: the line `0`, or the line `1` and the value.
impl<T: Form> Form for Option<T> {
    type Value = Option<T::Value>;

    ghost use Rattle.std.specs.Prelude.{Option, option_map};
    ghost use Rattle.tool_lines.specs.Texts.{OptionWithin, option_numbers};
    ghost use Rattle.tool_lines.specs.Laws.Grammars.{option-grammar};

    ghost Data = { Option T.Data };

    ghost data_of = { option_map T.data_of };

    ghost within = { OptionWithin T.within };

    ghost numbers = { option_numbers T.numbers };

    ghost grammar = { option-grammar T.grammar };

    fn read(alloc: Global, reader: &mut Reader) -> Result<Option<T::Value>, ItemError> {
        if reader.number(0, 1)? == 0 {
            Ok(None)
        } else {
            Ok(Some(T::read(alloc, reader)?))
        }
    }

    fn print(value: &Option<T::Value>, out: &mut Vec<u8>) -> Mem<()> {
        match value {
            None => push_number(out, 0),
            Some(item) => {
                push_number(out, 1)?;
                T::print(item, out)
            }
        }
    }
}
