//! Forms of values as texts.

use crate::printing::{print_text, shown};
use p3_field::{BabyBear, BasedVectorSpace, Mem, QuarticExtension, RingCore};
use std::alloc::{AllocError, AllocFailed, Global};
use std::io;
use tool_lines::{
    Form, ItemError, ListOf, Reader, TextError, print_items, read_fixed, read_headed, read_items,
    read_text, read_text_from,
};

type AtMostOne = ListOf<QuarticExtension, 1>;

type AtMostTwo = ListOf<QuarticExtension, 2>;

type Elements = ListOf<BabyBear, 9>;

// Reads a value, and appends its text.
fn copy<T: Form>(alloc: Global, reader: &mut Reader, out: &mut Vec<u8>) -> Result<(), ItemError> {
    let value = T::read(alloc, reader)?;
    T::print(&value, out)?;
    Ok(())
}

// Reads values, two that may be absent or two after the numbers 1 and 7, and appends their texts.
fn copy_values(
    alloc: Global,
    reader: &mut Reader,
    part: &str,
    out: &mut Vec<u8>,
) -> Result<(), ItemError> {
    if part == "options" {
        let options = read_items::<Option<QuarticExtension>>(alloc, reader, 2)?;
        print_items::<Option<QuarticExtension>>(&options, out)?;
    } else {
        let values = read_headed::<BabyBear>(alloc, reader, &[1, 7], 2)?;
        print_items::<BabyBear>(&values, out)?;
    }
    Ok(())
}

// Reads the part that a word names, and appends its text: a number is itself a part, which is read and not appended.
fn copy_part(
    alloc: Global,
    reader: &mut Reader,
    part: &str,
    out: &mut Vec<u8>,
) -> Result<(), ItemError> {
    if let Ok(number) = part.parse::<u32>() {
        return read_fixed(reader, &[number]);
    }
    match part {
        "at_most_one" => copy::<AtMostOne>(alloc, reader, out),
        "at_most_two" => copy::<AtMostTwo>(alloc, reader, out),
        _ => copy_values(alloc, reader, part, out),
    }
}

/// Reads parts off a text in turn, and prints the text of each or why there is none; and then what is left.
pub fn parts<R: Print + AllocGlobal>(rt: &R, text: &[u8], parts: &[&str]) -> io::Result<()> {
    let alloc = rt.alloc();
    let mut reader = Reader::new(text);
    for part in parts {
        let mut out = Vec::new(alloc);
        match copy_part(alloc, &mut reader, *part, &mut out) {
            Ok(()) => {
                let copied = shown(alloc, &out)?;
                print!(rt; "{part}: {copied}, ")?;
            }
            Err(error) => print!(rt; "{part}: {error:?}, ")?,
        }
    }
    let left = shown(alloc, reader.rest())?;
    println!(rt; "left: {left}")
}

// Prints a value that was read, or why there is none.
fn print_read<T: Form, R: Print + AllocGlobal>(
    rt: &R,
    read: Result<T::Value, TextError>,
) -> io::Result<()> {
    let mut out = Vec::new(rt.alloc());
    match read {
        Ok(value) => T::print(&value, &mut out)?,
        Err(error) => return println!(rt; "{error:?}"),
    }
    print_text(rt, &out)
}

/// Reads an element or a list of elements whose text goes from a byte to the end, or the element whose text is the whole one.
pub fn whole<R: Print + AllocGlobal>(rt: &R, text: &[u8], words: &[&str]) -> io::Result<()> {
    let alloc = rt.alloc();
    let [form, from] = words else {
        return print_read::<BabyBear, R>(rt, read_text::<BabyBear>(alloc, text));
    };
    let from = from.parse::<usize>().unwrap_or(0);
    if from > text.len() {
        return rt.println("bad case");
    }
    if *form == "list" {
        print_read::<Elements, R>(rt, read_text_from::<Elements>(alloc, text, from))
    } else {
        print_read::<BabyBear, R>(rt, read_text_from::<BabyBear>(alloc, text, from))
    }
}

// The values whose coefficients these words are, in order; none where a value would lack some.
fn values_of<V: BasedVectorSpace<BabyBear>>(alloc: Global, words: &[&str]) -> Mem<Vec<V>> {
    let mut numbers = Vec::new(alloc);
    for word in words {
        numbers.push(BabyBear::from_u64(word.parse::<u64>().unwrap_or(0)))?;
    }
    if numbers.len() % V::DIMENSION != 0 {
        return Ok(Vec::new(alloc));
    }
    V::reconstitute_from_base(alloc, &numbers)
}

/// Prints the text of the list of values whose coefficients the words are, and then that of the first where it may be absent, and of an absent one.
pub fn printed<R: Print + AllocGlobal>(rt: &R, words: &[&str]) -> io::Result<()> {
    let values = values_of::<QuarticExtension>(rt.alloc(), words)?;
    let mut out = Vec::new(rt.alloc());
    AtMostTwo::print(&values, &mut out)?;
    print_items::<Option<QuarticExtension>>(&[values.first().copied(), None], &mut out)?;
    print_text(rt, &out)
}

/// Prints what failures of memory become.
pub fn memory(rt: &impl Print) -> io::Result<()> {
    let failures: [ItemError; 2] = [AllocError.into(), AllocFailed { value: 7u64 }.into()];
    println!(rt; "{failures:?}")
}
