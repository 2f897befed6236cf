//! What texts are made of: forms of values with one text each.

ghost use Rattle.std.specs.Prelude.{◌≡◌, ◌++◌, List, ℕ, IfErr, OnOk};
ghost use Rattle.tool_lines.specs.Texts.{ReadsOne, line_text, Grammar};

use crate::texts::{ItemError, Reader, push_number};
use p3_field::{BabyBear, Mem, PrimeCore64, QuarticExtension, RingCore};
use std::alloc::Global;

/// The greatest canonical number of a [`BabyBear`].
const LAST_ELEMENT: u32 = 2_013_265_920;

/// A form of text: how the values of a type are written, each as one text (not in Plonky3).
///
/// The type that has the form may be the values' own, or a name alone, of which there are no values.
pub trait Form {
    /// The values.
    type Value: Drop;

    /// What a value is as plain data.
    ghost Data: { Type 0 };

    ghost data_of: { Self.Value → Self.Data };

    /// The data within the limits.
    ghost within: { Self.Data → Type 0 };

    /// The numbers of a value, one for each line of its text.
    ghost numbers: { Self.Data → List ℕ };

    /// Reads a value off the front of what is left.
    ///
    /// It is `Malformed` exactly where the text's front is no value's text. Then the lines that begin some value's text are read.
    fn read(alloc: Global, reader: &mut Reader) -> Result<Self::Value, ItemError>
        ensures { ReadsOne data_of within numbers reader.old reader.new result };

    /// Prints a value's lines. On an error a part of them may stand.
    fn print(value: &Self::Value, out: &mut Vec<u8>) -> Mem<()>
        ensures { OnOk result (out.new.items ≡ out.old.items
            ++ line_text (numbers (data_of value.now))) };

    /// The lines of a value tell the value, and where they end.
    ghost grammar: { Grammar within numbers };
}

/// One line, the canonical number.
impl Form for BabyBear {
    type Value = BabyBear;

    ghost use Rattle.p3_field.specs.declared.baby_bear.BabyBear.{BabyBear as Element};
    ghost use Rattle.tool_lines.specs.Texts.{Unlimited, element_numbers};
    ghost use Rattle.tool_lines.specs.Laws.Grammars.{element-grammar};

    ghost Data = { Element };

    ghost data_of = { λ x. x };

    ghost within = { Unlimited };

    ghost numbers = { element_numbers };

    ghost grammar = { element-grammar };

    fn read(_alloc: Global, reader: &mut Reader) -> Result<BabyBear, ItemError>
        ensures value { ReadsOne (λ x. x) Unlimited element_numbers reader.old reader.new result }
        ensures no_memory { IfErr result (λ e. e ≡ ItemError.Malformed) }
    {
        let value = reader.number(0, LAST_ELEMENT)?;
        Ok(BabyBear::from_u64(value as u64))
    }

    fn print(value: &BabyBear, out: &mut Vec<u8>) -> Mem<()> {
        push_number(out, value.as_canonical_u64())
    }
}

/// Four lines, the coefficients of 1, x, x^2 and x^3.
impl Form for QuarticExtension {
    type Value = QuarticExtension;

    ghost use Rattle.p3_field.specs.declared.quartic.QuarticExtension.{QuarticExtension as Extension};
    ghost use Rattle.tool_lines.specs.Texts.{Unlimited, extension_numbers};
    ghost use Rattle.tool_lines.specs.Laws.Grammars.{extension-grammar};

    ghost Data = { Extension };

    ghost data_of = { λ x. x };

    ghost within = { Unlimited };

    ghost numbers = { extension_numbers };

    ghost grammar = { extension-grammar };

    fn read(alloc: Global, reader: &mut Reader) -> Result<QuarticExtension, ItemError>
        ensures value { ReadsOne (λ x. x) Unlimited extension_numbers reader.old reader.new result }
        ensures no_memory { IfErr result (λ e. e ≡ ItemError.Malformed) }
    {
        let c0 = BabyBear::read(alloc, reader)?;
        let c1 = BabyBear::read(alloc, reader)?;
        let c2 = BabyBear::read(alloc, reader)?;
        let c3 = BabyBear::read(alloc, reader)?;
        Ok(QuarticExtension { c0, c1, c2, c3 })
    }

    fn print(value: &QuarticExtension, out: &mut Vec<u8>) -> Mem<()> {
        BabyBear::print(&value.c0, out)?;
        BabyBear::print(&value.c1, out)?;
        BabyBear::print(&value.c2, out)?;
        BabyBear::print(&value.c3, out)
    }
}

/// The form of a number of 32 bits: one line.
pub struct WordLine;

impl Form for WordLine {
    type Value = u32;

    ghost use Rattle.std.specs.Prelude.{ℕ};
    ghost use Rattle.tool_lines.specs.Texts.{Between, one_number};
    ghost use Rattle.tool_lines.specs.Laws.Grammars.{word-grammar};

    ghost Data = { ℕ };

    ghost data_of = { λ n. n };

    ghost within = { Between 0 4294967295 };

    ghost numbers = { one_number };

    ghost grammar = { word-grammar };

    fn read(_alloc: Global, reader: &mut Reader) -> Result<u32, ItemError>
        ensures value { ReadsOne (λ n. n) (Between 0 4294967295) one_number reader.old reader.new
            result }
        ensures no_memory { IfErr result (λ e. e ≡ ItemError.Malformed) }
    {
        reader.number(0, u32::MAX)
    }

    fn print(value: &u32, out: &mut Vec<u8>) -> Mem<()> {
        push_number(out, *value as u64)
    }
}
