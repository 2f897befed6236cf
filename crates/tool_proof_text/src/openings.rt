//! The texts of the values that are opened of one table.

use batch_statement::OpenedValuesWithLookups;
use p3_field::{Mem, QuarticExtension};
use p3_uni_stark::{OpenedValues, PreprocessedOpenedValues};
use std::alloc::Global;
use tool_lines::{Form, ItemError, ListOf, Reader};

/// At most 65536 elements of the extension.
type ElementsText = ListOf<QuarticExtension, 65536>;

/// At most 1024 quotient chunks.
type ChunksText = ListOf<ValuesText, 1024>;

/// The form of the text of values (not in Plonky3): a list of at most 65536 elements of the extension.
pub struct ValuesText;

impl Form for ValuesText {
    type Value = Vec<QuarticExtension>;

    ghost use Rattle.std.specs.Prelude.{List};
    ghost use Rattle.p3_field.specs.declared.quartic.QuarticExtension.{QuarticExtension as Extension};
    ghost use Rattle.tool_proof_text.specs.Openings.{ValuesWithin, values_numbers};
    ghost use Rattle.tool_proof_text.specs.Laws.Openings.{values-grammar};

    ghost Data = { List Extension };

    ghost data_of = { λ v. v.items };

    ghost within = { ValuesWithin };

    ghost numbers = { values_numbers };

    ghost grammar = { values-grammar };

    fn read(alloc: Global, reader: &mut Reader) -> Result<Vec<QuarticExtension>, ItemError> {
        ElementsText::read(alloc, reader)
    }

    fn print(value: &Vec<QuarticExtension>, out: &mut Vec<u8>) -> Mem<()> {
        ElementsText::print(value, out)?;
        Ok(())
    }
}

/// The form of the text of the preprocessed columns' values (not in Plonky3): those at the drawn point, and those at the
/// next, which may be absent.
pub struct PreprocessedText;

impl Form for PreprocessedText {
    type Value = PreprocessedOpenedValues<QuarticExtension>;

    ghost use Rattle.p3_field.specs.declared.quartic.QuarticExtension.{QuarticExtension as Extension};
    ghost use Rattle.p3_uni_stark.specs.Opened.{PreprocessedData};
    ghost use Rattle.tool_proof_text.specs.Openings.{PreprocessedWithin, preprocessed_numbers};
    ghost use Rattle.tool_proof_text.specs.Laws.Openings.{preprocessed-grammar};

    ghost Data = { PreprocessedData Extension };

    ghost data_of = { λ p. p };

    ghost within = { PreprocessedWithin };

    ghost numbers = { preprocessed_numbers };

    ghost grammar = { preprocessed-grammar };

    fn read(
        alloc: Global,
        reader: &mut Reader,
    ) -> Result<PreprocessedOpenedValues<QuarticExtension>, ItemError> {
        let local = ValuesText::read(alloc, reader)?;
        let next = Option::<ValuesText>::read(alloc, reader)?;
        Ok(PreprocessedOpenedValues { local, next })
    }

    fn print(value: &PreprocessedOpenedValues<QuarticExtension>, out: &mut Vec<u8>) -> Mem<()> {
        ValuesText::print(&value.local, out)?;
        Option::<ValuesText>::print(&value.next, out)?;
        Ok(())
    }
}

/// The form of the text of what a proof of one table alone opens (not in Plonky3): the main columns' values at the drawn point
/// and at the next, the preprocessed columns', those of at most 1024 quotient chunks, and the random polynomials'. All but the
/// first and the chunks may be absent.
pub struct OpenedText;

impl Form for OpenedText {
    type Value = OpenedValues<QuarticExtension>;

    ghost use Rattle.p3_field.specs.declared.quartic.QuarticExtension.{QuarticExtension as Extension};
    ghost use Rattle.p3_uni_stark.specs.Opened.{OpenedData};
    ghost use Rattle.tool_proof_text.specs.Openings.{OpenedWithin, opened_numbers};
    ghost use Rattle.tool_proof_text.specs.Laws.Openings.{opened-grammar};

    ghost Data = { OpenedData Extension };

    ghost data_of = { λ o. o };

    ghost within = { OpenedWithin };

    ghost numbers = { opened_numbers };

    ghost grammar = { opened-grammar };

    fn read(
        alloc: Global,
        reader: &mut Reader,
    ) -> Result<OpenedValues<QuarticExtension>, ItemError> {
        let trace_local = ValuesText::read(alloc, reader)?;
        let trace_next = Option::<ValuesText>::read(alloc, reader)?;
        let preprocessed = Option::<PreprocessedText>::read(alloc, reader)?;
        let quotient_chunks = ChunksText::read(alloc, reader)?;
        let random = Option::<ValuesText>::read(alloc, reader)?;
        Ok(OpenedValues {
            trace_local,
            trace_next,
            preprocessed,
            quotient_chunks,
            random,
        })
    }

    fn print(value: &OpenedValues<QuarticExtension>, out: &mut Vec<u8>) -> Mem<()> {
        ValuesText::print(&value.trace_local, out)?;
        Option::<ValuesText>::print(&value.trace_next, out)?;
        Option::<PreprocessedText>::print(&value.preprocessed, out)?;
        ChunksText::print(&value.quotient_chunks, out)?;
        Option::<ValuesText>::print(&value.random, out)?;
        Ok(())
    }
}

/// The form of the text of what is opened of one table of a batch (not in Plonky3): what a proof of the table alone
/// opens, and the permutation columns' values at the drawn point and at the next.
pub struct InstanceText;

impl Form for InstanceText {
    type Value = OpenedValuesWithLookups<QuarticExtension>;

    ghost use Rattle.p3_field.specs.declared.quartic.QuarticExtension.{QuarticExtension as Extension};
    ghost use Rattle.batch_statement.specs.Proof.{OpenedWithLookups};
    ghost use Rattle.tool_proof_text.specs.Openings.{InstanceWithin, instance_numbers};
    ghost use Rattle.tool_proof_text.specs.Laws.Openings.{instance-grammar};

    ghost Data = { OpenedWithLookups Extension };

    ghost data_of = { λ i. i };

    ghost within = { InstanceWithin };

    ghost numbers = { instance_numbers };

    ghost grammar = { instance-grammar };

    fn read(
        alloc: Global,
        reader: &mut Reader,
    ) -> Result<OpenedValuesWithLookups<QuarticExtension>, ItemError> {
        let base_opened_values = OpenedText::read(alloc, reader)?;
        let permutation_local = ValuesText::read(alloc, reader)?;
        let permutation_next = ValuesText::read(alloc, reader)?;
        Ok(OpenedValuesWithLookups {
            base_opened_values,
            permutation_local,
            permutation_next,
        })
    }

    fn print(value: &OpenedValuesWithLookups<QuarticExtension>, out: &mut Vec<u8>) -> Mem<()> {
        OpenedText::print(&value.base_opened_values, out)?;
        ValuesText::print(&value.permutation_local, out)?;
        ValuesText::print(&value.permutation_next, out)?;
        Ok(())
    }
}
