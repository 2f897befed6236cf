//! The trees of the values that are opened of one table.

ghost use Rattle.std.specs.Prelude.{⊤};

use batch_statement::OpenedValuesWithLookups;
use json_forms::{JsonForm, ListOf, ObjectReader, ObjectWriter, Present, TreeError};
use p3_field::{Mem, QuarticExtension};
use p3_uni_stark::{OpenedValues, PreprocessedOpenedValues};
use serde_json::Value;
use std::alloc::Global;

/// At most 65536 elements of the extension.
type Elements = ListOf<QuarticExtension, 0, 65536>;

/// At most 1024 quotient chunks.
type Chunks = ListOf<ValuesForm, 0, 1024>;

/// The form of values: a list of at most 65536 elements of the extension.
pub struct ValuesForm;

impl JsonForm for ValuesForm {
    type Value = Vec<QuarticExtension>;

    ghost use Rattle.std.specs.Prelude.{List};
    ghost use Rattle.p3_field.specs.declared.quartic.QuarticExtension.{QuarticExtension as Extension};
    ghost use Rattle.tool_proof_text.specs.Openings.{ValuesWithin};
    ghost use Rattle.json_proof_files.specs.OpeningTrees.{values_tree};
    ghost use Rattle.json_proof_files.specs.OpeningReadings.{values_reading};
    ghost use Rattle.json_proof_files.specs.Laws.OpeningForms.{values-form};

    ghost Data = { List Extension };

    ghost data_of = { λ v. v.items };

    ghost within = { ValuesWithin };

    ghost tree = { values_tree };

    ghost reading = { values_reading };

    ghost allocates = { ⊤ };

    ghost form = { values-form };

    fn read(alloc: Global, json: &Value) -> Result<Vec<QuarticExtension>, TreeError> {
        Elements::read(alloc, json)
    }

    fn write(alloc: Global, value: &Vec<QuarticExtension>) -> Mem<Value> {
        Elements::write(alloc, value)
    }
}

impl Present for ValuesForm {
    ghost use Rattle.std.specs.Prelude.{refl};

    ghost solid = { refl };
}

/// The form of the preprocessed columns' values: an object of those at the drawn point, and those at the next, which may be absent.
pub struct PreprocessedForm;

impl JsonForm for PreprocessedForm {
    type Value = PreprocessedOpenedValues<QuarticExtension>;

    ghost use Rattle.p3_field.specs.declared.quartic.QuarticExtension.{QuarticExtension as Extension};
    ghost use Rattle.p3_uni_stark.specs.Opened.{PreprocessedData};
    ghost use Rattle.tool_proof_text.specs.Openings.{PreprocessedWithin};
    ghost use Rattle.json_proof_files.specs.OpeningTrees.{preprocessed_tree};
    ghost use Rattle.json_proof_files.specs.OpeningReadings.{preprocessed_reading};
    ghost use Rattle.json_proof_files.specs.Laws.OpeningForms.{preprocessed-form};

    ghost Data = { PreprocessedData Extension };

    ghost data_of = { λ p. p };

    ghost within = { PreprocessedWithin };

    ghost tree = { preprocessed_tree };

    ghost reading = { preprocessed_reading };

    ghost allocates = { ⊤ };

    ghost form = { preprocessed-form };

    fn read(
        alloc: Global,
        json: &Value,
    ) -> Result<PreprocessedOpenedValues<QuarticExtension>, TreeError> {
        let mut members = ObjectReader::new(json)?;
        let local = members.read::<ValuesForm>(alloc, "local")?;
        let next = members.read::<Option<ValuesForm>>(alloc, "next")?;
        members.end()?;
        Ok(PreprocessedOpenedValues { local, next })
    }

    fn write(alloc: Global, value: &PreprocessedOpenedValues<QuarticExtension>) -> Mem<Value> {
        let mut members = ObjectWriter::new(alloc);
        members.write::<ValuesForm>(alloc, "local", &value.local)?;
        members.write::<Option<ValuesForm>>(alloc, "next", &value.next)?;
        Ok(members.end())
    }
}

impl Present for PreprocessedForm {
    ghost use Rattle.std.specs.Prelude.{refl};

    ghost solid = { refl };
}

/// The form of what is opened of one table of a batch: an object of the permutation columns' values at the drawn point and at the next, the
/// preprocessed columns', those of at most 1024 quotient chunks, the random polynomials', and the main columns' at the drawn point and at the
/// next. The preprocessed and the random polynomials' values may be absent, and those of the main columns at the next point.
pub struct InstanceForm;

impl JsonForm for InstanceForm {
    type Value = OpenedValuesWithLookups<QuarticExtension>;

    ghost use Rattle.p3_field.specs.declared.quartic.QuarticExtension.{QuarticExtension as Extension};
    ghost use Rattle.batch_statement.specs.Proof.{OpenedWithLookups};
    ghost use Rattle.tool_proof_text.specs.Openings.{InstanceWithin};
    ghost use Rattle.json_proof_files.specs.OpeningTrees.{instance_tree};
    ghost use Rattle.json_proof_files.specs.OpeningReadings.{instance_reading};
    ghost use Rattle.json_proof_files.specs.Laws.OpeningForms.{instance-form};

    ghost Data = { OpenedWithLookups Extension };

    ghost data_of = { λ i. i };

    ghost within = { InstanceWithin };

    ghost tree = { instance_tree };

    ghost reading = { instance_reading };

    ghost allocates = { ⊤ };

    ghost form = { instance-form };

    fn read(
        alloc: Global,
        json: &Value,
    ) -> Result<OpenedValuesWithLookups<QuarticExtension>, TreeError> {
        let mut members = ObjectReader::new(json)?;
        let permutation_local = members.read::<ValuesForm>(alloc, "permutation_local")?;
        let permutation_next = members.read::<ValuesForm>(alloc, "permutation_next")?;
        let preprocessed = members.read::<Option<PreprocessedForm>>(alloc, "preprocessed")?;
        let quotient_chunks = members.read::<Chunks>(alloc, "quotient_chunks")?;
        let random = members.read::<Option<ValuesForm>>(alloc, "random")?;
        let trace_local = members.read::<ValuesForm>(alloc, "trace_local")?;
        let trace_next = members.read::<Option<ValuesForm>>(alloc, "trace_next")?;
        members.end()?;
        Ok(OpenedValuesWithLookups {
            base_opened_values: OpenedValues {
                trace_local,
                trace_next,
                preprocessed,
                quotient_chunks,
                random,
            },
            permutation_local,
            permutation_next,
        })
    }

    fn write(alloc: Global, value: &OpenedValuesWithLookups<QuarticExtension>) -> Mem<Value> {
        let base = &value.base_opened_values;
        let mut members = ObjectWriter::new(alloc);
        members.write::<ValuesForm>(alloc, "permutation_local", &value.permutation_local)?;
        members.write::<ValuesForm>(alloc, "permutation_next", &value.permutation_next)?;
        members.write::<Option<PreprocessedForm>>(alloc, "preprocessed", &base.preprocessed)?;
        members.write::<Chunks>(alloc, "quotient_chunks", &base.quotient_chunks)?;
        members.write::<Option<ValuesForm>>(alloc, "random", &base.random)?;
        members.write::<ValuesForm>(alloc, "trace_local", &base.trace_local)?;
        members.write::<Option<ValuesForm>>(alloc, "trace_next", &base.trace_next)?;
        Ok(members.end())
    }
}
