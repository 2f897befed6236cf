//! The tree of a proof file.

ghost use Rattle.std.specs.Prelude.{⊤};

use crate::commitments::CommitmentsForm;
use crate::openings::InstanceForm;
use crate::tables::TableForm;
use batch_statement::{BatchOpenedValues, TablesProof};
use json_forms::{JsonForm, ListOf, NumberIn, ObjectReader, ObjectWriter, Present, TreeError};
use p3_field::{BabyBear, Mem, QuarticExtension};
use p3_lookup::LookupTerminal;
use plain_pcs::PlainProof;
use serde_json::Value;
use std::alloc::Global;
use tool_proof_files::ProofFile;

/// At most 1024 tables' degree bits, each at most 255.
type DegreeBits = ListOf<NumberIn<0, 255>, 0, 1024>;

/// At most 1024 tables' terminals.
type Terminals = ListOf<Option<TerminalForm>, 0, 1024>;

/// At most 1024 tables' opened values.
type Instances = ListOf<InstanceForm, 0, 1024>;

/// 1 to 8 tables.
type Tables = ListOf<TableForm, 1, 8>;

/// The form of a terminal: that of its value.
pub struct TerminalForm;

impl JsonForm for TerminalForm {
    type Value = LookupTerminal<QuarticExtension>;

    ghost use Rattle.p3_field.specs.declared.quartic.QuarticExtension.{QuarticExtension as Extension};
    ghost use Rattle.tool_lines.specs.Texts.{Unlimited};
    ghost use Rattle.json_forms.specs.Trees.{extension_tree};
    ghost use Rattle.json_forms.specs.Readings.{extension_reading};
    ghost use Rattle.json_forms.specs.Laws.More.{extension-form};

    ghost Data = { Extension };

    ghost data_of = { λ t. t.0 };

    ghost within = { Unlimited };

    ghost tree = { extension_tree };

    ghost reading = { extension_reading };

    ghost allocates = { ⊤ };

    ghost form = { extension-form };

    fn read(alloc: Global, json: &Value) -> Result<LookupTerminal<QuarticExtension>, TreeError> {
        let value = QuarticExtension::read(alloc, json)?;
        Ok(LookupTerminal(value))
    }

    fn write(alloc: Global, value: &LookupTerminal<QuarticExtension>) -> Mem<Value> {
        QuarticExtension::write(alloc, &value.0)
    }
}

impl Present for TerminalForm {
    ghost use Rattle.std.specs.Prelude.{refl};

    ghost solid = { refl };
}

/// The form of a proof file: an object of the proof's parts, the tables and the version.
pub struct FileForm;

impl JsonForm for FileForm {
    type Value = ProofFile;

    ghost use Rattle.tool_proof_files.specs.Files.{FileData, FileWithin};
    ghost use Rattle.json_proof_files.specs.FileTrees.{file_tree};
    ghost use Rattle.json_proof_files.specs.FileReadings.{file_reading};
    ghost use Rattle.json_proof_files.specs.Laws.FileForms.{file-form};

    ghost Data = { FileData };

    ghost data_of = { λ f. f };

    ghost within = { FileWithin };

    ghost tree = { file_tree };

    ghost reading = { file_reading };

    ghost allocates = { ⊤ };

    ghost form = { file-form };

    fn read(alloc: Global, json: &Value) -> Result<ProofFile, TreeError> {
        let mut members = ObjectReader::new(json)?;
        let commitments = members.read::<CommitmentsForm>(alloc, "commitments")?;
        let degree_bits = members.read::<DegreeBits>(alloc, "degree_bits")?;
        let lookup_pow_witness = members.read::<Option<BabyBear>>(alloc, "lookup_pow_witness")?;
        let lookup_terminals = members.read::<Terminals>(alloc, "lookup_terminals")?;
        let ood_pow_witness = members.read::<BabyBear>(alloc, "ood_pow_witness")?;
        let instances = members.read::<Instances>(alloc, "opened_values")?;
        let tables = members.read::<Tables>(alloc, "tables")?;
        let version = members.read_number("version", 1, 2)?;
        members.end()?;
        let proof = TablesProof {
            commitments,
            opened_values: BatchOpenedValues { instances },
            opening_proof: PlainProof,
            lookup_terminals,
            degree_bits,
            lookup_pow_witness,
            ood_pow_witness,
        };
        Ok(ProofFile {
            version: version as u8,
            tables,
            proof,
        })
    }

    fn write(alloc: Global, value: &ProofFile) -> Mem<Value> {
        let proof = &value.proof;
        let opened = &proof.opened_values;
        let mut members = ObjectWriter::new(alloc);
        members.write::<CommitmentsForm>(alloc, "commitments", &proof.commitments)?;
        members.write::<DegreeBits>(alloc, "degree_bits", &proof.degree_bits)?;
        members.write::<Option<BabyBear>>(alloc, "lookup_pow_witness", &proof.lookup_pow_witness)?;
        members.write::<Terminals>(alloc, "lookup_terminals", &proof.lookup_terminals)?;
        members.write::<BabyBear>(alloc, "ood_pow_witness", &proof.ood_pow_witness)?;
        members.write::<Instances>(alloc, "opened_values", &opened.instances)?;
        members.write::<Tables>(alloc, "tables", &value.tables)?;
        members.write_number(alloc, "version", value.version as u64)?;
        Ok(members.end())
    }
}
