//! Proof files.
ghost use Rattle.std.specs.Prelude.{◌≡◌, IfOk};
ghost use Rattle.tool_lines.specs.Texts.{line_text};
ghost use Rattle.tool_lines.specs.WholeText.{ReadsBack, ReadsText};
ghost use Rattle.tool_proof_files.specs.Files.{FileWithin, file_numbers, version_number as number_of, version_of};

use crate::table::StatedTable;
use p3_field::Mem;
use p3_uni_stark::TranscriptVersion;
use std::alloc::Global;
use std::marker::Model;
use tool_lines::{
    Form, ItemError, Reader, TextError, print_list, push_number, read_list, read_text,
};
use tool_proof_text::{ProofText, ToolProof};
use tool_statement::TableStatement;

/// A proof file (not in Plonky3): what is stated, and the proof of it. A contract sees it as the record
/// `FileData`.
#[derive(Drop)]
pub struct ProofFile {
    /// The version of the transcript, 1 or 2.
    pub version: u8,
    /// The tables, 1 to 8.
    pub tables: Vec<TableStatement>,
    /// The proof.
    pub proof: ToolProof,
}

/// The number of a version, with which a proof file begins: 1 or 2.
pub fn version_number(version: TranscriptVersion) -> u8
    ensures { result ≡ number_of version }
{
    match version {
        TranscriptVersion::V1 => 1,
        TranscriptVersion::V2 => 2,
    }
}

impl Model for ProofFile {
    ghost use Rattle.tool_proof_files.specs.Files.{FileData};

    ghost Value = { FileData };

    ghost view = { λ f. record { version = f.version; tables = f.tables.items; proof = f.proof } };
}

impl ProofFile {
    /// The version of the transcript that the proof is of.
    pub fn transcript_version(&self) -> TranscriptVersion
        ensures { result ≡ version_of self.now.version }
    {
        match self.version {
            2 => TranscriptVersion::V2,
            _ => TranscriptVersion::V1,
        }
    }
}

/// The form of a proof file: its version, the list of its tables, and its proof.
pub struct WholeFile;

impl Form for WholeFile {
    type Value = ProofFile;

    ghost use Rattle.tool_proof_files.specs.Files.{FileData, FileWithin, file_numbers};
    ghost use Rattle.tool_proof_files.specs.Laws.Files.{file-grammar};

    ghost Data = { FileData };

    ghost data_of = { λ f. f };

    ghost within = { FileWithin };

    ghost numbers = { file_numbers };

    ghost grammar = { file-grammar };

    fn read(alloc: Global, reader: &mut Reader) -> Result<ProofFile, ItemError> {
        let version = reader.number(1, 2)?;
        let tables = read_list::<StatedTable>(alloc, reader, 1, 8)?;
        let proof = ProofText::read(alloc, reader)?;
        Ok(ProofFile {
            version: version as u8,
            tables,
            proof,
        })
    }

    fn print(value: &ProofFile, out: &mut Vec<u8>) -> Mem<()> {
        push_number(out, value.version as u64)?;
        print_list::<StatedTable>(&value.tables, out)?;
        ProofText::print(&value.proof, out)?;
        Ok(())
    }
}

/// The proof file whose text the bytes are (not in Plonky3).
///
/// It is `Line` exactly where they are no proof file's text, with the line of the fault: one more than the greatest number of whole
/// lines at their start that begin some proof file's text. No memory is taken for a count before its items are read.
pub fn read_proof_file(alloc: Global, bytes: &[u8]) -> Result<ProofFile, TextError>
    ensures { ReadsText (λ f. f) FileWithin file_numbers bytes.now result }
{
    read_text::<WholeFile>(alloc, bytes)
}

/// The text of a proof file, which is within its limits (not in Plonky3): [`read_proof_file`] reads it back as this file. The only error is
/// running out of memory.
pub fn write_proof_file(alloc: Global, file: &ProofFile) -> Mem<Vec<u8>>
    requires { FileWithin file.now }
    ensures text { IfOk result (λ v. v.items ≡ line_text (file_numbers file.now)) }
    ensures reads_back { IfOk result (λ v.
        ReadsBack FileWithin file_numbers v.items file.now) }
{
    let mut text = Vec::new(alloc);
    WholeFile::print(file, &mut text)?;
    Ok(text)
}
