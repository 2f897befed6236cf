//! Proof files.
ghost use Rattle.std.specs.Prelude.{◌≡◌, IfOk};
ghost use Rattle.tool_lines.specs.Texts.{line_text};
ghost use Rattle.tool_lines.specs.WholeText.{ReadsBack, ReadsText};
ghost use Rattle.stark_chain.specs.Seen.{read_file};
ghost use Rattle.stark_chain.specs.Texts.{FileWithin, file_numbers};

use crate::words::ChainingText;
use p3_field::Mem;
use std::alloc::Global;
use tool_lines::{Form, ItemError, Reader, TextError, push_number, read_text};
use tool_proof_text::{ProofText, ToolProof};

/// The first line of a proof file: the version of the transcript.
const VERSION: u32 = 2;

/// The most that the base-2 logarithm of the number of blocks may be.
const MOST_LOG_ROWS: u32 = 3;

/// A proof file (not in Plonky3): what is stated of a chain, and the proof of it. Contracts see it as the record `FileData`, by `read_file`.
#[derive(Drop)]
pub struct ChainFile {
    /// The base-2 logarithm of the number of compressions, 0 to 3.
    pub log_rows: u8,
    /// The chaining value before the first of them.
    pub start: [u32; 8],
    /// The chaining value after the last.
    pub end: [u32; 8],
    /// The proof.
    pub proof: ToolProof,
}

/// The form of a proof file: the version of the transcript, the logarithm of the number of compressions, both chaining values, and the proof.
pub struct WholeChainFile;

impl Form for WholeChainFile {
    type Value = ChainFile;

    ghost use Rattle.stark_chain.specs.Seen.{read_file};
    ghost use Rattle.stark_chain.specs.Texts.{FileData, FileWithin, file_numbers};
    ghost use Rattle.stark_chain.specs.Laws.Texts.{file-grammar};

    ghost Data = { FileData };

    ghost data_of = { read_file };

    ghost within = { FileWithin };

    ghost numbers = { file_numbers };

    ghost grammar = { file-grammar };

    fn read(alloc: Global, reader: &mut Reader) -> Result<ChainFile, ItemError> {
        reader.number(VERSION, VERSION)?;
        let log_rows = reader.number(0, MOST_LOG_ROWS)?;
        let start = ChainingText::read(alloc, reader)?;
        let end = ChainingText::read(alloc, reader)?;
        let proof = ProofText::read(alloc, reader)?;
        Ok(ChainFile {
            log_rows: log_rows as u8,
            start,
            end,
            proof,
        })
    }

    fn print(value: &ChainFile, out: &mut Vec<u8>) -> Mem<()> {
        push_number(out, 2)?;
        push_number(out, value.log_rows as u64)?;
        ChainingText::print(&value.start, out)?;
        ChainingText::print(&value.end, out)?;
        ProofText::print(&value.proof, out)?;
        Ok(())
    }
}

/// The proof file whose text the bytes are (not in Plonky3).
///
/// It is `Line` exactly where they are no proof file's text, with the line of the fault: one more than the greatest number of whole lines at
/// their start that begin some proof file's text. No memory is taken for a count before its items are read.
pub fn read_chain_file(alloc: Global, bytes: &[u8]) -> Result<ChainFile, TextError>
    ensures { ReadsText read_file FileWithin file_numbers bytes.now result }
{
    read_text::<WholeChainFile>(alloc, bytes)
}

/// The text of a proof file (not in Plonky3): [`read_chain_file`] reads that of a file within the limits back as this file. The only error is
/// running out of memory.
pub fn write_chain_file(alloc: Global, file: &ChainFile) -> Mem<Vec<u8>>
    ensures text { IfOk result (λ v. v.items ≡ line_text (file_numbers (read_file file.now))) }
    ensures reads_back { IfOk result (λ v. FileWithin (read_file file.now)
        → ReadsBack FileWithin file_numbers v.items (read_file file.now)) }
{
    let mut text = Vec::new(alloc);
    WholeChainFile::print(file, &mut text)?;
    Ok(text)
}
