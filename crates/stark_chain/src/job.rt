//! Jobs.
ghost use Rattle.tool_lines.specs.WholeText.{ReadsText};
ghost use Rattle.stark_chain.specs.Seen.{read_job};
ghost use Rattle.stark_chain.specs.Texts.{JobWithin, job_numbers};

use crate::words::{BlockText, ChainingText};
use p3_field::Mem;
use std::alloc::Global;
use tool_lines::{Form, ItemError, Reader, TextError, print_list, read_powers, read_text};

/// The most blocks of a job.
const MOST_BLOCKS: u32 = 8;

/// What `prove` is to prove (not in Plonky3): that these blocks lead from this chaining value to some other. Contracts see it as the record
/// `JobData`, by `read_job`.
#[derive(Drop)]
pub struct ChainJob {
    /// The chaining value before the first block.
    pub start: [u32; 8],
    /// The blocks: 1, 2, 4 or 8 of them, 16 words each.
    pub blocks: Vec<[u32; 16]>,
}

/// The form of a job: the 8 words of its chaining value, and the list of its blocks, whose number is a power of two up to 8.
pub struct WholeChainJob;

impl Form for WholeChainJob {
    type Value = ChainJob;

    ghost use Rattle.stark_chain.specs.Seen.{read_job};
    ghost use Rattle.stark_chain.specs.Texts.{JobData, JobWithin, job_numbers};
    ghost use Rattle.stark_chain.specs.Laws.Texts.{job-grammar};

    ghost Data = { JobData };

    ghost data_of = { read_job };

    ghost within = { JobWithin };

    ghost numbers = { job_numbers };

    ghost grammar = { job-grammar };

    fn read(alloc: Global, reader: &mut Reader) -> Result<ChainJob, ItemError> {
        let start = ChainingText::read(alloc, reader)?;
        let blocks = read_powers::<BlockText>(alloc, reader, MOST_BLOCKS)?;
        Ok(ChainJob { start, blocks })
    }

    fn print(value: &ChainJob, out: &mut Vec<u8>) -> Mem<()> {
        ChainingText::print(&value.start, out)?;
        print_list::<BlockText>(&value.blocks, out)?;
        Ok(())
    }
}

/// The job whose text the bytes are (not in Plonky3).
///
/// It is `Line` exactly where they are no job's text, with the line of the fault: one more than the greatest number of whole lines at their
/// start that begin some job's text.
pub fn read_chain_job(alloc: Global, bytes: &[u8]) -> Result<ChainJob, TextError>
    ensures { ReadsText read_job JobWithin job_numbers bytes.now result }
{
    read_text::<WholeChainJob>(alloc, bytes)
}
