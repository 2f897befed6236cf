//! The text of jobs.
ghost use Rattle.std.specs.Prelude.{◌≡◌, ℕ, ◌≤◌, List, ◌++◌, ◌∷◌, decimal, IfErr, IfOk};
ghost use Rattle.tool_lines.specs.Texts.{ReadsOne, line_text};
ghost use Rattle.tool_lines.specs.WholeText.{ReadsBack, ReadsText};
ghost use Rattle.tool_jobs.specs.Jobs.{BeginsList, JobWithin, job_numbers, read_table, read_tables};
ghost use Rattle.tool_jobs.specs.Laws.Kinds.{KindWithin, body_numbers};

use crate::table::{GivenWord, JobTable};
use p3_field::{BabyBear, Mem};
use std::alloc::Global;
use tool_lines::{
    Form, ItemError, Reader, TextError, WordLine, print_items, print_list, push_number, read_items,
    read_list, read_powers, read_text,
};

/// The first line of a swap table's text.
const SWAP: u32 = 1;

/// The first line of a wheel's text.
const WHEEL: u32 = 2;

/// The first line of the text of a table that takes words.
const TAKE: u32 = 3;

/// The first line of the text of a table that gives words.
const GIVE: u32 = 4;

/// The first line of the text of a table of compressions.
const HASH: u32 = 5;

/// The most that the base-2 logarithm of the rows of a swap table or a wheel may be.
const MOST_LOG_ROWS: u32 = 10;

/// The most words that a table may take, or give.
const MOST_WORDS: u32 = 1024;

/// The most rows of a table of compressions.
const MOST_HASHES: u32 = 8;

/// The words of a row of compressions: a block of 16, and a chaining value of 8.
const ROW_WORDS: usize = 24;

/// The most that a word may be given.
const MOST_TIMES: u32 = 1024;

/// The most tables of a job.
const MOST_TABLES: u32 = 8;

/// Two lines: the word, and how often it is given.
impl Form for GivenWord {
    type Value = GivenWord;

    ghost use Rattle.std.specs.Prelude.{ℕ};
    ghost use Rattle.p3_field.specs.declared.baby_bear.BabyBear.{BabyBear as Element};
    ghost use Rattle.tool_jobs.specs.Jobs.{given_numbers, read_given};
    ghost use Rattle.tool_jobs.specs.Laws.Kinds.{GivenWithin, given-grammar};

    ghost Data = { Element × ℕ };

    ghost data_of = { read_given };

    ghost within = { GivenWithin };

    ghost numbers = { given_numbers };

    ghost grammar = { given-grammar };

    fn read(alloc: Global, reader: &mut Reader) -> Result<GivenWord, ItemError>
        ensures value { ReadsOne read_given GivenWithin given_numbers reader.old reader.new result }
        ensures no_memory { IfErr result (λ e. e ≡ ItemError.Malformed) }
    {
        let word = BabyBear::read(alloc, reader)?;
        let count = reader.number(0, MOST_TIMES)?;
        Ok(GivenWord {
            word,
            count: count as u16,
        })
    }

    fn print(value: &GivenWord, out: &mut Vec<u8>) -> Mem<()> {
        BabyBear::print(&value.word, out)?;
        push_number(out, value.count as u64)
    }
}

/// The form of a row of compressions: a line for each word of its block, and then for each of its chaining value.
struct HashRow;

impl Form for HashRow {
    type Value = [u32; 24];

    ghost use Rattle.std.specs.Prelude.{List, ℕ};
    ghost use Rattle.law_tool_valid.specs.Job.{IsHashRow};
    ghost use Rattle.tool_jobs.specs.Jobs.{row_numbers};
    ghost use Rattle.tool_jobs.specs.Laws.Kinds.{row-grammar};

    ghost Data = { List ℕ };

    ghost data_of = { λ row. row };

    ghost within = { IsHashRow };

    ghost numbers = { row_numbers };

    ghost grammar = { row-grammar };

    fn read(alloc: Global, reader: &mut Reader) -> Result<[u32; 24], ItemError> {
        let words = read_items::<WordLine>(alloc, reader, ROW_WORDS)?;
        let mut row = [0; 24];
        row.copy_from_slice(&words);
        Ok(row)
    }

    fn print(value: &[u32; 24], out: &mut Vec<u8>) -> Mem<()> {
        print_items::<WordLine>(value, out)
    }
}

// Reads a swap table after its kind: the logarithm of its rows, and its first row.
fn read_swap(alloc: Global, reader: &mut Reader) -> Result<JobTable, ItemError>
    ensures value { ReadsOne read_table (KindWithin 1) body_numbers reader.old reader.new result }
    ensures no_memory { IfErr result (λ e. e ≡ ItemError.Malformed) }
{
    let k = reader.number(0, MOST_LOG_ROWS)?;
    let a = BabyBear::read(alloc, reader)?;
    let b = BabyBear::read(alloc, reader)?;
    Ok(JobTable::Swap { k: k as u8, a, b })
}

// Reads a wheel after its kind: the logarithm of its rows.
fn read_wheel(reader: &mut Reader) -> Result<JobTable, ItemError>
    ensures value { ReadsOne read_table (KindWithin 2) body_numbers reader.old reader.new result }
    ensures no_memory { IfErr result (λ e. e ≡ ItemError.Malformed) }
{
    let k = reader.number(1, MOST_LOG_ROWS)?;
    Ok(JobTable::Wheel { k: k as u8 })
}

// Reads a table that takes words, after its kind: the list of the words.
fn read_take(alloc: Global, reader: &mut Reader) -> Result<JobTable, ItemError>
    ensures { ReadsOne read_table (KindWithin 3) body_numbers reader.old reader.new result }
{
    let words = read_powers::<BabyBear>(alloc, reader, MOST_WORDS)?;
    Ok(JobTable::Take { words })
}

// Reads a table that gives words, after its kind: the list of the words with their counts.
fn read_give(alloc: Global, reader: &mut Reader) -> Result<JobTable, ItemError>
    ensures { ReadsOne read_table (KindWithin 4) body_numbers reader.old reader.new result }
{
    let words = read_powers::<GivenWord>(alloc, reader, MOST_WORDS)?;
    Ok(JobTable::Give { words })
}

// Reads a table of compressions, after its kind: the list of its rows.
fn read_hash(alloc: Global, reader: &mut Reader) -> Result<JobTable, ItemError>
    ensures { ReadsOne read_table (KindWithin 5) body_numbers reader.old reader.new result }
{
    let rows = read_powers::<HashRow>(alloc, reader, MOST_HASHES)?;
    Ok(JobTable::Hash { rows })
}

// Reads a table of this kind after its kind.
fn read_kind(alloc: Global, reader: &mut Reader, kind: u32) -> Result<JobTable, ItemError>
    requires least { 1 ≤ kind }
    requires most { kind ≤ 5 }
    ensures value { ReadsOne read_table (KindWithin kind) body_numbers reader.old reader.new
        result }
    ensures no_memory { kind ≤ 2 → IfErr result (λ e. e ≡ ItemError.Malformed) }
{
    if kind == SWAP {
        read_swap(alloc, reader)
    } else if kind == WHEEL {
        read_wheel(reader)
    } else if kind == TAKE {
        read_take(alloc, reader)
    } else if kind == GIVE {
        read_give(alloc, reader)
    } else {
        read_hash(alloc, reader)
    }
}

/// The kind, 1 for a swap table, 2 for a wheel, 3 for one that takes words, 4 for one that gives words, 5 for one of compressions; then
/// the base-2 logarithm of the rows and, of a swap table, the first row; or the list of the words, whose count is a power of two up to
/// 1024; or the list of the rows of 24 words, whose count is a power of two up to 8. Lists alone take memory (`memory`, `list`).
impl Form for JobTable {
    type Value = JobTable;

    ghost use Rattle.p3_field.specs.declared.baby_bear.BabyBear.{BabyBear as Element};
    ghost use Rattle.law_tool_valid.specs.Job.{IsJobTableWithin, JobTable as TableData};
    ghost use Rattle.tool_jobs.specs.Jobs.{read_table, table_numbers};
    ghost use Rattle.tool_jobs.specs.Laws.Texts.{table-grammar};

    ghost Data = { TableData Element };

    ghost data_of = { read_table };

    ghost within = { IsJobTableWithin };

    ghost numbers = { table_numbers };

    ghost grammar = { table-grammar };

    fn read(alloc: Global, reader: &mut Reader) -> Result<JobTable, ItemError>
        ensures value { ReadsOne read_table IsJobTableWithin table_numbers reader.old reader.new
            result }
        ensures memory { IfErr result
            (λ e. e ≡ ItemError.OutOfMemory → (n : ℕ) (rest : List ℕ)
            → reader.old ≡ decimal n ++ 10 ∷ rest → 3 ≤ n) }
        ensures list { IfErr result (λ e. e ≡ ItemError.OutOfMemory → BeginsList reader.old) }
    {
        let kind = reader.number(SWAP, HASH)?;
        read_kind(alloc, reader, kind)
    }

    fn print(value: &JobTable, out: &mut Vec<u8>) -> Mem<()> {
        match value {
            JobTable::Swap { k, a, b } => {
                push_number(out, 1)?;
                push_number(out, *k as u64)?;
                BabyBear::print(a, out)?;
                BabyBear::print(b, out)
            }
            JobTable::Wheel { k } => {
                push_number(out, 2)?;
                push_number(out, *k as u64)
            }
            JobTable::Take { words } => {
                push_number(out, 3)?;
                print_list::<BabyBear>(words, out)
            }
            JobTable::Give { words } => {
                push_number(out, 4)?;
                print_list::<GivenWord>(words, out)
            }
            JobTable::Hash { rows } => {
                push_number(out, 5)?;
                print_list::<HashRow>(rows, out)
            }
        }
    }
}

/// The form of a job: a list of one to eight tables.
pub struct WholeJob;

impl Form for WholeJob {
    type Value = Vec<JobTable>;

    ghost use Rattle.std.specs.Prelude.{List, map};
    ghost use Rattle.p3_field.specs.declared.baby_bear.BabyBear.{BabyBear as Element};
    ghost use Rattle.law_tool_valid.specs.Job.{JobTable as TableData};
    ghost use Rattle.tool_jobs.specs.Jobs.{JobWithin, job_numbers, read_tables};
    ghost use Rattle.tool_jobs.specs.Laws.Texts.{job-grammar};

    ghost Data = { List (TableData Element) };

    ghost data_of = { λ v. read_tables v.items };

    ghost within = { JobWithin };

    ghost numbers = { job_numbers };

    ghost grammar = { job-grammar };

    fn read(alloc: Global, reader: &mut Reader) -> Result<Vec<JobTable>, ItemError> {
        read_list::<JobTable>(alloc, reader, 1, MOST_TABLES)
    }

    fn print(value: &Vec<JobTable>, out: &mut Vec<u8>) -> Mem<()> {
        print_list::<JobTable>(value, out)
    }
}

/// The job whose text the bytes are (not in Plonky3).
///
/// It is `Line` exactly where they are no job's text, with the line of the fault: one more than the greatest number of whole lines
/// at their start that begin some job's text. No memory is taken for a count before its items are read.
pub fn read_job(alloc: Global, bytes: &[u8]) -> Result<Vec<JobTable>, TextError>
    ensures { ReadsText (λ v. read_tables v.items) JobWithin job_numbers bytes.now result }
{
    read_text::<WholeJob>(alloc, bytes)
}

/// The text of a job (not in Plonky3): [`read_job`] reads that of a job within the limits back as this job. The only error is running out of
/// memory.
pub fn write_job(alloc: Global, job: &[JobTable]) -> Mem<Vec<u8>>
    ensures text { IfOk result (λ v. v.items ≡ line_text (job_numbers (read_tables job.now))) }
    ensures reads_back { IfOk result (λ v. JobWithin (read_tables job.now)
        → ReadsBack JobWithin job_numbers v.items (read_tables job.now)) }
{
    let mut text = Vec::new(alloc);
    print_list::<JobTable>(job, &mut text)?;
    Ok(text)
}
