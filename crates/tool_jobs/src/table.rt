//! The tables of a job.
ghost use Rattle.std.specs.Int.{IsPowerOfTwo};
ghost use Rattle.std.specs.Prelude.{◌≡◌, ◌≤◌, IfOk};
ghost use Rattle.p3_field.specs.BabyBear.{baby_bear_ring};
ghost use Rattle.batch_setup.specs.Setup.{log_of};
ghost use Rattle.tool_statement.specs.StatedTables.{TableWithin, log_height_of, publics_of, source_of_table};
ghost use Rattle.law_tool_valid.specs.Job.{IsJobTableWithin, source_of_job, trace_of};
ghost use Rattle.law_tool_valid.specs.Job.{last_right as last_right_of, job_log_height_of as rows_log_of, job_publics_of as table_publics};
ghost use Rattle.tool_jobs.specs.Jobs.{read_table};
ghost use Rattle.tool_jobs.specs.Stated.{statement_of};

use crate::trace::{give_trace, hash_trace, swap_trace, wheel_trace};
use p3_field::{BabyBear, Mem};
use p3_matrix::{RowMajorMatrix, log2_strict_usize};
use std::alloc::Global;
use tool_statement::TableStatement;

/// A word that a table gives, and how often (not in Plonky3).
#[derive(Clone, Copy)]
pub struct GivenWord {
    /// The word.
    pub word: BabyBear,
    /// How often it is given, 0 to 1024.
    pub count: u16,
}

/// A table of a job (not in Plonky3). Contracts see it as plain data by `read_table` of
/// `specs/Jobs.antt`.
#[derive(Drop)]
pub enum JobTable {
    /// A swap table: rows of two cells, (a, b) in the rows of even number and (b, a) in those of odd number.
    Swap {
        /// The base-2 logarithm of the number of rows, 0 to 10.
        k: u8,
        /// The left cell of the first row.
        a: BabyBear,
        /// The right cell of the first row.
        b: BabyBear,
    },
    /// A wheel: i + 1 in row i, times 3 and 5 in turn.
    Wheel {
        /// The base-2 logarithm of the number of rows, 1 to 10.
        k: u8,
    },
    /// A table that takes words, each as often as it stands here.
    Take {
        /// The words, whose number is a power of two up to 1024.
        words: Vec<BabyBear>,
    },
    /// A table that gives words.
    Give {
        /// The words with their counts, whose number is a power of two up to 1024.
        words: Vec<GivenWord>,
    },
    /// A table of compressions of BLAKE3.
    Hash {
        /// The rows, whose number is a power of two up to 8: the 16 words of a block, then the 8 of a chaining value.
        rows: Vec<[u32; 24]>,
    },
}

// The logarithm of a table's number of words or rows.
fn log_of_items(count: usize) -> u8
    requires power { IsPowerOfTwo count }
    requires few { count ≤ 1024 }
    ensures value { result ≡ log_of count }
    ensures few { result ≤ 10 }
    ensures fewer { count ≤ 8 → result ≤ 3 }
{
    log2_strict_usize(count) as u8
}

// The right cell of the last row of a swap table: b in a table of one row, else a.
fn last_right(k: u8, a: BabyBear, b: BabyBear) -> BabyBear
    ensures { result ≡ last_right_of k a b }
{
    if k == 0 { b } else { a }
}

impl JobTable {
    /// What is stated of the table (not in Plonky3): its kind, the base-2 logarithm of its rows and, of a swap table, its first row and
    /// last right cell.
    pub fn statement(&self) -> TableStatement
        requires { IsJobTableWithin (read_table self.now) }
        ensures stated { result ≡ statement_of (read_table self.now) }
        ensures within { TableWithin result }
        ensures height { log_height_of result ≡ rows_log_of (read_table self.now) }
        ensures publics { publics_of result ≡ table_publics (read_table self.now) }
        ensures source { source_of_table result
            ≡ source_of_job baby_bear_ring (read_table self.now) }
    {
        match self {
            JobTable::Swap { k, a, b } => TableStatement::Swap {
                k: *k,
                a: *a,
                b: *b,
                x: last_right(*k, *a, *b),
            },
            JobTable::Wheel { k } => TableStatement::Wheel { k: *k },
            JobTable::Take { words } => TableStatement::Take {
                k: log_of_items(words.len()),
            },
            JobTable::Give { words } => TableStatement::Give {
                k: log_of_items(words.len()),
            },
            JobTable::Hash { rows } => TableStatement::Hash {
                k: log_of_items(rows.len()),
            },
        }
    }

    /// The table's trace (not in Plonky3), row by row. The only error is running out of memory.
    pub fn trace(&self, alloc: Global) -> Mem<RowMajorMatrix<BabyBear>>
        requires { IsJobTableWithin (read_table self.now) }
        ensures { IfOk result (λ m. m ≡ trace_of baby_bear_ring (read_table self.now)) }
    {
        match self {
            JobTable::Swap { k, a, b } => swap_trace(alloc, *k as usize, *a, *b),
            JobTable::Wheel { k } => wheel_trace(alloc, *k as usize),
            JobTable::Take { words } => {
                let values = Vec::from_slice(alloc, words)?;
                Ok(RowMajorMatrix::new_col(values))
            }
            JobTable::Give { words } => give_trace(alloc, words),
            JobTable::Hash { rows } => hash_trace(alloc, rows),
        }
    }
}
