//! The job of a number.
ghost use Rattle.std.specs.Prelude.{◌≡◌, IfOk};
ghost use Rattle.tool_demo.specs.Demo.{demo_job};
ghost use Rattle.tool_jobs.specs.Jobs.{JobWithin, read_tables};

use crate::generator::{next_numbers, next_rows, next_word};
use crate::tables::{given_words, taken_words};
use p3_field::{BabyBear, Mem, RingCore};
use rand_core::SeedableRng;
use rand_xoshiro::Xoshiro256PlusPlus;
use std::alloc::Global;
use tool_jobs::JobTable;

/// The job that the number stands for (not in Plonky3): five tables, one of each kind, made of the words of xoshiro256++
/// from the seed `number`. It is within a job's limits. The only error is running out of memory.
pub fn demo_job(alloc: Global, number: u32) -> Mem<Vec<JobTable>>
    ensures job { IfOk result (λ v. read_tables v.items ≡ demo_job number) }
    ensures within { IfOk result (λ v. JobWithin (read_tables v.items)) }
{
    let mut generator = Xoshiro256PlusPlus::seed_from_u64(number as u64);
    let a = BabyBear::from_u64(next_word(&mut generator));
    let b = BabyBear::from_u64(next_word(&mut generator));
    let numbers = next_numbers(alloc, &mut generator)?;
    let rows = next_rows(alloc, &mut generator)?;
    let taken = taken_words(alloc, &numbers)?;
    let given = given_words(alloc, &numbers)?;
    let tables = [
        JobTable::Swap { k: 10, a, b },
        JobTable::Wheel { k: 10 },
        JobTable::Take { words: taken },
        JobTable::Give { words: given },
        JobTable::Hash { rows },
    ];
    Ok(Vec::from_array(alloc, tables)?)
}
