//! Whether a job's words are taken as often as they are given.
ghost use Rattle.std.specs.Prelude.{◌≡◌, ◌++◌, IfOk, MatchOption, OnOk, map};
ghost use Rattle.std.specs.List.{flat_map};
ghost use Rattle.std.specs.List.Sorted.{IsNonDecreasingBy};
ghost use Rattle.tool_jobs.specs.Unbalanced.{IsFirstUnbalanced, same_word};
ghost use Rattle.law_tool_valid.specs.Job.{IsBalancedJob};
ghost use Rattle.tool_jobs.specs.Jobs.{read_given, read_table, read_tables};
ghost use Rattle.tool_jobs.specs.Tallies.{IsUnequalAnswer, given_often, taken_once, tallies_of as rows_tallied};

use crate::table::{GivenWord, JobTable};
use p3_field::{BabyBear, Mem, PrimeCore64, RingCore};
use std::alloc::Global;

/// What a row takes and gives of its word.
#[derive(Clone, Copy)]
struct Tally {
    /// The word's canonical number.
    number: u64,
    /// How often it is taken.
    taken: u16,
    /// How often it is given.
    given: u16,
}

// Appends the rows that take these words.
fn push_taken(tallies: &mut Vec<Tally>, words: &[BabyBear]) -> Mem<()>
    ensures { OnOk result (tallies.new.items ≡ tallies.old.items ++ map taken_once words.now) }
{
    for word in words {
        tallies.push(Tally {
            number: word.as_canonical_u64(),
            taken: 1,
            given: 0,
        })?;
    }
    Ok(())
}

// Appends the rows that give these words.
fn push_given(tallies: &mut Vec<Tally>, words: &[GivenWord]) -> Mem<()>
    ensures { OnOk result (tallies.new.items ≡ tallies.old.items
        ++ map given_often (map read_given words.now)) }
{
    for given in words {
        tallies.push(Tally {
            number: given.word.as_canonical_u64(),
            taken: 0,
            given: given.count,
        })?;
    }
    Ok(())
}

// Appends the rows of a table.
fn push_table(tallies: &mut Vec<Tally>, table: &JobTable) -> Mem<()>
    ensures { OnOk result (tallies.new.items ≡ tallies.old.items
        ++ rows_tallied (read_table table.now)) }
{
    match table {
        JobTable::Swap { .. } => Ok(()),
        JobTable::Wheel { .. } => Ok(()),
        JobTable::Take { words } => push_taken(tallies, words),
        JobTable::Give { words } => push_given(tallies, words),
        JobTable::Hash { .. } => Ok(()),
    }
}

// The rows of a job's tables in order.
fn tallies_of(alloc: Global, job: &[JobTable]) -> Mem<Vec<Tally>>
    ensures { IfOk result (λ v. v.items ≡ flat_map rows_tallied (read_tables job.now)) }
{
    let mut tallies = Vec::new(alloc);
    for table in job {
        push_table(&mut tallies, table)?;
    }
    Ok(tallies)
}

// The least number of a word that these rows, whose numbers ascend, take in another number than they give. Sums of 128 bits hold
// whatever the rows are.
fn first_unequal(tallies: &[Tally]) -> Option<u64>
    requires { IsNonDecreasingBy (λ t. t.number) tallies.now }
    ensures { IsUnequalAnswer tallies.now result }
{
    let mut number: u64 = 0;
    let mut taken: u128 = 0;
    let mut given: u128 = 0;
    for tally in tallies {
        if tally.number == number {
            taken += tally.taken as u128;
            given += tally.given as u128;
        } else if taken == given {
            number = tally.number;
            taken = tally.taken as u128;
            given = tally.given as u128;
        } else {
            return Some(number);
        }
    }
    if taken == given { None } else { Some(number) }
}

/// None exactly where each word of the job is taken as often as it is given (not in Plonky3); else the least word, by its canonical
/// number, that isn't. The time is that of sorting the job's words. The only error is running out of memory.
pub fn first_unbalanced(alloc: Global, job: &[JobTable]) -> Mem<Option<BabyBear>>
    ensures { IfOk result (λ o.
        MatchOption o (IsBalancedJob same_word (read_tables job.now))
        (IsFirstUnbalanced (read_tables job.now))) }
{
    let mut tallies = tallies_of(alloc, job)?;
    tallies.sort_unstable_by_key(|tally| tally.number);
    match first_unequal(&tallies) {
        None => Ok(None),
        Some(number) => Ok(Some(BabyBear::from_u64(number))),
    }
}
