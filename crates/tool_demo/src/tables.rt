//! The words that are taken and given.
ghost use Rattle.std.specs.Prelude.{◌≡◌, ◌≤◌, ◌==◌, count_by, length, map, IfOk};
ghost use Rattle.tool_demo.specs.Demo.{element_of, given_pairs};
ghost use Rattle.tool_jobs.specs.Jobs.{read_given};

use p3_field::{BabyBear, Mem, RingCore};
use std::alloc::Global;
use tool_jobs::GivenWord;

// The elements of these numbers.
pub(crate) fn taken_words(alloc: Global, numbers: &[u8]) -> Mem<Vec<BabyBear>>
    ensures { IfOk result (λ v. v.items ≡ map element_of numbers.now) }
{
    let mut words = Vec::new(alloc);
    for number in numbers {
        words.push(BabyBear::from_u64(*number as u64))?;
    }
    Ok(words)
}

// The element of a number, with how often the number is among these.
fn given_word(number: u8, numbers: &[u8]) -> GivenWord
    requires { length numbers.now ≤ 1024 }
    ensures { read_given result ≡ (element_of number, count_by (λ x. x == number) numbers.now) }
{
    let count = numbers.iter().filter(|taken| **taken == number).count();
    GivenWord {
        word: BabyBear::from_u64(number as u64),
        count: count as u16,
    }
}

// The elements of the numbers below 64, each with how often its number is among these.
pub(crate) fn given_words(alloc: Global, numbers: &[u8]) -> Mem<Vec<GivenWord>>
    requires { length numbers.now ≤ 1024 }
    ensures { IfOk result (λ v. map read_given v.items ≡ given_pairs 64 numbers.now) }
{
    let mut words = Vec::new(alloc);
    for number in 0..64u8 {
        words.push(given_word(number, numbers))?;
    }
    Ok(words)
}
