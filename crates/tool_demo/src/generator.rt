//! What is made of the next words of a seed.
ghost use Rattle.std.specs.Prelude.{◌≡◌, ℕ, ◌+◌, ◌*◌, ◌%◌, ◌^◌, IfOk, OnOk};
ghost use Rattle.tool_demo.specs.Demo.{hash_row, hash_rows, state_after, taken_numbers, word_at};

use p3_field::Mem;
use rand_core::utils::NextWord;
use rand_xoshiro::Xoshiro256PlusPlus;
use std::alloc::Global;

// The next word.
pub(crate) fn next_word(generator: &mut Xoshiro256PlusPlus) -> u64
    ensures word { (seed n : ℕ) → generator.old ≡ state_after seed n → result ≡ word_at seed n }
    ensures state { (seed n : ℕ) → generator.old ≡ state_after seed n
        → generator.new ≡ state_after seed (n + 1) }
{
    generator.next_word()
}

// The next 1024 words after two, each modulo 64.
pub(crate) fn next_numbers(alloc: Global, generator: &mut Xoshiro256PlusPlus) -> Mem<Vec<u8>>
    ensures numbers { IfOk result
        (λ v. (seed : ℕ) → generator.old ≡ state_after seed 2 → v.items ≡ taken_numbers seed 1024) }
    ensures state { OnOk result
        ((seed : ℕ) → generator.old ≡ state_after seed 2 → generator.new ≡ state_after seed 1026) }
{
    let mut numbers = Vec::new(alloc);
    for _i in 0..1024usize {
        numbers.push((next_word(generator) % 64) as u8)?;
    }
    Ok(numbers)
}

// The low 32 bits of each of the next 24 words, which are those of row i.
fn next_row(generator: &mut Xoshiro256PlusPlus) -> [u32; 24]
    ensures row { (seed i : ℕ) → generator.old ≡ state_after seed (1026 + 24 * i)
        → result ≡ hash_row seed i }
    ensures state { (seed i : ℕ) → generator.old ≡ state_after seed (1026 + 24 * i)
        → generator.new ≡ state_after seed (1026 + 24 * (i + 1)) }
{
    let mut row = [0u32; 24];
    for k in 0..24 {
        row[k] = (next_word(generator) % 4294967296) as u32;
    }
    row
}

// The next eight rows.
pub(crate) fn next_rows(alloc: Global, generator: &mut Xoshiro256PlusPlus) -> Mem<Vec<[u32; 24]>>
    ensures { IfOk result (λ v. (seed : ℕ) → generator.old ≡ state_after seed 1026
        → v.items ≡ hash_rows seed 8) }
{
    let mut rows = Vec::new(alloc);
    for _i in 0..8usize {
        rows.push(next_row(generator))?;
    }
    Ok(rows)
}
