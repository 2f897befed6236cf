//! Rows of compressions of random words.
ghost use Rattle.std.specs.Prelude.{◌≡◌, ℕ, ◌+◌, ◌*◌, ◌%◌, ◌^◌, ◌<◌, IfOk, Err, ◌↔◌, length, map};
ghost use Rattle.std.specs.Int.{IsPowerOfTwo};
ghost use Rattle.p3_field.specs.Ring.{of_nat};
ghost use Rattle.p3_matrix.specs.Matrix.{height, row_at};
ghost use Rattle.blake3_compress.specs.declared.error.TraceError.TheVariants.{WrongCharacteristic, NoInput, NotPowerOfTwo, TooLong};
ghost use Rattle.blake3_binary.specs.Row.{binary_trace_row};
ghost use Rattle.blake3_binary.specs.Rows.{compression, binary_rows, IsBinaryTooLong};
ghost use Rattle.blake3_binary.specs.Random.{state_after, random_word, random_words, binary_random_input, binary_random_inputs};

use crate::air::Blake3BinaryAir;
use crate::generation::{generate_binary_trace_rows, room_of};
use crate::input::Blake3CompressionInput;
use blake3_compress::TraceError;
use p3_field::{Field, Mem};
use p3_matrix::RowMajorMatrix;
use rand_core::SeedableRng;
use rand_core::utils::NextWord;
use rand_xoshiro::Xoshiro256PlusPlus;
use std::alloc::Global;

// The next word, cut to its low 32 bits.
fn next_word(generator: &mut Xoshiro256PlusPlus) -> u32
    ensures word { (n : ℕ) → generator.old ≡ state_after n → result ≡ random_word n }
    ensures state { (n : ℕ) → generator.old ≡ state_after n → generator.new ≡ state_after (n + 1) }
{
    (generator.next_word() % 4294967296) as u32
}

// The next 8 words.
fn next_chaining_value(generator: &mut Xoshiro256PlusPlus) -> [u32; 8]
    ensures words { (n : ℕ) → generator.old ≡ state_after n → result ≡ random_words n 8 }
    ensures state { (n : ℕ) → generator.old ≡ state_after n → generator.new ≡ state_after (n + 8) }
{
    let mut words = [0u32; 8];
    for k in 0..8 {
        words[k] = next_word(generator);
    }
    words
}

// The next 16 words.
fn next_block(generator: &mut Xoshiro256PlusPlus) -> [u32; 16]
    ensures words { (n : ℕ) → generator.old ≡ state_after n → result ≡ random_words n 16 }
    ensures state { (n : ℕ) → generator.old ≡ state_after n → generator.new ≡ state_after (n + 16) }
{
    let mut words = [0u32; 16];
    for k in 0..16 {
        words[k] = next_word(generator);
    }
    words
}

// Compression i.
fn next_input(generator: &mut Xoshiro256PlusPlus, i: usize) -> Blake3CompressionInput
    ensures input { generator.old ≡ state_after (24 * i) → result ≡ binary_random_input i }
    ensures state { generator.old ≡ state_after (24 * i)
        → generator.new ≡ state_after (24 * (i + 1)) }
{
    let chaining_value = next_chaining_value(generator);
    let block = next_block(generator);
    Blake3CompressionInput {
        chaining_value,
        block,
        counter: i as u64,
        block_len: 64,
        flags: 0,
    }
}

/// The inputs of so many compressions of random words, those of `Blake3BinaryAir::generate_random_trace_rows`. The one error
/// is out of memory.
pub fn random_inputs(alloc: Global, rows: usize) -> Mem<Vec<Blake3CompressionInput>>
    ensures { IfOk result (λ v. v.items ≡ binary_random_inputs rows) }
{
    let mut generator = Xoshiro256PlusPlus::seed_from_u64(1);
    let mut inputs = Vec::with_capacity(alloc, rows)?;
    for i in 0..rows {
        inputs.push(next_input(&mut generator, i))?;
    }
    Ok(inputs)
}

impl Blake3BinaryAir {
    /// The trace of compressions of random words, as many as `num_hashes`: each row takes the next 8 words of xoshiro256++
    /// from the seed 1 as its chaining value and the 16 after these as its block, each word's low 32 bits; its counter is the
    /// row's number, its length 64, and there are no flags (`p3_blake3_air::Blake3BinaryAir::generate_random_trace_rows`). The
    /// rest is as in `generate_binary_trace_rows`.
    ///
    /// `WrongCharacteristic` exactly where one and one isn't zero in the field; else `NoInput` exactly where `num_hashes` is 0;
    /// else `NotPowerOfTwo` exactly where it is no power of two; else `TooLong` exactly where the cells times
    /// 2^`extra_capacity_bits` pass `usize`. The other answer is `OutOfMemory`.
    pub fn generate_random_trace_rows<F: Field>(
        &self,
        alloc: Global,
        num_hashes: usize,
        extra_capacity_bits: usize,
    ) -> Result<RowMajorMatrix<F>, TraceError>
        ensures rows { IfOk result
            (λ m. m ≡ record {
              values = map (of_nat F.ring)
                  (binary_rows (binary_random_inputs num_hashes));
              width = 11536;
            }) }
        ensures height { IfOk result (λ m. height m ≡ num_hashes) }
        ensures row { IfOk result
            (λ m. (i : ℕ) → i < num_hashes
            → row_at m i ≡ binary_trace_row F.ring
            (compression (binary_random_inputs num_hashes) i)) }
        ensures done { IfOk result
            (λ m. (F.TWO ≡ F.ring.zero) × (0 < num_hashes) × IsPowerOfTwo num_hashes
            × (IsBinaryTooLong num_hashes extra_capacity_bits → ⊥)) }
        ensures characteristic { (result ≡ Err WrongCharacteristic) ↔ (F.TWO ≡ F.ring.zero → ⊥) }
        ensures no_input { (result ≡ Err NoInput) ↔ ((F.TWO ≡ F.ring.zero) × (num_hashes ≡ 0)) }
        ensures not_power { (result ≡ Err NotPowerOfTwo)
            ↔ ((F.TWO ≡ F.ring.zero) × (0 < num_hashes) × (IsPowerOfTwo num_hashes → ⊥)) }
        ensures too_long { (result ≡ Err TooLong)
            ↔ ((F.TWO ≡ F.ring.zero) × (0 < num_hashes) × IsPowerOfTwo num_hashes
            × IsBinaryTooLong num_hashes extra_capacity_bits) }
    {
        room_of::<F>(num_hashes, extra_capacity_bits)?;
        let inputs = random_inputs(alloc, num_hashes)?;
        generate_binary_trace_rows(alloc, &inputs, extra_capacity_bits)
    }
}
