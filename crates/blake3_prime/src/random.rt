//! Rows of compressions of random words.
ghost use Rattle.std.specs.Prelude.{◌≡◌, ℕ, ◌+◌, ◌*◌, ◌%◌, ◌^◌, ◌<◌, IfOk, Err, ◌↔◌, length, map};
ghost use Rattle.std.specs.Int.{IsPowerOfTwo};
ghost use Rattle.p3_field.specs.Ring.{of_nat};
ghost use Rattle.p3_matrix.specs.Matrix.{height, row_at};
ghost use Rattle.blake3_compress.specs.TraceRow.{trace_row};
ghost use Rattle.blake3_compress.specs.Generated.{input_of};
ghost use Rattle.blake3_compress.specs.declared.error.TraceError.TheVariants.{WrongCharacteristic, NoInput, NotPowerOfTwo, TooLong};
ghost use Rattle.blake3_prime.specs.Rows.{compression_input, rows_cells, IsTooLong};
ghost use Rattle.blake3_prime.specs.Random.{state_after, random_word, random_input, random_inputs};

use crate::air::Blake3Air;
use crate::generation::{generate_trace_rows, room_of};
use blake3_compress::TraceError;
use p3_field::{Mem, PrimeField64};
use p3_matrix::RowMajorMatrix;
use rand_core::SeedableRng;
use rand_core::utils::NextWord;
use rand_xoshiro::Xoshiro256PlusPlus;
use std::alloc::Global;

// The next word, cut to its low 32 bits.
fn next_word(generator: &mut Xoshiro256PlusPlus) -> u32
    ensures word { (n : ℕ) → generator.old ≡ state_after n → result ≡ random_word n }
    ensures state { (n : ℕ) → generator.old ≡ state_after n → generator.new ≡ state_after (n + 1) }
{
    (generator.next_word() % 4294967296) as u32
}

// The next 24 words.
fn next_input(generator: &mut Xoshiro256PlusPlus) -> [u32; 24]
    ensures words { (n : ℕ) → generator.old ≡ state_after n → result ≡ random_input n }
    ensures state { (n : ℕ) → generator.old ≡ state_after n → generator.new ≡ state_after (n + 24) }
{
    let mut words = [0u32; 24];
    for k in 0..24 {
        words[k] = next_word(generator);
    }
    words
}

// The inputs of so many compressions.
fn random_inputs(alloc: Global, rows: usize) -> Mem<Vec<[u32; 24]>>
    ensures { IfOk result (λ v. v.items ≡ random_inputs rows) }
{
    let mut generator = Xoshiro256PlusPlus::seed_from_u64(1);
    let mut inputs = Vec::new(alloc);
    for _i in 0..rows {
        inputs.push(next_input(&mut generator))?;
    }
    Ok(inputs)
}

impl Blake3Air {
    /// The trace of compressions of random words, as many as `num_hashes`: each row takes the next 16 words of xoshiro256++
    /// from the seed 1 as its block and the 8 after these as its chaining value, each word's low 32 bits
    /// (`p3_blake3_air::Blake3Air::generate_random_trace_rows`). The rest is as in `generate_trace_rows`.
    ///
    /// `NotPowerOfTwo` exactly where `num_hashes` is no power of two, as where it is 0; else `TooLong` exactly where the cells
    /// times 2^`extra_capacity_bits` pass `usize`. The other answer is `OutOfMemory`.
    pub fn generate_random_trace_rows<F: PrimeField64>(
        &self,
        alloc: Global,
        num_hashes: usize,
        extra_capacity_bits: usize,
    ) -> Result<RowMajorMatrix<F>, TraceError>
        ensures rows { IfOk result
            (λ m. m ≡ record {
              values = map (of_nat F.ring) (rows_cells (random_inputs num_hashes));
              width = 9168;
            }) }
        ensures height { IfOk result (λ m. height m ≡ num_hashes) }
        ensures row { IfOk result
            (λ m. (i : ℕ) → i < num_hashes
            → row_at m i ≡ trace_row F.ring
            (input_of (compression_input (random_inputs num_hashes) i))) }
        ensures done { IfOk result
            (λ m. IsPowerOfTwo num_hashes × (IsTooLong num_hashes extra_capacity_bits → ⊥)) }
        ensures not_power { (result ≡ Err NotPowerOfTwo) ↔ (IsPowerOfTwo num_hashes → ⊥) }
        ensures too_long { (result ≡ Err TooLong)
            ↔ (IsPowerOfTwo num_hashes × IsTooLong num_hashes extra_capacity_bits) }
        ensures any_field { result ≡ Err WrongCharacteristic → ⊥ }
        ensures none_is_no_power { result ≡ Err NoInput → ⊥ }
    {
        room_of(num_hashes, extra_capacity_bits)?;
        let inputs = random_inputs(alloc, num_hashes)?;
        generate_trace_rows(alloc, &inputs, extra_capacity_bits)
    }
}
