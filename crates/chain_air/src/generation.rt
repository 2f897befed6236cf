//! The rows of a chain.
ghost use Rattle.std.specs.Prelude.{◌≡◌, ℕ, ◌<◌, List, [], ◌∷◌, IfOk, MatchResult, Err, ◌↔◌, ◌⊎◌, length};
ghost use Rattle.std.specs.Int.{IsPowerOfTwo};
ghost use Rattle.p3_field.specs.BabyBear.{baby_bear_ring};
ghost use Rattle.p3_matrix.specs.Matrix.{height};
ghost use Rattle.blake3_compress.specs.declared.error.TraceError.TheVariants.{WrongCharacteristic, NoInput, NotPowerOfTwo, TooLong};
ghost use Rattle.blake3_prime.specs.Rows.{IsTooLong};
ghost use Rattle.chain_air.specs.Generated.{joined_words, chain_inputs, end_of, chain_trace, HasChainRows, IsChainTrace, MeetsChain, IsLongChain};

use crate::chaining::next_chaining;
use crate::meanings::chains_mean;
use crate::ranges::{blocks_fit, chaining_fits};
use blake3_compress::TraceError;
use blake3_prime::generate_trace_rows;
use p3_field::{BabyBear, Mem};
use p3_matrix::{RowMajorMatrix, is_power_of_two};
use std::alloc::Global;

// The 24 words of block i and a chaining value.
fn input_words(blocks: &[[u32; 16]], i: usize, chaining: &[u32; 8]) -> [u32; 24]
    requires { i < length blocks.now }
    ensures { result ≡ joined_words blocks.now i chaining.now }
{
    let b = &blocks[i];
    let c = chaining;
    [
        b[0], b[1], b[2], b[3], b[4], b[5], b[6], b[7], b[8], b[9], b[10], b[11], b[12], b[13],
        b[14], b[15], c[0], c[1], c[2], c[3], c[4], c[5], c[6], c[7],
    ]
}

// The blocks with their chaining values.
fn inputs_of(alloc: Global, start: [u32; 8], blocks: &[[u32; 16]]) -> Mem<Vec<[u32; 24]>>
    ensures { IfOk result (λ v. v.items ≡ chain_inputs start blocks.now) }
{
    let mut inputs = Vec::new(alloc);
    let mut chaining = start;
    for i in 0..blocks.len() {
        inputs.push(input_words(blocks, i, &chaining))?;
        chaining = next_chaining(blocks, i, &chaining);
    }
    Ok(inputs)
}

// Whether there is a trace of so many rows.
fn check_rows(rows: usize) -> Result<(), TraceError>
    ensures answers { MatchResult result (λ _. IsPowerOfTwo rows × (IsTooLong rows 0 → ⊥))
        (λ e. (e ≡ NotPowerOfTwo) ⊎ (e ≡ TooLong)) }
    ensures not_power { (result ≡ Err NotPowerOfTwo) ↔ (IsPowerOfTwo rows → ⊥) }
    ensures too_long { (result ≡ Err TooLong) ↔ (IsPowerOfTwo rows × IsTooLong rows 0) }
{
    if !is_power_of_two(rows) {
        return Err(TraceError::NotPowerOfTwo);
    }
    match rows.checked_mul(9168) {
        None => Err(TraceError::TooLong),
        Some(_cells) => Ok(()),
    }
}

/// The trace of the chain of these blocks from the chaining value `start`, one row a block. Row i is the compression of block i with
/// the counter i, as block length the number of blocks, of which the low 32 bits, and no flags. Its chaining value is `start` in
/// the first row, and in the others the first 8 words of the output of the row before. There are 9168 columns.
///
/// `NotPowerOfTwo` exactly where the number of blocks is no power of two, as where there are none; else `TooLong` exactly where the
/// cells pass `usize`. The other answer is `OutOfMemory`.
pub fn generate_chain_rows(
    alloc: Global,
    start: [u32; 8],
    blocks: &[[u32; 16]],
) -> Result<RowMajorMatrix<BabyBear>, TraceError>
    ensures trace { IfOk result (λ m. m ≡ chain_trace baby_bear_ring start blocks.now) }
    ensures height { IfOk result (λ m. height m ≡ length blocks.now) }
    ensures row { IfOk result (HasChainRows baby_bear_ring start blocks.now) }
    ensures chain { IfOk result (IsChainTrace baby_bear_ring start (end_of start blocks.now)) }
    ensures valid { IfOk result (MeetsChain baby_bear_ring start (end_of start blocks.now)) }
    ensures done { IfOk result (λ m. IsPowerOfTwo (height m) × (IsTooLong (height m) 0 → ⊥)) }
    ensures not_power { (result ≡ Err NotPowerOfTwo) ↔ (IsPowerOfTwo (length blocks.now) → ⊥) }
    ensures too_long { (result ≡ Err TooLong) ↔ IsLongChain (length blocks.now) }
    ensures any_field { result ≡ Err WrongCharacteristic → ⊥ }
    ensures none_is_no_power { result ≡ Err NoInput → ⊥ }
{
    chains_mean::<BabyBear>();
    chaining_fits(&start);
    blocks_fit(blocks);
    check_rows(blocks.len())?;
    let inputs = inputs_of(alloc, start, blocks)?;
    generate_trace_rows(alloc, &inputs, 0)
}
