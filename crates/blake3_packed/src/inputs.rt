//! The words of 64 compressions by their planes.
ghost use Rattle.std.specs.Prelude.{◌≡◌, ℕ, ◌+◌, ◌*◌, ◌^◌, ◌<◌, ◌≤◌, length};
ghost use Rattle.std.specs.Prelude.{slice_index_or as get_or};
ghost use Rattle.std.specs.Int.{bit_at};
ghost use Rattle.blake3_compress.specs.Generated.{input_of};
ghost use Rattle.blake3_binary.specs.Rows.{compression_words, compression};
ghost use Rattle.blake3_packed.specs.Lanes.{AreWordPlanes};
ghost use Rattle.blake3_packed.specs.Inputs.{IsPair, ArePairs};

use crate::transposing::transposed;
use blake3_binary::Blake3CompressionInput;

// Two words in one.
fn paired(low: u32, high: u32) -> u64
    ensures { IsPair result low high }
{
    low as u64 | (high as u64) << 32
}

// Words 2p and 2p + 1 of a compression, in the order of its input.
fn pair_at(input: &Blake3CompressionInput, p: usize) -> u64
    requires { p < 14 }
    ensures { let x = input_of (compression_words input.now) in
        IsPair result (x (2 * p)) (x (2 * p + 1)) }
{
    if p < 8 {
        return paired(input.block[2 * p], input.block[2 * p + 1]);
    }
    if p < 12 {
        return paired(
            input.chaining_value[2 * p - 16],
            input.chaining_value[2 * p - 15],
        );
    }
    if p == 12 {
        return input.counter;
    }
    paired(input.block_len, input.flags)
}

// Words 2p and 2p + 1 of up to 64 compressions, a lane each; zeros in the other lanes.
fn pairs_at(block: &[Blake3CompressionInput], p: usize) -> [u64; 64]
    requires pairs { p < 14 }
    requires lanes { length block.now ≤ 64 }
    ensures { ArePairs result block.now p 64 }
{
    let mut rows = [0u64; 64];
    for j in 0..block.len() {
        rows[j] = pair_at(&block[j], p);
    }
    rows
}

// 32 words from one on.
fn half_of(planes: &[u64; 64], from: usize) -> [u64; 32]
    requires { from + 32 ≤ 64 }
    ensures long { length result ≡ 32 }
    ensures words { (k : ℕ) → k < 32 → get_or result k 0 ≡ get_or planes.now (from + k) 0 }
{
    let mut half = [0u64; 32];
    for k in 0..32 {
        half[k] = planes[from + k];
    }
    half
}

/// The planes of the 28 words of up to 64 compressions; zeros in the other lanes.
pub fn word_planes(block: &[Blake3CompressionInput]) -> [[u64; 32]; 28]
    requires { length block.now ≤ 64 }
    ensures { AreWordPlanes 28 result (compression block.now) }
{
    let mut words = [[0u64; 32]; 28];
    for p in 0..14 {
        let planes = transposed(&pairs_at(block, p));
        words[2 * p] = half_of(&planes, 0);
        words[2 * p + 1] = half_of(&planes, 32);
    }
    words
}
