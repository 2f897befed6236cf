//! The chaining values of a chain.
ghost use Rattle.std.specs.Prelude.{◌≡◌, ℕ, ◌<◌, List, [], ◌∷◌, IfOk, length, map};
ghost use Rattle.p3_field.specs.BabyBear.{baby_bear_ring};
ghost use Rattle.chain_air.specs.Generated.{block_words, eight_words, end_of, publics_between};

use blake3_compress::{compress, push_limb_words};
use p3_field::{BabyBear, Mem};
use std::alloc::Global;

// The 28 words of row i.
fn row_words(blocks: &[[u32; 16]], i: usize, chaining: &[u32; 8]) -> [u32; 28]
    requires { i < length blocks.now }
    ensures { result ≡ block_words blocks.now i chaining.now }
{
    let counter = (i % 4294967296) as u32;
    let high = (i / 4294967296 % 4294967296) as u32;
    let block_len = (blocks.len() % 4294967296) as u32;
    let b = &blocks[i];
    let c = chaining;
    [
        b[0], b[1], b[2], b[3], b[4], b[5], b[6], b[7], b[8], b[9], b[10], b[11], b[12], b[13],
        b[14], b[15], c[0], c[1], c[2], c[3], c[4], c[5], c[6], c[7], counter, high, block_len, 0,
    ]
}

/// The chaining value after block i of a chain's blocks, where `chaining` is that before it.
pub fn next_chaining(blocks: &[[u32; 16]], i: usize, chaining: &[u32; 8]) -> [u32; 8]
    requires { i < length blocks.now }
    ensures { result ≡ eight_words (block_words blocks.now i chaining.now) }
{
    let w = compress(&row_words(blocks, i, chaining));
    [w[0], w[1], w[2], w[3], w[4], w[5], w[6], w[7]]
}

/// The chaining value that a chain of these blocks ends with, from the chaining value `start`: the first 8 words of the last
/// compression's output. The compressions are those of `generate_chain_rows`. Without blocks it is `start`.
pub fn chain_end(start: [u32; 8], blocks: &[[u32; 16]]) -> [u32; 8]
    ensures { result ≡ end_of start blocks.now }
{
    let mut chaining = start;
    for i in 0..blocks.len() {
        chaining = next_chaining(blocks, i, &chaining);
    }
    chaining
}

/// The 32 public values of a chain between two chaining values: the limbs of the words of `start`, then those of `end`, each word's
/// low limb first. The only error is running out of memory.
pub fn chain_publics(alloc: Global, start: &[u32; 8], end: &[u32; 8]) -> Mem<Vec<BabyBear>>
    ensures values { IfOk result (λ v. v.items ≡ publics_between baby_bear_ring start.now end.now) }
    ensures count { IfOk result (λ v. length v.items ≡ 32) }
{
    let mut values = Vec::new(alloc);
    push_limb_words(&mut values, start)?;
    push_limb_words(&mut values, end)?;
    Ok(values)
}
