//! The compression, as hashes of the published tests' input take it.
ghost use Rattle.std.specs.Prelude.{◌≤◌};

use crate::reading::{number, push_shorts};
use blake3_compress::{IV, compress};
use p3_field::Mem;
use std::alloc::Global;

const CHUNK_START: u32 = 1;

const CHUNK_END: u32 = 2;

const PARENT: u32 = 4;

const ROOT: u32 = 8;

/// The first 8 words of a block's compression: the next chaining value. The counter has no high half.
fn chained(c: &[u32; 8], b: &[u32; 16], counter: u32, length: u32, flags: u32) -> [u32; 8] {
    let output = compress(&[
        b[0], b[1], b[2], b[3], b[4], b[5], b[6], b[7], b[8], b[9], b[10], b[11], b[12], b[13],
        b[14], b[15], c[0], c[1], c[2], c[3], c[4], c[5], c[6], c[7], counter, 0, length, flags,
    ]);
    let [a, b, c, d, e, f, g, h, ..] = output;
    [a, b, c, d, e, f, g, h]
}

/// The whole initial value, as SHA-256 has it.
fn initial_value() -> [u32; 8] {
    [
        IV[0], IV[1], IV[2], IV[3], 0x510e527f, 0x9b05688c, 0x1f83d9ab, 0x5be0cd19,
    ]
}

/// Byte i of the published tests' input, which repeats 0 to 250; 0 from `end` on.
fn byte_at(i: usize, end: usize) -> u8 {
    if i < end { (i % 251) as u8 } else { 0 }
}

/// The word of four bytes from byte i on, the low one first.
fn word_at(i: usize, end: usize) -> u32
    requires { i ≤ 4096 }
{
    u32::from_le_bytes([
        byte_at(i, end),
        byte_at(i + 1, end),
        byte_at(i + 2, end),
        byte_at(i + 3, end),
    ])
}

/// The block of 64 bytes from byte `start` on.
fn block_at(start: usize, end: usize) -> [u32; 16]
    requires { start ≤ 2048 }
{
    let mut words = [0u32; 16];
    for i in 0..16 {
        words[i] = word_at(start + 4 * i, end);
    }
    words
}

/// The chaining value of chunk `counter`, which is these bytes: of its first block, and of its last one.
fn chunk(start: usize, end: usize, counter: u32, root: u32) -> [u32; 8]
    requires order { start ≤ end }
    requires short { end ≤ 2048 }
{
    let blocks = ((end - start + 63) / 64).max(1);
    let mut chaining = initial_value();
    for i in 0..blocks {
        let first = if i == 0 { CHUNK_START } else { 0 };
        let last = if i + 1 == blocks { CHUNK_END | root } else { 0 };
        let at = start + 64 * i;
        let length = (end - at).min(64) as u32;
        chaining = chained(&chaining, &block_at(at, end), counter, length, first | last);
    }
    chaining
}

/// The hash of the first bytes of that input, which are two chunks: that of the parent node over them.
fn hash_of_two(length: usize) -> [u32; 8]
    requires more { 1024 ≤ length }
    requires short { length ≤ 2048 }
{
    let [a, b, c, d, e, f, g, h] = chunk(0, 1024, 0, 0);
    let [i, j, k, l, m, n, o, p] = chunk(1024, length, 1, 0);
    let both = [a, b, c, d, e, f, g, h, i, j, k, l, m, n, o, p];
    chained(&initial_value(), &both, 0, 64, PARENT | ROOT)
}

/// The hash of so many bytes of that input, each word with its low byte first: one or two chunks.
pub fn hash_shown(alloc: Global, word: &str) -> Mem<String> {
    let length = number(word);
    let mut out = String::new(alloc);
    if length <= 1024 {
        push_shorts(&mut out, &chunk(0, length, 0, ROOT))?;
    } else if length <= 2048 {
        push_shorts(&mut out, &hash_of_two(length))?;
    }
    Ok(out)
}
