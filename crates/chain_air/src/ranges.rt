//! That words have 32 bits: calls that read them, and compute nothing.
ghost use Rattle.std.specs.Prelude.{ℕ, ◌^◌, ◌<◌};
ghost use Rattle.std.specs.Prelude.{slice_index_or};
ghost use Rattle.blake3_compress.specs.Generated.{input_of};
ghost use Rattle.chain_air.specs.Chain.{AreEight};
ghost use Rattle.chain_air.specs.Generated.{AreBlocks};

/// The words of a chaining value have 32 bits.
pub fn chaining_fits(words: &[u32; 8])
    ensures { AreEight (input_of words.now) }
{
    for i in 0..8 {
        let _word = words[i];
    }
}

// Those of a block.
fn block_fits(block: &[u32; 16])
    ensures { (k : ℕ) → k < 16 → slice_index_or block.now k 0 < 2 ^ 32 }
{
    for i in 0..16 {
        let _word = block[i];
    }
}

/// Those of all blocks.
pub fn blocks_fit(blocks: &[[u32; 16]])
    ensures { AreBlocks blocks.now }
{
    for i in 0..blocks.len() {
        block_fits(&blocks[i]);
    }
}
