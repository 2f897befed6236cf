//! The whole compression.
ghost use Rattle.std.specs.Prelude.{◌≡◌, ℕ};
ghost use Rattle.p3_field.specs.Poly.{tabulate};
ghost use Rattle.blake3_compress.specs.Compress.{Input, first_state, compress};
ghost use Rattle.blake3_compress.specs.TraceRow.{state};
ghost use Rattle.blake3_compress.specs.Generated.{AreFirst, IsState, input_of, words_of};

use crate::words::{StateWords, after_half_round, first_words, xor_words};

// The state after all half rounds.
fn last_state(words: &[u32; 28], first: StateWords) -> StateWords
    ensures { (x : Input) → AreFirst words.now x → IsState first (first_state x)
        → IsState result (state x 28) }
{
    let mut state = first;
    for n in 0..28 {
        state = after_half_round(n, words, &state);
    }
    state
}

// Four groups of four words, one after another.
fn four_groups(a: &[u32; 4], b: &[u32; 4], c: &[u32; 4], d: &[u32; 4]) -> [u32; 16]
    ensures { (f : ℕ → ℕ → ℕ) → a.now ≡ tabulate 4 (f 0) → b.now ≡ tabulate 4 (f 1)
        → c.now ≡ tabulate 4 (f 2) → d.now ≡ tabulate 4 (f 3) → result ≡ words_of f }
{
    [
        a[0], a[1], a[2], a[3], b[0], b[1], b[2], b[3], c[0], c[1], c[2], c[3], d[0], d[1], d[2],
        d[3],
    ]
}

/// The compression of 28 words: the block's 16, the chaining value's 8, the counter's low and high half, the block's length
/// and the flags. The first 8 words of the answer are a hash's next chaining value (the BLAKE3 paper, section 2.2).
pub fn compress(words: &[u32; 28]) -> [u32; 16]
    ensures { result ≡ words_of (compress (input_of words.now)) }
{
    let first = first_words(words);
    let last = last_state(words, first);
    four_groups(
        &xor_words(&last.row0, &last.row2),
        &xor_words(&last.row1, &last.row3),
        &xor_words(&last.row2, &first.row0),
        &xor_words(&last.row3, &first.row1),
    )
}
