//! The message schedule: which word of the block a round takes in where (the BLAKE3 paper, section 2.2).
ghost use Rattle.std.specs.Prelude.{◌≡◌, ℕ, ◌<◌, List, [], ◌∷◌};
ghost use Rattle.blake3_compress.specs.Compress.{scheduled};

// Between rounds word i becomes word PERMUTATION[i].
const PERMUTATION: [usize; 16] = [2, 6, 3, 10, 7, 0, 4, 13, 1, 11, 12, 5, 9, 14, 15, 8];

/// Which word of the block is message word i of a round. Rounds count from 0.
pub fn scheduled_word(round: usize, i: usize) -> usize
    requires { i < 16 }
    ensures below { result < 16 }
    ensures word { result ≡ scheduled round i }
{
    let mut word = i;
    for turn in 0..round {
        word = PERMUTATION[word];
    }
    word
}
