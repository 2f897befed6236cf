//! The state in 64 lanes.
ghost use Rattle.std.specs.Prelude.{◌≡◌, ℕ, ◌*◌, ◌<◌, ◌≤◌};
ghost use Rattle.std.specs.Int.{bit_at};
ghost use Rattle.blake3_compress.specs.Compress.{Input};
ghost use Rattle.blake3_packed.specs.Lanes.{ArePlanes, AreWordPlanes};
ghost use Rattle.blake3_packed.specs.States.{HasStates, presence, lane_first};

use blake3_compress::IV;

/// The state in 64 lanes: 16 words in four rows, each by its planes.
#[derive(Drop)]
pub struct StatePlanes {
    /// The first row.
    pub row0: [[u64; 32]; 4],
    /// The second row.
    pub row1: [[u64; 32]; 4],
    /// The third row.
    pub row2: [[u64; 32]; 4],
    /// The fourth row.
    pub row3: [[u64; 32]; 4],
}

/// The four words of a step in 64 lanes, each by its planes.
#[derive(Drop)]
pub struct StepPlanes {
    /// The word of the first row.
    pub a: [u64; 32],
    /// The word of the second row.
    pub b: [u64; 32],
    /// The word of the third row.
    pub c: [u64; 32],
    /// The word of the fourth row.
    pub d: [u64; 32],
}

/// A word with a one in each of the first lanes.
pub fn present_lanes(count: usize) -> u64
    requires some { 0 < count }
    requires most { count ≤ 64 }
    ensures { (j : ℕ) → j < 64 → bit_at result j ≡ presence count j }
{
    u64::MAX >> (64 - count)
}

// Plane k of a word in the present lanes, and of zero in the others.
fn constant_plane(word: u32, k: usize, present: u64) -> u64
    requires { k < 32 }
    ensures { (j : ℕ) → bit_at result j ≡ bit_at (bit_at present j * word) k }
{
    if word >> (k as u32) & 1 == 1 {
        return present;
    }
    0
}

// The planes of a word in the present lanes, and of zero in the others.
fn constant_planes(word: u32, present: u64) -> [u64; 32]
    ensures { ArePlanes result (λ j. bit_at present j * word) }
{
    let mut planes = [0u64; 32];
    for k in 0..32 {
        planes[k] = constant_plane(word, k, present);
    }
    planes
}

/// The first states: the chaining value, four words of the initial value in the present lanes, and the last four words.
pub fn first_planes(words: &[[u64; 32]; 28], present: u64) -> StatePlanes
    ensures { (x : ℕ → Input) → AreWordPlanes 28 words.now x
        → HasStates result (λ j. lane_first (x j) (bit_at present j)) }
{
    StatePlanes {
        row0: [words[16], words[17], words[18], words[19]],
        row1: [words[20], words[21], words[22], words[23]],
        row2: [
            constant_planes(IV[0], present),
            constant_planes(IV[1], present),
            constant_planes(IV[2], present),
            constant_planes(IV[3], present),
        ],
        row3: [words[24], words[25], words[26], words[27]],
    }
}
