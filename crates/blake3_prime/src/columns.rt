//! Views of a row by the names of its columns.
ghost use Rattle.std.specs.Prelude.{◌≡◌, ℕ, ◌+◌, ◌*◌, ◌^◌, ◌<◌, ◌≤◌, ◌↔◌, length, slice_index_or};
ghost use Rattle.std.specs.Int.{bit_at};
ghost use Rattle.p3_field.specs.Ring.{of_nat};
ghost use Rattle.blake3_compress.specs.Compress.{Input, compress};
ghost use Rattle.blake3_compress.specs.TraceRow.{trace_row, AreWords};
ghost use Rattle.blake3_compress.specs.Generated.{words_of};

use blake3_compress::word_at;
use p3_field::Field;

/// A row by the names of its columns (`p3_blake3_air::Blake3Cols`).
#[derive(Drop)]
pub struct Blake3Cols<'a, T> {
    /// The cells of the row.
    pub row: &'a [T],
    pub ghost wide: { length row.now ≡ 9168 },
}

/// A round's states by their names (`p3_blake3_air::FullRound`).
#[derive(Drop)]
pub struct FullRound<'a, T> {
    /// The cells of the row.
    pub row: &'a [T],
    /// The round's first column.
    pub at: usize,
    pub ghost wide: { length row.now ≡ 9168 },
    pub ghost fits: { at + 1088 ≤ 9168 },
}

/// A state's rows by their names (`p3_blake3_air::Blake3State`).
#[derive(Drop)]
pub struct Blake3State<'a, T> {
    /// The cells of the row.
    pub row: &'a [T],
    /// The state's first column.
    pub at: usize,
    pub ghost wide: { length row.now ≡ 9168 },
    pub ghost fits: { at + 272 ≤ 9168 },
}

impl<'a, T> Blake3Cols<'a, T> {
    /// The view of a row.
    pub fn new(row: &'a [T]) -> Self
        requires { length row.now ≡ 9168 }
        ensures { result.row.now ≡ row.now }
    {
        Blake3Cols { row }
    }

    /// Bit `bit` of word `word` of the block.
    pub fn inputs(&self, word: usize, bit: usize) -> &'a T
        requires words { word < 16 }
        requires bits { bit < 32 }
        ensures { (d : T) → result.now ≡ slice_index_or self.now.row.now (32 * word + bit) d }
    {
        &self.row[32 * word + bit]
    }

    /// Bit `bit` of word `word` of four of the chaining value, the first or the second ones (`group`).
    pub fn chaining_values(&self, group: usize, word: usize, bit: usize) -> &'a T
        requires groups { group < 2 }
        requires words { word < 4 }
        requires bits { bit < 32 }
        ensures { (d : T) → result.now
            ≡ slice_index_or self.now.row.now (512 + 128 * group + 32 * word + bit) d }
    {
        &self.row[512 + 128 * group + 32 * word + bit]
    }

    /// Bit `bit` of the counter's low half.
    pub fn counter_low(&self, bit: usize) -> &'a T
        requires { bit < 32 }
        ensures { (d : T) → result.now ≡ slice_index_or self.now.row.now (768 + bit) d }
    {
        &self.row[768 + bit]
    }

    /// Bit `bit` of the counter's high half.
    pub fn counter_hi(&self, bit: usize) -> &'a T
        requires { bit < 32 }
        ensures { (d : T) → result.now ≡ slice_index_or self.now.row.now (800 + bit) d }
    {
        &self.row[800 + bit]
    }

    /// Bit `bit` of the block's length.
    pub fn block_len(&self, bit: usize) -> &'a T
        requires { bit < 32 }
        ensures { (d : T) → result.now ≡ slice_index_or self.now.row.now (832 + bit) d }
    {
        &self.row[832 + bit]
    }

    /// Bit `bit` of the flags.
    pub fn flags(&self, bit: usize) -> &'a T
        requires { bit < 32 }
        ensures { (d : T) → result.now ≡ slice_index_or self.now.row.now (864 + bit) d }
    {
        &self.row[864 + bit]
    }

    /// Limb `limb` of word `word` of the first state's first row.
    pub fn initial_row0(&self, word: usize, limb: usize) -> &'a T
        requires words { word < 4 }
        requires limbs { limb < 2 }
        ensures { (d : T) → result.now ≡ slice_index_or self.now.row.now (896 + 2 * word + limb) d }
    {
        &self.row[896 + 2 * word + limb]
    }

    /// Limb `limb` of word `word` of the first state's third row.
    pub fn initial_row2(&self, word: usize, limb: usize) -> &'a T
        requires words { word < 4 }
        requires limbs { limb < 2 }
        ensures { (d : T) → result.now ≡ slice_index_or self.now.row.now (904 + 2 * word + limb) d }
    {
        &self.row[904 + 2 * word + limb]
    }

    /// Round `round`.
    pub fn full_rounds(&self, round: usize) -> FullRound<'a, T>
        requires { round < 7 }
        ensures row { result.row.now ≡ self.now.row.now }
        ensures at { result.at ≡ 912 + 1088 * round }
    {
        FullRound {
            row: self.row,
            at: 912 + 1088 * round,
        }
    }

    /// Bit `bit` of word `word` of the last state's third row.
    pub fn final_round_helpers(&self, word: usize, bit: usize) -> &'a T
        requires words { word < 4 }
        requires bits { bit < 32 }
        ensures { (d : T) → result.now
            ≡ slice_index_or self.now.row.now (8528 + 32 * word + bit) d }
    {
        &self.row[8528 + 32 * word + bit]
    }

    /// Bit `bit` of word `word` of four of the output (`group`).
    pub fn outputs(&self, group: usize, word: usize, bit: usize) -> &'a T
        requires groups { group < 4 }
        requires words { word < 4 }
        requires bits { bit < 32 }
        ensures { (d : T) → result.now
            ≡ slice_index_or self.now.row.now (8656 + 128 * group + 32 * word + bit) d }
    {
        &self.row[8656 + 128 * group + 32 * word + bit]
    }
}

impl<'a, T> FullRound<'a, T> {
    /// The state after the first half of the column steps.
    pub fn state_prime(&self) -> Blake3State<'a, T>
        ensures row { result.row.now ≡ self.now.row.now }
        ensures at { result.at ≡ self.now.at }
    {
        Blake3State {
            row: self.row,
            at: self.at,
        }
    }

    /// The state after the column steps.
    pub fn state_middle(&self) -> Blake3State<'a, T>
        ensures row { result.row.now ≡ self.now.row.now }
        ensures at { result.at ≡ self.now.at + 272 }
    {
        Blake3State {
            row: self.row,
            at: self.at + 272,
        }
    }

    /// The state after the first half of the diagonal steps.
    pub fn state_middle_prime(&self) -> Blake3State<'a, T>
        ensures row { result.row.now ≡ self.now.row.now }
        ensures at { result.at ≡ self.now.at + 544 }
    {
        Blake3State {
            row: self.row,
            at: self.at + 544,
        }
    }

    /// The state after the diagonal steps.
    pub fn state_output(&self) -> Blake3State<'a, T>
        ensures row { result.row.now ≡ self.now.row.now }
        ensures at { result.at ≡ self.now.at + 816 }
    {
        Blake3State {
            row: self.row,
            at: self.at + 816,
        }
    }
}

impl<'a, T> Blake3State<'a, T> {
    /// Limb `limb` of word `word` of the first row.
    pub fn row0(&self, word: usize, limb: usize) -> &'a T
        requires words { word < 4 }
        requires limbs { limb < 2 }
        ensures { (d : T) → result.now
            ≡ slice_index_or self.now.row.now (self.now.at + 2 * word + limb) d }
    {
        &self.row[self.at + 2 * word + limb]
    }

    /// Bit `bit` of word `word` of the second row.
    pub fn row1(&self, word: usize, bit: usize) -> &'a T
        requires words { word < 4 }
        requires bits { bit < 32 }
        ensures { (d : T) → result.now
            ≡ slice_index_or self.now.row.now (self.now.at + 8 + 32 * word + bit) d }
    {
        &self.row[self.at + 8 + 32 * word + bit]
    }

    /// Limb `limb` of word `word` of the third row.
    pub fn row2(&self, word: usize, limb: usize) -> &'a T
        requires words { word < 4 }
        requires limbs { limb < 2 }
        ensures { (d : T) → result.now
            ≡ slice_index_or self.now.row.now (self.now.at + 136 + 2 * word + limb) d }
    {
        &self.row[self.at + 136 + 2 * word + limb]
    }

    /// Bit `bit` of word `word` of the fourth row.
    pub fn row3(&self, word: usize, bit: usize) -> &'a T
        requires words { word < 4 }
        requires bits { bit < 32 }
        ensures { (d : T) → result.now
            ≡ slice_index_or self.now.row.now (self.now.at + 144 + 32 * word + bit) d }
    {
        &self.row[self.at + 144 + 32 * word + bit]
    }
}

impl<'a, F: Field> Blake3Cols<'a, F> {
    /// The 16 words of the output: those whose bits the cells are (`words`). So of a compression's row they are the
    /// compression of its 28 words (`compressed`). Where the cells are no bits, one that isn't zero counts as one
    /// (`counted`; not in Plonky3).
    pub fn output_words(&self) -> [u32; 16]
        ensures counted { (i k : ℕ) (d : F) → i < 16 → k < 32
            → (bit_at (slice_index_or result i 0) k ≡ 0)
            ↔ (slice_index_or self.now.row.now (8656 + 32 * i + k) d ≡ F.ring.zero) }
        ensures words { (w : ℕ → ℕ) → ((i : ℕ) → i < 16 → w i < 2 ^ 32)
            → ((i k : ℕ) (d : F) → i < 16 → k < 32
            → slice_index_or self.now.row.now (8656 + 32 * i + k) d
            ≡ of_nat F.ring (bit_at (w i) k))
            → (i : ℕ) → i < 16 → slice_index_or result i 0 ≡ w i }
        ensures compressed { (x : Input) → AreWords x → self.now.row.now ≡ trace_row F.ring x
            → result ≡ words_of (compress x) }
    {
        let mut words = [0u32; 16];
        for i in 0..16 {
            words[i] = word_at(self.row, 8656 + 32 * i);
        }
        words
    }
}
