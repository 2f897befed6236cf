//! Views of a row by the names of its columns.
ghost use Rattle.std.specs.Prelude.{◌≡◌, ℕ, ◌+◌, ◌*◌, ◌^◌, ◌<◌, ◌≤◌, length, slice_index_or};
ghost use Rattle.blake3_compress.specs.Compress.{Input, chaining, output_of, compress};
ghost use Rattle.blake3_compress.specs.TraceRow.{AreWords};
ghost use Rattle.blake3_compress.specs.Generated.{quarter_of, words_of};
ghost use Rattle.blake3_binary.specs.Row.{binary_trace_row};
ghost use Rattle.blake3_binary.specs.Output.{step_words, state_read, AreRead, AreCounted};

use blake3_compress::{FourWords, word_at};
use p3_field::Field;

/// A row by the names of its columns (`p3_blake3_air::Blake3BinaryCols`).
#[derive(Drop)]
pub struct Blake3BinaryCols<'a, T> {
    /// The cells of the row.
    pub row: &'a [T],
    pub ghost wide: { length row.now ≡ 11536 },
}

/// A step's cells by their names (`p3_blake3_air::Blake3BinaryGCols`). Of a compression's row d1 and b1 are d and b after the
/// step's first half, d2 and b2 after it.
#[derive(Drop)]
pub struct Blake3BinaryGCols<'a, T> {
    /// The cells of the row.
    pub row: &'a [T],
    /// The step's first column.
    pub at: usize,
    pub ghost wide: { length row.now ≡ 11536 },
    pub ghost fits: { at + 190 ≤ 11536 },
}

impl<'a, T> Blake3BinaryCols<'a, T> {
    /// The view of a row.
    pub fn new(row: &'a [T]) -> Self
        requires { length row.now ≡ 11536 }
        ensures { result.row.now ≡ row.now }
    {
        Blake3BinaryCols { row }
    }

    /// Bit `bit` of word `word` of the chaining value.
    pub fn chaining_value(&self, word: usize, bit: usize) -> &'a T
        requires words { word < 8 }
        requires bits { bit < 32 }
        ensures { (d : T) → result.now ≡ slice_index_or self.now.row.now (32 * word + bit) d }
    {
        &self.row[32 * word + bit]
    }

    /// Bit `bit` of word `word` of the block.
    pub fn block(&self, word: usize, bit: usize) -> &'a T
        requires words { word < 16 }
        requires bits { bit < 32 }
        ensures { (d : T) → result.now ≡ slice_index_or self.now.row.now (256 + 32 * word + bit) d }
    {
        &self.row[256 + 32 * word + bit]
    }

    /// Bit `bit` of the counter's low half.
    pub fn counter_low(&self, bit: usize) -> &'a T
        requires { bit < 32 }
        ensures { (d : T) → result.now ≡ slice_index_or self.now.row.now (768 + bit) d }
    {
        &self.row[768 + bit]
    }

    /// Bit `bit` of the counter's high half.
    pub fn counter_high(&self, bit: usize) -> &'a T
        requires { bit < 32 }
        ensures { (d : T) → result.now ≡ slice_index_or self.now.row.now (800 + bit) d }
    {
        &self.row[800 + bit]
    }

    /// Bit `bit` of the block's length.
    pub fn block_len(&self, bit: usize) -> &'a T
        requires { bit < 32 }
        ensures { (d : T) → result.now ≡ slice_index_or self.now.row.now (832 + bit) d }
    {
        &self.row[832 + bit]
    }

    /// Bit `bit` of the flags.
    pub fn flags(&self, bit: usize) -> &'a T
        requires { bit < 32 }
        ensures { (d : T) → result.now ≡ slice_index_or self.now.row.now (864 + bit) d }
    {
        &self.row[864 + bit]
    }

    /// Step `step` of round `round`: columns 0 to 3, then diagonals 4 to 7.
    pub fn rounds(&self, round: usize, step: usize) -> Blake3BinaryGCols<'a, T>
        requires rounds { round < 7 }
        requires steps { step < 8 }
        ensures row { result.row.now ≡ self.now.row.now }
        ensures at { result.at ≡ 896 + 190 * (8 * round + step) }
    {
        Blake3BinaryGCols {
            row: self.row,
            at: 896 + 190 * (8 * round + step),
        }
    }
}

impl<'a, T> Blake3BinaryGCols<'a, T> {
    /// The carry into place `bit` + 1 of a + b before the first message word.
    pub fn add1_carries(&self, bit: usize) -> &'a T
        requires { bit < 31 }
        ensures { (d : T) → result.now ≡ slice_index_or self.now.row.now (self.now.at + bit) d }
    {
        &self.row[self.at + bit]
    }

    /// Bit `bit` of d after the step's first half.
    pub fn d1(&self, bit: usize) -> &'a T
        requires { bit < 32 }
        ensures { (d : T) → result.now
            ≡ slice_index_or self.now.row.now (self.now.at + 31 + bit) d }
    {
        &self.row[self.at + 31 + bit]
    }

    /// Bit `bit` of b after the step's first half.
    pub fn b1(&self, bit: usize) -> &'a T
        requires { bit < 32 }
        ensures { (d : T) → result.now
            ≡ slice_index_or self.now.row.now (self.now.at + 63 + bit) d }
    {
        &self.row[self.at + 63 + bit]
    }

    /// The carry into place `bit` + 1 of a + b before the second message word.
    pub fn add2_carries(&self, bit: usize) -> &'a T
        requires { bit < 31 }
        ensures { (d : T) → result.now
            ≡ slice_index_or self.now.row.now (self.now.at + 95 + bit) d }
    {
        &self.row[self.at + 95 + bit]
    }

    /// Bit `bit` of d after the step.
    pub fn d2(&self, bit: usize) -> &'a T
        requires { bit < 32 }
        ensures { (d : T) → result.now
            ≡ slice_index_or self.now.row.now (self.now.at + 126 + bit) d }
    {
        &self.row[self.at + 126 + bit]
    }

    /// Bit `bit` of b after the step.
    pub fn b2(&self, bit: usize) -> &'a T
        requires { bit < 32 }
        ensures { (d : T) → result.now
            ≡ slice_index_or self.now.row.now (self.now.at + 158 + bit) d }
    {
        &self.row[self.at + 158 + bit]
    }
}

// The words after step g of the last four.
fn last_words<F: Field>(row: &[F], g: usize) -> FourWords
    requires wide { length row.now ≡ 11536 }
    requires steps { g < 4 }
    ensures words { (x : Input) (d1 b1 d2 b2 : ℕ → ℕ) → AreRead F.ring row.now x d1 b1 d2 b2
        → quarter_of result ≡ step_words (d1 g) (b1 g) (d2 g) (b2 g) }
    ensures counted { (x : Input) (d1 b1 d2 b2 : ℕ → ℕ) → AreCounted F.ring row.now x d1 b1 d2 b2
        → quarter_of result ≡ step_words (d1 g) (b1 g) (d2 g) (b2 g) }
{
    let at = 896 + 190 * (52 + g);
    let d1 = word_at(row, at + 31);
    let b1 = word_at(row, at + 63);
    let d2 = word_at(row, at + 126);
    let b2 = word_at(row, at + 158);
    FourWords {
        a: d1 ^ d2.rotate_left(8),
        b: b2,
        c: b1 ^ b2.rotate_left(7),
        d: d2,
    }
}

// Word i of the chaining value.
fn chaining_word<F: Field>(row: &[F], i: usize) -> u32
    requires wide { length row.now ≡ 11536 }
    requires words { i < 8 }
    ensures words { (x : Input) (d1 b1 d2 b2 : ℕ → ℕ) → AreRead F.ring row.now x d1 b1 d2 b2
        → result ≡ chaining x i }
    ensures counted { (x : Input) (d1 b1 d2 b2 : ℕ → ℕ) → AreCounted F.ring row.now x d1 b1 d2 b2
        → result ≡ chaining x i }
{
    word_at(row, 32 * i)
}

impl<'a, F: Field> Blake3BinaryCols<'a, F> {
    /// The 16 words of the output: where the cells of the chaining value and of d and b in the last four steps are the bits of
    /// words, those that these words give (`words`). So of a compression's row they are the compression of its 28 words
    /// (`compressed`). Where the cells are no bits, one that isn't zero counts as one (`counted`; not in Plonky3).
    pub fn compression_output(&self) -> [u32; 16]
        ensures words { (x : Input) (d1 b1 d2 b2 : ℕ → ℕ)
            → AreRead F.ring self.now.row.now x d1 b1 d2 b2
            → result ≡ words_of (output_of x (state_read d1 b1 d2 b2)) }
        ensures counted { (x : Input) (d1 b1 d2 b2 : ℕ → ℕ)
            → AreCounted F.ring self.now.row.now x d1 b1 d2 b2
            → result ≡ words_of (output_of x (state_read d1 b1 d2 b2)) }
        ensures compressed { (x : Input) → AreWords x → self.now.row.now ≡ binary_trace_row F.ring x
            → result ≡ words_of (compress x) }
    {
        let p = last_words(self.row, 0);
        let q = last_words(self.row, 1);
        let r = last_words(self.row, 2);
        let s = last_words(self.row, 3);
        [
            p.a ^ r.c,
            q.a ^ s.c,
            r.a ^ p.c,
            s.a ^ q.c,
            s.b ^ q.d,
            p.b ^ r.d,
            q.b ^ s.d,
            r.b ^ p.d,
            r.c ^ chaining_word(self.row, 0),
            s.c ^ chaining_word(self.row, 1),
            p.c ^ chaining_word(self.row, 2),
            q.c ^ chaining_word(self.row, 3),
            q.d ^ chaining_word(self.row, 4),
            r.d ^ chaining_word(self.row, 5),
            s.d ^ chaining_word(self.row, 6),
            p.d ^ chaining_word(self.row, 7),
        ]
    }
}
