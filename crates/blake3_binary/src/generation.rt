//! The rows of compressions.
ghost use Rattle.std.specs.Prelude.{◌≡◌, ℕ, ◌+◌, ◌*◌, ◌^◌, ◌<◌, ◌≤◌, suc, List, [], ◌∷◌, ◌++◌, IfOk, MatchOption, MatchResult, Err, ◌↔◌, ◌⊎◌, slice_index_or, length, map};
ghost use Rattle.std.specs.Int.{bit_at, IsPowerOfTwo};
ghost use Rattle.p3_field.specs.Ring.{of_nat};
ghost use Rattle.p3_field.specs.Poly.{tabulate};
ghost use Rattle.p3_matrix.specs.Matrix.{height, row_at};
ghost use Rattle.air_core.specs.Joined.{joined};
ghost use Rattle.blake3_compress.specs.Compress.{Input, State, first_state, words_taken, half_quarter_round};
ghost use Rattle.blake3_compress.specs.TraceRow.{bit_cells, turn_of, d_turn, b_turn, message_of, state};
ghost use Rattle.blake3_compress.specs.Generated.{AreFirst, IsState, input_of, Pushed};
ghost use Rattle.blake3_compress.specs.declared.error.TraceError.TheVariants.{WrongCharacteristic, NoInput, NotPowerOfTwo, TooLong, OutOfMemory};
ghost use Rattle.blake3_binary.specs.Sums.{carry};
ghost use Rattle.blake3_binary.specs.Trees.{laid};
ghost use Rattle.blake3_binary.specs.Row.{quarter_cells, half_cells, binary_cells, binary_trace_row};
ghost use Rattle.blake3_binary.specs.Rows.{compression_words, compression, nothing, binary_rows, IsBinaryTooLong, MayStand, HasNoRow, HasNoPower};

use crate::input::Blake3CompressionInput;
use blake3_compress::{
    StateWords, TraceError, after_half_round, first_words, made_words, push_bits, taken_words,
};
use p3_field::{Field, FieldCore, Mem, RingCore};
use p3_matrix::{RowMajorMatrix, is_power_of_two};
use std::alloc::Global;

// Pushes the bit at place i of a word.
fn push_bit<F: Field>(values: &mut Vec<F>, word: u32, i: usize) -> Mem<()>
    requires { i < 32 }
    ensures { IfOk result (λ _.
        Pushed F.ring values.old.items values.new.items (bit_at word i ∷ [])) }
{
    values.push(<F as RingCore>::from_u64((word >> (i as u32) & 1) as u64))?;
    Ok(())
}

// The carries of a sum: a xor b xor (a + b).
fn carry_word(a: u32, b: u32) -> u32
    ensures { (i : ℕ) → i < 32 → bit_at result i ≡ carry a b i }
{
    a ^ b ^ a.wrapping_add(b)
}

// Pushes the carries of a sum into places 1 to 31.
fn push_carries<F: Field>(values: &mut Vec<F>, a: u32, b: u32) -> Mem<()>
    ensures { IfOk result (λ _.
        Pushed F.ring values.old.items values.new.items (tabulate 31 (λ i. carry a b (suc i)))) }
{
    let carries = carry_word(a, b);
    for i in 0..31 {
        push_bit(values, carries, i + 1)?;
    }
    Ok(())
}

// Pushes n words from one on.
fn push_words<F: Field>(values: &mut Vec<F>, words: &[u32; 28], from: usize, n: usize) -> Mem<()>
    requires { from + n ≤ 28 }
    ensures { IfOk result (λ _.
        Pushed F.ring values.old.items values.new.items
        (bit_cells n (λ i. input_of words.now (from + i)))) }
{
    for i in 0..n {
        push_bits(values, words[from + i])?;
    }
    Ok(())
}

// Pushes the cells of step g of half round n.
fn push_half<F: Field>(
    values: &mut Vec<F>,
    n: usize,
    words: &[u32; 28],
    state: &StateWords,
    g: usize,
) -> Mem<()>
    requires halves { n < 28 }
    requires steps { g < 4 }
    ensures { (x : Input) (v : State) → AreFirst words.now x → IsState state.now v
        → IfOk result (λ _. Pushed F.ring values.old.items values.new.items
        (quarter_cells (words_taken (turn_of n) v g)
        (half_quarter_round (d_turn n) (b_turn n) (words_taken (turn_of n) v g)
        (x (message_of n g))))) }
{
    let before = taken_words(n, state, g);
    let after = made_words(n, words, state, g);
    push_carries(values, before.a, before.b)?;
    push_bits(values, after.d)?;
    push_bits(values, after.b)?;
    Ok(())
}

// Pushes both halves of step g of the p-th four steps, by the states before them.
fn push_step<F: Field>(
    values: &mut Vec<F>,
    p: usize,
    words: &[u32; 28],
    first: &StateWords,
    second: &StateWords,
    g: usize,
) -> Mem<()>
    requires turns { p < 14 }
    requires steps { g < 4 }
    ensures { (x : Input) → AreFirst words.now x → IsState first.now (state x (2 * p))
        → IsState second.now (state x (2 * p + 1))
        → IfOk result (λ _. Pushed F.ring values.old.items values.new.items
        (joined 2 (λ h. half_cells x (2 * p + h) g))) }
{
    push_half(values, 2 * p, words, first, g)?;
    push_half(values, 2 * p + 1, words, second, g)?;
    Ok(())
}

// Pushes the p-th four steps.
fn push_four<F: Field>(
    values: &mut Vec<F>,
    p: usize,
    words: &[u32; 28],
    first: &StateWords,
    second: &StateWords,
) -> Mem<()>
    requires turns { p < 14 }
    ensures { (x : Input) → AreFirst words.now x → IsState first.now (state x (2 * p))
        → IsState second.now (state x (2 * p + 1))
        → IfOk result (λ _. Pushed F.ring values.old.items values.new.items
        (joined 4 (λ g. joined 2 (λ h. half_cells x (2 * p + h) g)))) }
{
    for g in 0..4 {
        push_step(values, p, words, first, second, g)?;
    }
    Ok(())
}

// Pushes the 56 steps from the first state on.
fn push_steps<F: Field>(values: &mut Vec<F>, words: &[u32; 28], first: StateWords) -> Mem<()>
    ensures { (x : Input) → AreFirst words.now x → IsState first (first_state x)
        → IfOk result (λ _. Pushed F.ring values.old.items values.new.items (laid (half_cells x))) }
{
    let mut before = first;
    for p in 0..14 {
        let middle = after_half_round(2 * p, words, &before);
        push_four(values, p, words, &before, &middle)?;
        before = after_half_round(2 * p + 1, words, &middle);
    }
    Ok(())
}

// Pushes the row of one compression.
fn push_row<F: Field>(values: &mut Vec<F>, words: &[u32; 28]) -> Mem<()>
    ensures { IfOk result (λ _.
        Pushed F.ring values.old.items values.new.items (binary_cells (input_of words.now))) }
{
    push_words(values, words, 16, 8)?;
    push_words(values, words, 0, 16)?;
    push_words(values, words, 24, 4)?;
    push_steps(values, words, first_words(words))?;
    Ok(())
}

// The 28 words of compression i.
fn compression_words(inputs: &[Blake3CompressionInput], i: usize) -> [u32; 28]
    requires { i < length inputs.now }
    ensures { result ≡ compression_words (slice_index_or inputs.now i nothing) }
{
    let input = &inputs[i];
    let b = &input.block;
    let c = &input.chaining_value;
    let low = (input.counter % 4294967296) as u32;
    let high = (input.counter / 4294967296 % 4294967296) as u32;
    let block_len = input.block_len;
    let flags = input.flags;
    [
        b[0], b[1], b[2], b[3], b[4], b[5], b[6], b[7], b[8], b[9], b[10], b[11], b[12], b[13],
        b[14], b[15], c[0], c[1], c[2], c[3], c[4], c[5], c[6], c[7], low, high, block_len, flags,
    ]
}

// The rows of the compressions, with room for so many cells.
fn rows_of<F: Field>(alloc: Global, inputs: &[Blake3CompressionInput], room: usize) -> Mem<Vec<F>>
    ensures { IfOk result (λ v. v.items ≡ map (of_nat F.ring) (binary_rows inputs.now)) }
{
    let mut values = Vec::with_capacity(alloc, room)?;
    for i in 0..inputs.len() {
        push_row(&mut values, &compression_words(inputs, i))?;
    }
    Ok(values)
}

// The number of cells of so many rows times 2^extra; None exactly where it passes `usize`.
fn room_for(rows: usize, extra: usize) -> Option<usize>
    requires { 0 < rows }
    ensures { MatchOption result (IsBinaryTooLong rows extra) (λ n. n ≡ rows * 11536 * 2 ^ extra) }
{
    if extra >= 64 {
        return None;
    }
    let cells = rows.checked_mul(11536)?;
    cells.checked_mul(1 << extra)
}

/// Why there is no trace of so many compressions over this field: `WrongCharacteristic` exactly where one and one isn't zero
/// in it, since the sums are laid out by exclusive ors; else `NoInput` exactly where there is none; else `NotPowerOfTwo`
/// exactly where their number is no power of two, since a trace domain has a power of two rows.
pub fn check_rows<F: Field>(rows: usize) -> Result<(), TraceError>
    ensures answers { MatchResult result (λ _. MayStand F.ring F.TWO rows)
        (λ e. (e ≡ WrongCharacteristic) ⊎ (e ≡ NoInput) ⊎ (e ≡ NotPowerOfTwo)) }
    ensures characteristic { (result ≡ Err WrongCharacteristic) ↔ (F.TWO ≡ F.ring.zero → ⊥) }
    ensures no_input { (result ≡ Err NoInput) ↔ HasNoRow F.ring F.TWO rows }
    ensures not_power { (result ≡ Err NotPowerOfTwo) ↔ HasNoPower F.ring F.TWO rows }
{
    if !<F as FieldCore>::is_zero(&<F as RingCore>::TWO) {
        return Err(TraceError::WrongCharacteristic);
    }
    if rows == 0 {
        return Err(TraceError::NoInput);
    }
    if !is_power_of_two(rows) {
        return Err(TraceError::NotPowerOfTwo);
    }
    Ok(())
}

/// The number of cells of so many rows times 2^extra, or why there is no trace of them over this field.
pub fn room_of<F: Field>(rows: usize, extra: usize) -> Result<usize, TraceError>
    ensures answers { MatchResult result
        (λ n. (n ≡ rows * 11536 * 2 ^ extra) × (F.TWO ≡ F.ring.zero) × (0 < rows)
        × IsPowerOfTwo rows × (IsBinaryTooLong rows extra → ⊥))
        (λ e. (e ≡ WrongCharacteristic) ⊎ (e ≡ NoInput) ⊎ (e ≡ NotPowerOfTwo) ⊎ (e ≡ TooLong)) }
    ensures characteristic { (result ≡ Err WrongCharacteristic) ↔ (F.TWO ≡ F.ring.zero → ⊥) }
    ensures no_input { (result ≡ Err NoInput) ↔ ((F.TWO ≡ F.ring.zero) × (rows ≡ 0)) }
    ensures not_power { (result ≡ Err NotPowerOfTwo)
        ↔ ((F.TWO ≡ F.ring.zero) × (0 < rows) × (IsPowerOfTwo rows → ⊥)) }
    ensures too_long { (result ≡ Err TooLong)
        ↔ ((F.TWO ≡ F.ring.zero) × (0 < rows) × IsPowerOfTwo rows × IsBinaryTooLong rows extra) }
{
    check_rows::<F>(rows)?;
    match room_for(rows, extra) {
        None => Err(TraceError::TooLong),
        Some(room) => Ok(room),
    }
}

/// The trace of these compressions: row i is the row of input i (`p3_blake3_air::generate_binary_trace_rows`). It has 11536
/// columns. Room is kept for the cells times 2^`extra_capacity_bits`.
///
/// `WrongCharacteristic` exactly where one and one isn't zero in the field; else `NoInput` exactly where there is no input;
/// else `NotPowerOfTwo` exactly where their number is no power of two; else `TooLong` exactly where the cells times
/// 2^`extra_capacity_bits` pass `usize`. The other answer is `OutOfMemory`.
pub fn generate_binary_trace_rows<F: Field>(
    alloc: Global,
    inputs: &[Blake3CompressionInput],
    extra_capacity_bits: usize,
) -> Result<RowMajorMatrix<F>, TraceError>
    ensures rows { IfOk result
        (λ m. m ≡ record { values = map (of_nat F.ring) (binary_rows inputs.now); width = 11536 }) }
    ensures height { IfOk result (λ m. height m ≡ length inputs.now) }
    ensures row { IfOk result
        (λ m. (i : ℕ) → i < length inputs.now
        → row_at m i ≡ binary_trace_row F.ring (compression inputs.now i)) }
    ensures done { IfOk result
        (λ m. (F.TWO ≡ F.ring.zero) × (0 < length inputs.now) × IsPowerOfTwo (length inputs.now)
        × (IsBinaryTooLong (length inputs.now) extra_capacity_bits → ⊥)) }
    ensures characteristic { (result ≡ Err WrongCharacteristic) ↔ (F.TWO ≡ F.ring.zero → ⊥) }
    ensures no_input { (result ≡ Err NoInput) ↔ ((F.TWO ≡ F.ring.zero) × (length inputs.now ≡ 0)) }
    ensures not_power { (result ≡ Err NotPowerOfTwo)
        ↔ ((F.TWO ≡ F.ring.zero) × (0 < length inputs.now)
        × (IsPowerOfTwo (length inputs.now) → ⊥)) }
    ensures too_long { (result ≡ Err TooLong)
        ↔ ((F.TWO ≡ F.ring.zero) × (0 < length inputs.now) × IsPowerOfTwo (length inputs.now)
        × IsBinaryTooLong (length inputs.now) extra_capacity_bits) }
{
    let room = room_of::<F>(inputs.len(), extra_capacity_bits)?;
    let values = rows_of(alloc, inputs, room)?;
    Ok(RowMajorMatrix::new(values, 11536))
}
