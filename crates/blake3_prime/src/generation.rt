//! The rows of compressions.
ghost use Rattle.std.specs.Prelude.{◌≡◌, ℕ, ◌+◌, ◌*◌, ◌^◌, ◌<◌, ◌≤◌, suc, List, [], ◌∷◌, ◌++◌, IfOk, MatchOption, MatchResult, Err, ◌↔◌, ◌⊎◌, length, map};
ghost use Rattle.blake3_compress.specs.Compress.{Input, State, first_state, output_of};
ghost use Rattle.air_core.specs.Joined.{joined};
ghost use Rattle.blake3_compress.specs.TraceRow.{bit_cells, state_cells, state, row_cells, trace_row};
ghost use Rattle.p3_matrix.specs.Matrix.{height, row_at};
ghost use Rattle.blake3_compress.specs.Generated.{AreFirst, IsState, input_of, Pushed};
ghost use Rattle.blake3_prime.specs.Rows.{compression_input, rows_cells, IsTooLong};
ghost use Rattle.blake3_compress.specs.declared.error.TraceError.TheVariants.{WrongCharacteristic, NoInput, NotPowerOfTwo, TooLong};
ghost use Rattle.std.specs.Int.{IsPowerOfTwo};
ghost use Rattle.p3_field.specs.Ring.{of_nat};

use blake3_compress::{
    StateWords, TraceError, after_half_round, first_words, push_bit_words, push_limb_words,
    xor_words,
};
use p3_field::{Mem, PrimeField64};
use p3_matrix::{RowMajorMatrix, is_power_of_two};
use std::alloc::Global;

// Pushes a state.
fn push_state<F: PrimeField64>(values: &mut Vec<F>, state: &StateWords) -> Mem<()>
    ensures { (v : State) → IsState state.now v
        → IfOk result (λ _. Pushed F.ring values.old.items values.new.items (state_cells v)) }
{
    push_limb_words(values, &state.row0)?;
    push_bit_words(values, &state.row1)?;
    push_limb_words(values, &state.row2)?;
    push_bit_words(values, &state.row3)?;
    Ok(())
}

// Pushes the states after each half round, and gives the last one.
fn push_half_rounds<F: PrimeField64>(
    values: &mut Vec<F>,
    words: &[u32; 28],
    first: StateWords,
) -> Mem<StateWords>
    ensures { (x : Input) → AreFirst words.now x → IsState first (first_state x)
        → IfOk result (λ s. IsState s (state x 28)
        × Pushed F.ring values.old.items values.new.items
        (joined 28 (λ n. state_cells (state x (suc n))))) }
{
    let mut state = first;
    for n in 0..28 {
        state = after_half_round(n, words, &state);
        push_state(values, &state)?;
    }
    Ok(state)
}

// Pushes the output.
fn push_output<F: PrimeField64>(
    values: &mut Vec<F>,
    first: &StateWords,
    last: &StateWords,
) -> Mem<()>
    ensures { (x : Input) (v : State) → IsState first.now (first_state x) → IsState last.now v
        → IfOk result (λ _. Pushed F.ring values.old.items values.new.items
        (joined 4 (λ k. bit_cells 4 (output_of x v k)))) }
{
    push_bit_words(values, &xor_words(&last.row0, &last.row2))?;
    push_bit_words(values, &xor_words(&last.row1, &last.row3))?;
    push_bit_words(values, &xor_words(&last.row2, &first.row0))?;
    push_bit_words(values, &xor_words(&last.row3, &first.row1))?;
    Ok(())
}

// Pushes the row of one compression.
fn push_row<F: PrimeField64>(values: &mut Vec<F>, words: &[u32; 28]) -> Mem<()>
    ensures { IfOk result (λ _.
        Pushed F.ring values.old.items values.new.items (row_cells (input_of words.now))) }
{
    let first = first_words(words);
    push_bit_words(values, words)?;
    push_limb_words(values, &first.row0)?;
    push_limb_words(values, &first.row2)?;
    let last = push_half_rounds(values, words, first)?;
    push_bit_words(values, &last.row2)?;
    push_output(values, &first, &last)?;
    Ok(())
}

// The 28 words of row i of n.
fn row_words(inputs: &[[u32; 24]], i: usize) -> [u32; 28]
    requires { i < length inputs.now }
    ensures { result ≡ compression_input inputs.now i }
{
    let counter = (i % 4294967296) as u32;
    let high = (i / 4294967296 % 4294967296) as u32;
    let block_len = (inputs.len() % 4294967296) as u32;
    let x = &inputs[i];
    [
        x[0], x[1], x[2], x[3], x[4], x[5], x[6], x[7], x[8], x[9], x[10], x[11], x[12], x[13],
        x[14], x[15], x[16], x[17], x[18], x[19], x[20], x[21], x[22], x[23], counter, high,
        block_len, 0,
    ]
}

// The rows of the compressions, with room for so many cells.
fn rows_of<F: PrimeField64>(alloc: Global, inputs: &[[u32; 24]], room: usize) -> Mem<Vec<F>>
    ensures { IfOk result (λ v. v.items ≡ map (of_nat F.ring) (rows_cells inputs.now)) }
{
    let mut values = Vec::with_capacity(alloc, room)?;
    for i in 0..inputs.len() {
        push_row(&mut values, &row_words(inputs, i))?;
    }
    Ok(values)
}

// The number of cells of so many rows times 2^extra; None exactly where it passes `usize`.
fn room_for(rows: usize, extra: usize) -> Option<usize>
    requires { 0 < rows }
    ensures { MatchOption result (IsTooLong rows extra) (λ n. n ≡ rows * 9168 * 2 ^ extra) }
{
    if extra >= 64 {
        return None;
    }
    let cells = rows.checked_mul(9168)?;
    cells.checked_mul(1 << extra)
}

/// The number of cells of so many rows times 2^extra, or why there is no trace of them.
pub fn room_of(rows: usize, extra: usize) -> Result<usize, TraceError>
    ensures answers { MatchResult result
        (λ n. (n ≡ rows * 9168 * 2 ^ extra) × IsPowerOfTwo rows × (IsTooLong rows extra → ⊥))
        (λ e. (e ≡ NotPowerOfTwo) ⊎ (e ≡ TooLong)) }
    ensures not_power { (result ≡ Err NotPowerOfTwo) ↔ (IsPowerOfTwo rows → ⊥) }
    ensures too_long { (result ≡ Err TooLong) ↔ (IsPowerOfTwo rows × IsTooLong rows extra) }
{
    if !is_power_of_two(rows) {
        return Err(TraceError::NotPowerOfTwo);
    }
    match room_for(rows, extra) {
        None => Err(TraceError::TooLong),
        Some(room) => Ok(room),
    }
}

/// The trace of the compressions of these blocks (16 words each) and chaining values (8 words): row i has the counter i, as
/// block length the number of rows, of which the low 32 bits, and no flags (`p3_blake3_air::generate_trace_rows`). It has 9168
/// columns. Room is kept for the cells times 2^`extra_capacity_bits`.
///
/// `NotPowerOfTwo` exactly where the number of inputs is no power of two, as where there are none; else `TooLong` exactly where
/// the cells times 2^`extra_capacity_bits` pass `usize`. The other answer is `OutOfMemory`.
pub fn generate_trace_rows<F: PrimeField64>(
    alloc: Global,
    inputs: &[[u32; 24]],
    extra_capacity_bits: usize,
) -> Result<RowMajorMatrix<F>, TraceError>
    ensures rows { IfOk result
        (λ m. m ≡ record { values = map (of_nat F.ring) (rows_cells inputs.now); width = 9168 }) }
    ensures height { IfOk result (λ m. height m ≡ length inputs.now) }
    ensures row { IfOk result
        (λ m. (i : ℕ) → i < length inputs.now
        → row_at m i ≡ trace_row F.ring (input_of (compression_input inputs.now i))) }
    ensures done { IfOk result
        (λ m. IsPowerOfTwo (length inputs.now)
        × (IsTooLong (length inputs.now) extra_capacity_bits → ⊥)) }
    ensures not_power { (result ≡ Err NotPowerOfTwo) ↔ (IsPowerOfTwo (length inputs.now) → ⊥) }
    ensures too_long { (result ≡ Err TooLong)
        ↔ (IsPowerOfTwo (length inputs.now) × IsTooLong (length inputs.now) extra_capacity_bits) }
    ensures any_field { result ≡ Err WrongCharacteristic → ⊥ }
    ensures none_is_no_power { result ≡ Err NoInput → ⊥ }
{
    let room = room_of(inputs.len(), extra_capacity_bits)?;
    let values = rows_of(alloc, inputs, room)?;
    Ok(RowMajorMatrix::new(values, 9168))
}
