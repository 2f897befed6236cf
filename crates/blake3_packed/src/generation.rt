//! The packed rows of compressions.
ghost use Rattle.std.specs.Prelude.{◌≡◌, ℕ, ◌+◌, ◌*◌, ◌<◌, ◌≤◌, IfOk, Err, ◌↔◌, length};
ghost use Rattle.p3_matrix.specs.Matrix.{height};
ghost use Rattle.blake3_compress.specs.declared.error.TraceError.TheVariants.{WrongCharacteristic, NoInput, NotPowerOfTwo, TooLong};
ghost use Rattle.blake3_binary.specs.Rows.{compression, MayStand, HasNoRow, HasNoPower};
ghost use Rattle.blake3_packed.specs.Lanes.{PushedLanes};
ghost use Rattle.blake3_packed.specs.States.{presence, lane_cells};
ghost use Rattle.blake3_packed.specs.PackedRows.{packed_height, HasDenseBits, HasDenseCells, HasZerosPast};
ghost use Rattle.blake3_packed.specs.Blocks.{AreBlocks};

use crate::inputs::word_planes;
use crate::pushing::push_words;
use crate::state::{first_planes, present_lanes};
use crate::steps::push_steps;
use blake3_binary::{Blake3CompressionInput, check_rows};
use blake3_compress::TraceError;
use p3_field::{Field, Mem};
use p3_matrix::RowMajorMatrix;
use std::alloc::Global;

// Pushes the words of up to 64 compressions, a lane each.
fn push_block(values: &mut Vec<u64>, block: &[Blake3CompressionInput]) -> Mem<()>
    requires some { 0 < length block.now }
    requires most { length block.now ≤ 64 }
    ensures { IfOk result (λ _. PushedLanes values.old.items values.new.items 11536
        (λ j. lane_cells (compression block.now j) (presence (length block.now) j))) }
{
    let words = word_planes(block);
    push_words(values, &words, 16, 8)?;
    push_words(values, &words, 0, 16)?;
    push_words(values, &words, 24, 4)?;
    let first = first_planes(&words, present_lanes(block.len()));
    push_steps(values, &words, first)?;
    Ok(())
}

// The words of all compressions, with room for so many.
fn blocks_of(alloc: Global, inputs: &[Blake3CompressionInput], room: usize) -> Mem<Vec<u64>>
    ensures { IfOk result (λ v. AreBlocks inputs.now (packed_height (length inputs.now)) v.items) }
{
    let mut values = Vec::with_capacity(alloc, room)?;
    for block in inputs.chunks(64) {
        push_block(&mut values, block)?;
    }
    Ok(values)
}

// The number of words of these compressions. It fits `usize`, since an input takes more bytes than its share of a row of words has words.
fn room_for(inputs: &[Blake3CompressionInput]) -> usize
    ensures { result ≡ packed_height (length inputs.now) * 11536 }
{
    inputs.len().div_ceil(64) * 11536
}

/// The packed trace of these compressions: in every column bit j of row w is the cell of row 64 w + j of the trace that
/// `generate_binary_trace_rows` gives, and the bits past the last compression are zero
/// (`p3_blake3_air::generate_binary_trace_packed`). It has 11536 columns, and a row of words for each 64 compressions begun.
/// No cell is held in the field: it says only that one and one is zero.
///
/// `WrongCharacteristic` exactly where one and one isn't zero in the field, whose sum is no exclusive or then; else `NoInput`
/// exactly where there is no input; else `NotPowerOfTwo` exactly where their number is no power of two, as the rows of a trace
/// domain are. It is never `TooLong`, since the words of inputs that stand in memory fit `usize`. Out of memory is the other answer.
pub fn generate_binary_trace_packed<F: Field>(
    alloc: Global,
    inputs: &[Blake3CompressionInput],
) -> Result<RowMajorMatrix<u64>, TraceError>
    ensures width { IfOk result (λ m. m.width ≡ 11536) }
    ensures height { IfOk result (λ m. height m ≡ packed_height (length inputs.now)) }
    ensures bits { IfOk result (HasDenseBits inputs.now (length inputs.now)) }
    ensures cells { IfOk result (HasDenseCells F.ring inputs.now (length inputs.now)) }
    ensures past { IfOk result (HasZerosPast (length inputs.now)) }
    ensures done { IfOk result (λ _. MayStand F.ring F.TWO (length inputs.now)) }
    ensures characteristic { (result ≡ Err WrongCharacteristic) ↔ (F.TWO ≡ F.ring.zero → ⊥) }
    ensures no_input { (result ≡ Err NoInput) ↔ HasNoRow F.ring F.TWO (length inputs.now) }
    ensures not_power { (result ≡ Err NotPowerOfTwo) ↔ HasNoPower F.ring F.TWO (length inputs.now) }
    ensures never_long { result ≡ Err TooLong → ⊥ }
{
    check_rows::<F>(inputs.len())?;
    let values = blocks_of(alloc, inputs, room_for(inputs))?;
    Ok(RowMajorMatrix::new(values, 11536))
}
