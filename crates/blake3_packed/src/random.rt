//! Packed rows of compressions of random words.
ghost use Rattle.std.specs.Prelude.{◌≡◌, ℕ, IfOk, Err, ◌↔◌};
ghost use Rattle.p3_matrix.specs.Matrix.{height};
ghost use Rattle.blake3_compress.specs.declared.error.TraceError.TheVariants.{WrongCharacteristic, NoInput, NotPowerOfTwo, TooLong};
ghost use Rattle.blake3_binary.specs.Random.{binary_random_inputs};
ghost use Rattle.blake3_binary.specs.Rows.{MayStand, HasNoRow, HasNoPower};
ghost use Rattle.blake3_packed.specs.PackedRows.{packed_height, HasDenseBits, HasDenseCells, HasZerosPast};

use crate::generation::generate_binary_trace_packed;
use blake3_binary::{Blake3BinaryAir, check_rows, random_inputs};
use blake3_compress::TraceError;
use p3_field::Field;
use p3_matrix::RowMajorMatrix;
use std::alloc::Global;

/// The packed trace of random words, a call of `Blake3BinaryAir` that stands in a trait, since that type is another crate's.
pub trait PackedTraces {
    /// The packed trace of compressions of random words, as many as `num_hashes`: of those whose dense rows
    /// `Blake3BinaryAir::generate_random_trace_rows` gives (`p3_blake3_air::Blake3BinaryAir::generate_random_trace_packed`).
    /// The rest is as in `generate_binary_trace_packed`, `num_hashes` being the number of inputs.
    fn generate_random_trace_packed<F: Field>(
        &self,
        alloc: Global,
        num_hashes: usize,
    ) -> Result<RowMajorMatrix<u64>, TraceError>
        ensures width { IfOk result (λ m. m.width ≡ 11536) }
        ensures height { IfOk result (λ m. height m ≡ packed_height num_hashes) }
        ensures bits { IfOk result (HasDenseBits (binary_random_inputs num_hashes) num_hashes) }
        ensures cells { IfOk result
            (HasDenseCells F.ring (binary_random_inputs num_hashes) num_hashes) }
        ensures past { IfOk result (HasZerosPast num_hashes) }
        ensures done { IfOk result (λ _. MayStand F.ring F.TWO num_hashes) }
        ensures characteristic { (result ≡ Err WrongCharacteristic) ↔ (F.TWO ≡ F.ring.zero → ⊥) }
        ensures no_input { (result ≡ Err NoInput) ↔ HasNoRow F.ring F.TWO num_hashes }
        ensures not_power { (result ≡ Err NotPowerOfTwo) ↔ HasNoPower F.ring F.TWO num_hashes }
        ensures never_long { result ≡ Err TooLong → ⊥ };
}

impl PackedTraces for Blake3BinaryAir {
    fn generate_random_trace_packed<F: Field>(
        &self,
        alloc: Global,
        num_hashes: usize,
    ) -> Result<RowMajorMatrix<u64>, TraceError> {
        check_rows::<F>(num_hashes)?;
        let inputs = random_inputs(alloc, num_hashes)?;
        generate_binary_trace_packed::<F>(alloc, &inputs)
    }
}
