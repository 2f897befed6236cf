//! Linear codes over the columns of a matrix.
ghost use Rattle.std.specs.Prelude.{◌≡◌, ℕ, ◌+◌, ◌-◌, ◌*◌, ◌/◌, ◌^◌, ◌<◌, ◌≤◌, ◌↔◌, length, IfOk, MatchOption, IsErrOf, List, ◌++◌};
ghost use Rattle.std.specs.Int.{IsPowerOfTwo};
ghost use Rattle.p3_field.specs.Ring.{Ring};
ghost use Rattle.p3_field.specs.Poly.{tabulate};
ghost use Rattle.p3_matrix.specs.Matrix.{Rows, FillsRows, height};
ghost use Rattle.commit_encoder.specs.Encoder.{IsCodeOf, IsPadded};
ghost use Rattle.commit_encoder.specs.Laws.Codes.{code_shape as shape_of_code};
ghost use Rattle.commit_encoder.specs.declared.encoder.EncodeError.TheVariants.{OutOfMemory};

use p3_dft::TwoAdicSubgroupDft;
use p3_field::{Field, FieldCore, Mem, RingCore, TwoAdicCore, TwoAdicField};
use p3_matrix::RowMajorMatrix;
use std::alloc::{AllocError, Global};
use thiserror::Error;

/// Why a matrix can't be encoded.
#[derive(Debug, Drop, Error)]
pub enum EncodeError {
    /// The number of the code's values passes `usize`.
    #[error("the number of values of the code is too large")]
    CodewordTooLong,
    /// No subgroup is as large as a codeword is long.
    #[error("no subgroup is as large as a codeword is long")]
    NoSubgroup,
    /// Memory ran out.
    #[error("out of memory")]
    OutOfMemory,
}

impl From<AllocError> for EncodeError {
    ghost from_gives = { λ _ e. e ≡ OutOfMemory };

    fn from(_error: AllocError) -> EncodeError {
        EncodeError::OutOfMemory
    }
}

/// A linear code, applied to each column of a matrix (`Encoder` of `p3-commit`). A codeword is 2^`log_inv_rate` times
/// as long as its message. Running out of memory may come in place of a code.
pub trait Encoder<F: Field> {
    // the logarithm to base 2 of the greatest length of a codeword
    ghost log_limit: { ℕ };

    // the second matrix is the code of the first at a rate
    ghost encodes: { Rows F → ℕ → Rows F → Type 0 };

    /// The code of a matrix whose height is a power of two: `CodewordTooLong` exactly where the code would have more
    /// values than `usize` counts, and where it wouldn't, `NoSubgroup` exactly where a codeword is longer than
    /// any subgroup.
    fn encode_batch(
        &self,
        alloc: Global,
        message: RowMajorMatrix<F>,
        log_inv_rate: usize,
    ) -> Result<RowMajorMatrix<F>, EncodeError>
        requires { IsPowerOfTwo (height message) }
        ensures code { IfOk result (encodes message log_inv_rate) }
        ensures too_long { IsErrOf result EncodeError.CodewordTooLong
            ↔ (usize.MAX < length message.values * 2 ^ log_inv_rate) }
        ensures no_subgroup { IsErrOf result EncodeError.NoSubgroup
            ↔ ((length message.values * 2 ^ log_inv_rate ≤ usize.MAX)
            × (2 ^ log_limit < height message * 2 ^ log_inv_rate)) };

    /// The code of a matrix that was padded to the height of its codewords: all of its rows but the first of
    /// 2^`log_inv_rate` parts are zeros. `NoSubgroup` exactly where it is higher than any subgroup is large, and never
    /// `CodewordTooLong`.
    fn encode_batch_padded(
        &self,
        alloc: Global,
        message: RowMajorMatrix<F>,
        log_inv_rate: usize,
    ) -> Result<RowMajorMatrix<F>, EncodeError>
        requires power { IsPowerOfTwo (height message) }
        requires rate { 2 ^ log_inv_rate ≤ height message }
        requires padded { IsPadded F.ring.zero message log_inv_rate }
        ensures code { IfOk result (encodes message 0) }
        ensures too_long { IsErrOf result EncodeError.CodewordTooLong → ⊥ }
        ensures no_subgroup { IsErrOf result EncodeError.NoSubgroup
            ↔ (2 ^ log_limit < height message) };

    ghost code_shape: { (m : Rows F) (rate : ℕ) (code : Rows F) → IsPowerOfTwo (height m)
        → encodes m rate code → (code.width ≡ m.width) × (height code ≡ height m * 2 ^ rate) };
}

impl<F: TwoAdicField, D: TwoAdicSubgroupDft<F>> Encoder<F> for D {
    ghost log_limit = { F.TWO_ADICITY };

    ghost encodes = { λ m rate code. IsCodeOf F.ring F.root m rate code };

    fn encode_batch(
        &self,
        alloc: Global,
        message: RowMajorMatrix<F>,
        log_inv_rate: usize,
    ) -> Result<RowMajorMatrix<F>, EncodeError>
        requires { IsPowerOfTwo (height message) }
        ensures code { IfOk result (IsCodeOf F.ring F.root message log_inv_rate) }
        ensures too_long { IsErrOf result EncodeError.CodewordTooLong
            ↔ (usize.MAX < length message.values * 2 ^ log_inv_rate) }
        ensures no_subgroup { IsErrOf result EncodeError.NoSubgroup
            ↔ ((length message.values * 2 ^ log_inv_rate ≤ usize.MAX)
            × (2 ^ F.TWO_ADICITY < height message * 2 ^ log_inv_rate)) }
    {
        encoded(self, alloc, message, log_inv_rate)
    }

    fn encode_batch_padded(
        &self,
        alloc: Global,
        message: RowMajorMatrix<F>,
        _log_inv_rate: usize,
    ) -> Result<RowMajorMatrix<F>, EncodeError>
        requires power { IsPowerOfTwo (height message) }
        requires rate { 2 ^ _log_inv_rate ≤ height message }
        requires padded { IsPadded F.ring.zero message _log_inv_rate }
        ensures code { IfOk result (IsCodeOf F.ring F.root message 0) }
        ensures too_long { IsErrOf result EncodeError.CodewordTooLong → ⊥ }
        ensures no_subgroup { IsErrOf result EncodeError.NoSubgroup
            ↔ (2 ^ F.TWO_ADICITY < height message) }
    {
        encoded(self, alloc, message, 0)
    }

    ghost code_shape = { λ m rate code p c. shape_of_code F.ring F.root m code rate p c };
}

// The code by a transform of the padded matrix.
fn encoded<F: TwoAdicField, D: TwoAdicSubgroupDft<F>>(
    dft: &D,
    alloc: Global,
    message: RowMajorMatrix<F>,
    log_inv_rate: usize,
) -> Result<RowMajorMatrix<F>, EncodeError>
    requires { IsPowerOfTwo (height message) }
    ensures code { IfOk result (IsCodeOf F.ring F.root message log_inv_rate) }
    ensures too_long { IsErrOf result EncodeError.CodewordTooLong
        ↔ (usize.MAX < length message.values * 2 ^ log_inv_rate) }
    ensures no_subgroup { IsErrOf result EncodeError.NoSubgroup
        ↔ ((length message.values * 2 ^ log_inv_rate ≤ usize.MAX)
        × (2 ^ F.TWO_ADICITY < height message * 2 ^ log_inv_rate)) }
{
    let Some(count) = checked_multiple(message.values.len(), log_inv_rate) else {
        return Err(EncodeError::CodewordTooLong);
    };
    if count / message.width > 1 << F::TWO_ADICITY {
        return Err(EncodeError::NoSubgroup);
    }
    let padded = padded(message, count)?;
    Ok(dft.dft_batch(alloc, padded)?)
}

// A positive number times 2^bits; None exactly where that passes `usize`.
fn checked_multiple(n: usize, bits: usize) -> Option<usize>
    requires { 0 < n }
    ensures { MatchOption result (usize.MAX < n * 2 ^ bits)
        (λ m. (m ≡ n * 2 ^ bits) × (n * 2 ^ bits ≤ usize.MAX)) }
{
    if bits < 64 {
        n.checked_mul(1 << bits)
    } else {
        None
    }
}

// The matrix with rows of zeros below, up to this number of values.
fn padded<F: RingCore>(message: RowMajorMatrix<F>, count: usize) -> Mem<RowMajorMatrix<F>>
    requires more { length message.values ≤ count }
    requires rows { (k : ℕ) × (count ≡ k * message.width) }
    ensures width { IfOk result (λ p. p.width ≡ message.width) }
    ensures values { IfOk result
        (λ p. p.values ≡ message.values
        ++ tabulate (count - length message.values) (λ _. F.ring.zero)) }
{
    let width = message.width;
    let mut values = message.values;
    for _ in 0..count - values.len() {
        values.push(F::ZERO)?;
    }
    Ok(RowMajorMatrix::new(values, width))
}
