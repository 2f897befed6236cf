//! Bytes that are proved and accepted, and traces that don't meet what they should, whose proofs are refused.
ghost use Rattle.std.specs.Int.{IsPowerOfTwo};
ghost use Rattle.std.specs.Prelude.{◌≡◌, ◌<◌, ◌≤◌, IfOk, length};
ghost use Rattle.p3_matrix.specs.Matrix.{height};

use crate::compared::assert_same;
use batch_statement::BatchProof;
use example_air::{bits_trace, bytes_trace, prove_bytes, prove_tables, verify_bytes};
use p3_field::{BabyBear, Mem, RingCore};
use p3_matrix::RowMajorMatrix;
use std::alloc::Global;
use std::test::Fail;
use tool_statement::ToolConfig;

const BYTES: [u8; 8] = [0, 255, 7, 128, 7, 1, 90, 7];

// The matrix with this value in place of that at a place.
fn changed(
    alloc: Global,
    matrix: &RowMajorMatrix<BabyBear>,
    place: usize,
    value: u64,
) -> Result<RowMajorMatrix<BabyBear>, Fail>
    ensures width { IfOk result (λ m. m.width ≡ matrix.now.width) }
    ensures height { IfOk result (λ m. height m ≡ height matrix.now) }
{
    let mut values = matrix.as_slice().to_vec(alloc)?;
    if place >= values.len() {
        return Err("no such place".into());
    }
    values[place] = BabyBear::from_u64(value);
    Ok(RowMajorMatrix::new(values, matrix.width()))
}

// The proof of the traces of the bytes, in each of which this value stands at a place.
fn proof_with(
    alloc: Global,
    in_bits: (usize, u64),
    in_times: (usize, u64),
) -> Result<BatchProof<ToolConfig>, Fail> {
    let bits = changed(alloc, &bits_trace(alloc, &BYTES)?, in_bits.0, in_bits.1)?;
    let times = changed(alloc, &bytes_trace(alloc, &BYTES)?, in_times.0, in_times.1)?;
    Ok(prove_tables(alloc, &bits, &times).ok().ok_or("a proof")?)
}

// What the verifier answers of the proof of eight bytes, in words.
fn said(alloc: Global, proof: &BatchProof<ToolConfig>) -> Mem<String> {
    let answer = verify_bytes(alloc, 3, proof);
    Ok(format!(in alloc; "{answer:?}")?)
}

#[test]
fn bytes_are_accepted(rt: HostRuntime) -> Result<(), Fail> {
    let alloc = rt.alloc();
    let proof = prove_bytes(alloc, &BYTES).ok().ok_or("a proof")?;
    let same = proof_with(alloc, (0, 0), (0, 1))?;
    // The bytes' own proof, that of the traces as they are, and it at another height.
    let accepted = [
        verify_bytes(alloc, 3, &proof).is_ok(),
        verify_bytes(alloc, 3, &same).is_ok(),
        verify_bytes(alloc, 4, &same).is_ok(),
    ];
    assert_same(&rt, accepted, [true, true, false]);
    Ok(())
}

#[test]
fn wrong_traces_are_refused(rt: HostRuntime) -> Result<(), Fail> {
    let alloc = rt.alloc();
    // The third row's number is 6 in place of 7.
    let number = proof_with(alloc, (26, 6), (0, 1))?;
    let wanted = "Err(Verification(OodEvaluationMismatch { index: Some(0) }))";
    assert_same(&rt, said(alloc, &number)?.as_str(), wanted);
    // The byte 7 is counted twice, and stands there three times.
    let count = proof_with(alloc, (0, 0), (7, 2))?;
    let wanted = "Err(Lookup(TerminalSum))";
    assert_same(&rt, said(alloc, &count)?.as_str(), wanted);
    Ok(())
}
