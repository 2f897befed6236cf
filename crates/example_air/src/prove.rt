//! Proofs of the two tables.
ghost use Rattle.std.specs.Int.{IsPowerOfTwo};
ghost use Rattle.std.specs.Prelude.{◌≤◌, IfErr, IfOk, length};
ghost use Rattle.p3_field.specs.BabyBear.{baby_bear_ring};
ghost use Rattle.p3_matrix.specs.Matrix.{height};
ghost use Rattle.batch_setup.specs.Setup.{log_of};
ghost use Rattle.tool_airs.specs.Airs.{AreMet, DrawsOutside};
ghost use Rattle.example_air.specs.Bytes.{bits_rows, bytes_rows};
ghost use Rattle.example_air.specs.Proving.{AreTables, IsTablesProof, LacksTablesProof, bytes_batch, tables_batch};
ghost use Rattle.example_air.specs.Statement.{PassesChecks};

use crate::air::ExampleAir;
use crate::meanings::rows_are_bytes;
use crate::traces::{bits_trace, bytes_trace};
use air_core::{Air, BaseAir};
use batch_setup::TableInstance;
use batch_statement::BatchProof;
use law_committed::fields::baby_bear_has_laws;
use p3_field::{BabyBear, FieldCore, RingCore};
use p3_matrix::RowMajorMatrix;
use plain_pcs::PlainProverError;
use prover_answer::ProvingError;
use std::alloc::Global;
use tool_airs::prove_airs;
use tool_statement::ToolConfig;

/// The honest proof of these two traces over the program's configuration (`proved`), whether or not they meet the constraints: no clause
/// says that one of traces that don't is refused. The error says why there is none (`refusal`). Out of memory may come in place of any answer.
///
/// Where the traces meet the constraints, and what they send balances (`AreMet`), the proof passes every check of [`crate::verify_bytes`] at the
/// height of `bits`, unless the point of its openings lies on the rows of a table (`accepted`).
pub fn prove_tables(
    alloc: Global,
    bits: &RowMajorMatrix<BabyBear>,
    times: &RowMajorMatrix<BabyBear>,
) -> Result<BatchProof<ToolConfig>, ProvingError<PlainProverError>>
    requires { AreTables bits.now times.now }
    ensures proved { IfOk result (IsTablesProof bits.now times.now) }
    ensures refusal { IfErr result (LacksTablesProof bits.now times.now) }
    ensures accepted { let b = tables_batch bits.now times.now in
        IfOk result (λ q. AreMet b → DrawsOutside b q → PassesChecks (log_of (height bits.now)) q) }
{
    // `height` also says that the values fill rows.
    let _ = bits.height();
    let instances = [
        TableInstance {
            air: &ExampleAir::Bits,
            trace: bits,
            public_values: Vec::new(alloc),
        },
        TableInstance {
            air: &ExampleAir::Bytes,
            trace: times,
            public_values: Vec::new(alloc),
        },
    ];
    prove_airs(alloc, &instances)
}

/// The honest proof of a list of bytes, as many as a power of two up to 1024: that of the traces of [`bits_trace`] and [`bytes_trace`]
/// (`proved`). The error says why there is none (`refusal`). Out of memory may come in place of any answer.
///
/// [`crate::verify_bytes`] accepts the proof, unless the point of its openings lies on the rows of a table (`accepted`).
pub fn prove_bytes(
    alloc: Global,
    bytes: &[u8],
) -> Result<BatchProof<ToolConfig>, ProvingError<PlainProverError>>
    requires power { IsPowerOfTwo (length bytes.now) }
    requires few { length bytes.now ≤ 1024 }
    ensures proved { IfOk result
        (IsTablesProof (bits_rows baby_bear_ring bytes.now) (bytes_rows baby_bear_ring bytes.now)) }
    ensures refusal { IfErr result
        (LacksTablesProof (bits_rows baby_bear_ring bytes.now)
        (bytes_rows baby_bear_ring bytes.now)) }
    ensures accepted { let b = bytes_batch bytes.now in
        IfOk result (λ q. DrawsOutside b q → PassesChecks (log_of (length bytes.now)) q) }
{
    rows_are_bytes::<BabyBear>();
    baby_bear_has_laws();
    let bits = bits_trace(alloc, bytes)?;
    let times = bytes_trace(alloc, bytes)?;
    prove_tables(alloc, &bits, &times)
}
