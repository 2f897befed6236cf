//! Proving the table.
ghost use Rattle.std.specs.Prelude.{◌≡◌, ◌^◌, ◌≤◌, IfErr, IfOk};
ghost use Rattle.p3_field.specs.BabyBear.{baby_bear_ring};
ghost use Rattle.law_honest.specs.HonestProof.{IsBuilt};
ghost use Rattle.prover_answer.specs.PlainBackend.{plain_prover_backend};
ghost use Rattle.prover_answer.specs.Telling.{Tells};
ghost use Rattle.verifier_batch.specs.BatchChecks.{Accepted};
ghost use Rattle.tool_airs.specs.Airs.{DrawsOutside};
ghost use Rattle.transcript_version.specs.declared.TranscriptVersion.TheVariants.{V2};
ghost use Rattle.tool_statement.specs.Config.{tool_backend, tool_scheme, tool_setting};
ghost use Rattle.example_fib_air.specs.Fib.{fib};
ghost use Rattle.example_fib.specs.Statement.{fib_batch};

use air_core::{Air, BaseAir};
use batch_setup::TableInstance;
use batch_statement::BatchProof;
use example_fib_air::{FibAir, fib_publics, fib_rows_mean, fib_trace};
use law_committed::fields::baby_bear_has_laws;
use p3_field::{BabyBear, FieldCore, RingCore};
use plain_pcs::PlainProverError;
use prover_answer::ProvingError;
use std::alloc::Global;
use tool_airs::prove_airs;
use tool_statement::ToolConfig;

/// The honest proof of the table of 2^`log_rows` rows, up to 2^10, that starts with `start`, for the public values `start` and `number`
/// (`proved`). The error says why there is none (`refusal`). Out of memory may come in place of any answer.
///
/// Where `number` is number 2^`log_rows` of the sequence, the verifier accepts the proof, unless the point of its openings lies on the
/// table's rows (`accepted`).
pub fn prove_fib(
    alloc: Global,
    start: BabyBear,
    number: BabyBear,
    log_rows: usize,
) -> Result<BatchProof<ToolConfig>, ProvingError<PlainProverError>>
    requires { log_rows ≤ 10 }
    ensures proved { let b = fib_batch start number log_rows in
        IfOk result (IsBuilt b.setting b.prover b.statement b.traces b.degree_bits) }
    ensures refusal { IfErr result
        (Tells (plain_prover_backend tool_scheme) (fib_batch start number log_rows)) }
    ensures accepted { let b = fib_batch start number log_rows in
        IfOk result (λ q. number ≡ fib baby_bear_ring start (2 ^ log_rows) → DrawsOutside b q
        → Accepted (tool_setting V2) tool_backend b.statement q) }
{
    baby_bear_has_laws();
    fib_rows_mean::<BabyBear>();
    let trace = fib_trace(alloc, start, log_rows)?;
    let public_values = fib_publics(alloc, start, number)?;
    let instances = [TableInstance {
        air: &FibAir,
        trace: &trace,
        public_values,
    }];
    prove_airs(alloc, &instances)
}
