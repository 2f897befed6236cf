//! Proving tables.
ghost use Rattle.std.specs.Prelude.{◌≡◌, IfErr, IfOk, All, flat_map};
ghost use Rattle.p3_lookup.specs.Bus.{HaveOneWidth};
ghost use Rattle.p3_lookup.specs.Lookup.{lookups_of};
ghost use Rattle.batch_setup.specs.Setup.{airs_of};
ghost use Rattle.law_honest.specs.HonestProof.{IsBuilt};
ghost use Rattle.law_joining.specs.Shaped.{IsShaped};
ghost use Rattle.prover_answer.specs.PlainBackend.{plain_prover_backend};
ghost use Rattle.prover_answer.specs.Proving.{proving_checks};
ghost use Rattle.prover_answer.specs.Telling.{Tells};
ghost use Rattle.prover_answer.specs.Verdict.{IsProverVerdict};
ghost use Rattle.verifier_batch.specs.BatchChecks.{Accepted};
ghost use Rattle.transcript_version.specs.declared.TranscriptVersion.TheVariants.{V2};
ghost use Rattle.tool_statement.specs.Config.{tool_backend, tool_scheme, tool_setting};
ghost use Rattle.tool_airs.specs.Airs.{AreMet, DrawsOutside, airs_batch, drawn_point};

use crate::setup::instances_data;
use air_core::{Air, BaseAir};
use batch_config::Settings;
use batch_setup::StarkInstance;
use batch_statement::BatchProof;
use commit_core::{PolynomialSpace, UnivariateStarkPcs};
use law_committed::fields::baby_bear_has_laws;
use p3_field::{
    BabyBear, FieldCore, QuarticExtension, RingCore, TwoAdicCore, TwoAdicMultiplicativeCoset,
};
use p3_uni_stark::TranscriptVersion;
use plain_pcs::PlainProverError;
use prover_answer::{ProverSettings, ProvingError};
use prover_batch::prove_batch_with_point;
use std::alloc::Global;
use tool_statement::{ToolConfig, tool_config};

/// Proves tables as [`prove_airs`] does, and gives with the proof the point of its openings (`point`), which a caller may look at without
/// drawing it again.
pub fn prove_airs_with_point<A: Air<BabyBear>>(
    alloc: Global,
    instances: &[StarkInstance<'_, ToolConfig, A>],
) -> Result<(BatchProof<ToolConfig>, QuarticExtension), ProvingError<PlainProverError>>
    requires shaped { All (IsShaped (tool_setting V2) A.declaration A.trees A.interactions)
        instances.now }
    requires widths { HaveOneWidth
        (flat_map (λ a. lookups_of (A.interactions a)) (airs_of instances.now)) }
    ensures proved { let b = airs_batch A.declaration A.trees A.interactions instances.now in
        IfOk result (λ r. IsBuilt b.setting b.prover b.statement b.traces b.degree_bits r.0) }
    ensures refusal { let b = airs_batch A.declaration A.trees A.interactions instances.now in
        IfErr result (Tells (plain_prover_backend tool_scheme) b) }
    ensures first { let b = airs_batch A.declaration A.trees A.interactions instances.now in
        IsProverVerdict (proving_checks (plain_prover_backend tool_scheme) b) result }
    ensures accepted { let b = airs_batch A.declaration A.trees A.interactions instances.now in
        IfOk result (λ r. AreMet b → DrawsOutside b r.0
        → Accepted (tool_setting V2) tool_backend b.statement r.0) }
    ensures point { let b = airs_batch A.declaration A.trees A.interactions instances.now in
        IfOk result (λ r. r.1 ≡ drawn_point b r.0) }
{
    baby_bear_has_laws();
    let config = tool_config(TranscriptVersion::V2);
    let data = instances_data(alloc, &config, instances)?;
    prove_batch_with_point(alloc, &config, instances, &data)
}

/// The honest proof of these tables over the program's configuration (`proved`), whether or not the traces meet the constraints: no clause says
/// that one of traces that don't is refused. The error is that of the prover's first check that fails (`first`), and says why there is no
/// proof (`refusal`). Out of memory may come in place of any answer.
///
/// The traces have the shapes that their AIRs declare (`IsShaped`), and the tuples that the AIRs send on one bus have one width. Where the traces
/// meet the constraints (`AreMet`), [`crate::verify_airs`] accepts the proof, unless the point of its openings lies on the rows of a table
/// (`accepted`).
pub fn prove_airs<A: Air<BabyBear>>(
    alloc: Global,
    instances: &[StarkInstance<'_, ToolConfig, A>],
) -> Result<BatchProof<ToolConfig>, ProvingError<PlainProverError>>
    requires shaped { All (IsShaped (tool_setting V2) A.declaration A.trees A.interactions)
        instances.now }
    requires widths { HaveOneWidth
        (flat_map (λ a. lookups_of (A.interactions a)) (airs_of instances.now)) }
    ensures proved { let b = airs_batch A.declaration A.trees A.interactions instances.now in
        IfOk result (IsBuilt b.setting b.prover b.statement b.traces b.degree_bits) }
    ensures refusal { let b = airs_batch A.declaration A.trees A.interactions instances.now in
        IfErr result (Tells (plain_prover_backend tool_scheme) b) }
    ensures first { let b = airs_batch A.declaration A.trees A.interactions instances.now in
        IsProverVerdict (proving_checks (plain_prover_backend tool_scheme) b) result }
    ensures accepted { let b = airs_batch A.declaration A.trees A.interactions instances.now in
        IfOk result (λ q. AreMet b → DrawsOutside b q
        → Accepted (tool_setting V2) tool_backend b.statement q) }
{
    let (proof, _point) = prove_airs_with_point(alloc, instances)?;
    Ok(proof)
}
