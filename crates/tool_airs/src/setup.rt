//! What prover and verifier share.
ghost use Rattle.std.specs.Prelude.{◌≡◌, All, IfOk, flat_map, length, map};
ghost use Rattle.p3_lookup.specs.Bus.{HaveOneWidth};
ghost use Rattle.p3_lookup.specs.Lookup.{lookups_of};
ghost use Rattle.batch_setup.specs.Preprocessed.{IsPrepared};
ghost use Rattle.batch_setup.specs.Setup.{airs_of, bits_of};
ghost use Rattle.batch_setup.specs.SetupChecks.{AreWithinBounds};
ghost use Rattle.batch_statement.specs.Statement.{WellFormed, read_common};
ghost use Rattle.law_joining.specs.Shaped.{IsShaped};
ghost use Rattle.prover_answer.specs.PlainBackend.{plain_commits};
ghost use Rattle.transcript_version.specs.declared.TranscriptVersion.TheVariants.{V2};
ghost use Rattle.tool_statement.specs.Config.{tool_scheme, tool_setting};
ghost use Rattle.tool_airs.specs.Airs.{HaveHeights, airs_common, prepared_entries, prepared_traces};

use air_core::{Air, BaseAir};
use batch_setup::{ProverData, SetupError, StarkInstance};
use commit_core::{PolynomialSpace, UnivariateStarkPcs};
use p3_field::{BabyBear, Mem, TwoAdicCore, TwoAdicMultiplicativeCoset};
use std::alloc::{AllocError, Global};
use tool_statement::ToolConfig;

// The prover's data of AIRs whose tables have these degree bits. The only error is running out of memory.
pub(crate) fn prover_data<A: Air<BabyBear>>(
    alloc: Global,
    config: &ToolConfig,
    airs: &[A],
    log_heights: &[usize],
) -> Mem<ProverData<ToolConfig>>
    requires scheme { config.now.pcs ≡ record { log_blowup = 1 } }
    requires counted { length log_heights.now ≡ length airs.now }
    requires bits { AreWithinBounds 0 26 log_heights.now }
    requires heights { HaveHeights A.declaration airs.now log_heights.now }
    requires widths { HaveOneWidth (flat_map (λ a. lookups_of (A.interactions a)) airs.now) }
    ensures common { IfOk result
        (λ d. read_common d.common
        ≡ airs_common A.declaration A.trees A.interactions airs.now log_heights.now) }
    ensures formed { IfOk result
        (λ d. WellFormed (map A.declaration airs.now) (read_common d.common)) }
    ensures prover_data { IfOk result
        (λ d. IsPrepared (plain_commits tool_scheme)
        (prepared_entries A.declaration A.trees A.interactions airs.now log_heights.now)
        (prepared_traces A.declaration A.trees A.interactions airs.now log_heights.now)
        d.common.preprocessed d.prover_only.preprocessed_prover_data) }
{
    match ProverData::<ToolConfig>::from_airs_and_degrees(alloc, config, airs, log_heights) {
        Ok(data) => Ok(data),
        Err(SetupError::OutOfMemory) => Err(AllocError),
        Err(SetupError::LengthMismatch) => unreachable!(),
        Err(SetupError::PreprocessedHeight { .. }) => unreachable!(),
        Err(SetupError::Pcs { .. }) => unreachable!(),
        Err(SetupError::LookupBudget { .. }) => unreachable!(),
    }
}

// The prover's data of instances. The only error is running out of memory.
pub(crate) fn instances_data<A: Air<BabyBear>>(
    alloc: Global,
    config: &ToolConfig,
    instances: &[StarkInstance<'_, ToolConfig, A>],
) -> Mem<ProverData<ToolConfig>>
    requires scheme { config.now.pcs ≡ record { log_blowup = 1 } }
    requires shaped { All (IsShaped (tool_setting V2) A.declaration A.trees A.interactions)
        instances.now }
    requires widths { HaveOneWidth
        (flat_map (λ a. lookups_of (A.interactions a)) (airs_of instances.now)) }
    ensures common { IfOk result
        (λ d. read_common d.common
        ≡ airs_common A.declaration A.trees A.interactions (airs_of instances.now)
        (bits_of 0 instances.now)) }
    ensures formed { IfOk result
        (λ d. WellFormed (map A.declaration (airs_of instances.now)) (read_common d.common)) }
    ensures prover_data { IfOk result
        (λ d. IsPrepared (plain_commits tool_scheme)
        (prepared_entries A.declaration A.trees A.interactions (airs_of instances.now)
        (bits_of 0 instances.now))
        (prepared_traces A.declaration A.trees A.interactions (airs_of instances.now)
        (bits_of 0 instances.now)) d.common.preprocessed d.prover_only.preprocessed_prover_data) }
{
    match ProverData::<ToolConfig>::from_instances(alloc, config, instances) {
        Ok(data) => Ok(data),
        Err(SetupError::OutOfMemory) => Err(AllocError),
        Err(SetupError::LengthMismatch) => unreachable!(),
        Err(SetupError::PreprocessedHeight { .. }) => unreachable!(),
        Err(SetupError::Pcs { .. }) => unreachable!(),
        Err(SetupError::LookupBudget { .. }) => unreachable!(),
    }
}
