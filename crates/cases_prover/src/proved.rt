//! Proofs of tables whose shapes are tested as the program runs.
ghost use Rattle.std.specs.Prelude.{IfOk, IfSome, map};
ghost use Rattle.batch_setup.specs.Setup.{airs_of};
ghost use Rattle.batch_statement.specs.Statement.{WellFormed, read_common};

use air_core::{Air, BaseAir};
use batch_config::Settings;
use batch_setup::{ProverData, StarkInstance, lent_airs};
use batch_statement::{BatchProof, CommonData, airs_have_one_width};
use commit_core::{PolynomialSpace, UnivariateStarkPcs};
use law_committed::fields::baby_bear_has_laws;
use p3_field::{BabyBear, FieldCore, Mem, RingCore, TwoAdicCore};
use prover_answer::{Batches, ProverSettings};
use prover_batch::prove_batch;
use std::alloc::Global;
use tool_shaped::are_shaped;
use tool_statement::ToolConfig;
use verifier_batch::verify_batch;

/// A proof of tables, and what their prover and their verifier share.
#[derive(Drop)]
pub struct Proved {
    /// The proof.
    pub proof: BatchProof<ToolConfig>,
    /// What both share.
    pub common: CommonData<ToolConfig>,
}

/// The tables' proof by `prove_batch`; None where their shapes, or the widths of what they send, aren't those that it asks for, and where it answers
/// an error.
pub fn own_proof<A: Air<BabyBear>>(
    alloc: Global,
    config: &ToolConfig,
    instances: &[StarkInstance<'_, ToolConfig, A>],
) -> Mem<Option<Proved>>
    ensures { IfOk result (λ o. IfSome o (λ p.
        WellFormed (map A.declaration (airs_of instances.now)) (read_common p.common))) }
{
    baby_bear_has_laws();
    let airs = lent_airs(alloc, instances)?;
    let shaped = are_shaped(alloc, config, instances)?;
    let even = airs_have_one_width(alloc, &airs)?;
    if !shaped || !even {
        return Ok(None);
    }
    let data = match ProverData::<ToolConfig>::from_instances(alloc, config, instances) {
        Ok(data) => data,
        Err(_) => return Ok(None),
    };
    match prove_batch(alloc, config, instances, &data) {
        Ok(proof) => Ok(Some(Proved {
            proof,
            common: data.common,
        })),
        Err(_) => Ok(None),
    }
}

/// What `verify_batch` says of a proof of these tables, as text.
pub fn said<A: Air<BabyBear>>(
    alloc: Global,
    config: &ToolConfig,
    instances: &[StarkInstance<'_, ToolConfig, A>],
    publics: &[Vec<BabyBear>],
    proved: &Proved,
) -> Mem<String>
    requires { WellFormed (map A.declaration (airs_of instances.now))
        (read_common proved.now.common) }
{
    let airs = lent_airs(alloc, instances)?;
    let said = verify_batch(alloc, config, &airs, &proved.proof, publics, &proved.common);
    format!(in alloc; "{said:?}")
}
