//! The checks of what a batch proof opens, where its script was folded.
ghost use Rattle.std.specs.Prelude.{◌≡◌, count_by, length, map, OnOk};
ghost use Rattle.batch_statement.specs.Statement.{WellFormed, read_common, stated};
ghost use Rattle.batch_statement.specs.Words.{has_some};
ghost use Rattle.batch_statement.specs.declared.error.BatchVerificationError.TheVariants.{OutOfMemory};
ghost use Rattle.verifier_batch.specs.BatchChecks.{drawn_of};
ghost use Rattle.verifier_batch.specs.OpeningChecks.{HasShapeFor, AreLogChunks};
ghost use Rattle.audit_script.specs.Steps.{draws_told};
ghost use Rattle.audit_batch.specs.Audit.{parts_of};
ghost use Rattle.audit_batch.specs.Opened.{AreOpened};

use crate::claims::name_claims;
use crate::identities::name_identities;
use crate::naming::name_answer;
use crate::script::lookup_challenges;
use air_core::{Air, BaseAir};
use audit_script::ScriptDraws;
use batch_config::Settings;
use batch_statement::{BatchProof, BatchVerificationError, CommonData};
use commit_core::{CosetPcs, Pcs, PolynomialSpace, UnivariateStarkPcs};
use p3_field::{
    BasedVectorSpace, ExtensionField, Field, FieldCore, Mem, PrimeCharacteristicRing, PrimeCore64,
    PrimeField64, RingCore, TwoAdicCore, TwoAdicField,
};
use p3_uni_stark::{Challenge, Challenger, PcsError, StarkGenericConfig, Val};
use std::alloc::{AllocError, Global};
use verifier_batch::{opened_claims, proof_claims, shape_bounds};

// A refusal that is of memory ends the naming.
fn has_memory<R: Drop>(refusal: BatchVerificationError<R>) -> Mem<()>
    ensures { OnOk result (refusal ≡ OutOfMemory → ⊥) }
{
    match refusal {
        BatchVerificationError::OutOfMemory => Err(AllocError),
        _ => Ok(()),
    }
}

/// Names the claims that can't be made; where all can, the backend's fault and the tables whose identities fail. The proof's shape is right, `chunks` has for
/// each table the logarithm of the number of its quotient's chunks before masking, and these are the draws along the script, with so many
/// tables that have lookups.
pub(crate) fn name_openings<SC: StarkGenericConfig, A: Air<Val<SC>>>(
    faults: &mut Vec<BatchVerificationError<PcsError<SC>>>,
    alloc: Global,
    config: &SC,
    airs: &[A],
    proof: &BatchProof<SC>,
    public_values: &[Vec<Val<SC>>],
    common: &CommonData<SC>,
    chunks: &[usize],
    tables: usize,
    draws: ScriptDraws<Challenger<SC>, Challenge<SC>>,
) -> Mem<()>
    requires formed { WellFormed (map A.declaration airs.now) (read_common common.now) }
    requires shape { HasShapeFor SC.Pcs.Error SC.Val.ring (⟦<SC as Settings>⟧.setting config.now)
        (stated A.declaration A.trees airs.now public_values.now common.now) proof.now }
    requires chunks { AreLogChunks (⟦<SC as Settings>⟧.setting config.now)
        (stated A.declaration A.trees airs.now public_values.now common.now) proof.now
        (length airs.now) chunks.now }
    requires tables { tables ≡ count_by has_some (read_common common.now).lookups }
    requires draws { let statement = stated A.declaration A.trees airs.now public_values.now
        common.now in
        draws_told draws ≡ drawn_of (⟦<SC as Settings>⟧.setting config.now) statement proof.now }
    ensures { let statement = stated A.declaration A.trees airs.now public_values.now common.now in
        OnOk result (AreOpened (parts_of (⟦<SC as Settings>⟧.setting config.now)
        (⟦<SC as Settings>⟧.backend config.now) statement proof.now) faults.old.items
        faults.new.items) }
{
    let challenges = lookup_challenges(alloc, tables, &common.lookups, &draws)?;
    let (alpha, zeta, challenger) = (draws.alpha, draws.zeta, draws.challenger);
    let made = proof_claims(
        alloc,
        config,
        airs,
        public_values,
        common,
        proof,
        chunks,
        zeta,
    );
    match made {
        Ok(made) => {
            let (claims, domains, place) = made;
            let opening = &proof.opening_proof;
            let opened = opened_claims(alloc, config, claims, opening, challenger, place);
            name_answer(faults, opened)?;
            let bounds = shape_bounds(config);
            name_identities(
                faults,
                alloc,
                airs,
                public_values,
                common,
                proof,
                bounds,
                &challenges,
                &domains,
                alpha,
                zeta,
            )?;
            Ok(())
        }
        Err(refusal) => {
            has_memory(refusal)?;
            name_claims(faults, config, airs, proof, public_values, common, chunks)?;
            Ok(())
        }
    }
}
