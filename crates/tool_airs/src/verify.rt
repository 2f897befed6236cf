//! Verifying tables.
ghost use Rattle.std.specs.Prelude.{◌≡◌, ◌<◌, ℕ, IfOk, flat_map, length, map};
ghost use Rattle.std.specs.Prelude.{slice_index_or as get_or};
ghost use Rattle.p3_lookup.specs.Bus.{HaveOneWidth};
ghost use Rattle.p3_lookup.specs.Lookup.{lookups_of};
ghost use Rattle.batch_setup.specs.SetupChecks.{AreWithinBounds};
ghost use Rattle.batch_statement.specs.Verdict.{IsVerdict};
ghost use Rattle.p3_field.specs.Quartic.{quartic_inv};
ghost use Rattle.law_balance.specs.Accepted.{BalanceUnlessUnlucky};
ghost use Rattle.law_committed.specs.Committed.{Holds};
ghost use Rattle.law_committed.specs.Fields.{baby_bear_field, quartic_extension};
ghost use Rattle.law_soundness.specs.CommittedBatch.{committed_table_at};
ghost use Rattle.law_soundness.specs.Meaning.{CommittedTablesHold, HoldUnlessUnlucky};
ghost use Rattle.law_soundness.specs.OpenedBatch.{AllHaveColumns};
ghost use Rattle.verifier_batch.specs.BatchChecks.{checks};
ghost use Rattle.transcript_version.specs.declared.TranscriptVersion.TheVariants.{V2};
ghost use Rattle.tool_statement.specs.Config.{tool_backend, tool_setting};
ghost use Rattle.tool_airs.specs.Airs.{HasFewUnlucky, HaveHeights, airs_statement, same_value};

use crate::setup::prover_data;
use air_core::{Air, BaseAir};
use batch_config::Settings;
use batch_statement::{BatchProof, BatchVerificationError};
use law_balance::accepted_balances;
use law_soundness::{accepted_holds, few_challenges_are_unlucky};
use p3_field::{BabyBear, FieldCore, RingCore};
use p3_uni_stark::TranscriptVersion;
use plain_pcs::PlainError;
use std::alloc::Global;
use tool_statement::{ToolConfig, tool_config};
use verifier_batch::verify_batch;

/// Whether a proof of the tables of these AIRs is accepted, with these public values, over the program's configuration: Ok exactly where no check of
/// the batch verifier fails, and else the refusal of the first that does (`verdict`). The shared data is made for tables of 2^`log_heights` rows,
/// at most 2^26; that the proof has these heights is [`crate::check_height`]'s to say. Out of memory may come in place of any answer.
///
/// The preprocessed traces have these heights, and the tuples that the AIRs send on one bus have one width.
///
/// Where it is Ok, every constraint of every table is zero on each row of the committed polynomials, or the drawn alpha or the drawn zeta is
/// unlucky (`holds`); where all tables hold, each does with the constraints of its AIR alone (`own`). The tables have the declared columns
/// (`columns`), and how few alphas and zetas are unlucky is bounded by sums over the tables (`few`). What the tables send to each other balances in the
/// field, or the drawn lookup pair, alpha or zeta is unlucky (`balance`).
pub fn verify_airs<A: Air<BabyBear>>(
    alloc: Global,
    airs: &[A],
    log_heights: &[usize],
    proof: &BatchProof<ToolConfig>,
    public_values: &[Vec<BabyBear>],
) -> Result<(), BatchVerificationError<PlainError>>
    requires counted { length log_heights.now ≡ length airs.now }
    requires bits { AreWithinBounds 0 26 log_heights.now }
    requires heights { HaveHeights A.declaration airs.now log_heights.now }
    requires widths { HaveOneWidth (flat_map (λ a. lookups_of (A.interactions a)) airs.now) }
    ensures verdict { let s = airs_statement A.declaration A.trees A.interactions airs.now
        log_heights.now (map (λ v. v.items) public_values.now) in
        IsVerdict (checks (tool_setting V2) tool_backend s proof.now) result }
    ensures holds { let s = airs_statement A.declaration A.trees A.interactions airs.now
        log_heights.now (map (λ v. v.items) public_values.now) in
        IfOk result (λ _. HoldUnlessUnlucky (tool_setting V2) 1 s proof.now) }
    ensures own { let s = airs_statement A.declaration A.trees A.interactions airs.now
        log_heights.now (map (λ v. v.items) public_values.now) in
        IfOk result (λ _. CommittedTablesHold (tool_setting V2) 1 s proof.now → (i : ℕ) (air : A)
        → i < length airs.now
        → Holds baby_bear_field quartic_extension
        (committed_table_at (tool_setting V2) 1 s proof.now i) (A.trees (get_or airs.now i air))) }
    ensures columns { let s = airs_statement A.declaration A.trees A.interactions airs.now
        log_heights.now (map (λ v. v.items) public_values.now) in
        IfOk result (λ _. AllHaveColumns (tool_setting V2) 1 s proof.now) }
    ensures balance { let s = airs_statement A.declaration A.trees A.interactions airs.now
        log_heights.now (map (λ v. v.items) public_values.now) in
        IfOk result (λ _. BalanceUnlessUnlucky (tool_setting V2) 1 s proof.now same_value
        quartic_inv) }
    ensures few { let s = airs_statement A.declaration A.trees A.interactions airs.now
        log_heights.now (map (λ v. v.items) public_values.now) in
        IfOk result (λ _. HasFewUnlucky s proof.now) }
{
    let config = tool_config(TranscriptVersion::V2);
    let common = prover_data(alloc, &config, airs, log_heights)?.common;
    verify_batch(alloc, &config, airs, proof, public_values, &common)?;
    accepted_holds(&config, airs, proof, public_values, &common);
    accepted_balances(&config, airs, proof, public_values, &common);
    few_challenges_are_unlucky(&config, airs, proof, public_values, &common);
    Ok(())
}
