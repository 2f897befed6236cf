//! That jobs are valid when a configuration has set them up: a law as the contract of a function that computes nothing.
ghost use Rattle.std.specs.Prelude.{ℕ, ◌≡◌, List, length, map, Option};
ghost use Rattle.p3_field.specs.Poly.{tabulate};
ghost use Rattle.commit_core.specs.Commitments.{IsCommitment};
ghost use Rattle.batch_setup.specs.Packed.{packed_at, source_of};
ghost use Rattle.batch_setup.specs.Preprocessed.{IsPrepared, committed_below, entry_at};
ghost use Rattle.batch_statement.specs.Statement.{Common, WellFormed, tables_of};
ghost use Rattle.law_valid.specs.Valid.{Valid};
ghost use Rattle.tool_tables.specs.Tool.{tool_declaration, tool_interactions, tool_trees};
ghost use Rattle.tool_tables.specs.declared.tool.ToolAir.{ToolAir};
ghost use Rattle.law_tool_valid.specs.Job.{AreAirsOf, IsJob, JobTable, job_log_height_of, job_publics_of, trace_of};
ghost use Rattle.law_tool_valid.specs.Serves.{ServesJobs};

use batch_config::Settings;
use commit_core::{CosetPcs, Pcs, PolynomialSpace, UnivariateStarkPcs};
use p3_field::{
    BasedVectorSpace, ExtensionField, Field, FieldCore, PrimeCharacteristicRing, PrimeCore64,
    PrimeField64, RingCore, TwoAdicCore, TwoAdicField,
};
use p3_uni_stark::{StarkGenericConfig, Val};

/// Every job is valid with the common data that `ProverData::from_airs_and_degrees_with_lookup_budgets` makes for it: what that
/// promises of the lookups, of the preprocessed traces and of the whole are the premises, and the backend's commitment is its own.
pub fn every_job_that_is_set_up_is_valid<SC: StarkGenericConfig>()
    ensures { (config : SC) (job : List (JobTable SC.Val)) (airs : List (ToolAir SC.Val))
        (budgets : List ℕ) (common : Common SC.Val SC.Pcs.Commitment)
        (kept : Option SC.Pcs.ProverData)
        → let c = ⟦<SC as Settings>⟧.setting config in
        ServesJobs c SC.Challenge.inv → IsJob SC.Val.eq job → AreAirsOf SC.Val.ring job airs
        → let sources = map (source_of (tool_declaration SC.Val.ring) (tool_trees SC.Val.ring)
        (tool_interactions SC.Val.ring)) airs in let bits = map job_log_height_of job in
        common.lookups ≡ tabulate (length airs) (packed_at SC.Val.ring 0 sources bits budgets)
        → IsPrepared (λ es p. IsCommitment SC.Val.ring
        ⟦<<SC::Pcs as Pcs<SC::Challenge, SC::Challenger>>::Domain as PolynomialSpace>⟧.points
        ⟦<<SC::Pcs as Pcs<SC::Challenge, SC::Challenger>>::Domain as PolynomialSpace>⟧.point_at
        (SC.Pcs.commits (SC.pcs_of config)) (SC.Pcs.made (SC.pcs_of config))
        (SC.Pcs.holds (SC.pcs_of config)) es p)
        (tabulate (length airs) (entry_at SC.Val.ring.one sources bits))
        (committed_below SC.Val.ring.one sources bits (length airs)) common.preprocessed kept
        → WellFormed (map (tool_declaration SC.Val.ring) airs) common
        → Valid c SC.Val.eq (SC.Pcs.commitment_of (SC.pcs_of config))
        (record {
          tables = tables_of (tool_declaration SC.Val.ring) (tool_trees SC.Val.ring) airs;
          publics = map job_publics_of job;
          common = common;
        }) (map (trace_of SC.Val.ring) job) bits }
{}
