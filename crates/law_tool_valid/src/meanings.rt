//! What holds of jobs: laws as the contracts of functions that compute nothing.
ghost use Rattle.std.specs.Prelude.{◌≡◌, ℕ, ◌^◌, ◌<◌, ◌≤◌, Bool, List, [], length, map, All, Option};
ghost use Rattle.p3_challenger.specs.Script.{ChallengerOf};
ghost use Rattle.p3_field.specs.Domain.{CosetData};
ghost use Rattle.p3_field.specs.Field.{TwoAdic, Extension};
ghost use Rattle.p3_field.specs.Poly.{tabulate};
ghost use Rattle.p3_field.specs.Quartic.{quartic_inv};
ghost use Rattle.p3_field.specs.Ring.{Ring};
ghost use Rattle.p3_matrix.specs.Matrix.{Rows};
ghost use Rattle.p3_lookup.specs.Lookup.{lookups_of};
ghost use Rattle.batch_constraints.specs.BatchTrees.{table_trees};
ghost use Rattle.batch_constraints.specs.Fitting.{FitsChunks};
ghost use Rattle.batch_constraints.specs.Sizing.{periods_of};
ghost use Rattle.batch_config.specs.Setting.{Setting};
ghost use Rattle.batch_setup.specs.Packed.{packed_at, source_of};
ghost use Rattle.batch_setup.specs.Preprocessed.{IsPrepared, committed_below, entry_at};
ghost use Rattle.verifier_shape.specs.ShapeChecks.{chunks_of_table};
ghost use Rattle.batch_statement.specs.Statement.{Common, WellFormed, tables_of};
ghost use Rattle.law_committed.specs.Committed.{Holds};
ghost use Rattle.law_committed.specs.Fields.{FieldsLaws};
ghost use Rattle.law_committed.specs.Traces.{committed_traces};
ghost use Rattle.law_valid.specs.Traced.{no_rows, traces_of};
ghost use Rattle.law_valid.specs.Valid.{Valid};
ghost use Rattle.transcript_version.specs.declared.TranscriptVersion.{TranscriptVersion};
ghost use Rattle.tool_tables.specs.Tool.{tool_declaration, tool_interactions, tool_trees};
ghost use Rattle.tool_tables.specs.declared.tool.ToolAir.{ToolAir};
ghost use Rattle.law_tool_valid.specs.Job.{AreAirsOf, IsJob, IsJobTableWithin, JobTable, job_table, job_log_height_of, log_parts_of, job_publics_of, source_of_job, trace_of, traced_job};
ghost use Rattle.law_tool_valid.specs.Serves.{ServesJobs, ServesTable, baby_bear_setting};

use p3_field::{BabyBear, QuarticExtension};

/// A configuration over `BabyBear` and its quartic extension serves for jobs, where its backend masks nothing and takes traces of
/// one row and of up to 2^10 rows.
pub fn baby_bear_serves_jobs<C, Com>()
    ensures { (challenger : ChallengerOf C BabyBear QuarticExtension Com) (initial : C)
        (log_max lookup_bits ood_bits : ℕ)
        (version : TranscriptVersion) → 10 ≤ log_max
        → ServesJobs (baby_bear_setting challenger initial log_max lookup_bits ood_bits version)
        quartic_inv }
{}

/// The traces of a job's table meet its AIR's constraints: each is zero on each row of the table that is committed to as the
/// interpolants of their columns. So rows that swap meet those of a swap table, the numbers times 3 and 5 in turn that of
/// a wheel, and rows of compressions those of a hash table; the tables of words have none. Of a hash table alone it is a premise that
/// the constraints of compressions mean compressions over the field (`ServesTable`): `row_means` of `blake3_prime` has that for each
/// prime field of more than 2^20 elements.
pub fn a_jobs_table_holds<F, E>()
    ensures { (f : TwoAdic F) (e : Extension F E) (top : ℕ) (inverse : E → E) (j : JobTable F)
        → FieldsLaws f e top inverse → IsJobTableWithin j → ServesTable f.ring j
        → job_log_height_of j ≤ top
        → Holds f e (committed_traces f e (traces_of (traced_job f.ring j)) no_rows [] []
        (job_log_height_of j)) (source_of_job f.ring j).trees }
{}

/// All constraints of a job's table, those of its lookups among them, fit any number of chunks from that of the table's sizing on,
/// over any number of rows (`fits`). The sizing is two chunks for a hash table and one for the others (`sized`), so these fit any
/// number of chunks but none.
pub fn a_jobs_table_fits<F>()
    ensures fits { (r : Ring F) (j : JobTable F) (n chunks : ℕ) → 0 < n
        → 2 ^ chunks_of_table r 0 n (job_table r j) (lookups_of (source_of_job r j).interactions)
        ≤ chunks
        → All (FitsChunks n (periods_of (source_of_job r j).declaration) chunks)
        (table_trees r (source_of_job r j).trees (lookups_of (source_of_job r j).interactions)) }
    ensures sized { (r : Ring F) (j : JobTable F) (n : ℕ) → 0 < n
        → chunks_of_table r 0 n (job_table r j) (lookups_of (source_of_job r j).interactions)
        ≡ log_parts_of j }
{}

/// Every job is valid: at most eight tables within the limits, in which each word is taken as often as it is given. The AIRs are
/// those that the program makes for it (`AreAirsOf`), and the common data is what `ProverData::from_airs_and_degrees` makes for
/// these: their lookups, packed within any budgets, the commitment to their preprocessed traces with its entries; it is
/// well-formed. The configuration serves for jobs, and its backend's commitment is `commitment_of`, as one that masks nothing has it.
pub fn every_job_is_valid<C, F, E, Com, PD>()
    ensures { (c : Setting C F E Com) (inverse : E → E) (eq : F → F → Bool)
        (job : List (JobTable F)) (airs : List (ToolAir F)) (budgets : List ℕ)
        (commitment_of : List (CosetData F × Rows F) → Com) (common : Common F Com)
        (kept : Option PD)
        → ServesJobs c inverse → IsJob eq job → AreAirsOf c.field.ring job airs
        → let sources = map (source_of (tool_declaration c.field.ring) (tool_trees c.field.ring)
        (tool_interactions c.field.ring)) airs in let bits = map job_log_height_of job in
        common.lookups ≡ tabulate (length airs) (packed_at c.field.ring 0 sources bits budgets)
        → IsPrepared {P = PD} (λ es w. w.0 ≡ commitment_of es)
        (tabulate (length airs) (entry_at c.field.ring.one sources bits))
        (committed_below c.field.ring.one sources bits (length airs)) common.preprocessed kept
        → WellFormed (map (tool_declaration c.field.ring) airs) common
        → Valid c eq commitment_of (record {
          tables = tables_of (tool_declaration c.field.ring) (tool_trees c.field.ring) airs;
          publics = map job_publics_of job;
          common = common;
        }) (map (trace_of c.field.ring) job) bits }
{}
