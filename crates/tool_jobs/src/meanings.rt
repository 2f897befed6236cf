//! What holds of jobs: a law as the contract of a function that computes nothing.
ghost use Rattle.std.specs.Prelude.{◌≡◌, List, map};
ghost use Rattle.p3_field.specs.Ring.{Ring};
ghost use Rattle.law_tool_valid.specs.Job.{AreAirsOf, JobTable, source_of_job};
ghost use Rattle.batch_setup.specs.Packed.{source_of};
ghost use Rattle.tool_tables.specs.Tool.{tool_declaration, tool_interactions, tool_trees};
ghost use Rattle.tool_tables.specs.declared.tool.ToolAir.{ToolAir};

/// AIRs that declare, constrain and send what a job's tables do are the job's (not in Plonky3). So are those that `airs_of` of
/// `tool_statement` makes for the statements of [`statements_of`](crate::statements_of).
pub fn airs_are_the_jobs<F>()
    ensures { (r : Ring F) (job : List (JobTable F)) (airs : List (ToolAir F))
        → map (source_of (tool_declaration r) (tool_trees r) (tool_interactions r)) airs
        ≡ map (source_of_job r) job → AreAirsOf r job airs }
{}
