//! What is made of a job, table by table.
ghost use Rattle.std.specs.Prelude.{◌≡◌, All, IfOk, map};
ghost use Rattle.p3_field.specs.BabyBear.{baby_bear_ring};
ghost use Rattle.tool_statement.specs.StatedTables.{TableWithin, log_heights_of, publics_lists, sources_of};
ghost use Rattle.law_tool_valid.specs.Job.{IsJobTableWithin, source_of_job, trace_of};
ghost use Rattle.law_tool_valid.specs.Job.{job_log_height_of as rows_log_of, job_publics_of as table_publics};
ghost use Rattle.tool_jobs.specs.Jobs.{read_tables};
ghost use Rattle.tool_jobs.specs.Stated.{statements_for};

use crate::table::JobTable;
use p3_field::{BabyBear, Mem};
use p3_matrix::RowMajorMatrix;
use std::alloc::Global;
use tool_statement::TableStatement;

// What is stated of a job's tables, in order.
fn all_statements(alloc: Global, job: &[JobTable]) -> Mem<Vec<TableStatement>>
    requires { All IsJobTableWithin (read_tables job.now) }
    ensures { IfOk result (λ v. v.items ≡ statements_for (read_tables job.now)) }
{
    let mut statements = Vec::with_capacity(alloc, job.len())?;
    for table in job {
        statements.push(table.statement())?;
    }
    Ok(statements)
}

/// What is stated of a job's tables, in order (not in Plonky3). The only error is running out of
/// memory.
pub fn statements_of(alloc: Global, job: &[JobTable]) -> Mem<Vec<TableStatement>>
    requires { All IsJobTableWithin (read_tables job.now) }
    ensures stated { IfOk result (λ v. v.items ≡ statements_for (read_tables job.now)) }
    ensures within { IfOk result (λ v. All TableWithin v.items) }
    ensures heights { IfOk result
        (λ v. log_heights_of v.items ≡ map rows_log_of (read_tables job.now)) }
    ensures publics { IfOk result
        (λ v. publics_lists v.items ≡ map table_publics (read_tables job.now)) }
    ensures sources { IfOk result
        (λ v. sources_of v.items ≡ map (source_of_job baby_bear_ring) (read_tables job.now)) }
{
    all_statements(alloc, job)
}

/// The traces of a job's tables in order (not in Plonky3). The only error is running out of memory.
pub fn traces_of(alloc: Global, job: &[JobTable]) -> Mem<Vec<RowMajorMatrix<BabyBear>>>
    requires { All IsJobTableWithin (read_tables job.now) }
    ensures { IfOk result (λ v. v.items ≡ map (trace_of baby_bear_ring) (read_tables job.now)) }
{
    let mut traces = Vec::with_capacity(alloc, job.len())?;
    for table in job {
        traces.push(table.trace(alloc)?)?;
    }
    Ok(traces)
}
