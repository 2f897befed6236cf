//! The lines of a statement's hash tables.
ghost use Rattle.std.specs.Prelude.{◌≡◌, ◌<◌, ◌++◌, IfOk, OnOk, length, slice_index_or};
ghost use Rattle.tool_hash_lines.specs.PrintedRows.{HasHashMatrices, printed_rows, table_lines};
ghost use Rattle.tool_statement.specs.declared.table.TableStatement.TheVariants.{Take};

use crate::columns::committed_columns;
use crate::rows::push_rows;
use p3_field::Mem;
use std::alloc::Global;
use tool_proof_text::ToolProof;
use tool_statement::TableStatement;

// Appends the lines of a table: of a hash table one for each row, and none of others. On an error a part may stand.
fn push_table(
    alloc: Global,
    text: &mut Vec<u8>,
    tables: &[TableStatement],
    proof: &ToolProof,
    table: usize,
) -> Mem<()>
    requires exists { table < length tables.now }
    requires matrices { HasHashMatrices tables.now proof.now }
    ensures { OnOk result (text.new.items ≡ text.old.items
        ++ table_lines tables.now proof.now table (slice_index_or tables.now table (Take 0))) }
{
    match &tables[table] {
        TableStatement::Hash { k } => {
            let polynomials = committed_columns(alloc, &proof.commitments.main, table)?;
            push_rows(alloc, text, &polynomials, *k as usize)
        }
        TableStatement::Swap { .. }
        | TableStatement::Wheel { .. }
        | TableStatement::Take { .. }
        | TableStatement::Give { .. } => Ok(()),
    }
}

/// The lines of the rows of a statement's hash tables (not in Plonky3), table by table and row by row, off the polynomials that the proof commits to, at
/// the points of each table's trace domain. A row's line has 44 words of 8 lower-case hexadecimal digits with a space between two: the 28 words that a
/// compression takes, and the 16 that it gives. A row that has a cell among theirs that is neither zero nor one has the line `row i unreadable`, where i
/// is its number in its table.
///
/// The proof has a matrix for each hash table, of the stated height and of 9168 columns, as an accepted proof does
/// ([`accepted_hash_matrices`](crate::accepted_hash_matrices)). The only error is running out of memory.
pub fn hash_lines(alloc: Global, tables: &[TableStatement], proof: &ToolProof) -> Mem<Vec<u8>>
    requires { HasHashMatrices tables.now proof.now }
    ensures { IfOk result (λ v. v.items ≡ printed_rows tables.now proof.now) }
{
    let mut text = Vec::new(alloc);
    for table in 0..tables.len() {
        push_table(alloc, &mut text, tables, proof, table)?;
    }
    Ok(text)
}
