//! The tables whose stated heights aren't those of the proof.

ghost use Rattle.std.specs.Prelude.{length, min, IfOk};
ghost use Rattle.p3_field.specs.Checks.{numbers};
ghost use Rattle.audit_batch.specs.Asked.{AreNamed, always};
ghost use Rattle.tool_statement.specs.StatedTables.{HasStatedHeight};

use p3_field::Mem;
use std::alloc::Global;
use tool_statement::TableStatement;

/// The numbers of all tables, below both lengths, whose degree bits aren't the logarithms of their stated heights, in order. The only error is
/// running out of memory.
pub(crate) fn mismatched_heights(
    alloc: Global,
    tables: &[TableStatement],
    degree_bits: &[usize],
) -> Mem<Vec<usize>>
    ensures { IfOk result (λ v.
        AreNamed (always (numbers (min (length tables.now) (length degree_bits.now))
        (HasStatedHeight tables.now degree_bits.now))) v.items) }
{
    let count = tables.len().min(degree_bits.len());
    let mut heights = Vec::new(alloc);
    for table in 0..count {
        if tables[table].log_height() != degree_bits[table] {
            heights.push(table)?;
        }
    }
    Ok(heights)
}
