//! Whether the heights of the stated tables are those of the proof.
ghost use Rattle.std.specs.Prelude.{length, min};
ghost use Rattle.p3_field.specs.Checks.{FirstFailing};
ghost use Rattle.tool_statement.specs.StatedTables.{HasStatedHeight};

use tool_statement::TableStatement;

/// The number of the first table, below both lengths, whose degree bits aren't the logarithm of its stated height, or None where there is
/// none.
pub fn first_mismatch(tables: &[TableStatement], degree_bits: &[usize]) -> Option<usize>
    ensures { FirstFailing (min (length tables.now) (length degree_bits.now))
        (HasStatedHeight tables.now degree_bits.now) result }
{
    let count = tables.len().min(degree_bits.len());
    for i in 0..count {
        if tables[i].log_height() != degree_bits[i] {
            return Some(i);
        }
    }
    None
}
