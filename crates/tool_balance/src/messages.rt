//! What the tables of an accepted proof send.
ghost use Rattle.std.specs.Prelude.{◌≡◌, ◌<◌, ◌++◌, All, IfOk, OnOk, length};
ghost use Rattle.p3_lookup.specs.Messages.{table_messages as messages_of};
ghost use Rattle.p3_lookup.specs.Written.{read_all};
ghost use Rattle.transcript_version.specs.declared.TranscriptVersion.{TranscriptVersion};
ghost use Rattle.tool_statement.specs.StatedTables.{TableWithin, packed_lookups_at};
ghost use Rattle.tool_verifier.specs.FileAnswer.{IsAccepted};
ghost use Rattle.tool_balance.specs.FileBalance.{sent_messages};
ghost use Rattle.tool_balance.specs.Senders.{HasMatrixOf, sender_at};

use crate::matrices::tables_have_matrices;
use crate::rows::committed_rows;
use p3_field::{BabyBear, Mem};
use p3_lookup::Lookup;
use p3_uni_stark::TranscriptVersion;
use stark_balance::{Message, table_messages};
use std::alloc::Global;
use tool_proof_text::ToolProof;
use tool_statement::{TableStatement, airs_of, shared_data, tool_config};

// Appends what a table sends, row by row. Each lookup of a statement's tables is on bus 0, and a table has one at most. On an error a part may stand.
fn push_table(
    alloc: Global,
    messages: &mut Vec<Message<BabyBear>>,
    tables: &[TableStatement],
    proof: &ToolProof,
    lookups: &[Lookup<BabyBear>],
    table: usize,
) -> Mem<()>
    requires exists { table < length tables.now }
    requires matrix { HasMatrixOf tables.now proof.now table }
    requires lookups { read_all lookups.now ≡ packed_lookups_at tables.now table }
    ensures { OnOk result ((version : TranscriptVersion)
        → messages.new.items ≡ messages.old.items
        ++ messages_of (sender_at version tables.now proof.now table)) }
{
    if lookups.is_empty() {
        return Ok(());
    }
    let log_height = tables[table].log_height();
    let rows = committed_rows(alloc, &proof.commitments.main, table, log_height)?;
    let mut sent = table_messages(alloc, &rows, None, &[], lookups, &[0])?;
    messages.append(&mut sent)?;
    Ok(())
}

/// What the tables of an accepted proof send, table by table and row by row. The only error is running out of memory.
pub(crate) fn messages_of_tables(
    alloc: Global,
    version: TranscriptVersion,
    tables: &[TableStatement],
    proof: &ToolProof,
) -> Mem<Vec<Message<BabyBear>>>
    requires within { All TableWithin tables.now }
    requires accepted { IsAccepted version tables.now proof.now }
    ensures { IfOk result (λ v. v.items ≡ sent_messages version tables.now proof.now) }
{
    let config = tool_config(version);
    let airs = airs_of(alloc, tables)?;
    let common = shared_data(alloc, &config, tables, &airs)?;
    tables_have_matrices(version, tables, proof);
    let mut messages = Vec::new(alloc);
    for table in 0..tables.len() {
        let lookups = common.lookups[table].as_slice();
        push_table(alloc, &mut messages, tables, proof, lookups, table)?;
    }
    Ok(messages)
}
