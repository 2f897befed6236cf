//! What `balance` answers for a proof file.
ghost use Rattle.std.specs.Prelude.{◌≡◌, All, IfOk};
ghost use Rattle.tool_proof_files.specs.Files.{FileWithin, version_of};
ghost use Rattle.tool_statement.specs.StatedTables.{TableWithin};
ghost use Rattle.tool_verifier.specs.FileAnswer.{IsAccepted};
ghost use Rattle.tool_balance.specs.FileBalance.{IsFileBalance, balance_text as text_of_balance};

use crate::messages::messages_of_tables;
use crate::nets::push_nets_line;
use p3_field::Mem;
use p3_uni_stark::TranscriptVersion;
use stark_balance::net_counts;
use std::alloc::Global;
use tool_proof_files::ProofFile;
use tool_proof_text::ToolProof;
use tool_statement::TableStatement;
use tool_verifier::{Answer, Status, answer_verify};

// The text where the proof is accepted: `accepted`, and the line of the nets.
fn balance_text(
    alloc: Global,
    version: TranscriptVersion,
    tables: &[TableStatement],
    proof: &ToolProof,
) -> Mem<Vec<u8>>
    requires within { All TableWithin tables.now }
    requires accepted { IsAccepted version tables.now proof.now }
    ensures { IfOk result (λ v. v.items ≡ text_of_balance version tables.now proof.now) }
{
    let messages = messages_of_tables(alloc, version, tables, proof)?;
    let nets = net_counts(alloc, &messages)?;
    let mut text = Vec::from_slice(alloc, b"accepted\n")?;
    push_nets_line(&mut text, &nets)?;
    Ok(text)
}

/// What `balance` answers for this file (not in Plonky3), which is within its limits: the refusal of
/// [`answer_verify`](tool_verifier::answer_verify), or `Done` with `accepted` and one line more, of what is left over of all that the tables send to each other
/// on the rows that the proof commits to. It is `balanced n` where n pairs of bus and tuple are sent, and for each the counts sum to zero in the field. Else
/// it is `unbalanced b` and the tuple's values in decimal, of the first pair that leaves something over, by the bus b and then by these values. Where it isn't
/// `balanced n`, the drawn lookup pair, alpha or zeta is unlucky. The only error is running out of memory.
pub fn answer_balance(alloc: Global, file: &ProofFile) -> Mem<Answer>
    requires { FileWithin file.now }
    ensures { IfOk result (λ a.
        IsFileBalance (version_of file.now.version) file.now.tables file.now.proof a.status
        a.text.items) }
{
    let answer = answer_verify(alloc, file)?;
    match answer.status {
        Status::Done => Ok(Answer {
            status: Status::Done,
            text: balance_text(alloc, file.transcript_version(), &file.tables, &file.proof)?,
        }),
        _ => Ok(answer),
    }
}
