//! The text of a proof alone, and its fields.

use crate::printing::print_text;
use p3_field::{BabyBear, Mem};
use std::io;
use tool_lines::{Form, ListOf};
use tool_proof_text::{
    CommitmentText, DegreeText, PreprocessedText, TerminalText, ToolProof, ValuesText,
    read_proof_part, write_proof_part,
};

/// Calls of the proof whose text begins at a byte of this one, at the first if the word is no number; prints why there is none. `part` appends
/// the proof's text to a line, and `field` prints the field that the word names.
pub fn proof<R: Print + AllocGlobal>(
    rt: &R,
    call: &str,
    text: &[u8],
    words: &[&str],
) -> io::Result<()> {
    let word = words.first().copied().unwrap_or("");
    let from = word.parse::<usize>().unwrap_or(0);
    if from > text.len() {
        return rt.println("bad case");
    }
    let proof = match read_proof_part(rt.alloc(), text, from) {
        Ok(proof) => proof,
        Err(error) => return println!(rt; "{error:?}"),
    };
    let mut out = Vec::new(rt.alloc());
    if call == "field" {
        push_field(&proof, word, &mut out)?;
    } else {
        out.extend_from_slice(b"head\n")?;
        write_proof_part(rt.alloc(), &proof, &mut out)?;
    }
    print_text(rt, &out)
}

// Appends the text of a field of a proof.
fn push_field(proof: &ToolProof, name: &str, out: &mut Vec<u8>) -> Mem<()> {
    let commitments = &proof.commitments;
    match name {
        "main" => CommitmentText::print(&commitments.main, out),
        "permutation" => Option::<CommitmentText>::print(&commitments.permutation, out),
        "quotient_chunks" => CommitmentText::print(&commitments.quotient_chunks, out),
        "random" => Option::<CommitmentText>::print(&commitments.random, out),
        "lookup_terminals" => ListOf::<Option<TerminalText>, 2>::print(
            &proof.lookup_terminals,
            out,
        ),
        "degree_bits" => ListOf::<DegreeText, 2>::print(&proof.degree_bits, out),
        "lookup_pow_witness" => Option::<BabyBear>::print(&proof.lookup_pow_witness, out),
        "ood_pow_witness" => BabyBear::print(&proof.ood_pow_witness, out),
        _ => push_opened(proof, name, out),
    }
}

// Appends the text of a field of the values that are opened of a table, as of `0.trace_local`.
fn push_opened(proof: &ToolProof, name: &str, out: &mut Vec<u8>) -> Mem<()> {
    let (table, name) = name.split_once('.').unwrap_or(("", ""));
    let Some(opened) = proof.instances().get(table.parse::<usize>().unwrap_or(0)) else {
        return Ok(());
    };
    let base = &opened.base_opened_values;
    match name {
        "trace_local" => ValuesText::print(&base.trace_local, out),
        "trace_next" => Option::<ValuesText>::print(&base.trace_next, out),
        "preprocessed" => Option::<PreprocessedText>::print(&base.preprocessed, out),
        "quotient_chunks" => ListOf::<ValuesText, 2>::print(&base.quotient_chunks, out),
        "random" => Option::<ValuesText>::print(&base.random, out),
        "permutation_local" => ValuesText::print(&opened.permutation_local, out),
        "permutation_next" => ValuesText::print(&opened.permutation_next, out),
        _ => Ok(()),
    }
}
