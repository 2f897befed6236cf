//! The claims of a proof.

use crate::proofs::proof_of;
use crate::statement::Stated;
use crate::writing::{bad_case, push_word};
use commit_core::MatrixOpening;
use p3_field::{BabyBear, Mem, QuarticExtension, RingCore, TwoAdicMultiplicativeCoset};
use p3_uni_stark::TranscriptVersion;
use std::alloc::Global;
use tool_proof_text::CommitmentText;
use tool_statement::{ToolConfig, tool_config};
use verifier_claims::{OpeningArgumentWithQuotientDomains, commitments_with_opening_points};

// Appends of each matrix of a round how many points it is opened at, and the logarithm of its domain's size.
fn push_round(
    out: &mut String,
    matrices: &[MatrixOpening<QuarticExtension, TwoAdicMultiplicativeCoset<BabyBear>>],
) -> Mem<()> {
    for matrix in matrices {
        push_word(out, matrix.points.len())?;
        push_word(out, matrix.domain.log_size())?;
    }
    push_word(out, "/")
}

// The rounds of the claims, how many chunks each table has, and the place of the preprocessed round.
fn claims_text(
    alloc: Global,
    made: &OpeningArgumentWithQuotientDomains<ToolConfig>,
) -> Mem<String> {
    let (claims, domains, place) = made;
    let mut out = String::new(alloc);
    for round in claims {
        push_round(&mut out, &round.matrices)?;
    }
    for chunks in domains {
        push_word(&mut out, chunks.len())?;
    }
    push_word(&mut out, format_args!("{place:?}"))?;
    Ok(out)
}

/// The claims of a proof of one table at a point, where its quotient is said to have so many chunks, or the refusal's text.
pub fn claims(alloc: Global, stated: &Stated, head: &[u64], numbers: &[u64]) -> Mem<String> {
    let [zeta, log_chunks] = head else {
        return bad_case(alloc);
    };
    let Some(proof) = proof_of::<CommitmentText, QuarticExtension>(alloc, numbers)? else {
        return bad_case(alloc);
    };
    if !stated.common.fits(alloc, &stated.airs)? {
        return bad_case(alloc);
    }
    match commitments_with_opening_points(
        alloc,
        &tool_config(TranscriptVersion::V1),
        &stated.airs,
        QuarticExtension::from_u64(*zeta),
        &proof.commitments,
        &proof.opened_values,
        &stated.common,
        &proof.degree_bits,
        &[0],
        &[*log_chunks as usize],
    ) {
        Ok(made) => claims_text(alloc, &made),
        Err(error) => format!(in alloc; "{error}"),
    }
}
