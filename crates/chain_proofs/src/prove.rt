//! The honest proof of a chain.
ghost use Rattle.std.specs.Int.{IsPowerOfTwo};
ghost use Rattle.std.specs.Prelude.{◌≡◌, ◌≤◌, IfErr, IfOk, length};
ghost use Rattle.p3_field.specs.BabyBear.{baby_bear_ring};
ghost use Rattle.chain_air.specs.Generated.{IsChainTrace, chain_trace, end_of};
ghost use Rattle.chain_proofs.specs.Statement.{IsChainOutcome, IsChainRefusal};

use air_core::{Air, BaseAir};
use batch_setup::TableInstance;
use blake3_compress::TraceError;
use chain_air::{ChainAir, chain_end, chain_publics, chaining_fits, generate_chain_rows};
use law_chain::committed_tables_are_chains;
use law_committed::fields::baby_bear_has_laws;
use p3_field::{BabyBear, FieldCore, Mem, RingCore};
use p3_matrix::{RowMajorMatrix, log2_strict_usize};
use plain_pcs::PlainProverError;
use prover_answer::ProvingError;
use std::alloc::{AllocError, Global};
use tool_airs::prove_airs_with_point;
use tool_proof_text::ToolProof;
use tool_prover::avoids_subgroup;

// The trace of a chain of 1, 2, 4 or 8 blocks. The only error is running out of memory.
fn trace_of(alloc: Global, start: &[u32; 8], blocks: &[[u32; 16]]) -> Mem<RowMajorMatrix<BabyBear>>
    requires power { IsPowerOfTwo (length blocks.now) }
    requires few { length blocks.now ≤ 8 }
    ensures trace { IfOk result (λ m. m ≡ chain_trace baby_bear_ring start.now blocks.now) }
    ensures chain { IfOk result
        (IsChainTrace baby_bear_ring start.now (end_of start.now blocks.now)) }
{
    match generate_chain_rows(alloc, *start, blocks) {
        Ok(trace) => Ok(trace),
        Err(TraceError::OutOfMemory) => Err(AllocError),
        Err(TraceError::NotPowerOfTwo) => unreachable!(),
        Err(TraceError::TooLong) => unreachable!(),
        Err(TraceError::WrongCharacteristic) => unreachable!(),
        Err(TraceError::NoInput) => unreachable!(),
    }
}

/// The honest proof that these blocks, 1, 2, 4 or 8 of them, lead from the chaining value `start` to the one after the last block (not in Plonky3);
/// None where the point of its openings lies on the table's rows (`outcome`). Else the verifier accepts it. The error says why there is none:
/// no element passes the grinding before the point is drawn, and the error is never another but out of memory (`refusal`).
pub fn prove_chain(
    alloc: Global,
    start: &[u32; 8],
    blocks: &[[u32; 16]],
) -> Result<Option<ToolProof>, ProvingError<PlainProverError>>
    requires power { IsPowerOfTwo (length blocks.now) }
    requires few { length blocks.now ≤ 8 }
    ensures outcome { IfOk result (IsChainOutcome start.now blocks.now) }
    ensures refusal { IfErr result (IsChainRefusal start.now blocks.now) }
{
    baby_bear_has_laws();
    committed_tables_are_chains();
    let trace = trace_of(alloc, start, blocks)?;
    let end = chain_end(*start, blocks);
    chaining_fits(start);
    chaining_fits(&end);
    let public_values = chain_publics(alloc, start, &end)?;
    let air = ChainAir {};
    let instances = [TableInstance {
        air: &air,
        trace: &trace,
        public_values,
    }];
    let (proof, point) = prove_airs_with_point(alloc, &instances)?;
    if !avoids_subgroup(log2_strict_usize(blocks.len()), point) {
        return Ok(None);
    }
    Ok(Some(proof))
}
