//! The script of a batch proof, folded.
ghost use Rattle.std.specs.Prelude.{◌≡◌, ◌<◌, ◌^◌, [], true, is_some, map, IfOk};
ghost use Rattle.p3_lookup.specs.Written.{read_all};
ghost use Rattle.batch_transcript.specs.BatchScript.{draws};
ghost use Rattle.batch_transcript.specs.Buses.{batch_layout};
ghost use Rattle.batch_transcript.specs.Running.{lists};
ghost use Rattle.batch_statement.specs.Statement.{statement_with};
ghost use Rattle.verifier_draws.specs.Draws.{drawn_pair, given_of};
ghost use Rattle.audit_script.specs.Steps.{draws_told, script_text};

use audit_script::{FoldedScript, ScriptDraws, fold_script};
use batch_statement::{SharedData, TablesProof};
use batch_transcript::{BatchChallenger, BatchShape, empty_layout, layout};
use p3_challenger::{CanObserve, CanSample, GrindingChallenger};
use p3_field::{
    BasedVectorSpace, ExtensionField, Field, FieldCore, Mem, PrimeCore64, PrimeField64, RingCore,
};
use p3_lookup::{LogUpGadget, Lookups};
use std::alloc::Global;
use verifier_draws::{preprocessed_commitment, terminals_there};

/// Folds the script of a batch of this shape, of what statement and proof give to its steps, from a challenger's state on. The value that the lookups'
/// grinding needs is there.
pub(crate) fn fold_proof<
    F: PrimeField64,
    EF: ExtensionField<F>,
    Com,
    C: GrindingChallenger<Witness = F>
        + CanObserve<EF>
        + CanObserve<Com>
        + CanSample<F>
        + CanSample<EF>
        + Drop,
    Opening,
>(
    alloc: Global,
    challenger: C,
    shape: &BatchShape,
    public_values: &[Vec<F>],
    common: &SharedData<F, Com>,
    proof: &TablesProof<F, EF, Com, Opening>,
) -> Mem<FoldedScript<C, EF>>
    requires lookup_bits { 2 ^ shape.now.lookup_pow_bits < F.ORDER_U64 }
    requires ood_bits { 2 ^ shape.now.ood_pow_bits < F.ORDER_U64 }
    requires there { (shape.now.num_lookup_instances ≡ 0 → ⊥)
        → is_some proof.now.lookup_pow_witness ≡ true }
    ensures text { IfOk result (λ w. w.text.items
        ≡ script_text (⟦<C as BatchChallenger<F, EF, Com>>⟧.functions)
        (λ x. map F.canonical (EF.coefficients x)) F.ring EF.ring EF.DIMENSION challenger shape.now
        (given_of (statement_with [] (lists public_values.now) common.now) proof.now)) }
    ensures draws { IfOk result (λ w. draws_told w.draws
        ≡ draws (⟦<C as BatchChallenger<F, EF, Com>>⟧.functions) F.ring EF.ring EF.DIMENSION
        challenger shape.now
        (given_of (statement_with [] (lists public_values.now) common.now) proof.now)) }
{
    let terminals = terminals_there(alloc, proof.terminals())?;
    let folded = fold_script::<F, EF, Com, C>(
        alloc,
        challenger,
        shape,
        &proof.degree_bits,
        &proof.commitments.main,
        public_values,
        preprocessed_commitment(common),
        proof.commitments.permutation.as_ref(),
        &terminals,
        &proof.commitments.quotient_chunks,
        proof.commitments.random.as_ref(),
        proof.lookup_pow_witness,
        proof.ood_pow_witness,
    )?;
    Ok(folded)
}

/// The challenges of all lookups of a batch, table by table, of what was drawn, where so many tables have lookups.
pub(crate) fn lookup_challenges<C, F: Field, EF: Field>(
    alloc: Global,
    tables: usize,
    lookups: &[Lookups<F>],
    draws: &ScriptDraws<C, EF>,
) -> Mem<Vec<Vec<EF>>>
    ensures { IfOk result (λ v.
        lists v.items ≡ batch_layout EF.ring (drawn_pair tables (draws_told draws.now))
        (map read_all lookups.now)) }
{
    if tables == 0 {
        let none = empty_layout(alloc, lookups)?;
        return Ok(none);
    }
    let laid = layout(
        alloc,
        lookups,
        &LogUpGadget,
        draws.lookup_alpha,
        draws.lookup_beta,
    )?;
    Ok(laid)
}
