//! The phases of a batch's transcript, of which each step is printed.
ghost use Rattle.std.specs.Prelude.{◌≡◌, ◌<◌, ◌^◌, [], IfOk, OnOk, is_some, map, true};
ghost use Rattle.std.specs.Option.{option_copied};
ghost use Rattle.batch_transcript.specs.BatchScript.{atomic, bindings_script, lookup_terminal_step, main_script, ood_script, opening_script, pair_script, permutation_script, quotient_script, sealed, seeded, with_value};
ghost use Rattle.p3_challenger.specs.Script.{Extended};
ghost use Rattle.batch_transcript.specs.Running.{lists};
ghost use Rattle.audit_script.specs.Steps.{printed, unprinted};

use crate::steps::Steps;
use batch_transcript::{BatchChallenger, BatchShape};
use p3_challenger::{
    CanObserve, CanSample, GrindingChallenger, InteractionKind, Length, StepValue, observe_bytes,
};
use p3_field::{BasedVectorSpace, ExtensionField, Mem, PrimeCore64, PrimeField64, RingCore};
use std::alloc::Global;

/// Binds the logarithm of each instance's extended height.
#[tactic(auto, unfolding(crate::specs::Steps::printed, batch_transcript::specs::BatchScript::bindings_script))]
pub(crate) fn print_bindings<
    F: PrimeField64,
    EF: ExtensionField<F>,
    Com,
    C: GrindingChallenger<Witness = F>
        + CanObserve<EF>
        + CanObserve<Com>
        + CanSample<F>
        + CanSample<EF>,
>(steps: &mut Steps<C, EF>, degree_bits: &[usize]) -> Mem<()>
    ensures { OnOk result (steps.new
        ≡ printed (⟦<C as BatchChallenger<F, EF, Com>>⟧.functions)
        (λ x. map F.canonical (EF.coefficients x)) steps.old
        (bindings_script EF.ring EF.DIMENSION degree_bits.now)) }
{
    for bits in degree_bits {
        steps.message(b"degree_bits", &EF::from_u64(*bits as u64))?;
    }
    Ok(())
}

/// Binds the commitment to the traces, then each instance's public values.
#[tactic(auto, unfolding(crate::specs::Steps::printed, batch_transcript::specs::BatchScript::main_script))]
pub(crate) fn print_main<
    F: PrimeField64,
    EF: ExtensionField<F>,
    Com,
    C: GrindingChallenger<Witness = F>
        + CanObserve<EF>
        + CanObserve<Com>
        + CanSample<F>
        + CanSample<EF>,
>(steps: &mut Steps<C, EF>, main: &Com, public_values: &[Vec<F>]) -> Mem<()>
    ensures { OnOk result (steps.new
        ≡ printed (⟦<C as BatchChallenger<F, EF, Com>>⟧.functions)
        (λ x. map F.canonical (EF.coefficients x)) steps.old
        (main_script main.now (lists public_values.now))) }
{
    steps.message(b"main_commitment", main)?;
    for values in public_values {
        steps.public(b"public_values", values)?;
    }
    Ok(())
}

/// Binds a commitment, where there is one.
#[tactic(auto, unfolding(crate::specs::Steps::printed))]
pub(crate) fn print_commitment<
    F: PrimeField64,
    EF: ExtensionField<F>,
    Com,
    C: GrindingChallenger<Witness = F>
        + CanObserve<EF>
        + CanObserve<Com>
        + CanSample<F>
        + CanSample<EF>,
>(steps: &mut Steps<C, EF>, label: &[u8], commitment: Option<&Com>) -> Mem<()>
    ensures { OnOk result (steps.new
        ≡ printed (⟦<C as BatchChallenger<F, EF, Com>>⟧.functions)
        (λ x. map F.canonical (EF.coefficients x)) steps.old
        (sealed (atomic InteractionKind.Message StepValue.Opaque label.now Length.Scalar)
        (option_copied commitment.entry))) }
{
    if let Some(commitment) = commitment {
        steps.message(label, commitment)?;
    }
    Ok(())
}

/// The grinding value before zeta, and zeta: tests the value, and draws zeta.
#[tactic(auto, unfolding(crate::specs::Steps::printed, batch_transcript::specs::BatchScript::ood_script))]
pub(crate) fn print_ood<
    F: PrimeField64,
    EF: ExtensionField<F>,
    Com,
    C: GrindingChallenger<Witness = F>
        + CanObserve<EF>
        + CanObserve<Com>
        + CanSample<F>
        + CanSample<EF>,
>(steps: &mut Steps<C, EF>, alloc: Global, bits: usize, witness: F) -> Mem<()>
    requires { 2 ^ bits < F.ORDER_U64 }
    ensures { OnOk result (steps.new
        ≡ printed (⟦<C as BatchChallenger<F, EF, Com>>⟧.functions)
        (λ x. map F.canonical (EF.coefficients x)) steps.old
        (ood_script EF.DIMENSION bits witness)) }
{
    steps.pow(b"ood_pow", bits, witness)?;
    steps.challenge::<F>(alloc, b"zeta")?;
    Ok(())
}

/// The bracket of the opening.
#[tactic(auto, unfolding(crate::specs::Steps::printed, batch_transcript::specs::BatchScript::opening_script))]
pub(crate) fn print_opening<
    F: PrimeField64,
    EF: ExtensionField<F>,
    Com,
    C: GrindingChallenger<Witness = F>
        + CanObserve<EF>
        + CanObserve<Com>
        + CanSample<F>
        + CanSample<EF>,
>(steps: &mut Steps<C, EF>) -> Mem<()>
    ensures { OnOk result (steps.new
        ≡ printed (⟦<C as BatchChallenger<F, EF, Com>>⟧.functions)
        (λ x. map F.canonical (EF.coefficients x)) steps.old
        opening_script) }
{
    steps.bracket(b"opening_argument")?;
    steps.bracket(b"opening_argument")
}

/// The separator of this shape is observed, and nothing is printed yet.
#[tactic(auto, unfolding(batch_transcript::specs::BatchScript::seeded, batch_transcript::specs::BatchScript::separator))]
pub(crate) fn begun_steps<
    F: PrimeField64,
    EF: ExtensionField<F>,
    Com,
    C: GrindingChallenger<Witness = F>
        + CanObserve<EF>
        + CanObserve<Com>
        + CanSample<F>
        + CanSample<EF>
        + Drop,
>(alloc: Global, challenger: C, shape: &BatchShape) -> Mem<Steps<C, EF>>
    ensures { IfOk result (λ t.
        t ≡ unprinted EF (seeded (⟦<C as BatchChallenger<F, EF, Com>>⟧.functions) F.ring
        EF.DIMENSION shape.now challenger)) }
{
    let mut challenger = challenger;
    let separator = shape.domain_separator::<F, EF>(alloc)?;
    let encoding = separator.encode(alloc)?;
    observe_bytes::<F, C>(&mut challenger, &encoding);
    Ok(Steps {
        challenger,
        challenges: Vec::new(alloc),
        passed: Vec::new(alloc),
        index: 0,
        text: Vec::new(alloc),
    })
}

/// The grinding value before the lookups' pair, and the pair, where so many instances have lookups, isn't zero.
#[tactic(auto, unfolding(crate::specs::Steps::printed), using(crate::specs::Laws::Steps::pair_script_cases, crate::specs::Laws::Steps::pair_script_none))]
pub(crate) fn print_pair<
    F: PrimeField64,
    EF: ExtensionField<F>,
    Com,
    C: GrindingChallenger<Witness = F>
        + CanObserve<EF>
        + CanObserve<Com>
        + CanSample<F>
        + CanSample<EF>,
>(
    steps: &mut Steps<C, EF>,
    alloc: Global,
    tables: usize,
    bits: usize,
    witness: Option<F>,
) -> Mem<()>
    requires few { 2 ^ bits < F.ORDER_U64 }
    requires there { (tables ≡ 0 → ⊥) → is_some witness ≡ true }
    ensures { OnOk result (steps.new
        ≡ printed (⟦<C as BatchChallenger<F, EF, Com>>⟧.functions)
        (λ x. map F.canonical (EF.coefficients x)) steps.old
        (pair_script EF.DIMENSION tables bits witness)) }
{
    if tables == 0 {
        return Ok(());
    }
    let Some(value) = witness else {
        unreachable!();
    };
    steps.pow(b"lookup_pow", bits, value)?;
    steps.challenge::<F>(alloc, b"lookup_alpha")?;
    steps.challenge::<F>(alloc, b"lookup_beta")?;
    Ok(())
}

/// Binds the terminals.
#[tactic(auto, unfolding(crate::specs::Steps::printed))]
pub(crate) fn print_terminals<
    F: PrimeField64,
    EF: ExtensionField<F>,
    Com,
    C: GrindingChallenger<Witness = F>
        + CanObserve<EF>
        + CanObserve<Com>
        + CanSample<F>
        + CanSample<EF>,
>(steps: &mut Steps<C, EF>, terminals: &[EF]) -> Mem<()>
    ensures { OnOk result (steps.new
        ≡ printed (⟦<C as BatchChallenger<F, EF, Com>>⟧.functions)
        (λ x. map F.canonical (EF.coefficients x)) steps.old
        (map (λ t. with_value (lookup_terminal_step EF.DIMENSION) (Extended t)) terminals.now)) }
{
    for terminal in terminals {
        steps.message(b"lookup_terminal", terminal)?;
    }
    Ok(())
}

/// Binds the commitment to the permutation columns and the terminals, where instances have lookups, and draws alpha.
pub(crate) fn print_permutation<
    F: PrimeField64,
    EF: ExtensionField<F>,
    Com,
    C: GrindingChallenger<Witness = F>
        + CanObserve<EF>
        + CanObserve<Com>
        + CanSample<F>
        + CanSample<EF>,
>(steps: &mut Steps<C, EF>, alloc: Global, commitment: Option<&Com>, terminals: &[EF]) -> Mem<()>
    ensures { OnOk result (steps.new
        ≡ printed (⟦<C as BatchChallenger<F, EF, Com>>⟧.functions)
        (λ x. map F.canonical (EF.coefficients x)) steps.old
        (permutation_script EF.DIMENSION (option_copied commitment.entry) terminals.now)) }
{
    print_commitment::<F, EF, Com, C>(steps, b"permutation_commitment", commitment)?;
    print_terminals::<F, EF, Com, C>(steps, terminals)?;
    steps.challenge::<F>(alloc, b"constraint_challenge")?;
    Ok(())
}

/// Binds the commitment to the quotients, then the randomization's, where there is one.
pub(crate) fn print_quotient<
    F: PrimeField64,
    EF: ExtensionField<F>,
    Com,
    C: GrindingChallenger<Witness = F>
        + CanObserve<EF>
        + CanObserve<Com>
        + CanSample<F>
        + CanSample<EF>,
>(steps: &mut Steps<C, EF>, quotient: &Com, randomization: Option<&Com>) -> Mem<()>
    ensures { OnOk result (steps.new
        ≡ printed (⟦<C as BatchChallenger<F, EF, Com>>⟧.functions)
        (λ x. map F.canonical (EF.coefficients x)) steps.old
        (quotient_script quotient.now (option_copied randomization.entry))) }
{
    steps.message(b"quotient_commitment", quotient)?;
    print_commitment::<F, EF, Com, C>(steps, b"randomization_commitment", randomization)?;
    Ok(())
}
