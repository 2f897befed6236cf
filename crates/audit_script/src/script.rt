//! The whole script of a batch: its steps as they are printed, and what is drawn along it.
ghost use Rattle.std.specs.Prelude.{◌≡◌, ◌<◌, ◌^◌, ℕ, suc, true, IfOk, get_or, is_some, map};
ghost use Rattle.std.specs.Option.{option_copied};
ghost use Rattle.batch_transcript.specs.BatchScript.{draws, draws_of, script, seeded};
ghost use Rattle.batch_transcript.specs.Running.{lists};
ghost use Rattle.audit_script.specs.Steps.{draws_told, printed, script_text, transcript_of, unprinted};

use crate::phases::{
    begun_steps, print_bindings, print_commitment, print_main, print_ood, print_opening,
    print_pair, print_permutation, print_quotient,
};
use crate::steps::Steps;
use batch_transcript::{BatchChallenger, BatchShape};
use p3_challenger::{CanObserve, CanSample, GrindingChallenger};
use p3_field::{
    BasedVectorSpace, ExtensionField, Field, FieldCore, Mem, PrimeCore64, PrimeField64, RingCore,
};
use std::alloc::Global;

/// What was drawn and tested along the script of a batch.
#[derive(Drop)]
pub struct ScriptDraws<C, EF> {
    /// The first challenge of the pair that was drawn for the lookups: zero where no instance has lookups.
    pub lookup_alpha: EF,
    /// Its second challenge.
    pub lookup_beta: EF,
    /// The challenge that folds the constraints.
    pub alpha: EF,
    /// The point at which the polynomials are opened.
    pub zeta: EF,
    /// Whether the grinding value before the pair passes the challenger's test: true where no instance has lookups.
    pub lookup_passed: bool,
    /// Whether the grinding value before zeta passes.
    pub ood_passed: bool,
    /// The challenger in its state at the opening.
    pub challenger: C,
}

/// A script that was folded to its end.
#[derive(Drop)]
pub struct FoldedScript<C, EF> {
    /// A line for each step, `step i label`, the first one's number being 0: for a challenge its coefficients follow, for a grinding step
    /// `passes` or `fails`.
    pub text: Vec<u8>,
    /// What was drawn and tested along it.
    pub draws: ScriptDraws<C, EF>,
}

// A challenge by its number, and zero where there are fewer.
fn challenge_at<EF: Field>(challenges: &[EF], index: usize) -> EF
    ensures { result ≡ get_or challenges.now index EF.ring.zero }
{
    match challenges.get(index) {
        Some(challenge) => *challenge,
        None => EF::ZERO,
    }
}

// The answer of a test by its number, and true where there are fewer.
fn test_at(passed: &[bool], index: usize) -> bool
    ensures { result ≡ get_or passed.now index true }
{
    match passed.get(index) {
        Some(answer) => *answer,
        None => true,
    }
}

// What was drawn where no instance has lookups.
fn without_lookups<C, EF: Field>(
    challenger: C,
    challenges: &[EF],
    passed: &[bool],
) -> ScriptDraws<C, EF>
    ensures { draws_told result
        ≡ draws_of EF.ring 0 (record {
          state = challenger;
          challenges = challenges.now;
          passed = passed.now;
        }) }
{
    ScriptDraws {
        lookup_alpha: EF::ZERO,
        lookup_beta: EF::ZERO,
        alpha: challenge_at(challenges, 0),
        zeta: challenge_at(challenges, 1),
        lookup_passed: true,
        ood_passed: test_at(passed, 0),
        challenger,
    }
}

// What was drawn where some have.
fn with_lookups<C, EF: Field>(
    challenger: C,
    challenges: &[EF],
    passed: &[bool],
) -> ScriptDraws<C, EF>
    ensures { (n : ℕ) → draws_told result
        ≡ draws_of EF.ring (suc n)
        (record { state = challenger; challenges = challenges.now; passed = passed.now }) }
{
    ScriptDraws {
        lookup_alpha: challenge_at(challenges, 0),
        lookup_beta: challenge_at(challenges, 1),
        alpha: challenge_at(challenges, 2),
        zeta: challenge_at(challenges, 3),
        lookup_passed: test_at(passed, 0),
        ood_passed: test_at(passed, 1),
        challenger,
    }
}

// What was drawn along a script, where so many instances have lookups.
fn read_draws<C, EF: Field>(
    tables: usize,
    challenger: C,
    challenges: &[EF],
    passed: &[bool],
) -> ScriptDraws<C, EF>
    ensures { draws_told result
        ≡ draws_of EF.ring tables
        (record { state = challenger; challenges = challenges.now; passed = passed.now }) }
{
    if tables == 0 {
        without_lookups(challenger, challenges, passed)
    } else {
        with_lookups(challenger, challenges, passed)
    }
}

// Plays the whole script, and prints its steps.
fn print_script<
    F: PrimeField64,
    EF: ExtensionField<F>,
    Com,
    C: GrindingChallenger<Witness = F>
        + CanObserve<EF>
        + CanObserve<Com>
        + CanSample<F>
        + CanSample<EF>
        + Drop,
>(
    alloc: Global,
    challenger: C,
    shape: &BatchShape,
    degree_bits: &[usize],
    main: &Com,
    public_values: &[Vec<F>],
    preprocessed: Option<&Com>,
    permutation: Option<&Com>,
    terminals: &[EF],
    quotient: &Com,
    randomization: Option<&Com>,
    lookup_witness: Option<F>,
    ood_witness: F,
) -> Mem<Steps<C, EF>>
    requires lookup_bits { 2 ^ shape.now.lookup_pow_bits < F.ORDER_U64 }
    requires ood_bits { 2 ^ shape.now.ood_pow_bits < F.ORDER_U64 }
    requires there { (shape.now.num_lookup_instances ≡ 0 → ⊥) → is_some lookup_witness ≡ true }
    ensures { IfOk result (λ t.
        t ≡ printed (⟦<C as BatchChallenger<F, EF, Com>>⟧.functions)
        (λ x. map F.canonical (EF.coefficients x))
        (unprinted EF (seeded (⟦<C as BatchChallenger<F, EF, Com>>⟧.functions) F.ring EF.DIMENSION
        shape.now challenger))
        (script EF.ring EF.DIMENSION shape.now (record {
          degree_bits = degree_bits.now;
          main = main.now;
          publics = lists public_values.now;
          preprocessed = option_copied preprocessed.entry;
          lookup_witness = lookup_witness;
          permutation = option_copied permutation.entry;
          terminals = terminals.now;
          quotient = quotient.now;
          randomization = option_copied randomization.entry;
          ood_witness = ood_witness;
        }))) }
{
    let mut steps = begun_steps::<F, EF, Com, C>(alloc, challenger, shape)?;
    print_bindings::<F, EF, Com, C>(&mut steps, degree_bits)?;
    print_main::<F, EF, Com, C>(&mut steps, main, public_values)?;
    print_commitment::<F, EF, Com, C>(&mut steps, b"preprocessed_commitment", preprocessed)?;
    print_pair::<F, EF, Com, C>(
        &mut steps,
        alloc,
        shape.num_lookup_instances,
        shape.lookup_pow_bits,
        lookup_witness,
    )?;
    print_permutation::<F, EF, Com, C>(&mut steps, alloc, permutation, terminals)?;
    print_quotient::<F, EF, Com, C>(&mut steps, quotient, randomization)?;
    print_ood::<F, EF, Com, C>(&mut steps, alloc, shape.ood_pow_bits, ood_witness)?;
    print_opening::<F, EF, Com, C>(&mut steps)?;
    Ok(steps)
}

/// Folds the whole script of a batch of this shape, of what statement and proof give to its steps, from a challenger's state on (not in Plonky3).
/// It gives the lines of the steps (`text`), and what the verifier of such a proof draws along them, with the challenger's own answers for both
/// grinding values (`draws`). Unlike a verifier's transcript it goes on where a value fails its test. The only error is running out of memory.
///
/// The value that the lookups' grinding needs is there where instances have lookups, and the numbers of bits stay below the field's order.
pub fn fold_script<
    F: PrimeField64,
    EF: ExtensionField<F>,
    Com,
    C: GrindingChallenger<Witness = F>
        + CanObserve<EF>
        + CanObserve<Com>
        + CanSample<F>
        + CanSample<EF>
        + Drop,
>(
    alloc: Global,
    challenger: C,
    shape: &BatchShape,
    degree_bits: &[usize],
    main: &Com,
    public_values: &[Vec<F>],
    preprocessed: Option<&Com>,
    permutation: Option<&Com>,
    terminals: &[EF],
    quotient: &Com,
    randomization: Option<&Com>,
    lookup_witness: Option<F>,
    ood_witness: F,
) -> Mem<FoldedScript<C, EF>>
    requires lookup_bits { 2 ^ shape.now.lookup_pow_bits < F.ORDER_U64 }
    requires ood_bits { 2 ^ shape.now.ood_pow_bits < F.ORDER_U64 }
    requires there { (shape.now.num_lookup_instances ≡ 0 → ⊥) → is_some lookup_witness ≡ true }
    ensures text { IfOk result (λ w. w.text.items
        ≡ script_text (⟦<C as BatchChallenger<F, EF, Com>>⟧.functions)
        (λ x. map F.canonical (EF.coefficients x)) F.ring EF.ring EF.DIMENSION challenger shape.now
        (record {
          degree_bits = degree_bits.now;
          main = main.now;
          publics = lists public_values.now;
          preprocessed = option_copied preprocessed.entry;
          lookup_witness = lookup_witness;
          permutation = option_copied permutation.entry;
          terminals = terminals.now;
          quotient = quotient.now;
          randomization = option_copied randomization.entry;
          ood_witness = ood_witness;
        })) }
    ensures draws { IfOk result (λ w. draws_told w.draws
        ≡ draws (⟦<C as BatchChallenger<F, EF, Com>>⟧.functions) F.ring EF.ring EF.DIMENSION
        challenger shape.now (record {
          degree_bits = degree_bits.now;
          main = main.now;
          publics = lists public_values.now;
          preprocessed = option_copied preprocessed.entry;
          lookup_witness = lookup_witness;
          permutation = option_copied permutation.entry;
          terminals = terminals.now;
          quotient = quotient.now;
          randomization = option_copied randomization.entry;
          ood_witness = ood_witness;
        })) }
{
    let steps = print_script::<F, EF, Com, C>(
        alloc,
        challenger,
        shape,
        degree_bits,
        main,
        public_values,
        preprocessed,
        permutation,
        terminals,
        quotient,
        randomization,
        lookup_witness,
        ood_witness,
    )?;
    let Steps {
        challenger,
        challenges,
        passed,
        text,
        ..
    } = steps;
    let draws = read_draws(shape.num_lookup_instances, challenger, &challenges, &passed);
    Ok(FoldedScript { text, draws })
}
