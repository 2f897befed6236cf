//! What the transcript's definitions promise: laws as the contracts of functions that compute nothing.

ghost use Rattle.std.specs.Prelude.{ℕ, ◌≡◌, ◌↔◌, List, true};
ghost use Rattle.p3_challenger.specs.Script.{steps_of};
ghost use Rattle.batch_transcript.specs.BatchScript.{BatchShapeData, Given, script, pattern};
ghost use Rattle.batch_transcript.specs.Shapes.{TellsShapes};
ghost use Rattle.batch_transcript.specs.Running.{PlaysChain, IsOneFold, TellsDraws, TellsTests};
ghost use Rattle.batch_transcript.specs.Fits.{FitsShape};
ghost use Rattle.batch_transcript.specs.Buses.{LaysOutBases};
ghost use Rattle.p3_lookup.specs.Lookup.{LookupData};
ghost use Rattle.p3_lookup.specs.Bus.{SharesByName, batch_buses};
ghost use Rattle.batch_transcript.specs.Single.{HasNineSteps, HasNineValues};

use crate::challenger::BatchChallenger;
use crate::failure::BatchTranscriptFailure;
use crate::shape::BatchShape;
use p3_challenger::{CanObserve, CanSample, GrindingChallenger};
use p3_field::{BasedVectorSpace, ExtensionField, Field, PrimeField64, RingCore};

/// The separators of two shapes of batches with numbers below 2^64 have one encoding exactly if the shapes are equal, but for the bits of the
/// lookup grinding where no instance has lookups. `==` of shapes is true exactly where they are equal.
pub fn shapes_are_told()
    ensures told { (d : ℕ) (s : BatchShapeData) → TellsShapes d s }
    ensures equality { (s t : BatchShapeData)
        → (⟦<BatchShape as PartialEq>⟧.eq s t ≡ true) ↔ (s ≡ t) }
{}

/// `==` of refused grinding values is true exactly where they are equal (`equality`), a clone is equal to what is cloned (`clones`), and no
/// clone fails (`sure`).
pub fn failures_are_told()
    ensures equality { (d e : BatchTranscriptFailure)
        → (⟦<BatchTranscriptFailure as PartialEq>⟧.eq d e ≡ true) ↔ (d ≡ e) }
    ensures clones { (d e : BatchTranscriptFailure)
        → ⟦<BatchTranscriptFailure as Clone>⟧.is_clone d e → d ≡ e }
    ensures sure { (e : BatchTranscriptFailure)
        → ⟦<BatchTranscriptFailure as Clone>⟧.is_infallible e }
{}

/// Prover's and verifier's transcripts are one fold: phases one after the other are one, from equal states one script draws the same and leaves
/// equal states whoever plays it, and a whole run has drawn what `draws` says. Its two answers on grinding values are the challenger's own tests at the
/// states where the grinding phases begin. The steps of a script are the pattern's, where its values fit the shape.
pub fn transcripts_are_one_fold<
    F: PrimeField64,
    EF: ExtensionField<F>,
    Com,
    C: GrindingChallenger<Witness = F>
        + CanObserve<EF>
        + CanObserve<Com>
        + CanSample<F>
        + CanSample<EF>,
>()
    ensures chain { PlaysChain (⟦<C as BatchChallenger<F, EF, Com>>⟧.functions) }
    ensures fold { IsOneFold (⟦<C as BatchChallenger<F, EF, Com>>⟧.functions) }
    ensures draws { TellsDraws (⟦<C as BatchChallenger<F, EF, Com>>⟧.functions) F.ring EF.ring
        EF.DIMENSION }
    ensures tests { TellsTests (⟦<C as BatchChallenger<F, EF, Com>>⟧.functions) F.ring EF.ring
        EF.DIMENSION }
    ensures steps { (s : BatchShapeData) (g : Given F EF Com) → FitsShape s g
        → steps_of (script EF.ring EF.DIMENSION s g) ≡ pattern EF.DIMENSION s }
{}

/// In the layout of a drawn pair each lookup has the base of its bus and the one combiner, and two different lookups of a batch are on one bus
/// exactly where both are global with one name.
pub fn lookups_are_laid_out<F: Field, EF: Field>()
    ensures bases { (tables : List (List (LookupData F))) → LaysOutBases EF.ring tables }
    ensures buses { (tables : List (List (LookupData F))) → SharesByName (batch_buses tables) }
{}

/// The pattern and the script of a batch of one table without preprocessed columns, lookups and randomization, step by step; the script as
/// base elements.
pub fn single_batch<F: PrimeField64, EF: ExtensionField<F>, Com>()
    ensures steps { HasNineSteps EF.DIMENSION }
    ensures values { HasNineValues Com EF.ring EF.coefficients EF.DIMENSION }
{}
