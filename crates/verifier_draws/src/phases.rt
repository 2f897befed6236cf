//! The phases of a verifier's transcript as far as the opening.
ghost use Rattle.std.specs.Prelude.{◌≡◌, ℕ, ◌^◌, ◌<◌, map, length, IfOk, is_some};
ghost use Rattle.std.specs.Option.{option_copied};
ghost use Rattle.p3_lookup.specs.Written.{read_all};
ghost use Rattle.batch_transcript.specs.BatchScript.{Given, draws, is_positive};
ghost use Rattle.batch_transcript.specs.Buses.{batch_layout};
ghost use Rattle.batch_transcript.specs.Running.{lists};
ghost use Rattle.batch_statement.specs.Verdict.{IsVerdict};
ghost use Rattle.verifier_draws.specs.Draws.{drawn_pair, grinding_by};
ghost use Rattle.verifier_draws.specs.Refused.{refusal_of};

use crate::draws::Drawn;
use batch_statement::BatchVerificationError;
use batch_transcript::{BatchChallenger, BatchShape, BatchVerifierTranscript, TranscriptError};
use p3_challenger::{CanObserve, CanSample, GrindingChallenger};
use p3_field::{BasedVectorSpace, ExtensionField, PrimeCore64, PrimeField64, RingCore};
use p3_lookup::{LogUpGadget, Lookups};
use std::alloc::Global;

// A transcript's refusal as a verifier's, which looks for no grinding value.
fn refused<R>(error: TranscriptError) -> BatchVerificationError<R>
    requires { error ≡ TranscriptError.WitnessNotFound → ⊥ }
    ensures { result ≡ refusal_of error }
{
    match error {
        TranscriptError::Failure(failure) => BatchVerificationError::Transcript(failure),
        TranscriptError::WitnessNotFound => unreachable!(),
        TranscriptError::OutOfMemory => BatchVerificationError::OutOfMemory,
    }
}

// Plays the phases in order. It gives the verdict on both grinding values, and what is drawn.
pub(crate) fn play_phases<
    F: PrimeField64,
    EF: ExtensionField<F>,
    Com,
    C: GrindingChallenger<Witness = F>
        + CanObserve<EF>
        + CanObserve<Com>
        + CanSample<F>
        + CanSample<EF>
        + Drop,
    R,
>(
    alloc: Global,
    challenger: C,
    shape: BatchShape,
    degree_bits: &[usize],
    main: &Com,
    public_values: &[Vec<F>],
    preprocessed: Option<&Com>,
    lookups: &[Lookups<F>],
    permutation: Option<&Com>,
    terminals: &[EF],
    quotient: &Com,
    randomization: Option<&Com>,
    lookup_witness: Option<F>,
    ood_witness: F,
) -> Result<Drawn<EF, C>, BatchVerificationError<R>>
    requires degree_bits { length degree_bits.now ≡ length shape.trace_widths }
    requires publics { map length (lists public_values.now) ≡ shape.public_value_counts }
    requires preprocessed { is_some preprocessed ≡ shape.has_preprocessed_commitment }
    requires permutation { is_some permutation ≡ is_positive shape.num_lookup_instances }
    requires terminals { length terminals.now ≡ shape.num_lookup_instances }
    requires randomization { is_some randomization ≡ shape.has_randomization_commitment }
    requires lookup_bits { 2 ^ shape.lookup_pow_bits < F.ORDER_U64 }
    requires ood_bits { 2 ^ shape.ood_pow_bits < F.ORDER_U64 }
    ensures { let d = draws (⟦<C as BatchChallenger<F, EF, Com>>⟧.functions) F.ring EF.ring
        EF.DIMENSION challenger shape (record {
          degree_bits = degree_bits.now;
          main = main.now;
          publics = lists public_values.now;
          preprocessed = option_copied preprocessed.entry;
          lookup_witness = lookup_witness;
          permutation = option_copied permutation.entry;
          terminals = terminals.now;
          quotient = quotient.now;
          randomization = option_copied randomization.entry;
          ood_witness = ood_witness;
        }) in
        IsVerdict (grinding_by F.ring.zero shape lookup_witness ood_witness d) result
        × IfOk result (λ run. (run.alpha ≡ d.alpha) × (run.zeta ≡ d.zeta)
        × (run.challenger ≡ d.opening)
        × (lists run.challenges.items
        ≡ batch_layout EF.ring (drawn_pair shape.num_lookup_instances d)
        (map read_all lookups.now))) }
{
    let mut t = BatchVerifierTranscript::<C, F, EF, Com>::new(alloc, challenger, shape)?;
    t.instance_bindings(degree_bits);
    t.main_phase(main, public_values);
    t.preprocessed_phase(preprocessed);
    let challenges = match t.lookup_phase(alloc, lookups, &LogUpGadget, lookup_witness) {
        Ok(laid_out) => laid_out,
        Err(error) => {
            let _challenger = t.abort();
            return Err(refused(error));
        }
    };
    let alpha = t.permutation_phase(permutation, terminals);
    t.quotient_phase(quotient, randomization);
    let zeta = match t.ood_phase(ood_witness) {
        Ok(drawn) => drawn,
        Err(failure) => {
            let _challenger = t.abort();
            return Err(BatchVerificationError::Transcript(failure));
        }
    };
    let left = t.abort();
    Ok(Drawn {
        challenges,
        alpha,
        zeta,
        challenger: left,
    })
}
