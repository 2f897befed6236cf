//! Challengers: a transcript is observed into one, and the verifier's random values are drawn from it. No call of a challenger takes memory, and
//! what each answers and leaves is a function of the state and arguments.
//!
//! Typed transcripts: the steps of a pattern, the separator that fixes them, and a state each for prover and verifier that plays them in order.
//! A call's condition is that the next step is of its kind, so steps out of order are refused before a program runs.
//!
//! Traits and types are after Plonky3's `p3-challenger`. The definitions that the contracts cite are in `specs/`: grinding (`Grind`), the challenger
//! over SHA-256 (`Sha256`), scripts and what is drawn along them (`Script`, and over base elements `Elements`), the encoding (`Separator`), and
//! the typed states (`States`).
#![tactic(auto)]

ghost use Rattle.std.specs.Prelude.{map, ◌≡◌, ℕ, ◌<◌, ◌^◌, IsTrue, ◌↔◌, MatchOption};
ghost use Rattle.std.specs.List.{fold};
ghost use Rattle.p3_field.specs.Ring.{of_nat};
ghost use Rattle.p3_challenger.specs.Grind.{PassesGrinding, checked_state, IsLeast};

use p3_field::{PrimeCore64, RingCore};

pub mod meanings;
mod prover_state;
mod script;
mod separator;
mod sha256_challenger;
mod states;
mod typed_state;
mod verifier_state;

pub use prover_state::ProverState;
pub use script::{
    Hierarchy, Interaction, InteractionKind, InteractionPattern, Label, Length, StepValue,
};
pub use separator::{DomainSeparator, push_eight_bytes};
pub use sha256_challenger::Sha256Challenger;
pub use typed_state::{Proving, TypedState, Verifying};
pub use verifier_state::VerifierState;

/// A challenger that takes in values of type `T`, as Plonky3's `p3_challenger::CanObserve`.
///
/// The new state is a function of the old one and the value, the ghost member `observed`.
pub trait CanObserve<T> {
    // The state after a value.
    ghost observed: { Self → T → Self };

    /// Takes in one value.
    fn observe(&mut self, value: &T)
        ensures { self.new ≡ observed self.old value.now };

    /// Takes in each value, the first one first.
    final fn observe_slice(&mut self, values: &[T])
        ensures { self.new ≡ fold observed self.old values.now }
    {
        for value in values {
            self.observe(value);
        }
    }
}

/// A challenger that gives values of type `T`, as Plonky3's `p3_challenger::CanSample`.
///
/// The value and the new state are functions of the old state, the ghost members `drawn` and
/// `after_draw`.
pub trait CanSample<T> {
    // The value that a state gives, and the state after it.
    ghost drawn: { Self → T };

    ghost after_draw: { Self → Self };

    /// Draws one value.
    fn sample(&mut self) -> T
        ensures answer { result ≡ drawn self.old }
        ensures state { self.new ≡ after_draw self.old };
}

/// A challenger that gives numbers of a few bits, as Plonky3's `p3_challenger::CanSampleBits`.
///
/// `order` is a number that each implementation fixes: how many values the drawn element has.
pub trait CanSampleBits {
    // How many values the drawn element has, the number that is drawn, and the state after it.
    ghost order: { ℕ };

    ghost bits_drawn: { Self → ℕ → ℕ };

    ghost after_bits: { Self → ℕ → Self };

    /// Draws a number below `2 ^ bits`, where that power is below the order.
    fn sample_bits(&mut self, bits: usize) -> usize
        requires { 2 ^ bits < order }
        ensures answer { result ≡ bits_drawn self.old bits }
        ensures state { self.new ≡ after_bits self.old bits };

    // The number has as many bits as were asked for.
    ghost bits_below: { (s : Self) (bits : ℕ) → 2 ^ bits < order → bits_drawn s bits < 2 ^ bits };
}

/// A challenger with proofs of work, as Plonky3's `p3_challenger::GrindingChallenger`.
///
/// A witness passes at `bits` where `sample_bits(bits)` gives zero once it is observed. At zero
/// bits each witness passes, and nothing is observed or drawn.
pub trait GrindingChallenger: CanSampleBits + CanObserve<Self::Witness> {
    /// What is ground: an element of a prime field. The bound is the field trait's core, so that
    /// a caller may equate this type with a parameter that is a `PrimeField64`.
    type Witness: PrimeCore64;

    /// Whether the witness passes, where `2 ^ bits` is below the order of its field. The state is that after the check also
    /// where it does not.
    fn check_witness(&mut self, bits: usize, value: Self::Witness) -> bool
        requires { 2 ^ bits < Self.Witness.ORDER_U64 }
        ensures answer { IsTrue result
            ↔ PassesGrinding Self.observed Self.bits_drawn self.old bits value }
        ensures state { self.new
            ≡ checked_state Self.observed Self.after_bits self.old bits value };

    /// The witness of least canonical value that passes, with the state after its check, where `2 ^ bits` is below the
    /// order of its field. `None` is where no element passes, and then nothing changes.
    fn grind(&mut self, bits: usize) -> Option<Self::Witness>
        requires { 2 ^ bits < Self.Witness.ORDER_U64 }
        ensures answer { MatchOption result
            ((n : ℕ) → n < Self.Witness.ORDER_U64
            → PassesGrinding Self.observed Self.bits_drawn self.old bits
            (of_nat Self.Witness.ring n) → ⊥)
            (λ w. IsLeast (λ n. PassesGrinding Self.observed Self.bits_drawn self.old bits
            (of_nat Self.Witness.ring n)) (Self.Witness.canonical w)) }
        ensures state { MatchOption result
            (self.new ≡ self.old)
            (λ w. self.new ≡ checked_state Self.observed Self.after_bits self.old bits w) };

    // What is drawn and what is ground are of fields of one order.
    ghost same_order: { Self.order ≡ Self.Witness.ORDER_U64 };
}

/// Takes in each byte as one field element, by `from_u64`, the first one first (not in Plonky3).
pub fn observe_bytes<F: RingCore, C: CanObserve<F>>(challenger: &mut C, bytes: &[u8])
    ensures { challenger.new ≡ fold C.observed challenger.old (map (of_nat F.ring) bytes.now) }
{
    for byte in bytes {
        challenger.observe(&F::from_u64(*byte as u64));
    }
}
