//! What a prover and a verifier agree on: fields, challenger, commitment scheme and grinding.
ghost use Rattle.std.specs.Prelude.{◌≡◌, ℕ, ◌<◌, ◌^◌, cond};
ghost use Rattle.transcript_version.specs.declared.TranscriptVersion.{TranscriptVersion as VersionOf};

use commit_core::{CosetPcs, Pcs, PolynomialSpace, UnivariateStarkPcs};
use p3_challenger::{CanObserve, CanSample, CanSampleBits, GrindingChallenger};
use p3_field::{
    BasedVectorSpace, ExtensionField, Field, FieldCore, PrimeCharacteristicRing, PrimeCore64,
    PrimeField64, RingCore, TwoAdicCore, TwoAdicField, TwoAdicMultiplicativeCoset,
};
use std::marker::PhantomData;
use transcript_version::TranscriptVersion;

/// The fields, the challenger, the commitment scheme and the grinding of a proof system (`StarkGenericConfig` of
/// `p3-uni-stark`).
pub trait StarkGenericConfig {
    /// The field of the traces.
    type Val: TwoAdicField + PrimeField64;

    /// The field of the challenges.
    type Challenge: ExtensionField<Self::Val>;

    /// The transcript. It observes values of both fields and commitments, gives challenges in both fields, and grinds
    /// for values of the traces' field.
    type Challenger: Drop
        + CanObserve<Self::Challenge>
        + CanSample<Self::Challenge>
        + CanSample<Self::Val>
        + GrindingChallenger<Witness = Self::Val>
        + CanObserve<<Self::Pcs as Pcs<Self::Challenge, Self::Challenger>>::Commitment>;

    /// The commitment scheme, whose domains are cosets.
    type Pcs: CosetPcs<Self::Challenge, Self::Challenger, Val = Self::Val>;

    // the state in which each transcript begins
    ghost initial_of: { Self → Self.Challenger };

    // the commitment scheme
    ghost pcs_of: { Self → Self.Pcs };

    // how many bits the grinding before the lookups' challenges has
    ghost lookup_bits: { Self → ℕ };

    // how many bits the grinding before the drawn point has
    ghost ood_bits: { Self → ℕ };

    // the transcript's version
    ghost version: { Self → VersionOf };

    /// The commitment scheme.
    fn pcs(&self) -> &Self::Pcs
        ensures { result.now ≡ pcs_of self.now };

    /// A challenger in the state in which each transcript begins.
    fn initialise_challenger(&self) -> Self::Challenger
        ensures { result ≡ initial_of self.now };

    /// One where the scheme masks what it commits to, else zero.
    fn is_zk(&self) -> usize
        ensures { result ≡ cond Self.Pcs.ZK 1 0 };

    /// How many bits the grinding before the lookups' challenges has.
    fn lookup_proof_of_work_bits(&self) -> usize
        ensures bits { result ≡ lookup_bits self.now }
        ensures fits { 2 ^ lookup_bits self.now < Self.Val.ORDER_U64 };

    /// How many bits the grinding before the drawn point has.
    fn ood_proof_of_work_bits(&self) -> usize
        ensures bits { result ≡ ood_bits self.now }
        ensures fits { 2 ^ ood_bits self.now < Self.Val.ORDER_U64 };

    /// The version of the transcript of each run (not in Plonky3).
    fn transcript_version(&self) -> TranscriptVersion
        ensures { result ≡ version self.now };
}

/// The field of a configuration's traces.
pub type Val<SC> = <SC as StarkGenericConfig>::Val;

/// The field of a configuration's challenges.
pub type Challenge<SC> = <SC as StarkGenericConfig>::Challenge;

/// A configuration's transcript.
pub type Challenger<SC> = <SC as StarkGenericConfig>::Challenger;

/// The domains of a configuration's traces and quotients.
pub type Domain<SC> = TwoAdicMultiplicativeCoset<Val<SC>>;

/// What a configuration's scheme gives a verifier of committed matrices.
pub type Commitment<SC> = <<SC as StarkGenericConfig>::Pcs as Pcs<
    Challenge<SC>,
    Challenger<SC>,
>>::Commitment;

/// A proof of opened values by a configuration's scheme.
pub type PcsProof<SC> = <<SC as StarkGenericConfig>::Pcs as Pcs<
    Challenge<SC>,
    Challenger<SC>,
>>::Proof;

/// Why a configuration's scheme refuses a proof.
pub type PcsError<SC> = <<SC as StarkGenericConfig>::Pcs as Pcs<
    Challenge<SC>,
    Challenger<SC>,
>>::Error;

/// Why a configuration's scheme refuses to commit or to open.
pub type PcsProverError<SC> = <<SC as StarkGenericConfig>::Pcs as Pcs<
    Challenge<SC>,
    Challenger<SC>,
>>::ProverError;

/// A configuration of its parts (`StarkConfig` of `p3-uni-stark`). The challenger is in the state in which each
/// transcript begins.
#[derive(Drop)]
pub struct StarkConfig<P: UnivariateStarkPcs<E, C>, E, C>
where
    P::Val: PrimeCore64,
    E: ExtensionField<<P as Pcs<E, C>>::Val>,
{
    pcs: P,
    challenger: C,
    lookup_bits: usize,
    ood_bits: usize,
    version: TranscriptVersion,
    challenge: PhantomData<E>,
    ghost lookup_fits: { 2 ^ lookup_bits < P.Val.ORDER_U64 },
    ghost ood_fits: { 2 ^ ood_bits < P.Val.ORDER_U64 },
}

impl<P, E, C> StarkConfig<P, E, C>
where
    P: UnivariateStarkPcs<E, C>,
    P::Val: PrimeCore64,
    E: ExtensionField<<P as Pcs<E, C>>::Val>,
{
    /// The configuration with this scheme, this challenger, and so many bits for the two grindings, of which two to
    /// the power is below the field's order. Its runs have transcripts of version 1.
    pub fn new(pcs: P, challenger: C, lookup_bits: usize, ood_bits: usize) -> Self
        requires lookup { 2 ^ lookup_bits < P.Val.ORDER_U64 }
        requires ood { 2 ^ ood_bits < P.Val.ORDER_U64 }
        ensures pcs { result.pcs ≡ pcs }
        ensures challenger { result.challenger ≡ challenger }
        ensures lookup { result.lookup_bits ≡ lookup_bits }
        ensures ood { result.ood_bits ≡ ood_bits }
        ensures version { result.version ≡ TranscriptVersion.V1 }
    {
        StarkConfig {
            pcs,
            challenger,
            lookup_bits,
            ood_bits,
            version: TranscriptVersion::V1,
            challenge: PhantomData,
        }
    }

    /// The same configuration, but for runs with transcripts of this version (not in Plonky3).
    pub fn with_version(self, version: TranscriptVersion) -> Self
        ensures pcs { result.pcs ≡ self.pcs }
        ensures challenger { result.challenger ≡ self.challenger }
        ensures lookup { result.lookup_bits ≡ self.lookup_bits }
        ensures ood { result.ood_bits ≡ self.ood_bits }
        ensures version { result.version ≡ version }
    {
        StarkConfig {
            pcs: self.pcs,
            challenger: self.challenger,
            lookup_bits: self.lookup_bits,
            ood_bits: self.ood_bits,
            version,
            challenge: PhantomData,
        }
    }
}

impl<P, E, C> StarkGenericConfig for StarkConfig<P, E, C>
where
    P: CosetPcs<E, C>,
    P::Val: TwoAdicField + PrimeField64,
    E: ExtensionField<P::Val>,
    C: Copy
        + CanObserve<E>
        + CanSample<E>
        + CanSample<P::Val>
        + GrindingChallenger<Witness = P::Val>
        + CanObserve<P::Commitment>,
{
    type Val = P::Val;

    type Challenge = E;

    type Challenger = C;

    type Pcs = P;

    ghost initial_of = { λ s. s.challenger };

    ghost pcs_of = { λ s. s.pcs };

    ghost lookup_bits = { λ s. s.lookup_bits };

    ghost ood_bits = { λ s. s.ood_bits };

    ghost version = { λ s. s.version };

    fn pcs(&self) -> &P {
        &self.pcs
    }

    fn initialise_challenger(&self) -> C {
        self.challenger
    }

    fn is_zk(&self) -> usize {
        if P::ZK { 1 } else { 0 }
    }

    fn lookup_proof_of_work_bits(&self) -> usize {
        self.lookup_bits
    }

    fn ood_proof_of_work_bits(&self) -> usize {
        self.ood_bits
    }

    fn transcript_version(&self) -> TranscriptVersion {
        self.version
    }
}
