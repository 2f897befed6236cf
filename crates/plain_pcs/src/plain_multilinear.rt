//! A multilinear polynomial whose values are their own commitment.
ghost use Rattle.std.specs.Prelude.{◌≡◌, ℕ, ◌^◌, ◌<◌, List, length, map, IfOk, IfErr, IsOk, MatchOption};
ghost use Rattle.commit_rows.specs.Batches.{lists};
ghost use Rattle.commit_core.specs.Failure.{RefusedBy, IfRefused, VerifiedBy};
ghost use Rattle.plain_pcs.specs.PlainMultilinear.{after_values, HasValues, HaveCoordinates, AreValuesAt, IsClaimFault, IsCommitFault, IsOpenFault};
ghost use Rattle.plain_pcs.specs.Refusals.{IfOutOfMemory};
ghost use Rattle.plain_pcs.specs.Laws.Claims.{claims_faultless, some_claim_fault, one_claim_fault, one_commit_cause, one_open_cause};

use crate::evaluations::{first_different, first_unfit, observe_values, values_at};
use commit_core::PcsFailure;
use commit_rows::MultilinearPcs;
use p3_challenger::CanObserve;
use p3_field::{
    BasedVectorSpace, ExtensionField, Field, FieldCore, PrimeCharacteristicRing, RingCore,
};
use std::alloc::Global;
use std::marker::{Model, PhantomData};
use thiserror::Error;

/// A scheme whose commitment to a multilinear polynomial is its values on all points of zeros and ones: bit j of a value's
/// place is variable j (not in Plonky3). Contracts see it as the number of variables.
#[derive(Drop)]
pub struct PlainMultilinear<F> {
    num_vars: usize,
    field: PhantomData<F>,
}

impl<F> Model for PlainMultilinear<F> {
    ghost Value = { ℕ };

    ghost view = { λ s. s.num_vars };

    ghost invariant = { λ s. s.num_vars < 64 };
}

impl<F> PlainMultilinear<F> {
    /// The scheme for polynomials of fewer than 64 variables.
    pub fn new(num_vars: usize) -> Self
        requires { num_vars < 64 }
        ensures { result ≡ num_vars }
    {
        PlainMultilinear {
            num_vars,
            field: PhantomData,
        }
    }
}

/// The values of a multilinear polynomial, as a commitment to it and as its prover data (not in
/// Plonky3).
#[derive(Drop)]
pub struct PlainEvaluations<F> {
    /// The values. Bit j of a value's place is variable j.
    pub values: Vec<F>,
}

/// Why a `PlainMultilinear` refuses to commit or to open (not in Plonky3).
#[derive(Debug, Drop, Error)]
pub enum PlainMultilinearProverError {
    /// The number of values isn't 2 to the number of variables.
    #[error("the number of values is not that of a polynomial of this many variables")]
    Length,
    /// A point hasn't a coordinate for each variable; it is the first such.
    #[error("point {point} has not one coordinate for each variable")]
    PointLength {
        /// The point's place among all, from 0.
        point: usize,
    },
}

/// Why a `PlainMultilinear` refuses values, the first that comes (not in Plonky3).
#[derive(Debug, Drop, Error)]
pub enum PlainMultilinearError {
    /// The commitment's number of values isn't 2 to the number of variables.
    #[error("the commitment is not one of this many variables")]
    Length,
    /// A point hasn't a coordinate for each variable; it is the first such.
    #[error("point {point} has not one coordinate for each variable")]
    PointLength {
        /// The point's place among all, from 0.
        point: usize,
    },
    /// There isn't one value for each point.
    #[error("there is not one value for each point")]
    Count,
    /// A value isn't that of the polynomial at its point; it is the first such.
    #[error("the value at point {point} is not the polynomial's")]
    Value {
        /// The point's place among all, from 0.
        point: usize,
    },
}

impl<F: Field, EF: ExtensionField<F>, C: CanObserve<F>> MultilinearPcs<EF, C>
    for PlainMultilinear<F> {
    ghost use Rattle.std.specs.Prelude.{Vec};
    ghost use Rattle.std.specs.declared.alloc.Global.{Global};
    ghost use Rattle.plain_pcs.specs.declared.plain_multilinear.PlainEvaluations.{PlainEvaluations};

    type Val = F;

    type Commitment = PlainEvaluations<F>;

    type ProverData = PlainEvaluations<F>;

    type Proof = Vec<EF>;

    type Error = PlainMultilinearError;

    type ProverError = PlainMultilinearProverError;

    type Witness = Vec<F>;

    type OpeningProtocol = Vec<Vec<EF>>;

    ghost variables = { λ s. s };

    ghost commit_fault = { λ s w e. IsCommitFault s w.items e };

    ghost observed = { λ s c t. after_values F.ring C.observed c.values.items t };

    ghost holds = { λ s d c w. HasValues s w.items × (d.values.items ≡ w.items)
        × (c.values.items ≡ w.items) };

    ghost open_fault = { λ s d o e. IsOpenFault s d.values.items (lists o.items) e };

    ghost opens = { λ s t c o p.
        AreValuesAt EF.ring EF.embed s c.values.items (lists o.items) p.items };

    ghost after = { λ s t c o p. t };

    ghost fault = { λ s t c o p e.
        IsClaimFault EF.ring EF.embed s c.values.items (lists o.items) p.items e };

    fn num_vars(&self) -> usize {
        self.num_vars
    }

    /// The values are copied once, for the commitment. The challenger takes in how many they are, and then each; it stays as
    /// it was where nothing is committed to, also where memory runs out. `Length` comes exactly for another number of
    /// values.
    fn commit(
        &self,
        alloc: Global,
        witness: Vec<F>,
        challenger: &mut C,
    ) -> Result<(PlainEvaluations<F>, PlainEvaluations<F>), PcsFailure<PlainMultilinearProverError>>
        ensures refusal { RefusedBy (IsCommitFault self.now witness.items) result }
        ensures searched { IfOutOfMemory result (HasValues self.now witness.items) }
        ensures unchanged { IfRefused result (λ _. challenger.new ≡ challenger.old) }
        ensures unchanged_by_failure { IfErr result (λ _. challenger.new ≡ challenger.old) }
        ensures observed { IfOk result
            (λ w. challenger.new ≡ after_values F.ring C.observed w.0.values.items challenger.old) }
        ensures held { IfOk result
            (λ w. HasValues self.now witness.items × (w.1.values.items ≡ witness.items)
            × (w.0.values.items ≡ witness.items)) }
    {
        if witness.len() != 1 << self.num_vars {
            return Err(PcsFailure::Refused(PlainMultilinearProverError::Length));
        }
        let values = Vec::from_slice(alloc, &witness)?;
        observe_values(challenger, &values);
        Ok((
            PlainEvaluations { values },
            PlainEvaluations { values: witness },
        ))
    }

    fn observe_commitment(&self, commitment: &PlainEvaluations<F>, challenger: &mut C) {
        observe_values(challenger, &commitment.values);
    }

    /// The values at the protocol's points, in order. `Length` comes exactly where the prover's values aren't 2^`num_vars`, and
    /// where they are, `PointLength` exactly for the first point with another number of coordinates. The challenger stays as
    /// it was.
    fn open(
        &self,
        alloc: Global,
        prover_data: PlainEvaluations<F>,
        protocol: &Vec<Vec<EF>>,
        _challenger: &mut C,
    ) -> Result<Vec<EF>, PcsFailure<PlainMultilinearProverError>>
        ensures refusal { RefusedBy
            (IsOpenFault self.now prover_data.values.items (lists protocol.now.items)) result }
        ensures searched { IfOutOfMemory result
            (HasValues self.now prover_data.values.items
            × HaveCoordinates self.now (lists protocol.now.items)) }
        ensures unchanged { IfRefused result (λ _. _challenger.new ≡ _challenger.old) }
        ensures challenger { _challenger.new ≡ _challenger.old }
        ensures accepted { IfOk result
            (λ p. (c : PlainEvaluations F) (w : Vec F Global) → HasValues self.now w.items
            × (prover_data.values.items ≡ w.items) × (c.values.items ≡ w.items)
            → AreValuesAt EF.ring EF.embed self.now c.values.items (lists protocol.now.items)
            p.items) }
        ensures after { IfOk result
            (λ p. (c : PlainEvaluations F) (w : Vec F Global) → HasValues self.now w.items
            × (prover_data.values.items ≡ w.items) × (c.values.items ≡ w.items)
            → _challenger.new ≡ _challenger.old) }
    {
        if prover_data.values.len() != 1 << self.num_vars {
            return Err(PcsFailure::Refused(PlainMultilinearProverError::Length));
        }
        if let Some(point) = first_unfit(protocol, self.num_vars) {
            return Err(PcsFailure::Refused(PlainMultilinearProverError::PointLength { point }));
        }
        Ok(values_at(alloc, &prover_data.values, protocol)?)
    }

    /// Whether the proof is the values at the protocol's points, in order: Ok exactly where it is. Else it names the first
    /// fault: `Length` of the commitment, `PointLength` of the first such point, `Count`, and `Value` of the first value that
    /// differs. The challenger stays as it was.
    fn verify(
        &self,
        alloc: Global,
        commitment: &PlainEvaluations<F>,
        proof: &Vec<EF>,
        _challenger: &mut C,
        protocol: &Vec<Vec<EF>>,
    ) -> Result<(), PcsFailure<PlainMultilinearError>>
        ensures verdict { VerifiedBy
            (AreValuesAt EF.ring EF.embed self.now commitment.now.values.items
            (lists protocol.now.items) proof.now.items)
            (IsClaimFault EF.ring EF.embed self.now commitment.now.values.items
            (lists protocol.now.items) proof.now.items) result }
        ensures searched { IfOutOfMemory result
            (HasValues self.now commitment.now.values.items
            × HaveCoordinates self.now (lists protocol.now.items)
            × (length proof.now.items ≡ length protocol.now.items)) }
        ensures challenger { _challenger.new ≡ _challenger.old }
        ensures after { IsOk result → _challenger.new ≡ _challenger.old }
    {
        if commitment.values.len() != 1 << self.num_vars {
            return Err(PcsFailure::Refused(PlainMultilinearError::Length));
        }
        if let Some(point) = first_unfit(protocol, self.num_vars) {
            return Err(PcsFailure::Refused(PlainMultilinearError::PointLength { point }));
        }
        if proof.len() != protocol.len() {
            return Err(PcsFailure::Refused(PlainMultilinearError::Count));
        }
        let values = values_at(alloc, &commitment.values, protocol)?;
        match first_different(proof, &values) {
            Some(point) => Err(PcsFailure::Refused(PlainMultilinearError::Value { point })),
            None => Ok(()),
        }
    }

    ghost opens_faultless = { λ s t c o p h.
        claims_faultless EF.ring EF.embed s c.values.items (lists o.items) p.items h };

    ghost one_commit_fault = { λ s w e g f h. one_commit_cause s w.items e g f h };

    ghost one_open_fault = { λ s d o e g f h.
        one_open_cause s d.values.items (lists o.items) e g f h };

    ghost some_fault = { λ s t c o p n f.
        some_claim_fault EF.ring EF.embed s c.values.items (lists o.items) p.items n f };

    ghost one_fault = { λ s t c o p e g.
        one_claim_fault EF.ring EF.embed s c.values.items (lists o.items) p.items e g };
}
