//! The identity of one table at a point, by itself.
ghost use Rattle.std.specs.Prelude.{◌≡◌, List, None, MatchResult, map};
ghost use Rattle.p3_field.specs.Checks.{NoneFails, FirstFails};
ghost use Rattle.p3_field.specs.Poly.{eval_poly};
ghost use Rattle.p3_field.specs.Domain.{first_selector, last_selector, transition_selector};
ghost use Rattle.p3_lookup.specs.Written.{read_all};
ghost use Rattle.batch_constraints.specs.BatchTrees.{table_trees};
ghost use Rattle.verifier_folder.specs.FolderState.{all_opened};
ghost use Rattle.verifier_identity.specs.Identity.{IsInDomain, OpensWhatIsRead, folded_at, identity_checks, opened_at};
ghost use Rattle.batch_constraints.specs.Fields.{extension_of, two_adic_of};

use air_core::{Air, BaseAir};
use commit_core::{LagrangeSelectors, PolynomialSpace};
use p3_field::{
    BasedVectorSpace, ExtensionField, Field, FieldCore, PrimeCharacteristicRing, RingCore,
    TwoAdicCore, TwoAdicField, TwoAdicMultiplicativeCoset,
};
use p3_lookup::{Lookup, LookupProtocol};
use p3_uni_stark::{Challenge, StarkGenericConfig, Val, VerificationError, VerifierFolder};
use verifier_folder::{VerifierFolderWithLookups, verifier_fold_with_lookups};

/// What the identity of one table at a point is decided from (`VerifierData` of `p3-batch-stark`): the drawn point and
/// challenges, what is opened there, and the quotient's value.
#[derive(Drop)]
pub struct IdentityData<'a, F: TwoAdicCore, E> {
    /// The drawn point.
    pub zeta: E,
    /// The challenge that folds the constraints.
    pub alpha: E,
    /// The main columns' values at the point, one for each column.
    pub trace_local: &'a [E],
    /// The main columns' values at the next point; zeros where no next column is declared.
    pub trace_next: &'a [E],
    /// The preprocessed columns' values at the point, one for each column.
    pub preprocessed_local: &'a [E],
    /// The preprocessed columns' values at the next point; zeros where no next column is declared.
    pub preprocessed_next: &'a [E],
    /// The permutation columns' values at the point: the running sum's, then one for each lookup. None without lookups.
    pub permutation_local: &'a [E],
    /// The permutation columns' values at the next point.
    pub permutation_next: &'a [E],
    /// The challenges of the lookups: two for each.
    pub permutation_challenges: &'a [E],
    /// The terminals of the lookups: one, and none without lookups.
    pub permutation_values: &'a [E],
    /// The periodic columns' values at the point, one for each column.
    pub periodic_values: &'a [E],
    /// The table's lookups.
    pub lookups: &'a [Lookup<F>],
    /// The table's public values.
    pub public_values: &'a [F],
    /// The domain of the table's rows.
    pub trace_domain: TwoAdicMultiplicativeCoset<F>,
    /// The quotient's value at the point.
    pub quotient: E,
}

/// What the identity of a table is decided from, over a configuration's fields (`VerifierData` of `p3-batch-stark`).
pub type VerifierData<'a, SC> = IdentityData<'a, Val<SC>, Challenge<SC>>;

impl<'a, F: TwoAdicField, E: ExtensionField<F>> IdentityData<'a, F, E> {
    ghost use Rattle.verifier_identity.specs.VerifierData.{identity_opened_of};

    // The folder over the opened values and these selectors, which has folded nothing yet.
    fn folder(&self, selectors: &LagrangeSelectors<E>) -> VerifierFolderWithLookups<'a, F, E>
        requires first { selectors.now.is_first_row
            ≡ eval_poly E.ring (map E.embed (first_selector F.ring F.inv self.now.trace_domain))
            self.now.zeta }
        requires last { selectors.now.is_last_row
            ≡ eval_poly E.ring (map E.embed
            (last_selector F.ring F.inv F.root self.now.trace_domain)) self.now.zeta }
        requires transition { selectors.now.is_transition
            ≡ eval_poly E.ring (map E.embed
            (transition_selector F.ring F.inv F.root self.now.trace_domain)) self.now.zeta }
        ensures zero { result.inner.accumulator ≡ E.ring.zero }
        ensures reads { let f = two_adic_of F.ring F.inv F.root F.GENERATOR in
            let e = extension_of E.ring E.embed E.DIMENSION E.basis E.coefficients
            E.from_coefficients in
            all_opened result ≡ opened_at f e self.now.trace_domain self.now.alpha self.now.zeta
            (identity_opened_of self.now) }
    {
        VerifierFolderWithLookups {
            inner: VerifierFolder {
                main_local: self.trace_local,
                main_next: self.trace_next,
                preprocessed_local: self.preprocessed_local,
                preprocessed_next: self.preprocessed_next,
                periodic_values: self.periodic_values,
                public_values: self.public_values,
                is_first_row: selectors.is_first_row,
                is_last_row: selectors.is_last_row,
                is_transition: selectors.is_transition,
                alpha: self.alpha,
                accumulator: E::ZERO,
            },
            permutation_local: self.permutation_local,
            permutation_next: self.permutation_next,
            permutation_challenges: self.permutation_challenges,
            permutation_values: self.permutation_values,
        }
    }

    /// Whether the identity holds at the point (`verify_constraints_with_lookups` of `p3-batch-stark`): the fold of the
    /// table's constraints, the AIR's and after them those of its lookups, is the vanishing polynomial's value times the
    /// quotient's. It takes no memory.
    ///
    /// `OodPointInDomain` comes exactly where the point is one of the domain's, and then nothing else is read; else
    /// `OodEvaluationMismatch` without a table's number exactly where the identity fails.
    pub fn verify_constraints_with_lookups<A: Air<F>, LG: LookupProtocol, PcsErr>(
        &self,
        air: &A,
        lookup_gadget: &LG,
    ) -> Result<(), VerificationError<PcsErr>>
        requires { (IsInDomain (two_adic_of F.ring F.inv F.root F.GENERATOR)
            (extension_of E.ring E.embed E.DIMENSION E.basis E.coefficients E.from_coefficients)
            self.now.trace_domain self.now.zeta → ⊥)
            → OpensWhatIsRead (A.declaration air.now) (read_all self.now.lookups.now)
            (identity_opened_of self.now) }
        ensures { let f = two_adic_of F.ring F.inv F.root F.GENERATOR in
            let e = extension_of E.ring E.embed E.DIMENSION E.basis E.coefficients
            E.from_coefficients in
            let trees = table_trees F.ring (A.trees air.now) (read_all self.now.lookups.now) in
            let checks = identity_checks f e None self.now.trace_domain self.now.alpha self.now.zeta
            (identity_opened_of self.now) trees self.now.quotient in
            MatchResult result (λ _. NoneFails checks) (FirstFails checks) }
    {
        if self
            .trace_domain
            .vanishing_poly_at_point(self.zeta)
            .is_zero()
        {
            return Err(VerificationError::OodPointInDomain);
        }
        let selectors = self.trace_domain.selectors_at_point(self.zeta);
        let folder = self.folder(&selectors);
        let folded = verifier_fold_with_lookups(air, self.lookups, lookup_gadget, folder);
        if folded * selectors.inv_vanishing != self.quotient {
            return Err(VerificationError::OodEvaluationMismatch { index: None });
        }
        Ok(())
    }
}
