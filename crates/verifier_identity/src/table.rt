//! The checks of one table's identity.
ghost use Rattle.std.specs.Prelude.{◌≡◌, ◌*◌, ◌≤◌, All, IfOk, length, map, option_map};
ghost use Rattle.p3_field.specs.Checks.{NoneFails};
ghost use Rattle.p3_field.specs.Domain.{subgroup};
ghost use Rattle.p3_lookup.specs.Written.{read_all};
ghost use Rattle.p3_uni_stark.specs.Recombine.{AllDisjoint, recombined};
ghost use Rattle.batch_constraints.specs.BatchTrees.{AreLookupsOf, table_trees};
ghost use Rattle.verifier_identity.specs.Identity.{OpensWhatIsRead, identity_checks};
ghost use Rattle.verifier_identity.specs.VerifierData.{identity_opened_of};
ghost use Rattle.verifier_shape.specs.ShapeChecks.{table_checks};
ghost use Rattle.batch_statement.specs.Words.{is_there};
ghost use Rattle.batch_statement.specs.Verdict.{IsDecided, IsVerdict};
ghost use Rattle.p3_uni_stark.specs.declared.error.VerificationError.TheVariants.{OodEvaluationMismatch, OodPointInDomain};
ghost use Rattle.verifier_identity.specs.MadeRows.{AreMade};
ghost use Rattle.verifier_identity.specs.TableIdentity.{identity_of_table, opened_table, periods_check, verified};
ghost use Rattle.batch_constraints.specs.Fields.{extension_of, two_adic_of};

use crate::IdentityData;
use crate::made_rows::{
    MadeRows, held_terminal, made_rows, next_row, preprocessed_local, preprocessed_next, values_in,
};
use air_core::{Air, BaseAir};
use batch_statement::{BatchVerificationError, OpenedValuesWithLookups};
use commit_core::PeriodicColumns;
use p3_field::{
    BasedVectorSpace, ExtensionField, Field, FieldCore, PrimeCharacteristicRing, RingCore,
    TwoAdicCore, TwoAdicField, TwoAdicMultiplicativeCoset,
};
use p3_lookup::{LogUpGadget, Lookup, LookupTerminal};
use p3_uni_stark::{VerificationError, recomposed_quotient};
use std::alloc::Global;

// The domain of 2^`log_height` rows.
fn rows_domain<F: TwoAdicField>(log_height: usize) -> TwoAdicMultiplicativeCoset<F>
    requires { log_height ≤ F.TWO_ADICITY }
    ensures { result ≡ subgroup F.ring log_height }
{
    TwoAdicMultiplicativeCoset::new(F::ONE, log_height).unwrap()
}

// The check of a table's periodic columns, which gives those that fit.
#[tactic(auto, unfolding(p3_field::specs::Checks::NoneFails, p3_field::specs::Checks::FirstFails))]
fn fitting_columns<F: FieldCore, A: BaseAir<F>, R>(
    air: &A,
    height: usize,
) -> Result<PeriodicColumns<'_, F>, BatchVerificationError<R>>
    ensures decided { IsDecided (periods_check height (map length (A.declaration air.now).periodic))
        result }
    ensures columns { IfOk result
        (λ p. map (λ c. c.items) p.columns.now ≡ (A.declaration air.now).periodic) }
    ensures height { IfOk result (λ p. p.height ≡ height) }
{
    match PeriodicColumns::new(air.periodic_columns(), height) {
        Ok(columns) => Ok(columns),
        Err(e) => Err(BatchVerificationError::Verification(VerificationError::PeriodicColumn(e))),
    }
}

// The quotient's value from what is opened of its chunks on these domains.
fn quotient_at<F: TwoAdicField, E: ExtensionField<F>>(
    domains: &[TwoAdicMultiplicativeCoset<F>],
    opened: &OpenedValuesWithLookups<E>,
    zeta: E,
) -> E
    requires count { length opened.now.base.quotient_chunks ≡ length domains.now }
    requires dimension { All (λ c. length c ≡ E.DIMENSION) opened.now.base.quotient_chunks }
    requires disjoint { AllDisjoint
        (two_adic_of F.ring F.inv F.root F.GENERATOR)
        domains.now }
    ensures { let f = two_adic_of F.ring F.inv F.root F.GENERATOR in
        let e = extension_of E.ring E.embed E.DIMENSION E.basis E.coefficients
        E.from_coefficients in
        result ≡ recombined f e domains.now opened.now.base.quotient_chunks zeta }
{
    let base = &opened.base_opened_values;
    recomposed_quotient(domains, &base.quotient_chunks, zeta)
}

// What a table's identity is decided from.
fn table_data<'a, F: TwoAdicField, E: ExtensionField<F>, A: BaseAir<F>>(
    air: &A,
    domain: TwoAdicMultiplicativeCoset<F>,
    public_values: &'a [F],
    lookups: &'a [Lookup<F>],
    opened: &'a OpenedValuesWithLookups<E>,
    made: &'a MadeRows<E>,
    challenges: &'a [E],
    terminals: &'a [E],
    quotient: E,
    alpha: E,
    zeta: E,
) -> IdentityData<'a, F, E>
    requires { let f = two_adic_of F.ring F.inv F.root F.GENERATOR in
        let e = extension_of E.ring E.embed E.DIMENSION E.basis E.coefficients
        E.from_coefficients in
        AreMade f e domain (A.declaration air.now) (length lookups.now) zeta opened.now made.now }
    ensures zeta { result.zeta ≡ zeta }
    ensures alpha { result.alpha ≡ alpha }
    ensures lookups { result.lookups.now ≡ lookups.entry.now }
    ensures domain { result.trace_domain ≡ domain }
    ensures quotient { result.quotient ≡ quotient }
    ensures opened { let f = two_adic_of F.ring F.inv F.root F.GENERATOR in
        let e = extension_of E.ring E.embed E.DIMENSION E.basis E.coefficients
        E.from_coefficients in
        identity_opened_of result
        ≡ opened_table f e domain (A.declaration air.now) (length lookups.now) public_values.now
        challenges.now terminals.now zeta opened.now }
{
    let base = &opened.base_opened_values;
    IdentityData {
        zeta,
        alpha,
        trace_local: &base.trace_local,
        trace_next: next_row(
            air.main_next_row_columns(),
            &base.trace_next,
            &made.trace_zeros,
        ),
        preprocessed_local: preprocessed_local(&base.preprocessed),
        preprocessed_next: preprocessed_next(
            air.preprocessed_next_row_columns(),
            &base.preprocessed,
            &made.preprocessed_zeros,
        ),
        permutation_local: &made.permutation_local,
        permutation_next: &made.permutation_next,
        permutation_challenges: challenges,
        permutation_values: terminals,
        periodic_values: &made.periodic,
        lookups,
        public_values,
        trace_domain: domain,
        quotient,
    }
}

// The refusal of a table's identity, with the table's number.
fn of_table<R>(index: usize, error: VerificationError<()>) -> VerificationError<R>
    ensures point { error ≡ OodPointInDomain → result ≡ OodPointInDomain }
    ensures mismatch { (error ≡ OodPointInDomain → ⊥)
        → result ≡ OodEvaluationMismatch (Some index) }
{
    match error {
        VerificationError::OodPointInDomain => VerificationError::OodPointInDomain,
        _ => VerificationError::OodEvaluationMismatch { index: Some(index) },
    }
}

// Whether the identity of table `index` holds: zeta isn't one of the domain's points, and the fold is the vanishing value
// times the quotient.
fn decide<F: TwoAdicField, E: ExtensionField<F>, A: Air<F>, R>(
    index: usize,
    air: &A,
    given: &IdentityData<'_, F, E>,
) -> Result<(), BatchVerificationError<R>>
    requires { OpensWhatIsRead (A.declaration air.now) (read_all given.now.lookups.now)
        (identity_opened_of given.now) }
    ensures { let f = two_adic_of F.ring F.inv F.root F.GENERATOR in
        let e = extension_of E.ring E.embed E.DIMENSION E.basis E.coefficients
        E.from_coefficients in
        let trees = table_trees F.ring (A.trees air.now) (read_all given.now.lookups.now) in
        IsDecided (map verified (identity_checks f e {R = R} (Some index) given.now.trace_domain
        given.now.alpha given.now.zeta (identity_opened_of given.now) trees given.now.quotient))
        result }
{
    match given.verify_constraints_with_lookups::<A, LogUpGadget, ()>(air, &LogUpGadget::new()) {
        Ok(()) => Ok(()),
        Err(error) => Err(BatchVerificationError::Verification(of_table(index, error))),
    }
}

// The checks of one table: that its periodic columns fit its rows, and its identity. What is opened of it was found to have the
// declared lengths, and no two of its quotient's domains share a point.
pub(crate) fn check_table<F: TwoAdicField, E: ExtensionField<F>, A: Air<F>, R>(
    alloc: Global,
    index: usize,
    air: &A,
    log_height: usize,
    public_values: &[F],
    lookups: &[Lookup<F>],
    opened: &OpenedValuesWithLookups<E>,
    terminal: &Option<LookupTerminal<E>>,
    challenges: &[E],
    domains: &[TwoAdicMultiplicativeCoset<F>],
    alpha: E,
    zeta: E,
) -> Result<(), BatchVerificationError<R>>
    requires shape { NoneFails
        (table_checks {R = R} index (A.declaration air.now) (length public_values.now)
        (length domains.now) E.DIMENSION
        (length (read_all lookups.now)) opened.now (is_there terminal.now)) }
    requires reads { AreLookupsOf (A.declaration air.now) (read_all lookups.now) }
    requires challenges { length challenges.now ≡ 2 * length (read_all lookups.now) }
    requires disjoint { AllDisjoint
        (two_adic_of F.ring F.inv F.root F.GENERATOR)
        domains.now }
    requires fits { log_height ≤ F.TWO_ADICITY }
    ensures { let f = two_adic_of F.ring F.inv F.root F.GENERATOR in
        let e = extension_of E.ring E.embed E.DIMENSION E.basis E.coefficients
        E.from_coefficients in
        IsVerdict (identity_of_table f e index log_height
        (record { declaration = A.declaration air.now; trees = A.trees air.now })
        (read_all lookups.now) public_values.now challenges.now (option_map (λ t. t.0) terminal.now)
        domains.now alpha zeta opened.now) result }
{
    let domain = rows_domain::<F>(log_height);
    let columns = fitting_columns(air, domain.size())?;
    let made = made_rows(alloc, air, columns, &domain, lookups.len(), opened, zeta)?;
    let quotient = quotient_at(domains, opened, zeta);
    let held = held_terminal(terminal);
    let given = table_data(
        air,
        domain,
        public_values,
        lookups,
        opened,
        &made,
        challenges,
        values_in(&held),
        quotient,
        alpha,
        zeta,
    );
    decide(index, air, &given)
}
