//! The identities of all tables of a batch, by statement and proof.
ghost use Rattle.std.specs.Prelude.{◌≡◌, ℕ, ◌+◌, ◌*◌, ◌<◌, ◌≤◌, [], length, map, IsOk};
ghost use Rattle.std.specs.Prelude.{slice_index_or as get_or};
ghost use Rattle.p3_field.specs.Checks.{in_turn};
ghost use Rattle.p3_field.specs.Poly.{tabulate};
ghost use Rattle.p3_lookup.specs.Written.{read_all};
ghost use Rattle.batch_statement.specs.Statement.{Statement, WellFormed, read_common, tables_of, stated};
ghost use Rattle.batch_config.specs.Domains.{chunks_over};
ghost use Rattle.verifier_shape.specs.ShapeChecks.{bounds_with, log_chunks_at, HasRightShape};
ghost use Rattle.batch_statement.specs.Verdict.{IsVerdict};
ghost use Rattle.verifier_identity.specs.TableIdentity.{identity_at};
ghost use Rattle.batch_constraints.specs.Fields.{extension_of, two_adic_of};

use crate::tables::table_at;
use air_core::{Air, BaseAir};
use batch_statement::{BatchVerificationError, SharedData, TablesProof};
use p3_field::{
    BasedVectorSpace, ExtensionField, Field, FieldCore, PrimeCharacteristicRing, PrimeCore64,
    PrimeField64, RingCore, TwoAdicCore, TwoAdicField, TwoAdicMultiplicativeCoset,
};
use std::alloc::Global;
use verifier_shape::ShapeBounds;

/// The checks of the identity of one table, by its number: first `PeriodicColumn`, exactly where a periodic column doesn't fit the table's
/// rows, with the first such; then `OodPointInDomain`, exactly where zeta is one of the points of their domain; then
/// `OodEvaluationMismatch` with the table's number, exactly where the fold of its constraints by alpha isn't the vanishing value times the
/// quotient's (`verify_batch` of `p3-batch-stark`).
///
/// The common data is well-formed for the AIRs, and the proof passed the checks of its shape. For each table there are two
/// challenges for each of its lookups, and the domains of its quotient's chunks.
pub fn check_identity_at<
    F: TwoAdicField + PrimeField64,
    E: ExtensionField<F>,
    A: Air<F>,
    Com,
    Opening,
    R,
>(
    alloc: Global,
    index: usize,
    airs: &[A],
    public_values: &[Vec<F>],
    common: &SharedData<F, Com>,
    proof: &TablesProof<F, E, Com, Opening>,
    bounds: ShapeBounds,
    challenges: &[Vec<E>],
    domains: &[Vec<TwoAdicMultiplicativeCoset<F>>],
    alpha: E,
    zeta: E,
) -> Result<(), BatchVerificationError<R>>
    requires within { index < length airs.now }
    requires formed { WellFormed (map A.declaration airs.now) (read_common common.now) }
    requires shape { HasRightShape R F.ring (bounds_with F.ORDER_U64 bounds)
        (stated A.declaration A.trees airs.now public_values.now common.now) proof.now }
    requires lists { length challenges.now ≡ length airs.now }
    requires challenges { (i : ℕ) → i < length airs.now
        → length (get_or (map (λ v. v.items) challenges.now) i []) ≡ 2
        * length (get_or (map read_all common.now.lookups) i []) }
    requires domains { map (λ v. v.items) domains.now
        ≡ tabulate (length airs.now)
        (λ i. chunks_over F.ring F.root F.GENERATOR bounds.masks (get_or proof.now.degree_bits i 0)
        (log_chunks_at F.ring bounds.masks (tables_of A.declaration A.trees airs.now)
        (map read_all common.now.lookups) proof.now.degree_bits i)) }
    requires fits { (i : ℕ) → i < length airs.now
        → get_or proof.now.degree_bits i 0
        + log_chunks_at F.ring bounds.masks (tables_of A.declaration A.trees airs.now)
        (map read_all common.now.lookups) proof.now.degree_bits i ≤ F.TWO_ADICITY }
    requires dimension { bounds.dimension ≡ E.DIMENSION }
    requires masked { bounds.masks ≤ bounds.least }
    ensures { let f = two_adic_of F.ring F.inv F.root F.GENERATOR in
        let e = extension_of E.ring E.embed E.DIMENSION E.basis E.coefficients
        E.from_coefficients in
        let s = stated A.declaration A.trees airs.now public_values.now common.now in
        IsVerdict (identity_at f e bounds.masks s proof.now.instances proof.now.lookup_terminals
        proof.now.degree_bits
        (map (λ v. v.items) challenges.now) (map (λ v. v.items) domains.now) alpha zeta index)
        result }
{
    table_at(
        alloc,
        index,
        airs,
        public_values,
        &common.lookups,
        proof.instances(),
        proof.terminals(),
        &proof.degree_bits,
        bounds.masks,
        challenges,
        domains,
        alpha,
        zeta,
    )
}

/// The checks of all tables' identities, one table after the other. The answer is the refusal of the first that fails, of a table in
/// the order of `check_identity_at`, whose conditions are also these. Where there are no tables the answer is Ok.
pub fn check_identities<
    F: TwoAdicField + PrimeField64,
    E: ExtensionField<F>,
    A: Air<F>,
    Com,
    Opening,
    R,
>(
    alloc: Global,
    airs: &[A],
    public_values: &[Vec<F>],
    common: &SharedData<F, Com>,
    proof: &TablesProof<F, E, Com, Opening>,
    bounds: ShapeBounds,
    challenges: &[Vec<E>],
    domains: &[Vec<TwoAdicMultiplicativeCoset<F>>],
    alpha: E,
    zeta: E,
) -> Result<(), BatchVerificationError<R>>
    requires formed { WellFormed (map A.declaration airs.now) (read_common common.now) }
    requires shape { HasRightShape R F.ring (bounds_with F.ORDER_U64 bounds)
        (stated A.declaration A.trees airs.now public_values.now common.now) proof.now }
    requires lists { length challenges.now ≡ length airs.now }
    requires challenges { (i : ℕ) → i < length airs.now
        → length (get_or (map (λ v. v.items) challenges.now) i []) ≡ 2
        * length (get_or (map read_all common.now.lookups) i []) }
    requires domains { map (λ v. v.items) domains.now
        ≡ tabulate (length airs.now)
        (λ i. chunks_over F.ring F.root F.GENERATOR bounds.masks (get_or proof.now.degree_bits i 0)
        (log_chunks_at F.ring bounds.masks (tables_of A.declaration A.trees airs.now)
        (map read_all common.now.lookups) proof.now.degree_bits i)) }
    requires fits { (i : ℕ) → i < length airs.now
        → get_or proof.now.degree_bits i 0
        + log_chunks_at F.ring bounds.masks (tables_of A.declaration A.trees airs.now)
        (map read_all common.now.lookups) proof.now.degree_bits i ≤ F.TWO_ADICITY }
    requires dimension { bounds.dimension ≡ E.DIMENSION }
    requires masked { bounds.masks ≤ bounds.least }
    ensures verdict { let f = two_adic_of F.ring F.inv F.root F.GENERATOR in
        let e = extension_of E.ring E.embed E.DIMENSION E.basis E.coefficients
        E.from_coefficients in
        let s = stated A.declaration A.trees airs.now public_values.now common.now in
        IsVerdict (in_turn (length airs.now)
        (identity_at f e bounds.masks s proof.now.instances proof.now.lookup_terminals
        proof.now.degree_bits (map (λ v. v.items) challenges.now) (map (λ v. v.items) domains.now)
        alpha zeta)) result }
    ensures none { length airs.now ≡ 0 → IsOk result }
{
    for index in 0..airs.len() {
        check_identity_at(
            alloc,
            index,
            airs,
            public_values,
            common,
            proof,
            bounds,
            challenges,
            domains,
            alpha,
            zeta,
        )?;
    }
    Ok(())
}
