//! The checks of the tables' identities, each table's by itself.
ghost use Rattle.std.specs.Prelude.{◌≡◌, ℕ, ◌+◌, ◌*◌, ◌<◌, ◌≤◌, [], length, map, OnOk};
ghost use Rattle.std.specs.Prelude.{slice_index_or as get_or};
ghost use Rattle.p3_field.specs.Poly.{tabulate};
ghost use Rattle.p3_lookup.specs.Written.{read_all};
ghost use Rattle.batch_config.specs.Domains.{chunks_over};
ghost use Rattle.batch_statement.specs.Statement.{WellFormed, read_common, tables_of, stated};
ghost use Rattle.verifier_identity.specs.TableIdentity.{identity_at};
ghost use Rattle.verifier_shape.specs.ShapeChecks.{bounds_with, log_chunks_at, HasRightShape};
ghost use Rattle.audit_batch.specs.Asked.{in_order, of_each};
ghost use Rattle.audit_batch.specs.Named.{AreNamedAfter};
ghost use Rattle.batch_constraints.specs.Fields.{extension_of, two_adic_of};

use crate::naming::name_answer;
use air_core::{Air, BaseAir};
use batch_statement::{BatchVerificationError, SharedData, TablesProof};
use p3_field::{
    BasedVectorSpace, ExtensionField, Field, FieldCore, Mem, PrimeCharacteristicRing, PrimeCore64,
    PrimeField64, RingCore, TwoAdicCore, TwoAdicField, TwoAdicMultiplicativeCoset,
};
use std::alloc::Global;
use verifier_identity::check_identity_at;
use verifier_shape::ShapeBounds;

/// Names each table whose identity fails, by the first of its checks that does. The conditions are those of `check_identity_at`.
pub(crate) fn name_identities<
    F: TwoAdicField + PrimeField64,
    E: ExtensionField<F>,
    A: Air<F>,
    Com,
    Opening,
    R: Drop,
>(
    faults: &mut Vec<BatchVerificationError<R>>,
    alloc: Global,
    airs: &[A],
    public_values: &[Vec<F>],
    common: &SharedData<F, Com>,
    proof: &TablesProof<F, E, Com, Opening>,
    bounds: ShapeBounds,
    challenges: &[Vec<E>],
    domains: &[Vec<TwoAdicMultiplicativeCoset<F>>],
    alpha: E,
    zeta: E,
) -> Mem<()>
    requires formed { WellFormed (map A.declaration airs.now) (read_common common.now) }
    requires shape { HasRightShape R F.ring (bounds_with F.ORDER_U64 bounds)
        (stated A.declaration A.trees airs.now public_values.now common.now) proof.now }
    requires lists { length challenges.now ≡ length airs.now }
    requires challenges { (i : ℕ) → i < length airs.now
        → length (get_or (map (λ v. v.items) challenges.now) i []) ≡ 2
        * length (get_or (map read_all common.now.lookups) i []) }
    requires domains { map (λ v. v.items) domains.now
        ≡ tabulate (length airs.now)
        (λ i. chunks_over F.ring F.root F.GENERATOR bounds.masks (get_or proof.now.degree_bits i 0)
        (log_chunks_at F.ring bounds.masks (tables_of A.declaration A.trees airs.now)
        (map read_all common.now.lookups) proof.now.degree_bits i)) }
    requires fits { (i : ℕ) → i < length airs.now
        → get_or proof.now.degree_bits i 0
        + log_chunks_at F.ring bounds.masks (tables_of A.declaration A.trees airs.now)
        (map read_all common.now.lookups) proof.now.degree_bits i ≤ F.TWO_ADICITY }
    requires dimension { bounds.dimension ≡ E.DIMENSION }
    requires masked { bounds.masks ≤ bounds.least }
    ensures { let f = two_adic_of F.ring F.inv F.root F.GENERATOR in
        let e = extension_of E.ring E.embed E.DIMENSION E.basis E.coefficients
        E.from_coefficients in
        let s = stated A.declaration A.trees airs.now public_values.now common.now in
        OnOk result (AreNamedAfter faults.old.items (of_each (length airs.now)
        (λ i. in_order (identity_at f e bounds.masks s proof.now.instances
        proof.now.lookup_terminals proof.now.degree_bits
        (map (λ v. v.items) challenges.now) (map (λ v. v.items) domains.now) alpha zeta i)))
        faults.new.items) }
{
    for index in 0..airs.len() {
        let answer = check_identity_at(
            alloc,
            index,
            airs,
            public_values,
            common,
            proof,
            bounds,
            challenges,
            domains,
            alpha,
            zeta,
        );
        name_answer(faults, answer)?;
    }
    Ok(())
}
