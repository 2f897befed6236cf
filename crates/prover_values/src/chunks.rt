//! The chunks of a quotient by its values.
ghost use Rattle.std.specs.Prelude.{◌≡◌, ℕ, ◌+◌, ◌^◌, ◌≤◌, List, IfOk, length};
ghost use Rattle.std.specs.Int.{IsPowerOfTwo};
ghost use Rattle.p3_field.specs.Field.{Extension};
ghost use Rattle.air_core.specs.Tree.{Tree};
ghost use Rattle.commit_core.specs.Space.{EachOf};
ghost use Rattle.law_committed.specs.Committed.{CommittedTable};
ghost use Rattle.prover_values.specs.Chunks.{IsChunk};
ghost use Rattle.prover_values.specs.Evaluations.{quotient_values_on};
ghost use Rattle.batch_constraints.specs.Fields.{two_adic_of, extension_of};

use commit_core::{PolynomialSpace, paired};
use p3_field::{
    BasedVectorSpace, ExtensionField, Field, FieldCore, Mem, PrimeCharacteristicRing, RingCore,
    TwoAdicCore, TwoAdicField, TwoAdicMultiplicativeCoset,
};
use p3_matrix::RowMajorMatrix;
use std::alloc::Global;

/// The chunks of a quotient, of which the values at the points of its domain are given: chunk i is a matrix whose row j has the
/// coefficients of value i + `num_chunks` j, with the part of the domain that begins at point i. To these a prover commits (not
/// in Plonky3; `p3-batch-stark`'s prover does it in place). Where the values are those of a table's quotient, the chunks are
/// those of the honest one. The only error is running out of memory.
///
/// There is a value for each point, and `num_chunks` is a power of two and at most the number of points.
pub fn quotient_chunks<F: TwoAdicField, E: ExtensionField<F>>(
    alloc: Global,
    quotient_domain: TwoAdicMultiplicativeCoset<F>,
    values: &[E],
    num_chunks: usize,
) -> Mem<Vec<(TwoAdicMultiplicativeCoset<F>, RowMajorMatrix<F>)>>
    requires power { IsPowerOfTwo num_chunks }
    requires fits { num_chunks ≤ 2 ^ quotient_domain.log_size }
    requires count { length values.now ≡ 2 ^ quotient_domain.log_size }
    ensures { let f = two_adic_of F.ring F.inv F.root F.GENERATOR in
        let e : Extension F E = extension_of E.ring E.embed E.DIMENSION E.basis E.coefficients
        E.from_coefficients in
        IfOk result
        (λ v. (t : CommittedTable F E) (trees : List (Tree F)) (alpha : E) (log_chunks : ℕ)
        → num_chunks ≡ 2 ^ log_chunks → quotient_domain.log_size ≡ t.log_height + log_chunks
        → values.now ≡ quotient_values_on f e t trees alpha quotient_domain
        → EachOf (2 ^ log_chunks) v.items
        (IsChunk f e t quotient_domain.shift log_chunks trees alpha)) }
{
    let flat = E::flatten_to_base(alloc, values)?;
    let matrix = RowMajorMatrix::new(flat, E::DIMENSION);
    let rows = quotient_domain.split_evals(alloc, num_chunks, matrix)?;
    let domains = quotient_domain.split_domains(alloc, num_chunks)?;
    paired(alloc, &domains, rows)
}
