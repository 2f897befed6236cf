//! The points at which a batch's committed matrices are opened, round by round.
ghost use Rattle.std.specs.Prelude.{◌≡◌, ℕ, ◌<◌, ◌≤◌, ◌++◌, ◌∷◌, [], All, length, map, IfOk, option_to_list};
ghost use Rattle.std.specs.Prelude.{slice_index_or as get_or};
ghost use Rattle.std.specs.List.{flat_map};
ghost use Rattle.p3_field.specs.Poly.{tabulate};
ghost use Rattle.p3_lookup.specs.Written.{read_all};
ghost use Rattle.batch_statement.specs.Words.{bits_at, declared_at};
ghost use Rattle.batch_config.specs.Domains.{next_by};
ghost use Rattle.law_acceptance.specs.Rounds.{points_with};
ghost use Rattle.law_honest.specs.HonestProof.{where_some};

use air_core::BaseAir;
use batch_setup::TableInstance;
use p3_field::{
    BasedVectorSpace, ExtensionField, Field, FieldCore, Mem, PrimeCharacteristicRing, RingCore,
    TwoAdicCore, TwoAdicField,
};
use p3_lookup::Lookups;
use std::alloc::Global;

// The point of the next row of a table of so many degree bits.
fn point_of_next<F: TwoAdicField, E: ExtensionField<F>>(bits: usize, masks: usize, zeta: E) -> E
    requires masked { masks ≤ bits }
    requires fits { bits ≤ F.TWO_ADICITY }
    ensures { result ≡ next_by E.ring E.embed F.root masks zeta bits }
{
    zeta * E::from_base(F::two_adic_generator(bits - masks))
}

// The point, and the next one where next columns are declared.
fn points_where<E: RingCore>(alloc: Global, declared: &[usize], zeta: E, after: E) -> Mem<Vec<E>>
    ensures { IfOk result (λ v. v.items ≡ points_with declared.now zeta after) }
{
    let mut points = Vec::new(alloc);
    points.push(zeta)?;
    if !declared.is_empty() {
        points.push(after)?;
    }
    Ok(points)
}

// The points of one table's main matrix.
fn main_of_table<F: TwoAdicField, A: BaseAir<F>, E: ExtensionField<F>>(
    alloc: Global,
    index: usize,
    zeta: E,
    masks: usize,
    instances: &[TableInstance<'_, F, A>],
    degree_bits: &[usize],
) -> Mem<Vec<E>>
    requires instances { index < length instances.now }
    requires bits { index < length degree_bits.now }
    requires masked { masks ≤ bits_at degree_bits.now index }
    requires fits { bits_at degree_bits.now index ≤ F.TWO_ADICITY }
    ensures { IfOk result (λ v. v.items
        ≡ points_with (declared_at (map (λ i. A.declaration i.air) instances.now) index).main_next
        zeta (next_by E.ring E.embed F.root masks zeta (bits_at degree_bits.now index))) }
{
    let after = point_of_next::<F, E>(degree_bits[index], masks, zeta);
    let instance = &instances[index];
    let declared = instance.air.main_next_row_columns();
    points_where(alloc, declared, zeta, after)
}

// The points of one table's preprocessed matrix.
fn preprocessed_of_table<F: TwoAdicField, A: BaseAir<F>, E: ExtensionField<F>>(
    alloc: Global,
    index: usize,
    zeta: E,
    masks: usize,
    instances: &[TableInstance<'_, F, A>],
    degree_bits: &[usize],
) -> Mem<Vec<E>>
    requires instances { index < length instances.now }
    requires bits { index < length degree_bits.now }
    requires masked { masks ≤ bits_at degree_bits.now index }
    requires fits { bits_at degree_bits.now index ≤ F.TWO_ADICITY }
    ensures { IfOk result (λ v. v.items
        ≡ points_with (declared_at (map (λ i. A.declaration i.air) instances.now)
        index).preprocessed_next zeta
        (next_by E.ring E.embed F.root masks zeta (bits_at degree_bits.now index))) }
{
    let after = point_of_next::<F, E>(degree_bits[index], masks, zeta);
    let instance = &instances[index];
    let declared = instance.air.preprocessed_next_row_columns();
    points_where(alloc, declared, zeta, after)
}

// The points of all main matrices.
pub(crate) fn all_main<F: TwoAdicField, A: BaseAir<F>, E: ExtensionField<F>>(
    alloc: Global,
    zeta: E,
    masks: usize,
    instances: &[TableInstance<'_, F, A>],
    degree_bits: &[usize],
) -> Mem<Vec<Vec<E>>>
    requires bits { length degree_bits.now ≡ length instances.now }
    requires masked { (i : ℕ) → i < length instances.now → masks ≤ bits_at degree_bits.now i }
    requires fits { (i : ℕ) → i < length instances.now → bits_at degree_bits.now i ≤ F.TWO_ADICITY }
    ensures { IfOk result (λ v. map (λ x. x.items) v.items
        ≡ tabulate (length instances.now)
        (λ i. points_with (declared_at (map (λ i. A.declaration i.air) instances.now) i).main_next
        zeta (next_by E.ring E.embed F.root masks zeta (bits_at degree_bits.now i)))) }
{
    let mut points = Vec::with_capacity(alloc, instances.len())?;
    for index in 0..instances.len() {
        points.push(main_of_table(alloc, index, zeta, masks, instances, degree_bits)?)?;
    }
    Ok(points)
}

// The points of the matrices of these tables' preprocessed traces.
pub(crate) fn all_preprocessed<F: TwoAdicField, A: BaseAir<F>, E: ExtensionField<F>>(
    alloc: Global,
    zeta: E,
    masks: usize,
    instances: &[TableInstance<'_, F, A>],
    degree_bits: &[usize],
    matrices: &[usize],
) -> Mem<Vec<Vec<E>>>
    requires listed { All (λ i. i < length instances.now) matrices.now }
    requires bits { length degree_bits.now ≡ length instances.now }
    requires masked { (i : ℕ) → i < length instances.now → masks ≤ bits_at degree_bits.now i }
    requires fits { (i : ℕ) → i < length instances.now → bits_at degree_bits.now i ≤ F.TWO_ADICITY }
    ensures { IfOk result (λ v. map (λ x. x.items) v.items
        ≡ tabulate (length matrices.now) (λ m. let i = get_or matrices.now m 0 in
        points_with (declared_at (map (λ i. A.declaration i.air) instances.now) i).preprocessed_next
        zeta (next_by E.ring E.embed F.root masks zeta (bits_at degree_bits.now i)))) }
{
    let mut points = Vec::with_capacity(alloc, matrices.len())?;
    for m in 0..matrices.len() {
        let index = matrices[m];
        points.push(preprocessed_of_table(alloc, index, zeta, masks, instances, degree_bits)?)?;
    }
    Ok(points)
}

// The list of one point, so many times after other lists.
fn with_chunks<E: RingCore>(
    alloc: Global,
    points: Vec<Vec<E>>,
    count: usize,
    zeta: E,
) -> Mem<Vec<Vec<E>>>
    ensures { IfOk result (λ v.
        map (λ x. x.items) v.items ≡ map (λ x. x.items) points.items
        ++ tabulate count (λ j. zeta ∷ [])) }
{
    let mut points = points;
    for _j in 0..count {
        points.push(points_where(alloc, &[], zeta, zeta)?)?;
    }
    Ok(points)
}

// The points of all quotients' chunks.
pub(crate) fn all_chunks<E: RingCore>(
    alloc: Global,
    zeta: E,
    chunk_counts: &[usize],
) -> Mem<Vec<Vec<E>>>
    ensures { IfOk result (λ v.
        map (λ x. x.items) v.items
        ≡ flat_map (λ i. tabulate (get_or chunk_counts.now i 0) (λ j. zeta ∷ []))
        (tabulate (length chunk_counts.now) (λ i. i))) }
{
    let mut points = Vec::new(alloc);
    for index in 0..chunk_counts.len() {
        points = with_chunks(alloc, points, chunk_counts[index], zeta)?;
    }
    Ok(points)
}

// Both points of a table's permutation matrix, where it has lookups, after other lists.
fn with_permutation<F, E: RingCore>(
    alloc: Global,
    points: Vec<Vec<E>>,
    lookups: &Lookups<F>,
    zeta: E,
    after: E,
) -> Mem<Vec<Vec<E>>>
    ensures { IfOk result (λ v.
        map (λ x. x.items) v.items ≡ map (λ x. x.items) points.items
        ++ option_to_list (where_some (read_all lookups.now) (zeta ∷ after ∷ []))) }
{
    if lookups.as_slice().is_empty() {
        return Ok(points);
    }
    let mut both = Vec::with_capacity(alloc, 2)?;
    both.push(zeta)?;
    both.push(after)?;
    let mut points = points;
    points.push(both)?;
    Ok(points)
}

// The points of all permutation matrices.
pub(crate) fn all_permutations<F: TwoAdicField, E: ExtensionField<F>>(
    alloc: Global,
    zeta: E,
    masks: usize,
    lookups: &[Lookups<F>],
    degree_bits: &[usize],
) -> Mem<Vec<Vec<E>>>
    requires bits { length degree_bits.now ≡ length lookups.now }
    requires masked { (i : ℕ) → i < length lookups.now → masks ≤ bits_at degree_bits.now i }
    requires fits { (i : ℕ) → i < length lookups.now → bits_at degree_bits.now i ≤ F.TWO_ADICITY }
    ensures { IfOk result (λ v. map (λ x. x.items) v.items
        ≡ flat_map (λ i. option_to_list
        (where_some (get_or (map read_all lookups.now) i [])
        (zeta ∷ next_by E.ring E.embed F.root masks zeta (bits_at degree_bits.now i) ∷ [])))
        (tabulate (length lookups.now) (λ i. i))) }
{
    let mut points = Vec::new(alloc);
    for index in 0..lookups.len() {
        let after = point_of_next::<F, E>(degree_bits[index], masks, zeta);
        points = with_permutation(alloc, points, &lookups[index], zeta, after)?;
    }
    Ok(points)
}
