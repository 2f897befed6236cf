//! The claims on the matrices of a batch, one function for each kind of matrix.
ghost use Rattle.std.specs.Prelude.{◌≡◌, ℕ, ◌+◌, ◌<◌, ◌≤◌, ◌++◌, [], ◌∷◌, All, length, map, IfOk, option_map};
ghost use Rattle.std.specs.Prelude.{slice_index_or as get_or};
ghost use Rattle.std.specs.List.{flat_map};
ghost use Rattle.p3_field.specs.Poly.{tabulate};
ghost use Rattle.verifier_claims.specs.Claims.{at_point, chunk_claim, chunk_claims, preprocessed_local_row, main_claim, preprocessed_matrix_claim, preprocessed_next_row, on_subgroup, permutation_claims, preprocessed_claim, random_claim, values_where_there, where_declared, where_opened};
ghost use Rattle.batch_statement.specs.Words.{bits_at, instance_at};
ghost use Rattle.batch_config.specs.Domains.{next_by};

use crate::domains::extended_domain;
use crate::opened_rows::{chunks_of, local_row_of, next_row_of, random_of};
use air_core::BaseAir;
use batch_statement::OpenedValuesWithLookups;
use commit_core::{MatrixOpening, PointOpening};
use p3_field::{
    BasedVectorSpace, ExtensionField, Field, FieldCore, Mem, PrimeCharacteristicRing, RingCore,
    TwoAdicCore, TwoAdicField, TwoAdicMultiplicativeCoset,
};
use p3_uni_stark::PreprocessedOpenedValues;
use std::alloc::Global;

// The claim that a row has these values at a point.
fn point_claim<E: RingCore>(alloc: Global, point: E, row: &[E]) -> Mem<PointOpening<E>>
    ensures { IfOk result (λ c. c ≡ at_point point row.now) }
{
    let values = Vec::from_slice(alloc, row)?;
    Ok(PointOpening { point, values })
}

// The same of a row that may be absent, and then has no values.
fn present_claim<E: RingCore>(alloc: Global, point: E, row: &Option<Vec<E>>) -> Mem<PointOpening<E>>
    ensures { IfOk result (λ c.
        c ≡ at_point point (values_where_there (option_map (λ v. v.items) row.now))) }
{
    match row {
        None => point_claim(alloc, point, &[]),
        Some(values) => point_claim(alloc, point, values),
    }
}

// The claims on a matrix at one point.
fn one_point<F: TwoAdicField, E: RingCore>(
    alloc: Global,
    bits: usize,
    claim: PointOpening<E>,
) -> Mem<MatrixOpening<E, TwoAdicMultiplicativeCoset<F>>>
    requires { bits ≤ F.TWO_ADICITY }
    ensures { IfOk result (λ m. m ≡ on_subgroup F.ring bits (claim ∷ [])) }
{
    let mut points = Vec::new(alloc);
    points.push(claim)?;
    Ok(MatrixOpening {
        domain: extended_domain(bits),
        points,
    })
}

// The point of the next row of a table of so many degree bits.
fn point_of_next<F: TwoAdicField, E: ExtensionField<F>>(bits: usize, masks: usize, zeta: E) -> E
    requires masked { masks ≤ bits }
    requires fits { bits ≤ F.TWO_ADICITY }
    ensures { result ≡ next_by E.ring E.embed F.root masks zeta bits }
{
    zeta * E::from_base(F::two_adic_generator(bits - masks))
}

// The claim on what is random of one table.
fn random_at<F: TwoAdicField, E: RingCore>(
    alloc: Global,
    index: usize,
    zeta: E,
    degree_bits: &[usize],
    instances: &[OpenedValuesWithLookups<E>],
) -> Mem<MatrixOpening<E, TwoAdicMultiplicativeCoset<F>>>
    requires bits { index < length degree_bits.now }
    requires instances { index < length instances.now }
    requires fits { bits_at degree_bits.now index ≤ F.TWO_ADICITY }
    ensures { IfOk result (λ m. m ≡ random_claim F.ring zeta degree_bits.now instances.now index) }
{
    let opened = &instances[index];
    let claim = present_claim(alloc, zeta, random_of(opened))?;
    one_point(alloc, degree_bits[index], claim)
}

// The claims on what is random of all tables.
pub(crate) fn random_claims<F: TwoAdicField, E: RingCore>(
    alloc: Global,
    zeta: E,
    degree_bits: &[usize],
    instances: &[OpenedValuesWithLookups<E>],
) -> Mem<Vec<MatrixOpening<E, TwoAdicMultiplicativeCoset<F>>>>
    requires instances { length instances.now ≡ length degree_bits.now }
    requires fits { (i : ℕ) → i < length degree_bits.now
        → bits_at degree_bits.now i ≤ F.TWO_ADICITY }
    ensures { IfOk result (λ v.
        v.items ≡ tabulate (length degree_bits.now)
        (random_claim F.ring zeta degree_bits.now instances.now)) }
{
    let mut claims = Vec::new(alloc);
    for index in 0..degree_bits.len() {
        let claim = random_at(alloc, index, zeta, degree_bits, instances)?;
        claims.push(claim)?;
    }
    Ok(claims)
}

// The claims at the next point, where next columns are declared, after others.
fn with_next<E: RingCore>(
    alloc: Global,
    points: Vec<PointOpening<E>>,
    declared: &[usize],
    after: E,
    row: &Option<Vec<E>>,
) -> Mem<Vec<PointOpening<E>>>
    ensures { IfOk result (λ v.
        v.items ≡ points.items ++ where_declared declared.now
        (at_point after (values_where_there (option_map (λ v. v.items) row.now)))) }
{
    if declared.is_empty() {
        return Ok(points);
    }
    let mut points = points;
    let claim = present_claim(alloc, after, row)?;
    points.push(claim)?;
    Ok(points)
}

// The claims on a table's main columns.
fn main_of<F: TwoAdicField, A: BaseAir<F>, E: RingCore>(
    alloc: Global,
    air: &A,
    bits: usize,
    opened: &OpenedValuesWithLookups<E>,
    zeta: E,
    after: E,
) -> Mem<MatrixOpening<E, TwoAdicMultiplicativeCoset<F>>>
    requires { bits ≤ F.TWO_ADICITY }
    ensures { IfOk result (λ m. m ≡ on_subgroup F.ring bits
        (at_point zeta opened.now.base.trace_local
        ∷ where_declared (A.declaration air.now).main_next
        (at_point after (values_where_there opened.now.base.trace_next)))) }
{
    let base = &opened.base_opened_values;
    let mut points = Vec::new(alloc);
    let claim = point_claim(alloc, zeta, &base.trace_local)?;
    points.push(claim)?;
    let points = with_next(
        alloc,
        points,
        air.main_next_row_columns(),
        after,
        &base.trace_next,
    )?;
    Ok(MatrixOpening {
        domain: extended_domain(bits),
        points,
    })
}

// The same of one table of a batch.
fn main_at<F: TwoAdicField, A: BaseAir<F>, E: ExtensionField<F>>(
    alloc: Global,
    index: usize,
    zeta: E,
    masks: usize,
    airs: &[A],
    degree_bits: &[usize],
    instances: &[OpenedValuesWithLookups<E>],
) -> Mem<MatrixOpening<E, TwoAdicMultiplicativeCoset<F>>>
    requires airs { index < length airs.now }
    requires bits { index < length degree_bits.now }
    requires instances { index < length instances.now }
    requires masked { masks ≤ bits_at degree_bits.now index }
    requires fits { bits_at degree_bits.now index ≤ F.TWO_ADICITY }
    ensures { IfOk result (λ m.
        m ≡ main_claim F.ring zeta (next_by E.ring E.embed F.root masks zeta)
        (map A.declaration airs.now) degree_bits.now instances.now index) }
{
    let bits = degree_bits[index];
    let after = point_of_next::<F, E>(bits, masks, zeta);
    main_of(alloc, &airs[index], bits, &instances[index], zeta, after)
}

// The claims on the main columns of all tables.
pub(crate) fn main_claims<F: TwoAdicField, A: BaseAir<F>, E: ExtensionField<F>>(
    alloc: Global,
    zeta: E,
    masks: usize,
    airs: &[A],
    degree_bits: &[usize],
    instances: &[OpenedValuesWithLookups<E>],
) -> Mem<Vec<MatrixOpening<E, TwoAdicMultiplicativeCoset<F>>>>
    requires bits { length degree_bits.now ≡ length airs.now }
    requires instances { length instances.now ≡ length airs.now }
    requires masked { (i : ℕ) → i < length airs.now → masks ≤ bits_at degree_bits.now i }
    requires fits { (i : ℕ) → i < length airs.now → bits_at degree_bits.now i ≤ F.TWO_ADICITY }
    ensures { IfOk result (λ v.
        v.items ≡ tabulate (length airs.now)
        (main_claim F.ring zeta (next_by E.ring E.embed F.root masks zeta)
        (map A.declaration airs.now) degree_bits.now instances.now)) }
{
    let mut claims = Vec::new(alloc);
    for index in 0..airs.len() {
        let claim = main_at(alloc, index, zeta, masks, airs, degree_bits, instances)?;
        claims.push(claim)?;
    }
    Ok(claims)
}

// The claim on one chunk.
fn chunk_at<F: TwoAdicField, E: RingCore>(
    alloc: Global,
    index: usize,
    zeta: E,
    masks: usize,
    domains: &[TwoAdicMultiplicativeCoset<F>],
    chunks: &[Vec<E>],
) -> Mem<MatrixOpening<E, TwoAdicMultiplicativeCoset<F>>>
    requires domains { index < length domains.now }
    requires chunks { index < length chunks.now }
    requires fits { All (λ d. d.log_size + masks ≤ F.TWO_ADICITY) domains.now }
    ensures { IfOk result (λ m.
        m ≡ chunk_claim F.ring zeta masks domains.now (map (λ v. v.items) chunks.now) index) }
{
    let domain = &domains[index];
    let claim = point_claim(alloc, zeta, &chunks[index])?;
    one_point(alloc, domain.log_size() + masks, claim)
}

// The claims on one table's chunks, after others.
fn with_chunks<F: TwoAdicField, E: RingCore>(
    alloc: Global,
    made: Vec<MatrixOpening<E, TwoAdicMultiplicativeCoset<F>>>,
    zeta: E,
    masks: usize,
    domains: &[TwoAdicMultiplicativeCoset<F>],
    chunks: &[Vec<E>],
) -> Mem<Vec<MatrixOpening<E, TwoAdicMultiplicativeCoset<F>>>>
    requires count { length chunks.now ≡ length domains.now }
    requires fits { All (λ d. d.log_size + masks ≤ F.TWO_ADICITY) domains.now }
    ensures { IfOk result (λ v.
        v.items ≡ made.items ++ tabulate (length domains.now)
        (chunk_claim F.ring zeta masks domains.now (map (λ v. v.items) chunks.now))) }
{
    let mut claims = made;
    for index in 0..domains.len() {
        let claim = chunk_at(alloc, index, zeta, masks, domains, chunks)?;
        claims.push(claim)?;
    }
    Ok(claims)
}

// The claims on one table's chunks, after those of the tables before.
fn with_chunks_at<F: TwoAdicField, E: RingCore>(
    alloc: Global,
    made: Vec<MatrixOpening<E, TwoAdicMultiplicativeCoset<F>>>,
    index: usize,
    zeta: E,
    masks: usize,
    domains: &[Vec<TwoAdicMultiplicativeCoset<F>>],
    instances: &[OpenedValuesWithLookups<E>],
) -> Mem<Vec<MatrixOpening<E, TwoAdicMultiplicativeCoset<F>>>>
    requires domains { index < length domains.now }
    requires instances { index < length instances.now }
    requires count { length (instance_at instances.now index).base.quotient_chunks
        ≡ length (get_or (map (λ v. v.items) domains.now) index []) }
    requires fits { All (λ d. d.log_size + masks ≤ F.TWO_ADICITY)
        (get_or (map (λ v. v.items) domains.now) index []) }
    ensures { IfOk result (λ v.
        v.items ≡ made.items ++ chunk_claims F.ring zeta masks (map (λ v. v.items) domains.now)
        instances.now index) }
{
    let opened = &instances[index];
    with_chunks(alloc, made, zeta, masks, &domains[index], chunks_of(opened))
}

// The claims on the chunks of all tables.
pub(crate) fn all_chunk_claims<F: TwoAdicField, E: RingCore>(
    alloc: Global,
    zeta: E,
    masks: usize,
    domains: &[Vec<TwoAdicMultiplicativeCoset<F>>],
    instances: &[OpenedValuesWithLookups<E>],
) -> Mem<Vec<MatrixOpening<E, TwoAdicMultiplicativeCoset<F>>>>
    requires instances { length instances.now ≡ length domains.now }
    requires count { (i : ℕ) → i < length domains.now
        → length (instance_at instances.now i).base.quotient_chunks
        ≡ length (get_or (map (λ v. v.items) domains.now) i []) }
    requires fits { (i : ℕ) → i < length domains.now
        → All (λ d. d.log_size + masks ≤ F.TWO_ADICITY)
        (get_or (map (λ v. v.items) domains.now) i []) }
    ensures { IfOk result (λ v.
        v.items ≡ flat_map (chunk_claims F.ring zeta masks (map (λ v. v.items) domains.now)
        instances.now) (tabulate (length domains.now) (λ i. i))) }
{
    let mut claims = Vec::new(alloc);
    for index in 0..domains.len() {
        claims = with_chunks_at(alloc, claims, index, zeta, masks, domains, instances)?;
    }
    Ok(claims)
}

// The claim on the current preprocessed row; one that is absent has no values.
fn preprocessed_claim_of<E: RingCore>(
    alloc: Global,
    point: E,
    rows: &Option<PreprocessedOpenedValues<E>>,
) -> Mem<PointOpening<E>>
    ensures { IfOk result (λ c. c ≡ at_point point (preprocessed_local_row rows.now)) }
{
    match rows {
        None => point_claim(alloc, point, &[]),
        Some(rows) => point_claim(alloc, point, &rows.local),
    }
}

// The claim on the next preprocessed row.
fn preprocessed_next_of<E: RingCore>(
    alloc: Global,
    point: E,
    rows: &Option<PreprocessedOpenedValues<E>>,
) -> Mem<PointOpening<E>>
    ensures { IfOk result (λ c. c ≡ at_point point (preprocessed_next_row rows.now)) }
{
    match rows {
        None => point_claim(alloc, point, &[]),
        Some(rows) => present_claim(alloc, point, &rows.next),
    }
}

// The claims on preprocessed rows at the next point, where next columns are declared, after others.
fn with_preprocessed_next<E: RingCore>(
    alloc: Global,
    points: Vec<PointOpening<E>>,
    declared: &[usize],
    after: E,
    rows: &Option<PreprocessedOpenedValues<E>>,
) -> Mem<Vec<PointOpening<E>>>
    ensures { IfOk result (λ v.
        v.items ≡ points.items ++ where_declared declared.now
        (at_point after (preprocessed_next_row rows.now))) }
{
    if declared.is_empty() {
        return Ok(points);
    }
    let mut points = points;
    let claim = preprocessed_next_of(alloc, after, rows)?;
    points.push(claim)?;
    Ok(points)
}

// The claims on a table's preprocessed columns.
fn preprocessed_of<F: TwoAdicField, A: BaseAir<F>, E: RingCore>(
    alloc: Global,
    air: &A,
    bits: usize,
    opened: &OpenedValuesWithLookups<E>,
    zeta: E,
    after: E,
) -> Mem<MatrixOpening<E, TwoAdicMultiplicativeCoset<F>>>
    requires { bits ≤ F.TWO_ADICITY }
    ensures { IfOk result (λ m. m ≡ on_subgroup F.ring bits
        (at_point zeta (preprocessed_local_row opened.now.base.preprocessed)
        ∷ where_declared (A.declaration air.now).preprocessed_next
        (at_point after (preprocessed_next_row opened.now.base.preprocessed)))) }
{
    let base = &opened.base_opened_values;
    let mut points = Vec::new(alloc);
    let claim = preprocessed_claim_of(alloc, zeta, &base.preprocessed)?;
    points.push(claim)?;
    let points = with_preprocessed_next(
        alloc,
        points,
        air.preprocessed_next_row_columns(),
        after,
        &base.preprocessed,
    )?;
    Ok(MatrixOpening {
        domain: extended_domain(bits),
        points,
    })
}

// The same of one table of a batch.
fn preprocessed_at<F: TwoAdicField, A: BaseAir<F>, E: ExtensionField<F>>(
    alloc: Global,
    index: usize,
    zeta: E,
    masks: usize,
    airs: &[A],
    degree_bits: &[usize],
    instances: &[OpenedValuesWithLookups<E>],
) -> Mem<MatrixOpening<E, TwoAdicMultiplicativeCoset<F>>>
    requires airs { index < length airs.now }
    requires bits { index < length degree_bits.now }
    requires instances { index < length instances.now }
    requires masked { masks ≤ bits_at degree_bits.now index }
    requires fits { bits_at degree_bits.now index ≤ F.TWO_ADICITY }
    ensures { IfOk result (λ m.
        m ≡ preprocessed_claim F.ring zeta (next_by E.ring E.embed F.root masks zeta)
        (map A.declaration airs.now) degree_bits.now instances.now index) }
{
    let bits = degree_bits[index];
    let after = point_of_next::<F, E>(bits, masks, zeta);
    preprocessed_of(alloc, &airs[index], bits, &instances[index], zeta, after)
}

// The same of the table of one committed matrix.
fn matrix_at<F: TwoAdicField, A: BaseAir<F>, E: ExtensionField<F>>(
    alloc: Global,
    matrix: usize,
    zeta: E,
    masks: usize,
    airs: &[A],
    degree_bits: &[usize],
    instances: &[OpenedValuesWithLookups<E>],
    matrices: &[usize],
) -> Mem<MatrixOpening<E, TwoAdicMultiplicativeCoset<F>>>
    requires matrix { matrix < length matrices.now }
    requires listed { All (λ i. i < length airs.now) matrices.now }
    requires bits { length degree_bits.now ≡ length airs.now }
    requires instances { length instances.now ≡ length airs.now }
    requires masked { (i : ℕ) → i < length airs.now → masks ≤ bits_at degree_bits.now i }
    requires fits { (i : ℕ) → i < length airs.now → bits_at degree_bits.now i ≤ F.TWO_ADICITY }
    ensures { IfOk result (λ m.
        m ≡ preprocessed_matrix_claim F.ring zeta (next_by E.ring E.embed F.root masks zeta)
        (map A.declaration airs.now) degree_bits.now instances.now matrices.now matrix) }
{
    let index = matrices[matrix];
    preprocessed_at(alloc, index, zeta, masks, airs, degree_bits, instances)
}

// The claims on all committed matrices.
pub(crate) fn all_matrix_claims<F: TwoAdicField, A: BaseAir<F>, E: ExtensionField<F>>(
    alloc: Global,
    zeta: E,
    masks: usize,
    airs: &[A],
    degree_bits: &[usize],
    instances: &[OpenedValuesWithLookups<E>],
    matrices: &[usize],
) -> Mem<Vec<MatrixOpening<E, TwoAdicMultiplicativeCoset<F>>>>
    requires listed { All (λ i. i < length airs.now) matrices.now }
    requires bits { length degree_bits.now ≡ length airs.now }
    requires instances { length instances.now ≡ length airs.now }
    requires masked { (i : ℕ) → i < length airs.now → masks ≤ bits_at degree_bits.now i }
    requires fits { (i : ℕ) → i < length airs.now → bits_at degree_bits.now i ≤ F.TWO_ADICITY }
    ensures { IfOk result (λ v. v.items
        ≡ tabulate (length matrices.now)
        (preprocessed_matrix_claim F.ring zeta (next_by E.ring E.embed F.root masks zeta)
        (map A.declaration airs.now) degree_bits.now instances.now matrices.now)) }
{
    let mut claims = Vec::new(alloc);
    for matrix in 0..matrices.len() {
        let claim = matrix_at(
            alloc,
            matrix,
            zeta,
            masks,
            airs,
            degree_bits,
            instances,
            matrices,
        )?;
        claims.push(claim)?;
    }
    Ok(claims)
}

// The claim on a table's permutation columns, where a row of them is opened, after others.
fn with_permutation<F: TwoAdicField, E: RingCore>(
    alloc: Global,
    made: Vec<MatrixOpening<E, TwoAdicMultiplicativeCoset<F>>>,
    bits: usize,
    local: &[E],
    next: &[E],
    zeta: E,
    after: E,
) -> Mem<Vec<MatrixOpening<E, TwoAdicMultiplicativeCoset<F>>>>
    requires { bits ≤ F.TWO_ADICITY }
    ensures { IfOk result (λ v.
        v.items ≡ made.items ++ where_opened F.ring zeta after bits local.now next.now) }
{
    if local.is_empty() {
        return Ok(made);
    }
    let mut claims = made;
    let mut points = Vec::new(alloc);
    let claim = point_claim(alloc, zeta, local)?;
    points.push(claim)?;
    let claim = point_claim(alloc, after, next)?;
    points.push(claim)?;
    claims.push(MatrixOpening {
        domain: extended_domain(bits),
        points,
    })?;
    Ok(claims)
}

// The same of one table of a batch.
fn with_permutation_at<F: TwoAdicField, E: ExtensionField<F>>(
    alloc: Global,
    made: Vec<MatrixOpening<E, TwoAdicMultiplicativeCoset<F>>>,
    index: usize,
    zeta: E,
    masks: usize,
    degree_bits: &[usize],
    instances: &[OpenedValuesWithLookups<E>],
) -> Mem<Vec<MatrixOpening<E, TwoAdicMultiplicativeCoset<F>>>>
    requires bits { index < length degree_bits.now }
    requires instances { index < length instances.now }
    requires masked { masks ≤ bits_at degree_bits.now index }
    requires fits { bits_at degree_bits.now index ≤ F.TWO_ADICITY }
    ensures { IfOk result (λ v.
        v.items ≡ made.items ++ permutation_claims F.ring zeta
        (next_by E.ring E.embed F.root masks zeta) degree_bits.now instances.now index) }
{
    let bits = degree_bits[index];
    let after = point_of_next::<F, E>(bits, masks, zeta);
    let opened = &instances[index];
    with_permutation(
        alloc,
        made,
        bits,
        local_row_of(opened),
        next_row_of(opened),
        zeta,
        after,
    )
}

// The claims on the permutation columns of all tables.
pub(crate) fn all_permutation_claims<F: TwoAdicField, E: ExtensionField<F>>(
    alloc: Global,
    zeta: E,
    masks: usize,
    degree_bits: &[usize],
    instances: &[OpenedValuesWithLookups<E>],
) -> Mem<Vec<MatrixOpening<E, TwoAdicMultiplicativeCoset<F>>>>
    requires instances { length instances.now ≡ length degree_bits.now }
    requires masked { (i : ℕ) → i < length degree_bits.now → masks ≤ bits_at degree_bits.now i }
    requires fits { (i : ℕ) → i < length degree_bits.now
        → bits_at degree_bits.now i ≤ F.TWO_ADICITY }
    ensures { IfOk result (λ v. v.items
        ≡ flat_map (permutation_claims F.ring zeta (next_by E.ring E.embed F.root masks zeta)
        degree_bits.now instances.now) (tabulate (length degree_bits.now) (λ i. i))) }
{
    let mut claims = Vec::new(alloc);
    for index in 0..degree_bits.len() {
        claims = with_permutation_at(alloc, claims, index, zeta, masks, degree_bits, instances)?;
    }
    Ok(claims)
}
