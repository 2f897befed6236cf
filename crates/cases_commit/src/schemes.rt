//! Calls of the plain scheme over a transform, with points in a field.
ghost use Rattle.std.specs.Prelude.{◌≡◌, ◌<◌, All, length};
ghost use Rattle.commit_core.specs.Failure.{IfRefused};
ghost use Rattle.plain_pcs.specs.Scheme.{scheme};
ghost use Rattle.plain_pcs.specs.Refusals.{IsWithinBounds};

use crate::claims::verified;
use crate::periodic::table_shown;
use crate::reading::{Coset, coset_of, lists_of, number};
use crate::rounds::committed;
use crate::writing::{listed, push_matrices, push_values, shown};
use commit_core::{
    Pcs, PcsFailure, PeriodicColumns, PeriodicLdeTable, PolynomialSpace, UnivariateStarkPcs,
};
use example_commit::{
    committed_and_evaluated, committed_and_verified, committed_both_ways, quotient_committed_twice,
};
use p3_challenger::Sha256Challenger;
use p3_dft::TwoAdicSubgroupDft;
use p3_field::{
    BabyBear, BasedVectorSpace, ExtensionField, Field, FieldCore, Mem, PrimeCharacteristicRing,
    PrimeCore64, RingCore, TwoAdicCore, TwoAdicField, TwoAdicMultiplicativeCoset,
};
use p3_matrix::{RowMajorMatrix, is_power_of_two};
use plain_pcs::{
    PlainCommitment, PlainPcs, PlainProverData, PlainProverError, has_subgroup_height,
    nothing_is_refused_within_bounds,
};
use std::alloc::Global;

/// The plain scheme over a transform.
pub type Plain<D> = PlainPcs<BabyBear, D>;

/// Matrices with their domains.
pub type Evaluations = Vec<(Coset, RowMajorMatrix<BabyBear>)>;

/// Calls of the scheme whose blowup's logarithm is the first number.
pub fn plain<D: TwoAdicSubgroupDft<BabyBear> + Drop, E: ExtensionField<BabyBear>>(
    alloc: Global,
    dft: D,
    call: &str,
    lists: &[Vec<usize>],
    rounds: &[Vec<Vec<usize>>],
) -> Mem<String> {
    let [numbers, others @ ..] = lists else {
        return String::from_str(alloc, "bad case");
    };
    let Some(pcs) = Plain::<D>::new(dft, number(numbers, 0)) else {
        return String::from_str(alloc, "none");
    };
    match call {
        "domains" => domains::<D, E>(alloc, &pcs, number(numbers, 1)),
        "table" => table::<D, E>(alloc, &pcs, others),
        "claims" => verified::<D, E>(alloc, &pcs, rounds),
        _ => shown(alloc, committed::<D, E>(alloc, &pcs, call, numbers, rounds)),
    }
}

// The logarithms of the least and the greatest height, the domain of so many points, and whether there is a commitment to random
// polynomials.
fn domains<D: TwoAdicSubgroupDft<BabyBear> + Drop, E: ExtensionField<BabyBear>>(
    alloc: Global,
    pcs: &Plain<D>,
    degree: usize,
) -> Mem<String> {
    if !is_power_of_two(degree) || degree > 1 << 27 {
        return String::from_str(alloc, "bad case");
    }
    let least = <Plain<D> as UnivariateStarkPcs<E, Sha256Challenger>>::log_min_trace_height(pcs);
    let most = <Plain<D> as UnivariateStarkPcs<E, Sha256Challenger>>::log_max_trace_height(pcs);
    let domain = <Plain<D> as Pcs<E, Sha256Challenger>>::natural_domain_for_degree(pcs, degree);
    let (shift, log_size) = (domain.shift().as_canonical_u64(), domain.log_size());
    let random = <Plain<D> as UnivariateStarkPcs<
        E,
        Sha256Challenger,
    >>::get_opt_randomization_poly_commitment(pcs, alloc, &[]);
    let masks = !matches!(random, Ok(None));
    format!(in alloc; "{least} {most} {shift} {log_size} {masks}")
}

// The table of periodic columns over a trace domain, on a quotient domain; None where it isn't to be had.
fn periodic_table<E: ExtensionField<P::Val>, C, P: UnivariateStarkPcs<E, C>>(
    alloc: Global,
    pcs: &P,
    columns: &[Vec<P::Val>],
    trace: P::Domain,
    quotient: P::Domain,
) -> Mem<Option<PeriodicLdeTable<P::Val>>> {
    let size = trace.size();
    if trace.first_point() != P::Val::ONE || size > quotient.size() {
        return Ok(None);
    }
    let Ok(_fit) = PeriodicColumns::new(columns, size) else {
        return Ok(None);
    };
    let table = pcs.build_periodic_lde_table(alloc, columns, trace, quotient)?;
    Ok(Some(table))
}

// That table, of the columns after both domains and the rows that are shown.
fn table<D: TwoAdicSubgroupDft<BabyBear> + Drop, E: ExtensionField<BabyBear>>(
    alloc: Global,
    pcs: &Plain<D>,
    lists: &[Vec<usize>],
) -> Mem<String> {
    let [trace, quotient, rows, columns @ ..] = lists else {
        return String::from_str(alloc, "bad case");
    };
    let (Some(trace), Some(quotient)) = (coset_of(trace), coset_of(quotient)) else {
        return String::from_str(alloc, "bad case");
    };
    let columns = lists_of::<BabyBear>(alloc, columns)?;
    match periodic_table::<E, Sha256Challenger, Plain<D>>(alloc, pcs, &columns, trace, quotient)? {
        Some(table) => table_shown(alloc, &table, &[3], rows),
        None => String::from_str(alloc, "bad case"),
    }
}

// The values on a domain of one of the matrices of preprocessed columns, by both calls.
fn preprocessed_on_domain<E: ExtensionField<P::Val>, C, P: UnivariateStarkPcs<E, C>>(
    alloc: Global,
    pcs: &P,
    evaluations: Vec<(P::Domain, RowMajorMatrix<P::Val>)>,
    index: usize,
    domain: P::Domain,
) -> Result<[RowMajorMatrix<P::Val>; 2], PcsFailure<P::ProverError>>
    requires { index < length evaluations.items }
{
    let (_commitment, kept) = pcs.commit_preprocessing(alloc, evaluations)?;
    let values = pcs.get_evaluations_on_domain(alloc, &kept, index, domain)?;
    let again = pcs.get_evaluations_on_domain_no_random(alloc, &kept, index, domain)?;
    Ok([values, again])
}

/// The values of a committed matrix, whose number comes after the blowup, on the domain after it: of preprocessed columns by both
/// calls, and else by the caller of any scheme.
pub fn evaluated<D: TwoAdicSubgroupDft<BabyBear> + Drop, E: ExtensionField<BabyBear>>(
    alloc: Global,
    pcs: &Plain<D>,
    call: &str,
    numbers: &[usize],
    evaluations: Evaluations,
) -> Result<String, PcsFailure<PlainProverError>> {
    let [_, index, place @ ..] = numbers else {
        return Ok(String::from_str(alloc, "bad case")?);
    };
    let Some(domain) = coset_of(place) else {
        return Ok(String::from_str(alloc, "bad case")?);
    };
    if *index >= evaluations.len() {
        return Ok(String::from_str(alloc, "bad case")?);
    }
    let mut out = String::new(alloc);
    if call == "evaluated" {
        let (_commitment, values) = committed_and_evaluated::<E, Sha256Challenger, Plain<D>>(
            alloc,
            pcs,
            evaluations,
            *index,
            domain,
        )?;
        push_values(&mut out, alloc, values.as_slice())?;
    } else {
        let both = preprocessed_on_domain::<E, Sha256Challenger, Plain<D>>(
            alloc,
            pcs,
            evaluations,
            *index,
            domain,
        )?;
        push_matrices(&mut out, alloc, &both)?;
    }
    Ok(out)
}

/// The commitment to so many parts of a quotient: by the one call, and by the caller of any scheme step by step and again by the one.
pub fn quotient<D: TwoAdicSubgroupDft<BabyBear> + Drop, E: ExtensionField<BabyBear>>(
    alloc: Global,
    pcs: &Plain<D>,
    domain: Coset,
    matrix: RowMajorMatrix<BabyBear>,
    parts: usize,
) -> Result<String, PcsFailure<PlainProverError>> {
    let size = domain.size();
    if !is_power_of_two(parts) || parts > size || matrix.height() != size {
        return Ok(String::from_str(alloc, "bad case")?);
    }
    let copy = matrix.try_clone(alloc)?;
    let (commitment, _kept) = <Plain<D> as UnivariateStarkPcs<
        E,
        Sha256Challenger,
    >>::commit_quotient(pcs, alloc, domain, copy, parts)?;
    let (steps, once) = quotient_committed_twice::<E, Sha256Challenger, Plain<D>>(
        alloc, pcs, domain, matrix, parts,
    )?;
    let mut out = String::new(alloc);
    push_matrices(&mut out, alloc, commitment.matrices())?;
    push_matrices(&mut out, alloc, steps.matrices())?;
    push_matrices(&mut out, alloc, once.matrices())?;
    Ok(out)
}

/// A matrix committed to, opened at one point and verified by the caller of any scheme: the values; the commitment, and two copies;
/// and of one matrix the polynomials' coefficients.
pub fn column<D: TwoAdicSubgroupDft<BabyBear> + Drop, E: ExtensionField<BabyBear>>(
    alloc: Global,
    pcs: &Plain<D>,
    domain: Coset,
    matrix: RowMajorMatrix<BabyBear>,
    points: &[Vec<E>],
) -> Result<String, PcsFailure<PlainProverError>> {
    let [list] = points else {
        return Ok(String::from_str(alloc, "bad case")?);
    };
    let [point] = list.as_slice() else {
        return Ok(String::from_str(alloc, "bad case")?);
    };
    let start = Sha256Challenger::new();
    let Some(opened) = committed_and_verified(alloc, pcs, domain, matrix, *point, start)? else {
        return Ok(String::from_str(alloc, "not accepted")?);
    };
    let mut out = listed(alloc, &opened.values)?;
    push_matrices(&mut out, alloc, opened.commitment.matrices())?;
    let copy = <Plain<D> as Pcs<E, Sha256Challenger>>::clone_commitment(
        pcs,
        alloc,
        &opened.commitment,
    )?;
    push_matrices(&mut out, alloc, copy.matrices())?;
    let copy = copy.try_clone()?;
    push_matrices(&mut out, alloc, copy.matrices())?;
    let kept: &[RowMajorMatrix<BabyBear>] = copy.matrices();
    if kept.len() == 1 {
        if has_subgroup_height(&kept[0]) {
            for polynomial in &pcs.committed(alloc, &copy, 0)? {
                push_values(&mut out, alloc, polynomial)?;
            }
        }
    }
    Ok(out)
}

/// The commitment to the last matrix as an extension, or for `both` that to the first ones, and that to the last as a preprocessed one.
pub fn plainly<D: TwoAdicSubgroupDft<BabyBear> + Drop, E: ExtensionField<BabyBear>>(
    alloc: Global,
    pcs: &Plain<D>,
    call: &str,
    first: Evaluations,
    last: (Coset, RowMajorMatrix<BabyBear>),
) -> Result<String, PcsFailure<PlainProverError>> {
    let mut out = String::new(alloc);
    if call == "both" {
        let last = vec![in alloc; last]?;
        let (commitment, again) = committed_both_ways::<E, Sha256Challenger, Plain<D>>(
            alloc, pcs, first, last,
        )?;
        push_matrices(&mut out, alloc, commitment.matrices())?;
        push_matrices(&mut out, alloc, again.matrices())?;
        return Ok(out);
    }
    let (_domain, matrix) = last;
    let (commitment, _kept) = <Plain<D> as UnivariateStarkPcs<E, Sha256Challenger>>::commit_ldes(
        pcs,
        alloc,
        vec![in alloc; matrix]?,
    )?;
    push_matrices(&mut out, alloc, commitment.matrices())?;
    Ok(out)
}

// Commits within the bounds, so that only memory can run out.
fn committed_within<F: TwoAdicField, D: TwoAdicSubgroupDft<F> + Drop>(
    alloc: Global,
    pcs: &PlainPcs<F, D>,
    evaluations: Vec<(TwoAdicMultiplicativeCoset<F>, RowMajorMatrix<F>)>,
) -> Result<(PlainCommitment<F>, PlainProverData<F>), PcsFailure<PlainProverError>>
    requires { All (IsWithinBounds (scheme F.ring F.inv F.root F.GENERATOR F.TWO_ADICITY pcs.now))
        evaluations.items }
    ensures { IfRefused result (λ _. ⊥) }
{
    pcs.valid();
    nothing_is_refused_within_bounds::<F, F>();
    <PlainPcs<F, D> as Pcs<F, Sha256Challenger>>::commit(pcs, alloc, evaluations)
}

/// The commitment to a matrix within the bounds.
pub fn within<D: TwoAdicSubgroupDft<BabyBear> + Drop, E: ExtensionField<BabyBear>>(
    alloc: Global,
    pcs: &Plain<D>,
    domain: Coset,
    matrix: RowMajorMatrix<BabyBear>,
) -> Result<String, PcsFailure<PlainProverError>> {
    let most = <Plain<D> as UnivariateStarkPcs<E, Sha256Challenger>>::log_max_trace_height(pcs);
    let size = domain.size();
    if matrix.width() == 0 || matrix.height() != size || domain.log_size() > most {
        return Ok(String::from_str(alloc, "bad case")?);
    }
    let evaluations = vec![in alloc; (domain, matrix)]?;
    let (commitment, _kept) = committed_within(alloc, pcs, evaluations)?;
    let mut out = String::new(alloc);
    push_matrices(&mut out, alloc, commitment.matrices())?;
    Ok(out)
}
