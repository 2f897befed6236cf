//! The identity of a table at a point, and the rows that it reads.
ghost use Rattle.std.specs.Prelude.{length, IsTrue};
ghost use Rattle.p3_lookup.specs.Written.{read_all};
ghost use Rattle.verifier_identity.specs.Identity.{HasDeclaredLengths};
ghost use Rattle.verifier_identity.specs.VerifierData.{identity_opened_of};

use crate::plain::Plain;
use crate::reading::{Case, elements, quartics};
use crate::statement::air_of;
use crate::writing::{bad_case, push_values};
use air_core::{Air, BaseAir};
use commit_core::{PeriodicColumns, PolynomialSpace};
use p3_field::{BabyBear, FieldCore, Mem, QuarticExtension, RingCore, TwoAdicMultiplicativeCoset};
use p3_lookup::{LogUpGadget, Lookups};
use plain_pcs::PlainError;
use std::alloc::Global;
use verifier_identity::{IdentityData, periodic_values_at, recombined_row, zero_row};

// Whether the lists that a table's identity is decided from are as long as the table declares.
fn are_declared<A: BaseAir<BabyBear>>(
    air: &A,
    given: &IdentityData<'_, BabyBear, QuarticExtension>,
) -> bool
    ensures { IsTrue result → HasDeclaredLengths (A.declaration air.now)
        (length (read_all given.now.lookups.now)) (identity_opened_of given.now) }
{
    if given.trace_local.len() != air.width() || given.trace_next.len() != air.width() {
        return false;
    }
    let preprocessed = air.preprocessed_width();
    if given.preprocessed_local.len() != preprocessed
        || given.preprocessed_next.len() != preprocessed
    {
        return false;
    }
    if given.periodic_values.len() != air.periodic_columns().len()
        || given.public_values.len() != air.num_public_values()
    {
        return false;
    }
    let lookups = given.lookups.len();
    let (row, next) = (given.permutation_local.len(), given.permutation_next.len());
    if lookups > 0
        && (row <= lookups || next <= lookups || row - 1 != lookups || next - 1 != lookups)
    {
        return false;
    }
    let (challenges, terminals) = (
        given.permutation_challenges.len(),
        given.permutation_values.len(),
    );
    challenges / 2 == lookups && challenges % 2 == 0 && (lookups == 0 || terminals == 1)
}

// Whether the identity of a table holds at a point: `holds`, or the refusal's text. The numbers are the logarithm of the domain's size, the point, alpha and
// the quotient's value, and the rows what is opened, in the order of the fields.
fn identity<A: Air<BabyBear>>(
    alloc: Global,
    air: &A,
    numbers: [u64; 4],
    publics: &[BabyBear],
    rows: &[Vec<QuarticExtension>],
) -> Mem<String> {
    let [log_size, zeta, alpha, quotient] = numbers;
    let [
        local,
        next,
        fixed,
        fixed_next,
        running,
        running_next,
        challenges,
        terminals,
    ] = rows
    else {
        return bad_case(alloc);
    };
    let Some(domain) = TwoAdicMultiplicativeCoset::new(BabyBear::ONE, log_size as usize) else {
        return bad_case(alloc);
    };
    let Ok(columns) = PeriodicColumns::new(air.periodic_columns(), domain.size()) else {
        return bad_case(alloc);
    };
    let zeta = QuarticExtension::from_u64(zeta);
    let periodic = periodic_values_at(alloc, &domain, columns, zeta)?;
    let lookups = Lookups::from_air(alloc, air)?;
    let given = IdentityData {
        zeta,
        alpha: QuarticExtension::from_u64(alpha),
        trace_local: local,
        trace_next: next,
        preprocessed_local: fixed,
        preprocessed_next: fixed_next,
        permutation_local: running,
        permutation_next: running_next,
        permutation_challenges: challenges,
        permutation_values: terminals,
        periodic_values: &periodic,
        lookups: lookups.as_slice(),
        public_values: publics,
        trace_domain: domain,
        quotient: QuarticExtension::from_u64(quotient),
    };
    if !are_declared(air, &given) {
        return bad_case(alloc);
    }
    match given.verify_constraints_with_lookups::<A, LogUpGadget, PlainError>(
        air,
        &LogUpGadget::new(),
    ) {
        Ok(()) => String::from_str(alloc, "holds"),
        Err(error) => format!(in alloc; "{error}"),
    }
}

/// Whether the identity holds of the table that the call's first number names, or of one without columns. The public values and the rows are groups.
pub fn identity_case(alloc: Global, case: &Case) -> Mem<String> {
    let [head, publics, groups @ ..] = case.groups.as_slice() else {
        return bad_case(alloc);
    };
    let [kind, log_size, zeta, alpha, quotient] = head.as_slice() else {
        return bad_case(alloc);
    };
    let numbers = [*log_size, *zeta, *alpha, *quotient];
    let publics = elements(alloc, publics)?;
    let mut rows = Vec::new(alloc);
    for group in groups {
        rows.push(elements(alloc, group)?)?;
    }
    if case.name == "plain" {
        let air = Plain {
            columns: 0,
            public_values: 0,
            hint: None,
            periodic: Vec::new(alloc),
        };
        return identity(alloc, &air, numbers, &publics, &rows);
    }
    match air_of(alloc, *kind, *log_size)? {
        Some(air) => identity(alloc, &air, numbers, &publics, &rows),
        None => bad_case(alloc),
    }
}

/// So many zeros, or the values of so many columns, of which the group has the coefficients of those of their flattened columns.
pub fn row_case(alloc: Global, case: &Case) -> Mem<String> {
    let [head, coefficients] = case.groups.as_slice() else {
        return bad_case(alloc);
    };
    let [count] = head.as_slice() else {
        return bad_case(alloc);
    };
    let count = *count as usize;
    let mut out = String::new(alloc);
    if case.name == "zeros" {
        push_values(alloc, &mut out, &zero_row(alloc, count)?)?;
        return Ok(out);
    }
    let row = quartics(alloc, coefficients)?;
    if row.len() / 4 != count || row.len() % 4 != 0 {
        return bad_case(alloc);
    }
    let columns = recombined_row::<BabyBear, QuarticExtension>(alloc, &row, count)?;
    push_values(alloc, &mut out, &columns)?;
    Ok(out)
}
