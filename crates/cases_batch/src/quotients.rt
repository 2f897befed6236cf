//! The values of a table's quotient, where the columns of its traces are made by a rule.
ghost use Rattle.std.specs.Prelude.{◌≡◌, ◌*◌, ◌^◌, ◌≤◌, ◌<◌, IsTrue, IfSome, IfOk, length};
ghost use Rattle.std.specs.Option.{option_map};
ghost use Rattle.p3_field.specs.BabyBear.{baby_bear_ring};
ghost use Rattle.p3_matrix.specs.Matrix.{height};
ghost use Rattle.air_core.specs.Shape.{width_of};
ghost use Rattle.p3_lookup.specs.Written.{read_all};
ghost use Rattle.batch_constraints.specs.BatchTrees.{AreLookupsOf};
ghost use Rattle.prover_values.specs.QuotientRows.{permutation_column_count};

use crate::reading::{bad_case, coefficients, number, quartics, values};
use crate::tables::have_periods;
use air_core::{Air, AirLayout, BaseAir};
use commit_core::{PolynomialSpace, are_disjoint};
use p3_dft::polynomial_value;
use p3_field::{
    BabyBear, FieldCore, Mem, QuarticExtension, RingCore, TwoAdicCore, TwoAdicField,
    TwoAdicMultiplicativeCoset,
};
use p3_lookup::{LogUpGadget, Lookup};
use p3_matrix::{RowMajorMatrix, interpolate_coset, is_power_of_two};
use p3_uni_stark::{StarkGenericConfig, TranscriptVersion};
use prover_values::quotient_values;
use std::alloc::Global;
use tool_statement::{ToolConfig, tool_config};

type Coset = TwoAdicMultiplicativeCoset<BabyBear>;

// The trace with so many rows and columns whose cell in row i and column j is seed + 3 i^2 + 5 j + i j.
fn trace(alloc: Global, seed: usize, rows: usize, width: usize) -> Mem<RowMajorMatrix<BabyBear>> {
    let seed = BabyBear::from_u64(seed as u64);
    let mut cells = Vec::new(alloc);
    for row in 0..rows {
        let i = BabyBear::from_u64(row as u64);
        for column in 0..width {
            let j = BabyBear::from_u64(column as u64);
            cells.push(seed + BabyBear::from_u64(3) * i * i + BabyBear::from_u64(5) * j + i * j)?;
        }
    }
    if width == 0 || cells.len() % width != 0 {
        return Ok(RowMajorMatrix::new_col(Vec::new(alloc)));
    }
    Ok(RowMajorMatrix::new(cells, width))
}

// The values on a domain of the interpolants of a trace's columns, point by point; no row where the trace has no interpolants.
fn extended(
    alloc: Global,
    trace: &RowMajorMatrix<BabyBear>,
    points: &Coset,
) -> Mem<RowMajorMatrix<BabyBear>> {
    let (width, rows) = (trace.width(), trace.height());
    let mut cells = Vec::new(alloc);
    let one = BabyBear::ONE;
    if is_power_of_two(rows) && rows <= 1 << 20 && !one.is_zero() {
        for i in 0..points.size() {
            let point = points.point(i);
            cells.extend_from_slice(&interpolate_coset(alloc, trace, one, point)?)?;
        }
    }
    if width == 0 || cells.len() % width != 0 {
        return Ok(RowMajorMatrix::new_col(Vec::new(alloc)));
    }
    Ok(RowMajorMatrix::new(cells, width))
}

/// Whether a matrix that may be absent has this width, zero where it is absent, and else so many rows.
pub fn is_shaped(matrix: Option<&RowMajorMatrix<BabyBear>>, width: usize, rows: usize) -> bool
    ensures { IsTrue result → (width_of (option_map (λ m. m.now) matrix.entry) ≡ width)
        × IfSome matrix.entry (λ m. height m.now ≡ rows) }
{
    match matrix {
        Some(m) => m.width() == width && m.height() == rows,
        None => width == 0,
    }
}

// The subgroup of this size.
fn subgroup<F: TwoAdicField>(log_size: usize) -> Option<TwoAdicMultiplicativeCoset<F>>
    ensures { IfSome result (λ c. c.shift ≡ F.ring.one) }
{
    TwoAdicMultiplicativeCoset::new(F::ONE, log_size)
}

// How many flattened permutation columns a table with so many lookups has.
fn flattened_width(lookups: usize) -> usize
    requires { lookups ≤ 2 }
    ensures { result ≡ permutation_column_count lookups * 4 }
{
    if lookups == 0 { 0 } else { (lookups + 1) * 4 }
}

// The values of the quotient of a table with these columns on its quotient domain. The words are the public values, the coefficients of alpha, of
// the challenges and of the terminals.
fn quotient_over<A: Air<BabyBear>>(
    alloc: Global,
    air: &A,
    lookups: &[Lookup<BabyBear>],
    rows: Coset,
    points: Coset,
    main: &RowMajorMatrix<BabyBear>,
    preprocessed: Option<&RowMajorMatrix<BabyBear>>,
    permutation: Option<&RowMajorMatrix<BabyBear>>,
    words: &[&str],
) -> Mem<String>
    requires lookups { AreLookupsOf (A.declaration air.now) (read_all lookups.now) }
    requires few { length lookups.now ≤ 2 }
    requires shift { rows.shift ≡ baby_bear_ring.one }
    requires words { 4 ≤ length words.now }
{
    let publics: Vec<BabyBear> = values(alloc, words[0])?;
    let alphas = quartics(alloc, words[1])?;
    let challenges = quartics(alloc, words[2])?;
    let terminals = quartics(alloc, words[3])?;
    if alphas.is_empty()
        || challenges.len() / 2 < lookups.len()
        || terminals.is_empty()
        || publics.len() != air.num_public_values()
        || rows.log_size() > points.log_size()
        || !are_disjoint(&rows, &points)
        || !have_periods(air, rows.size())
        || main.width() != air.width()
        || main.height() != points.size()
        || !is_shaped(preprocessed, air.preprocessed_width(), points.size())
        || !is_shaped(permutation, flattened_width(lookups.len()), points.size())
    {
        return bad_case(alloc);
    }
    let mut made = quotient_values::<ToolConfig, A, LogUpGadget>(
        alloc,
        tool_config(TranscriptVersion::V1).pcs(),
        air,
        &publics,
        AirLayout::from_air(air),
        rows,
        points,
        main,
        permutation,
        lookups,
        &terminals,
        &LogUpGadget::new(),
        &challenges,
        preprocessed,
        alphas[0],
    )?;
    made.reverse();
    let seven = QuarticExtension::from_u64(7);
    coefficients(alloc, &[polynomial_value(&made, seven)])
}

/// The values of a table's quotient on the coset of 31, as the value at 7 of the polynomial whose coefficients they are, the first being the
/// highest. The words are the logarithm of how many times as many points as rows there are, the seeds of the main and of the permutation trace,
/// and what else is given.
pub fn quotient<A: Air<BabyBear>>(
    alloc: Global,
    air: &A,
    lookups: &[Lookup<BabyBear>],
    log_rows: usize,
    words: &[&str],
) -> Mem<String>
    requires { AreLookupsOf (A.declaration air.now) (read_all lookups.now) }
{
    if words.len() != 7 || lookups.len() > 2 {
        return bad_case(alloc);
    }
    let log_points = log_rows.saturating_add(number(words[0]));
    let Some(rows) = subgroup::<BabyBear>(log_rows) else {
        return bad_case(alloc);
    };
    let Some(points) = Coset::new(BabyBear::from_u64(31), log_points) else {
        return bad_case(alloc);
    };
    let main = trace(alloc, number(words[1]), rows.size(), air.width())?;
    let main = extended(alloc, &main, &points)?;
    let preprocessed = match air.preprocessed_trace(alloc)? {
        Some(trace) => Some(extended(alloc, &trace, &points)?),
        None => None,
    };
    let width = flattened_width(lookups.len());
    let permutation = trace(alloc, number(words[2]), rows.size(), width)?;
    let permutation = if lookups.is_empty() {
        None
    } else {
        Some(extended(alloc, &permutation, &points)?)
    };
    quotient_over(
        alloc,
        air,
        lookups,
        rows,
        points,
        &main,
        preprocessed.as_ref(),
        permutation.as_ref(),
        &words[3..],
    )
}
