//! The values of committed polynomials and of periodic columns on other domains.
ghost use Rattle.std.specs.Prelude.{◌≡◌, ℕ, ◌+◌, ◌*◌, ◌/◌, ◌%◌, ◌^◌, ◌<◌, ◌≤◌, List, Some, All, MatchOption, length, get_or, map, slice_get, ◌++◌, IfOk};
ghost use Rattle.std.specs.Int.{IsPowerOfTwo};
ghost use Rattle.p3_field.specs.Ring.{Ring};
ghost use Rattle.p3_field.specs.Domain.{CosetData, point};
ghost use Rattle.p3_matrix.specs.Matrix.{Rows, height};
ghost use Rattle.commit_core.specs.Commitments.{Committed, IsEvaluated};
ghost use Rattle.commit_core.specs.Periodic.{IsGreatest, IsPeriod, IsPeriodicTable};
ghost use Rattle.plain_pcs.specs.Scheme.{Blowup, PlainCommitmentData, scheme};
ghost use Rattle.plain_pcs.specs.Holding.{IsMade, AreHolding};
ghost use Rattle.plain_pcs.specs.Transfer.{IsTransfer, IsRepeated, folded};

use crate::commitment::PlainProverData;
use commit_core::{PeriodicLdeTable, rows_from};
use p3_dft::TwoAdicSubgroupDft;
use p3_field::{
    FieldCore, Mem, PrimeCharacteristicRing, RingCore, TwoAdicCore, TwoAdicField,
    TwoAdicMultiplicativeCoset,
};
use p3_matrix::{RowMajorMatrix, log2_strict_usize};
use std::alloc::Global;

/// The values of the polynomials of the matrix at place `idx` on a domain, a row for each point and a column for each
/// polynomial (not in Plonky3).
///
/// Prover data holds the polynomials' values on a domain of its own. Where the asked domain's points are some of these, its rows are
/// read as they are, as `get_evaluations_on_domain` of Plonky3's schemes does; one transform leads to any other. Only memory can run
/// out.
pub(crate) fn evaluations_on_domain<F: TwoAdicField, D: TwoAdicSubgroupDft<F>>(
    alloc: Global,
    dft: &D,
    prover_data: &PlainProverData<F>,
    idx: usize,
    domain: TwoAdicMultiplicativeCoset<F>,
) -> Mem<RowMajorMatrix<F>>
    requires made { IsMade prover_data.now }
    requires index { idx < length prover_data.now }
    ensures { IfOk result (λ m.
        (b : Blowup) (commitment : PlainCommitmentData F) (cs : List (Committed F))
        (c : Committed F)
        → AreHolding (scheme F.ring F.inv F.root F.GENERATOR F.TWO_ADICITY b) prover_data.now
        commitment cs → slice_get cs idx ≡ Some c
        → IsEvaluated F.ring (2 ^ domain.log_size) (point F.ring F.root domain) c m) }
{
    let (from, matrix) = &prover_data.evaluated[idx];
    if from.shift() == domain.shift() && domain.log_size() <= from.log_size() {
        let rows = rows_on(alloc, from, matrix, &domain)?;
        return Ok(rows);
    }
    let copy = matrix.try_clone(alloc)?;
    let values = transferred(alloc, dft, *from, copy, domain)?;
    Ok(values)
}

/// The rows of a matrix for the points of a domain that are some of its own.
pub(crate) fn rows_on<F: TwoAdicField>(
    alloc: Global,
    from: &TwoAdicMultiplicativeCoset<F>,
    values: &RowMajorMatrix<F>,
    to: &TwoAdicMultiplicativeCoset<F>,
) -> Mem<RowMajorMatrix<F>>
    requires height { height values.now ≡ 2 ^ from.now.log_size }
    requires shift { to.now.shift ≡ from.now.shift }
    requires smaller { to.now.log_size ≤ from.now.log_size }
    ensures { IfOk result (IsTransfer F.ring F.root from.now to.now values.now) }
{
    from.valid();
    let log_stride = from.log_size() - to.log_size();
    let rows = rows_from(alloc, values, 0, 1 << log_stride)?;
    Ok(rows)
}

/// The table of periodic columns on a quotient domain: a column for each, laid over the trace domain, and the rows that the
/// values of the columns' interpolants repeat over the quotient domain: the longest period times as many as the quotient domain
/// is times as large as the trace domain (not in Plonky3). Without columns it is empty. Only memory can run out.
///
/// The interpolants are polynomials in X to the number of times that the longest period is laid over the trace domain. So the
/// columns are laid over the longest period alone, on the coset of the points' powers, and one transform leads from there.
pub(crate) fn periodic_table<F: TwoAdicField, D: TwoAdicSubgroupDft<F>>(
    alloc: Global,
    dft: &D,
    periodic_cols: &[Vec<F>],
    trace_domain: TwoAdicMultiplicativeCoset<F>,
    quotient_domain: TwoAdicMultiplicativeCoset<F>,
) -> Mem<PeriodicLdeTable<F>>
    requires fit { All (λ c. IsPeriod (2 ^ trace_domain.log_size) (length c.items))
        periodic_cols.now }
    requires shift { point F.ring F.root trace_domain 0 ≡ F.ring.one }
    requires larger { 2 ^ trace_domain.log_size ≤ 2 ^ quotient_domain.log_size }
    ensures table { IfOk result
        (IsPeriodicTable F.ring (2 ^ trace_domain.log_size) (point F.ring F.root trace_domain)
        (2 ^ quotient_domain.log_size)
        (point F.ring F.root quotient_domain) (map (λ c. c.items) periodic_cols.now)) }
    ensures height { IfOk result
        (λ t. (period : ℕ) → IsGreatest (map (λ c. length c.items) periodic_cols.now) period
        → height t ≡ period * (2 ^ quotient_domain.log_size / 2 ^ trace_domain.log_size)) }
{
    match longest_period(periodic_cols) {
        None => Ok(PeriodicLdeTable::empty(alloc)),
        Some(period) => {
            trace_domain.valid();
            quotient_domain.valid();
            let folds = trace_domain.log_size() - log2_strict_usize(period);
            let columns = repeated(alloc, periodic_cols, period)?;
            let from = powers_of(trace_domain, folds);
            let to = powers_of(quotient_domain, folds);
            let values = transferred(alloc, dft, from, columns, to)?;
            Ok(PeriodicLdeTable::new(values))
        }
    }
}

// The greatest length, where there is a column.
fn longest_period<F>(columns: &[Vec<F>]) -> Option<usize>
    ensures { MatchOption result (length columns.now ≡ 0)
        (IsGreatest (map (λ c. length c.items) columns.now)) }
{
    columns.iter().map(|column| column.len()).max()
}

// The points' powers to 2^`folds`, which are a domain of fewer points.
fn powers_of<F: TwoAdicField>(
    domain: TwoAdicMultiplicativeCoset<F>,
    folds: usize,
) -> TwoAdicMultiplicativeCoset<F>
    requires { folds ≤ domain.log_size }
    ensures { result ≡ folded F.ring folds domain }
{
    domain.valid();
    let shift = domain.shift().exp_power_of_2(folds);
    match TwoAdicMultiplicativeCoset::new(shift, domain.log_size() - folds) {
        Some(powers) => powers,
        None => unreachable!(),
    }
}

// The values on the domain `to` of the polynomials with these values on the domain `from`.
fn transferred<F: TwoAdicField, D: TwoAdicSubgroupDft<F>>(
    alloc: Global,
    dft: &D,
    from: TwoAdicMultiplicativeCoset<F>,
    values: RowMajorMatrix<F>,
    to: TwoAdicMultiplicativeCoset<F>,
) -> Mem<RowMajorMatrix<F>>
    requires { height values ≡ 2 ^ from.log_size }
    ensures { IfOk result (IsTransfer F.ring F.root from to values) }
{
    from.valid();
    to.valid();
    let shift = to.shift() * from.shift_inverse();
    let log_from = from.log_size();
    let log_to = to.log_size();
    if log_to < log_from {
        let all = dft.coset_lde_batch(alloc, values, 0, shift)?;
        let rows = rows_from(alloc, &all, 0, 1 << (log_from - log_to))?;
        Ok(rows)
    } else {
        let moved = dft.coset_lde_batch(alloc, values, log_to - log_from, shift)?;
        Ok(moved)
    }
}

// Periodic columns side by side, over so many rows.
fn repeated<F: RingCore>(alloc: Global, columns: &[Vec<F>], rows: usize) -> Mem<RowMajorMatrix<F>>
    requires { All (λ c. 0 < length c.items) columns.now }
    ensures { IfOk result (IsRepeated F.ring.zero rows (map (λ c. c.items) columns.now)) }
{
    let mut values = Vec::new(alloc);
    for i in 0..rows {
        push_row(&mut values, columns, i)?;
    }
    Ok(RowMajorMatrix::new(values, columns.len()))
}

// One more row: the columns' values at the row's number modulo their lengths.
fn push_row<F: RingCore>(values: &mut Vec<F>, columns: &[Vec<F>], row: usize) -> Mem<()>
    requires { All (λ c. 0 < length c.items) columns.now }
    ensures { IfOk result (λ _.
        values.new.items ≡ values.old.items
        ++ map (λ c. get_or c.items (row % length c.items) F.ring.zero) columns.now) }
{
    for column in columns {
        values.push(column[row % column.len()])?;
    }
    Ok(())
}
