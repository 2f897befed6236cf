//! What evaluates periodic columns on a domain and at a point.
ghost use Rattle.std.specs.Prelude.{◌≡◌, ℕ, ◌+◌, ◌*◌, ◌/◌, ◌%◌, ◌<◌, length, map, List, [], IfOk, IsOk};
ghost use Rattle.p3_matrix.specs.Matrix.{Rows, height, cell_at};
ghost use Rattle.commit_core.specs.Periodic.{IsPeriodicAt, IsPeriodicTable, EachFrom};

use crate::domain::PolynomialSpace;
use crate::periodic_table::PeriodicLdeTable;
use p3_field::{ExtensionField, Field, FieldCore, Mem, RingCore};
use std::alloc::Global;

/// Evaluates the polynomials of periodic columns, each of which lists one period (`PeriodicEvaluator` of
/// `p3-commit`).
pub trait PeriodicEvaluator<F: Field, D: PolynomialSpace<Val = F>> {
    // the columns that are taken over a trace domain
    ghost takes: { D → List (List F) → Type 0 };

    /// The table of the columns' values at the points of a larger domain.
    fn eval_on_lde(
        alloc: Global,
        periodic_table: &[Vec<F>],
        trace_domain: &D,
        lde_domain: &D,
    ) -> Mem<PeriodicLdeTable<F>>
        requires { takes trace_domain.now (map (λ c. c.items) periodic_table.now) }
        ensures { IfOk result (IsPeriodicTable F.ring (D.points trace_domain.now)
            (D.point_at trace_domain.now) (D.points lde_domain.now) (D.point_at lde_domain.now)
            (map (λ c. c.items) periodic_table.now)) };

    /// The columns' values at a point, in order.
    fn eval_at_point<EF: ExtensionField<F>>(
        alloc: Global,
        periodic_table: &[Vec<F>],
        trace_domain: &D,
        point: EF,
    ) -> Mem<Vec<EF>>
        requires { takes trace_domain.now (map (λ c. c.items) periodic_table.now) }
        ensures { IfOk result (λ v.
            EachFrom (map (λ c. c.items) periodic_table.now) v.items
            (IsPeriodicAt F.ring EF.ring EF.embed (D.points trace_domain.now)
            (D.point_at trace_domain.now) point)) };
}

/// Takes no column, and so gives nothing, and wants no memory.
impl<F: Field, D: PolynomialSpace<Val = F>> PeriodicEvaluator<F, D> for () {
    ghost takes = { λ _ columns. length columns ≡ 0 };

    fn eval_on_lde(
        alloc: Global,
        _periodic_table: &[Vec<F>],
        _trace_domain: &D,
        _lde_domain: &D,
    ) -> Mem<PeriodicLdeTable<F>>
        requires { length (map (λ c. c.items) _periodic_table.now) ≡ 0 }
        ensures table { IfOk result
            (IsPeriodicTable F.ring (D.points _trace_domain.now) (D.point_at _trace_domain.now)
            (D.points _lde_domain.now) (D.point_at _lde_domain.now)
            (map (λ c. c.items) _periodic_table.now)) }
        ensures sure { IsOk result }
    {
        Ok(PeriodicLdeTable::empty(alloc))
    }

    fn eval_at_point<EF: ExtensionField<F>>(
        alloc: Global,
        _periodic_table: &[Vec<F>],
        _trace_domain: &D,
        _point: EF,
    ) -> Mem<Vec<EF>>
        requires { length (map (λ c. c.items) _periodic_table.now) ≡ 0 }
        ensures values { IfOk result
            (λ v. EachFrom (map (λ c. c.items) _periodic_table.now) v.items
            (IsPeriodicAt F.ring EF.ring EF.embed (D.points _trace_domain.now)
            (D.point_at _trace_domain.now) _point)) }
        ensures sure { IsOk result }
    {
        Ok(Vec::new(alloc))
    }
}
