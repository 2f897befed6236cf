//! Evaluation domains: sets of points over which columns of values are read as polynomials.
ghost use Rattle.std.specs.Prelude.{◌≡◌, ℕ, ◌+◌, ◌*◌, ◌^◌, ◌<◌, ◌≤◌, ◌↔◌, IsTrue, map, List, Some, length, IfOk, MatchOption};
ghost use Rattle.std.specs.Int.{IsPowerOfTwo};
ghost use Rattle.p3_field.specs.Ring.{Ring, pow, sub};
ghost use Rattle.p3_field.specs.Poly.{eval_poly, tabulate, Apart};
ghost use Rattle.p3_field.specs.Domain.{point, vanishing_polynomial, first_selector, last_selector, transition_selector};
ghost use Rattle.p3_matrix.specs.Matrix.{Rows, height};
ghost use Rattle.p3_matrix.specs.Interpolation.{IsInterpolatedAt};
ghost use Rattle.commit_core.specs.Space.{IsPoint, AreDisjoint, IsOffered, IsGeneratorOutside, IsPart, IsSplit, EachOf};
ghost use Rattle.commit_core.specs.Periodic.{IsPeriod, IsPeriodicAt, EachFrom};
ghost use Rattle.p3_field.specs.Laws.Interpolants.{points_apart};
ghost use Rattle.commit_core.specs.Laws.Cosets.{point_after, disjoint_where_outside, points_of_part};

use crate::interpolation::interpolated_at;
use crate::periodic::PeriodicColumns;
use crate::periodic_values::{periodic_value, periodic_values};
use crate::selectors::{LagrangeSelectors, selectors_at, selectors_on};
use crate::split::{split_domain, split_rows};
use p3_field::{
    ExtensionField, FieldCore, Mem, PrimeCharacteristicRing, RingCore, TwoAdicCore, TwoAdicField,
    TwoAdicMultiplicativeCoset,
};
use p3_matrix::{RowMajorMatrix, log2_ceil_usize};
use std::alloc::Global;

/// A set of points over which columns of values are read as polynomials (`PolynomialSpace` of `p3-commit`).
///
/// Contracts see a space by its points, by the polynomial that vanishes on them, and by its selectors.
pub trait PolynomialSpace: Copy {
    /// The field of the points and values.
    type Val: FieldCore;

    // what every space in hand meets
    ghost valid: { Self → Type 0 };

    // how many points there are
    ghost points: { Self → ℕ };

    // point i
    ghost point_at: { Self → ℕ → Self.Val };

    // what leads from a point to the next, by a product
    ghost step: { Self → Self.Val };

    // the degree of the transition selector in units of a trace column
    ghost transition_degree: { Self → ℕ };

    // the polynomial that vanishes on the points
    ghost vanishing_poly: { Self → List Self.Val };

    // the selector of the first row
    ghost first_row_poly: { Self → List Self.Val };

    // the selector of the last row
    ghost last_row_poly: { Self → List Self.Val };

    // the selector of all rows but the last
    ghost transition_poly: { Self → List Self.Val };

    // there is no larger space with this many points
    ghost lacks: { Self → ℕ → Type 0 };

    // the second space is offered as disjoint from the first, with at least so many points
    ghost offered: { Self → ℕ → Self → Type 0 };

    // the field's generator lies outside of both spaces' groups, so that such spaces are disjoint
    ghost outside: { Self → Self → Type 0 };

    // the last space is a part of the first, split in so many: that with this number
    ghost part: { Self → ℕ → ℕ → Self → Type 0 };

    /// The number of points.
    fn size(&self) -> usize
        ensures size { result ≡ points self.now }
        ensures valid { valid self.now };

    /// The degree of the transition selector in units of a trace column. It is zero for a coset, whose selector is
    /// linear.
    fn transition_degree_multiple(&self) -> usize
        ensures { result ≡ transition_degree self.now };

    /// The first point.
    fn first_point(&self) -> Self::Val
        ensures { result ≡ point_at self.now 0 };

    /// The point after x, where x may also lie outside of this space.
    fn next_point<Ext: ExtensionField<Self::Val>>(&self, x: Ext) -> Option<Ext>
        ensures { result ≡ Some (Ext.ring.mul x (Ext.embed (step self.now))) };

    /// A space of at least this size, disjoint from this one wherever the field's generator lies outside of both
    /// groups; None exactly where there is none so large.
    fn try_create_disjoint_domain(&self, min_size: usize) -> Option<Self>
        ensures { MatchOption result (lacks self.now min_size)
            (λ d. offered self.now min_size d × (lacks self.now min_size → ⊥)) };

    /// The space of `try_create_disjoint_domain`, where there is one.
    fn create_disjoint_domain(&self, min_size: usize) -> Self
        requires { lacks self.now min_size → ⊥ }
        ensures { offered self.now min_size result };

    /// The parts of this space, `num_chunks` of them: part i begins at point i and takes each point that is `num_chunks`
    /// further. `num_chunks` must be a power of two and at most the number of points, so each part has a point. The only
    /// error is running out of memory.
    fn split_domains(&self, alloc: Global, num_chunks: usize) -> Mem<Vec<Self>>
        requires power { IsPowerOfTwo num_chunks }
        requires fits { num_chunks ≤ points self.now }
        ensures { IfOk result (λ v. EachOf num_chunks v.items (part self.now num_chunks)) };

    /// The rows of a matrix on the parts of this space, in the order of `split_domains`: row j of part i is row
    /// i + `num_chunks` * j, and each part is as wide as the matrix. The matrix must have a row for each point, and
    /// `num_chunks` be a power of two and at most the number of points. The only error is running out of memory.
    fn split_evals(
        &self,
        alloc: Global,
        num_chunks: usize,
        evals: RowMajorMatrix<Self::Val>,
    ) -> Mem<Vec<RowMajorMatrix<Self::Val>>>
        requires power { IsPowerOfTwo num_chunks }
        requires fits { num_chunks ≤ points self.now }
        requires height { height evals ≡ points self.now }
        ensures { IfOk result (λ v. EachOf num_chunks v.items (IsSplit evals num_chunks)) };

    /// The value at a point of the polynomial that vanishes on this space: zero exactly at its points.
    fn vanishing_poly_at_point<Ext: ExtensionField<Self::Val>>(&self, point: Ext) -> Ext
        ensures value { result ≡ eval_poly Ext.ring (map Ext.embed (vanishing_poly self.now))
            point }
        ensures zero { (result ≡ Ext.ring.zero)
            ↔ IsPoint (points self.now) (point_at self.now) Ext.embed point };

    /// The values of the selectors at a point outside of this space, and one over that of the vanishing polynomial.
    fn selectors_at_point<Ext: ExtensionField<Self::Val>>(
        &self,
        point: Ext,
    ) -> LagrangeSelectors<Ext>
        requires { IsPoint (points self.now) (point_at self.now) Ext.embed point → ⊥ }
        ensures first { result.is_first_row
            ≡ eval_poly Ext.ring (map Ext.embed (first_row_poly self.now)) point }
        ensures last { result.is_last_row
            ≡ eval_poly Ext.ring (map Ext.embed (last_row_poly self.now)) point }
        ensures transition { result.is_transition
            ≡ eval_poly Ext.ring (map Ext.embed (transition_poly self.now)) point }
        ensures inverse { result.inv_vanishing
            ≡ Ext.inv (eval_poly Ext.ring (map Ext.embed (vanishing_poly self.now)) point) };

    /// The same at each point of a space that is disjoint from this one.
    fn selectors_on_coset(
        &self,
        alloc: Global,
        coset: Self,
    ) -> Mem<LagrangeSelectors<Vec<Self::Val>>>
        requires { AreDisjoint (points self.now) (point_at self.now) (points coset)
            (point_at coset) }
        ensures first { IfOk result
            (λ s. s.is_first_row.items
            ≡ tabulate (points coset)
            (λ i. eval_poly Self.Val.ring (first_row_poly self.now) (point_at coset i))) }
        ensures last { IfOk result
            (λ s. s.is_last_row.items
            ≡ tabulate (points coset)
            (λ i. eval_poly Self.Val.ring (last_row_poly self.now) (point_at coset i))) }
        ensures transition { IfOk result
            (λ s. s.is_transition.items
            ≡ tabulate (points coset)
            (λ i. eval_poly Self.Val.ring (transition_poly self.now) (point_at coset i))) }
        ensures inverse { IfOk result
            (λ s. s.inv_vanishing.items
            ≡ tabulate (points coset)
            (λ i. Self.Val.inv (eval_poly Self.Val.ring (vanishing_poly self.now)
            (point_at coset i)))) };

    /// The value at a point of a column's interpolant on this space: the polynomial of degree below the number of points
    /// whose value at point i is `evals[i]`. There must be a value for each point. `point` may also lie in this space.
    fn evaluate_polynomial_at<Ext: ExtensionField<Self::Val>>(
        &self,
        evals: &[Self::Val],
        point: Ext,
    ) -> Ext
        requires { length evals.now ≡ points self.now }
        ensures { IsInterpolatedAt Self.Val.ring Ext.ring Ext.embed (point_at self.now) evals.now
            point result };

    /// The value at a point of a periodic column's polynomial, also at the points of this space: that of the
    /// interpolant of the column repeated over this space. The column lists one period.
    fn evaluate_periodic_column_at<Ext: ExtensionField<Self::Val>>(
        &self,
        col: &[Self::Val],
        point: Ext,
    ) -> Ext
        requires { IsPeriod (points self.now) (length col.now) }
        ensures { IsPeriodicAt Self.Val.ring Ext.ring Ext.embed (points self.now)
            (point_at self.now) point col.now result };

    /// The same of each of several columns, in order.
    fn evaluate_periodic_columns_at<Ext: ExtensionField<Self::Val>>(
        &self,
        alloc: Global,
        columns: PeriodicColumns<'_, Self::Val>,
        point: Ext,
    ) -> Mem<Vec<Ext>>
        requires { columns.height ≡ points self.now }
        ensures { IfOk result (λ v.
            EachFrom (map (λ c. c.items) columns.entry.columns.now) v.items
            (IsPeriodicAt Self.Val.ring Ext.ring Ext.embed (points self.now) (point_at self.now)
            point)) };

    ghost points_differ: { (d : Self) → valid d → Apart (points d) (point_at d) };

    ghost steps: { (d : Self) (i : ℕ) → valid d
        → point_at d (i + 1) ≡ Self.Val.ring.mul (point_at d i) (step d) };

    // an offered space has at least as many points as were asked for
    ghost offered_size: { (d e : Self) (m : ℕ) → offered d m e → m ≤ points e };

    // an offered space is disjoint exactly where the generator lies outside
    ghost disjoint_exactly: { (d e : Self) (m : ℕ) → valid d → valid e → offered d m e
        → AreDisjoint (points d) (point_at d) (points e) (point_at e) ↔ outside d e };

    // the parts share out the points
    ghost part_points: { (d e : Self) (c i j : ℕ) → valid d → part d c i e
        → point_at e j ≡ point_at d (i + c * j) };

    ghost part_size: { (d e : Self) (c i : ℕ) → part d c i e → points e * c ≡ points d };
}

/// Whether two cosets have no point in common (not in Plonky3): they have one exactly where the ratio of their shifts
/// lies in the larger of their subgroups.
pub fn are_disjoint<F: TwoAdicField>(
    first: &TwoAdicMultiplicativeCoset<F>,
    second: &TwoAdicMultiplicativeCoset<F>,
) -> bool
    ensures { IsTrue result ↔ AreDisjoint (2 ^ first.now.log_size) (point F.ring F.root first.now)
        (2 ^ second.now.log_size) (point F.ring F.root second.now) }
{
    first.valid();
    second.valid();
    let log_size = first.log_size().max(second.log_size());
    let ratio = first.shift() * second.shift_inverse();
    !(ratio.exp_power_of_2(log_size) - F::ONE).is_zero()
}

impl<F: TwoAdicField> PolynomialSpace for TwoAdicMultiplicativeCoset<F> {
    type Val = F;

    ghost valid = { λ c. (c.shift ≡ F.ring.zero → ⊥) × (c.log_size ≤ F.TWO_ADICITY) };

    ghost points = { λ c. 2 ^ c.log_size };

    ghost point_at = { λ c. point F.ring F.root c };

    ghost step = { λ c. F.root c.log_size };

    ghost transition_degree = { λ _. 0 };

    ghost vanishing_poly = { λ c. vanishing_polynomial F.ring F.inv c };

    ghost first_row_poly = { λ c. first_selector F.ring F.inv c };

    ghost last_row_poly = { λ c. last_selector F.ring F.inv F.root c };

    ghost transition_poly = { λ c. transition_selector F.ring F.inv F.root c };

    ghost lacks = { λ c m. 2 ^ F.TWO_ADICITY < m };

    ghost offered = { λ c m d. IsOffered F.ring F.GENERATOR c m d };

    ghost outside = { λ c d. IsGeneratorOutside F.ring F.root F.GENERATOR c d };

    ghost part = { λ c n i d. IsPart F.ring F.root c n i d };

    fn size(&self) -> usize {
        self.valid();
        TwoAdicMultiplicativeCoset::size(self)
    }

    fn transition_degree_multiple(&self) -> usize {
        0
    }

    fn first_point(&self) -> F {
        self.shift()
    }

    fn next_point<Ext: ExtensionField<F>>(&self, x: Ext) -> Option<Ext> {
        Some(x * Ext::from_base(self.subgroup_generator()))
    }

    fn try_create_disjoint_domain(&self, min_size: usize) -> Option<Self> {
        self.valid();
        TwoAdicMultiplicativeCoset::new(self.shift() * F::GENERATOR, log2_ceil_usize(min_size))
    }

    fn create_disjoint_domain(&self, min_size: usize) -> Self {
        self.valid();
        TwoAdicMultiplicativeCoset::new(
            self.shift() * F::GENERATOR,
            log2_ceil_usize(min_size),
        ).unwrap()
    }

    fn split_domains(&self, alloc: Global, num_chunks: usize) -> Mem<Vec<Self>> {
        split_domain(alloc, self, num_chunks)
    }

    fn split_evals(
        &self,
        alloc: Global,
        num_chunks: usize,
        evals: RowMajorMatrix<F>,
    ) -> Mem<Vec<RowMajorMatrix<F>>>
        requires power { IsPowerOfTwo num_chunks }
        requires fits { num_chunks ≤ 2 ^ self.now.log_size }
        requires height { height evals ≡ 2 ^ self.now.log_size }
        ensures { IfOk result (λ v. EachOf num_chunks v.items (IsSplit evals num_chunks)) }
    {
        split_rows(alloc, &evals, num_chunks)
    }

    fn vanishing_poly_at_point<Ext: ExtensionField<F>>(&self, point: Ext) -> Ext {
        self.valid();
        (point * Ext::from_base(self.shift_inverse())).exp_power_of_2(self.log_size()) - Ext::ONE
    }

    fn selectors_at_point<Ext: ExtensionField<F>>(&self, point: Ext) -> LagrangeSelectors<Ext> {
        selectors_at(self, point)
    }

    fn selectors_on_coset(&self, alloc: Global, coset: Self) -> Mem<LagrangeSelectors<Vec<F>>> {
        selectors_on(alloc, self, &coset)
    }

    fn evaluate_polynomial_at<Ext: ExtensionField<F>>(&self, evals: &[F], point: Ext) -> Ext {
        interpolated_at(self, evals, point)
    }

    fn evaluate_periodic_column_at<Ext: ExtensionField<F>>(&self, col: &[F], point: Ext) -> Ext {
        periodic_value(self, col, point)
    }

    fn evaluate_periodic_columns_at<Ext: ExtensionField<F>>(
        &self,
        alloc: Global,
        columns: PeriodicColumns<'_, F>,
        x: Ext,
    ) -> Mem<Vec<Ext>>
        requires { columns.height ≡ 2 ^ self.now.log_size }
        ensures { IfOk result (λ v.
            EachFrom (map (λ c. c.items) columns.entry.columns.now) v.items
            (IsPeriodicAt F.ring Ext.ring Ext.embed (2 ^ self.now.log_size)
            (point F.ring F.root self.now) x)) }
    {
        periodic_values(alloc, self, columns, x)
    }

    ghost points_differ = { λ d h.
        points_apart F.ring F.ring_laws F.inv F.field_laws F.TWO_ADICITY F.root F.root_laws d h.1
        h.0 };

    ghost steps = { λ d i h. point_after F.ring F.ring_laws F.root d i };

    ghost offered_size = { λ d e m o. o.enough };

    ghost disjoint_exactly = { λ d e m h k o.
        disjoint_where_outside F.ring F.ring_laws F.inv F.field_laws F.TWO_ADICITY F.root
        F.root_laws F.GENERATOR d e m h.0 h.1 k.1 o };

    ghost part_points = { λ d e c i j h p.
        points_of_part F.ring F.ring_laws F.TWO_ADICITY F.root F.root_laws d e c i j h.1 p };

    ghost part_size = { λ d e c i p. p.size_is };
}
