//! The largest degree of what a recording builder has recorded.
ghost use Rattle.std.specs.Prelude.{◌≡◌, ℕ, map, IfOk};
ghost use Rattle.air_core.specs.Degree.{greatest, multiple, polynomial_degree};
ghost use Rattle.air_core.specs.Recording.{asserted_at};

use crate::degrees::largest_degree;
use crate::recorder::InteractionSymbolicBuilder;
use crate::symbolic::{Multiples, OverRows};
use p3_field::{Field, FieldCore, Mem, RingCore};

impl<F: Field> InteractionSymbolicBuilder<F> {
    /// The largest degree of the recorded constraints as a multiple of the height, where the transition selector has degree
    /// `t` (`SymbolicExpression::degree_multiple_with_transition`), or zero where none is recorded. The nodes are read once,
    /// and none is copied (not in Plonky3).
    pub fn largest_degree_multiple(&self, t: usize) -> Mem<usize>
        ensures { IfOk result (λ d.
            d ≡ greatest 0 (map (λ a. multiple t a.tree)
            (asserted_at self.now.nodes self.now.asserted))) }
    {
        let cells = Multiples { transition: t };
        largest_degree(self.alloc, &self.nodes, &self.asserted, &cells)
    }

    /// The largest degree of the recorded constraints' polynomials over a trace of `trace_len` rows
    /// (`SymbolicExpression::poly_degree`), or zero where none is recorded. A periodic column that `periods` doesn't name
    /// counts as constant (not in Plonky3).
    pub fn largest_poly_degree(&self, trace_len: usize, periods: &[usize]) -> Mem<usize>
        ensures { IfOk result (λ d.
            d ≡ greatest 0 (map (λ a. polynomial_degree trace_len periods.now a.tree)
            (asserted_at self.now.nodes self.now.asserted))) }
    {
        let cells = OverRows {
            rows: trace_len,
            periods,
        };
        largest_degree(self.alloc, &self.nodes, &self.asserted, &cells)
    }
}
