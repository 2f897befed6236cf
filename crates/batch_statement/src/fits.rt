//! Whether common data fits tables.
ghost use Rattle.std.specs.Prelude.{◌≡◌, ◌↔◌, ◌≤◌, ℕ, min, length, map, flat_map, take, None, IfOk, IsOk, IsTrue};
ghost use Rattle.p3_lookup.specs.Bus.{HaveOneWidth};
ghost use Rattle.p3_lookup.specs.Written.{read_all};
ghost use Rattle.batch_statement.specs.Statement.{WellFormed, read_common, instance_count, within_entries};

use crate::common::SharedData;
use crate::entries::preprocessed_fits;
use crate::preprocessed::PreprocessedTraces;
use crate::reads::lookups_fit;
use crate::widths::have_one_width;
use air_core::{Air, BaseAir};
use p3_field::{Field, FieldCore, Mem, RingCore};
use p3_lookup::Lookups;
use std::alloc::Global;

// The least of a number and the number of entries, where there are such.
fn at_most_entries<Com>(preprocessed: &Option<PreprocessedTraces<Com>>, n: usize) -> usize
    ensures { result ≡ within_entries preprocessed.now n }
{
    match preprocessed {
        None => n,
        Some(traces) => n.min(traces.instances.len()),
    }
}

// Whether all tuples on one bus have one width, over the first `n` tables.
fn widths_fit<F>(lookups: &[Lookups<F>], n: usize) -> bool
    requires { n ≤ length lookups.now }
    ensures { IsTrue result ↔ HaveOneWidth
        (flat_map (λ ls. ls) (map read_all (take n lookups.now))) }
{
    have_one_width(&lookups[..n])
}

impl<F, Com> SharedData<F, Com> {
    // How many instances there are: those below all lengths.
    fn instances(&self, tables: usize) -> usize
        ensures { result ≡ within_entries self.now.preprocessed
            (min tables (length self.now.lookups)) }
    {
        at_most_entries(&self.preprocessed, tables.min(self.lookups.len()))
    }
}

impl<F: Field, Com> SharedData<F, Com> {
    /// Whether the data is well-formed for tables with these AIRs (not in Plonky3), an instance being a number below the
    /// lengths of `airs`, of the lookups and, where there are preprocessed traces, of their entries:
    ///
    /// - an instance's lookups read only constants and those public values, main cells and preprocessed cells that its AIR
    ///   declares, and next cells only of declared next columns;
    /// - each lookup has as many multiplicities as tuples;
    /// - all tuples on one bus have one width;
    /// - an instance has an entry exactly where its preprocessed width isn't zero, and the entry has that width;
    /// - `matrix_to_instance` is the increasing list of the instances with an entry;
    /// - an entry's `matrix_index` is its instance's place in that list.
    ///
    /// Only out of memory is an error, and none where there are no preprocessed traces (`sure`).
    pub fn fits<A: Air<F>>(&self, alloc: Global, airs: &[A]) -> Mem<bool>
        ensures fits { IfOk result
            (λ b. IsTrue b ↔ WellFormed (map A.declaration airs.now) (read_common self.now)) }
        ensures sure { self.now.preprocessed ≡ None → IsOk result }
    {
        let n = self.instances(airs.len());
        let preprocessed = preprocessed_fits(alloc, airs, &self.preprocessed, n)?;
        if !lookups_fit(airs, &self.lookups, n) {
            return Ok(false);
        }
        if !widths_fit(&self.lookups, n) {
            return Ok(false);
        }
        Ok(preprocessed)
    }
}
