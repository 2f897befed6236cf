//! Whether a drawn point lies on the rows of no table.
ghost use Rattle.std.specs.Prelude.{◌≡◌, ◌≤◌, ◌↔◌, All, IsTrue};
ghost use Rattle.tool_statement.specs.StatedTables.{TableWithin, log_heights_of};
ghost use Rattle.tool_prover.specs.Outside.{AvoidsRows};

use commit_core::PolynomialSpace;
use p3_field::{
    BabyBear, FieldCore, QuarticExtension, RingCore, TwoAdicCore, TwoAdicMultiplicativeCoset,
};
use tool_statement::TableStatement;

/// Whether a drawn point lies on none of the rows of a table of 2^`log` rows, up to 2^10: it is none of the subgroup of that size.
/// Nothing is allocated.
pub fn avoids_subgroup(log: usize, point: QuarticExtension) -> bool
    requires { log ≤ 10 }
    ensures { IsTrue result ↔ AvoidsRows point log }
{
    match TwoAdicMultiplicativeCoset::new(BabyBear::ONE, log) {
        Some(rows) => !rows.vanishing_poly_at_point(point).is_zero(),
        None => unreachable!(),
    }
}

// Whether the point lies on the rows of none of these tables.
pub(crate) fn is_outside(tables: &[TableStatement], point: QuarticExtension) -> bool
    requires { All TableWithin tables.now }
    ensures { IsTrue result ↔ All (AvoidsRows point) (log_heights_of tables.now) }
{
    for table in tables {
        if !avoids_subgroup(table.log_height(), point) {
            return false;
        }
    }
    true
}
