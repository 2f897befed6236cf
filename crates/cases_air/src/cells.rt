//! Cells by their names, and what declares eight of each kind.
ghost use Rattle.std.specs.Prelude.{◌≡◌, IfSome};
ghost use Rattle.air_core.specs.Layout.{layout_shape};
ghost use Rattle.air_core.specs.RowCheck.{row_shape};
ghost use Rattle.air_core.specs.Shape.{Declares, DeclaresExt};
ghost use Rattle.cases_air.specs.Cells.{eight_of_each};

use air_core::{AirLayout, Cell, ExtCell, RowValues};
use p3_field::BabyBear;

/// The layout with eight cells of each kind, and a terminal.
pub fn eight_of_each() -> AirLayout
    ensures { layout_shape result ≡ eight_of_each }
{
    AirLayout {
        preprocessed_width: 8,
        main_width: 8,
        num_public_values: 8,
        num_periodic_columns: 8,
        permutation_width: 8,
        num_permutation_challenges: 8,
        num_permutation_values: 1,
    }
}

/// A row with eight cells of each kind: those of the base field are `cells`, and those of the extension `own`, in the next
/// row `next`.
pub fn row_of<'a, EF>(
    cells: &'a [BabyBear; 8],
    own: &'a [EF; 8],
    next: &'a [EF; 8],
    end: &'a [EF; 1],
) -> RowValues<'a, BabyBear, EF>
    ensures { row_shape result ≡ eight_of_each }
{
    RowValues {
        main_local: cells,
        main_next: cells,
        preprocessed_local: cells,
        preprocessed_next: cells,
        periodic: cells,
        public_values: cells,
        is_first_row: false,
        is_last_row: false,
        permutation_local: own,
        permutation_next: next,
        challenges: own,
        terminals: end,
    }
}

/// The cell of this name, of the first eight of its kind.
pub fn cell_of(name: &str, column: usize) -> Option<Cell>
    ensures { IfSome result (Declares eight_of_each) }
{
    if column >= 8 {
        return None;
    }
    match name {
        "main" => Some(Cell::Main {
            next: false,
            column,
        }),
        "next" => Some(Cell::Main { next: true, column }),
        "preprocessed" => Some(Cell::Preprocessed {
            next: false,
            column,
        }),
        "periodic" => Some(Cell::Periodic(column)),
        "public" => Some(Cell::Public(column)),
        "first" => Some(Cell::FirstRow),
        "last" => Some(Cell::LastRow),
        "step" => Some(Cell::Transition),
        _ => None,
    }
}

/// The cell of the extension of this name, of the first eight of its kind.
pub fn ext_cell_of(name: &str, column: usize) -> Option<ExtCell>
    ensures { IfSome result (DeclaresExt eight_of_each) }
{
    if column >= 8 {
        return None;
    }
    match name {
        "own" => Some(ExtCell::Permutation {
            next: false,
            column,
        }),
        "after" => Some(ExtCell::Permutation { next: true, column }),
        "challenge" => Some(ExtCell::Challenge(column)),
        "terminal" => Some(ExtCell::Terminal),
        _ => None,
    }
}
