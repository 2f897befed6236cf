//! Permutation columns of a table of one column, and the constraints of its lookups.
ghost use Rattle.std.specs.Prelude.{◌≡◌, ◌+◌, ◌*◌, ◌<◌, All, IsTrue, length};
ghost use Rattle.p3_matrix.specs.Matrix.{height};
ghost use Rattle.cases_air.specs.Cells.{eight_of_each};
ghost use Rattle.cases_air.specs.Taken.{IsTakenLookup};

use crate::cells::eight_of_each;
use crate::lookups::lookups_of;
use crate::printing::{push_values, push_word};
use crate::reading::{Case, bears};
use crate::recorded::push_recorded;
use crate::sending::sending_air;
use air_check::DebugConstraintBuilder;
use air_core::{InteractionSymbolicBuilder, RowValues};
use p3_field::{BabyBear, FieldCore, Mem, RingCore};
use p3_lookup::{GenerateError, LogUpGadget, Lookup, LookupProtocol, LookupTerminal};
use p3_matrix::RowMajorMatrix;
use std::alloc::Global;

/// The answer to a call of a recording builder after the sending table and at most three lookups.
pub fn argument(alloc: Global, out: &mut String, case: &Case) -> Mem<()> {
    let lookups = lookups_of(alloc, &case.second)?;
    if lookups.len() > 3 {
        return push_word(out, "bad case");
    }
    let air = sending_air(alloc)?;
    let mut builder = InteractionSymbolicBuilder::<BabyBear>::new(alloc, eight_of_each())?;
    let taken = lookups.as_slice();
    LogUpGadget::new().eval_air_and_lookups(&air, &mut builder, taken)?;
    push_recorded(alloc, out, &builder, case)
}

// What is generated for a table of one column.
fn generated(
    alloc: Global,
    main: &RowMajorMatrix<BabyBear>,
    lookups: &[Lookup<BabyBear>],
    challenges: &[BabyBear],
) -> Result<(RowMajorMatrix<BabyBear>, LookupTerminal<BabyBear>), GenerateError>
    requires column { main.now.width ≡ 1 }
    requires taken { All IsTakenLookup lookups.now }
    requires challenges { length challenges.now ≡ 2 * length lookups.now }
{
    LogUpGadget::new().generate_permutation(alloc, main, None, &[], lookups, challenges)
}

// Whether the columns are those of these lookups beside a table of one column, with two challenges for each, and have the row.
fn are_beside(
    main: &RowMajorMatrix<BabyBear>,
    columns: &RowMajorMatrix<BabyBear>,
    lookups: &[Lookup<BabyBear>],
    challenges: &[BabyBear],
    row: usize,
) -> bool
    requires { length lookups.now < 100 }
    ensures { IsTrue result → (row < height main.now) × (main.now.width ≡ 1)
        × (height columns.now ≡ height main.now) × (columns.now.width ≡ length lookups.now + 1)
        × (length challenges.now ≡ 2 * length lookups.now) }
{
    row < main.height()
        && main.width() == 1
        && columns.height() == main.height()
        && columns.width() == lookups.len() + 1
        && challenges.len() == 2 * lookups.len()
}

// Appends the values of all constraints of the sending table and of lookups in a row, beside a table of one column, which is the
// preprocessed column too, where the periodic column is one.
fn push_constraints(
    alloc: Global,
    out: &mut String,
    main: &RowMajorMatrix<BabyBear>,
    columns: &RowMajorMatrix<BabyBear>,
    terminal: BabyBear,
    lookups: &[Lookup<BabyBear>],
    challenges: &[BabyBear],
    row: usize,
) -> Mem<()>
    requires few { length lookups.now < 100 }
    requires taken { All IsTakenLookup lookups.now }
{
    let fits = are_beside(main, columns, lookups, challenges, row);
    if !fits {
        return push_word(out, "bad case");
    }
    let height = main.height();
    let next = (row + 1) % height;
    let values = RowValues {
        main_local: main.row(row),
        main_next: main.row(next),
        preprocessed_local: main.row(row),
        preprocessed_next: main.row(next),
        periodic: &[BabyBear::ONE],
        public_values: &[BabyBear::ZERO],
        is_first_row: row == 0,
        is_last_row: row + 1 == height,
        permutation_local: columns.row(row),
        permutation_next: columns.row(next),
        challenges,
        terminals: &[terminal],
    };
    let air = sending_air(alloc)?;
    let mut builder = DebugConstraintBuilder::<BabyBear, BabyBear>::new(alloc, values);
    LogUpGadget::new().eval_air_and_lookups(&air, &mut builder, lookups)?;
    push_values(alloc, out, builder.values())
}

/// What is generated for a table of one column, by lookups and challenges; or the values of all constraints in a row of it, with
/// so much added to the terminal.
pub fn column(alloc: Global, out: &mut String, case: &Case) -> Mem<()> {
    let main = RowMajorMatrix::new_col(bears(alloc, &case.first)?);
    let lookups = lookups_of(alloc, &case.second)?;
    let challenges = bears(alloc, &case.third)?;
    if lookups.len() > 3 || challenges.len() != 2 * lookups.len() {
        return push_word(out, "bad case");
    }
    let taken = lookups.as_slice();
    let (columns, end) = match generated(alloc, &main, taken, &challenges) {
        Ok(made) => made,
        Err(error) => return push_word(out, error),
    };
    if case.call == "constraints" {
        let [row, added, _] = case.at;
        let terminal = end.0 + BabyBear::from_u64(added as u64);
        return push_constraints(
            alloc,
            out,
            &main,
            &columns,
            terminal,
            taken,
            &challenges,
            row,
        );
    }
    push_word(out, format_args!("{} |", columns.width()))?;
    push_values(alloc, out, columns.as_slice())?;
    push_word(out, "|")?;
    push_values(alloc, out, &[end.0])
}
