//! Calls of matrices over the base field.
ghost use Rattle.std.specs.Prelude.{◌≡◌};

use crate::printing::{print_bears, print_matrix, print_numbers, print_values};
use crate::reading::values_of;
use p3_field::{BabyBear, BasedVectorSpace, ExtensionField, FieldCore, Mem};
use p3_matrix::{
    RowMajorMatrix, batch_multiplicative_inverse, flatten_matrix, interpolate_coset,
    is_power_of_two,
};
use std::alloc::Global;
use std::io;

/// The matrix of this width with these numbers row after row; without rows where they don't fill them.
pub fn matrix_of(alloc: Global, width: usize, numbers: &[u64]) -> Mem<RowMajorMatrix<BabyBear>> {
    let values = values_of::<BabyBear, BabyBear>(alloc, numbers)?;
    if width == 0 || values.len() % width != 0 {
        return Ok(RowMajorMatrix::new_col(Vec::new(alloc)));
    }
    Ok(RowMajorMatrix::new(values, width))
}

/// Calls of the matrix of a width, at a row and a column, with the values that the other numbers are.
pub fn matrix<R: Print + AllocGlobal>(rt: &R, call: &str, numbers: &[u64]) -> io::Result<()> {
    let [width, row, column, cells @ ..] = numbers else {
        return rt.println("bad case");
    };
    let (row, column) = (*row as usize, *column as usize);
    let m = matrix_of(rt.alloc(), *width as usize, cells)?;
    match call {
        "size" => print_numbers(rt, &[m.width() as u64, m.height() as u64]),
        "get" => match m.get(row, column) {
            Some(value) => print_bears(rt, &[value]),
            None => rt.println("none"),
        },
        "row_slice" => match m.row_slice(row) {
            Some(values) => print_bears(rt, values),
            None => rt.println("none"),
        },
        "row" if row < m.height() => print_bears(rt, m.row(row)),
        "column" if column < m.width() => print_bears(rt, &m.column(rt.alloc(), column)?),
        "transpose" => print_matrix(rt, &m.transpose(rt.alloc())?),
        "clone" => print_matrix(rt, &m.try_clone(rt.alloc())?),
        "inverses" => inverses(rt, m.as_slice()),
        _ => rt.println("bad case"),
    }
}

// The inverses of three values, if none is zero.
fn inverses<R: Print + AllocGlobal>(rt: &R, values: &[BabyBear]) -> io::Result<()> {
    match values {
        [a, b, c] if !a.is_zero() && !b.is_zero() && !c.is_zero() => {
            print_bears(
                rt,
                &batch_multiplicative_inverse(rt.alloc(), &[*a, *b, *c])?,
            )
        }
        _ => rt.println("bad case"),
    }
}

/// Prints the column of the values that the numbers are as a matrix over the base field.
pub fn flatten<V: ExtensionField<BabyBear>, R: Print + AllocGlobal>(
    rt: &R,
    numbers: &[u64],
) -> io::Result<()> {
    if V::DIMENSION > 4 {
        return rt.println("bad case");
    }
    let column = RowMajorMatrix::new_col(values_of::<BabyBear, V>(rt.alloc(), numbers)?);
    print_matrix(rt, &flatten_matrix::<BabyBear, V>(rt.alloc(), &column)?)
}

/// Prints what the interpolants of a matrix's columns on the coset with this shift are at a point: the numbers are the
/// point's coefficients, and then the values of the matrix.
pub fn interpolate<V: ExtensionField<BabyBear>, R: Print + AllocGlobal>(
    rt: &R,
    shift: BabyBear,
    width: usize,
    numbers: &[u64],
) -> io::Result<()> {
    let Some((point, cells)) = numbers.split_at_checked(V::DIMENSION) else {
        return rt.println("bad case");
    };
    let point = values_of::<BabyBear, V>(rt.alloc(), point)?;
    let m = matrix_of(rt.alloc(), width, cells)?;
    match point.as_slice() {
        [point] if is_power_of_two(m.height()) && m.height() <= 1 << 27 && !shift.is_zero() => {
            let values = interpolate_coset(rt.alloc(), &m, shift, *point)?;
            print_values::<BabyBear, V, R>(rt, &values)
        }
        _ => rt.println("bad case"),
    }
}
