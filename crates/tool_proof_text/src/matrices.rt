//! The text of a matrix.

ghost use Rattle.std.specs.Prelude.{◌≡◌, ◌≤◌};
ghost use Rattle.tool_proof_text.specs.Matrices.{least_height, most_height};

use p3_field::{BabyBear, Mem};
use p3_matrix::RowMajorMatrix;
use std::alloc::Global;
use tool_lines::{Form, ItemError, Reader, print_items, push_number, read_items};

/// The most columns of a matrix.
const MOST_WIDTH: u32 = 16384;

/// The most rows of a matrix.
const MOST_HEIGHT: u32 = 4096;

/// The form of a matrix's text (not in Plonky3): its width, its height, and its elements row by row, a
/// line for each.
///
/// The width is at most 16384 and the height at most 4096. The height is 0 exactly where the width is.
pub struct MatrixText;

impl Form for MatrixText {
    type Value = RowMajorMatrix<BabyBear>;

    ghost use Rattle.p3_field.specs.declared.baby_bear.BabyBear.{BabyBear as Element};
    ghost use Rattle.p3_matrix.specs.Matrix.{Rows};
    ghost use Rattle.tool_proof_text.specs.Matrices.{MatrixWithin, matrix_numbers};
    ghost use Rattle.tool_proof_text.specs.Laws.Matrices.{matrix-grammar};

    ghost Data = { Rows Element };

    ghost data_of = { λ m. m };

    ghost within = { MatrixWithin };

    ghost numbers = { matrix_numbers };

    ghost grammar = { matrix-grammar };

    fn read(alloc: Global, reader: &mut Reader) -> Result<RowMajorMatrix<BabyBear>, ItemError> {
        let width = reader.number(0, MOST_WIDTH)?;
        let (least, most) = heights_of(width);
        let height = reader.number(least, most)?;
        let count = width as usize * height as usize;
        let values = read_items::<BabyBear>(alloc, reader, count)?;
        Ok(RowMajorMatrix::new(values, width as usize))
    }

    fn print(value: &RowMajorMatrix<BabyBear>, out: &mut Vec<u8>) -> Mem<()> {
        push_number(out, value.width() as u64)?;
        push_number(out, value.height() as u64)?;
        print_items::<BabyBear>(value.as_slice(), out)?;
        Ok(())
    }
}

/// The least and the greatest height of a matrix of this width.
fn heights_of(width: u32) -> (u32, u32)
    ensures least { result.0 ≡ least_height width }
    ensures most { result.1 ≡ most_height width }
    ensures order { result.0 ≤ result.1 }
    ensures few { result.1 ≤ 4096 }
{
    if width == 0 { (0, 0) } else { (1, MOST_HEIGHT) }
}
