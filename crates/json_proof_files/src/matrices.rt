//! The trees of matrices.

ghost use Rattle.std.specs.Prelude.{◌≡◌, ⊤};
ghost use Rattle.json_proof_files.specs.MatrixTrees.{fills as are_filled};

use json_forms::{JsonForm, ListOf, NumberIn, ObjectReader, ObjectWriter, TreeError};
use p3_field::{BabyBear, Mem};
use p3_matrix::RowMajorMatrix;
use serde_json::Value;
use std::alloc::Global;

/// At most 67108864 elements, as many as 4096 rows of 16384 columns have.
type Elements = ListOf<BabyBear, 0, 67108864>;

/// At most 4096 rows.
type Height = NumberIn<0, 4096>;

/// At most 16384 columns.
type Width = NumberIn<0, 16384>;

// Whether so many values fill so many rows of so many columns, of which there are both or neither.
fn fills(rows: usize, count: usize, columns: usize) -> bool
    ensures { result ≡ are_filled rows count columns }
{
    columns as u128 * rows as u128 == count as u128
        && if rows == 0 {
            columns == 0
        } else {
            columns != 0
        }
}

/// The form of a matrix: an object of its height, its elements row by row, and its width.
///
/// The width is at most 16384 and the height at most 4096. The height is 0 exactly where the width is.
pub struct MatrixForm;

impl JsonForm for MatrixForm {
    type Value = RowMajorMatrix<BabyBear>;

    ghost use Rattle.p3_field.specs.declared.baby_bear.BabyBear.{BabyBear as Element};
    ghost use Rattle.p3_matrix.specs.Matrix.{Rows};
    ghost use Rattle.tool_proof_text.specs.Matrices.{MatrixWithin};
    ghost use Rattle.json_proof_files.specs.MatrixTrees.{matrix_reading, matrix_tree};
    ghost use Rattle.json_proof_files.specs.Laws.MatrixForms.{matrix-form};

    ghost Data = { Rows Element };

    ghost data_of = { λ m. m };

    ghost within = { MatrixWithin };

    ghost tree = { matrix_tree };

    ghost reading = { matrix_reading };

    ghost allocates = { ⊤ };

    ghost form = { matrix-form };

    fn read(alloc: Global, json: &Value) -> Result<RowMajorMatrix<BabyBear>, TreeError> {
        let mut members = ObjectReader::new(json)?;
        let height = members.read::<Height>(alloc, "height")?;
        let values = members.read::<Elements>(alloc, "values")?;
        let width = members.read::<Width>(alloc, "width")?;
        members.end()?;
        if !fills(height, values.len(), width) {
            return Err(TreeError::NoTree);
        }
        Ok(RowMajorMatrix::new(values, width))
    }

    fn write(alloc: Global, value: &RowMajorMatrix<BabyBear>) -> Mem<Value> {
        let mut members = ObjectWriter::new(alloc);
        members.write::<Height>(alloc, "height", &value.height())?;
        members.write::<Elements>(alloc, "values", &value.values)?;
        members.write::<Width>(alloc, "width", &value.width())?;
        Ok(members.end())
    }
}
