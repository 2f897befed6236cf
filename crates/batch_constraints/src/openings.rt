//! How many values a table with lookups opens.
ghost use Rattle.std.specs.Prelude.{◌≡◌, ◌+◌, ◌*◌, ◌<◌, ◌^◌};
ghost use Rattle.p3_uni_stark.specs.Shape.{powers};
ghost use Rattle.batch_constraints.specs.Openings.{column_openings, batched_count};

use p3_uni_stark::{OpeningShape, num_batched_openings as num_own_openings};

// How many coefficients of the permutation columns are opened.
fn count_of_columns(num_lookups: usize, dimension: usize) -> usize
    requires { column_openings num_lookups dimension < 2 ^ 64 }
    ensures { result ≡ column_openings num_lookups dimension }
{
    if num_lookups == 0 || dimension == 0 {
        return 0;
    }
    2 * (num_lookups + 1) * dimension
}

/// How many powers of its challenge a backend takes for the values that a table opens: those without lookups, the main row
/// and the preprocessed row, each again where its next row is declared, and the quotient chunks' coefficients; and, where
/// there are lookups, the coefficients of the permutation columns, one for the running sum and one for each lookup, in
/// this row and in the next. A backend over the circle takes two powers for a value (`num_batched_openings` of
/// `p3-batch-stark`). The number must fit a `usize`.
pub fn num_batched_openings(
    main_width: usize,
    main_next: bool,
    preprocessed_width: usize,
    preprocessed_next: bool,
    num_quotient_chunks: usize,
    num_lookups: usize,
    challenge_dimension: usize,
    openings: OpeningShape,
) -> usize
    requires fits { batched_count main_width main_next preprocessed_width preprocessed_next
        num_quotient_chunks num_lookups challenge_dimension * powers openings < 2 ^ 64 }
    ensures { result ≡ batched_count main_width main_next preprocessed_width preprocessed_next
        num_quotient_chunks num_lookups challenge_dimension * powers openings }
{
    let own = num_own_openings(
        main_width,
        main_next,
        preprocessed_width,
        preprocessed_next,
        num_quotient_chunks,
        challenge_dimension,
        openings,
    );
    let columns = count_of_columns(num_lookups, challenge_dimension);
    match openings {
        OpeningShape::Univariate => own + columns,
        OpeningShape::Circle => own + columns * 2,
    }
}
