//! The places of a proof's opened rounds, and how many values it opens.
ghost use Rattle.std.specs.Prelude.{◌≡◌, ◌*◌, ◌<◌, ◌^◌, cond};
ghost use Rattle.p3_uni_stark.specs.Shape.{opened_count, row_openings, powers};
ghost use Rattle.p3_uni_stark.specs.declared.openings.OpeningShape.TheVariants.{Univariate};

/// The places of the commitments among the opened rounds (`StarkOpeningLayout` of `p3-uni-stark`). A hiding backend's
/// random commitment is opened first.
#[derive(Drop)]
pub struct StarkOpeningLayout {
    /// The main trace's place.
    pub trace: usize,
    /// The quotient chunks' place.
    pub quotient: usize,
    /// The preprocessed trace's place.
    pub preprocessed: usize,
}

impl StarkOpeningLayout {
    /// The layout for a backend that hides, or for one that doesn't.
    pub fn new(zk: bool) -> Self
        ensures { result ≡ cond zk (record { trace = 1; quotient = 2; preprocessed = 3 })
            (record { trace = 0; quotient = 1; preprocessed = 2 }) }
    {
        if zk {
            StarkOpeningLayout {
                trace: 1,
                quotient: 2,
                preprocessed: 3,
            }
        } else {
            StarkOpeningLayout {
                trace: 0,
                quotient: 1,
                preprocessed: 2,
            }
        }
    }
}

/// How many powers of its challenge a backend takes for an opened value (`OpeningShape` of `p3-uni-stark`).
#[derive(Clone, Copy)]
pub enum OpeningShape {
    /// One power: a univariate backend.
    Univariate,
    /// Two powers: a backend over the circle.
    Circle,
}

impl OpeningShape {
    /// The shape of a univariate backend.
    pub fn new() -> Self
        ensures { result ≡ Univariate }
    {
        OpeningShape::Univariate
    }

    // How many powers an opened value takes.
    fn powers_per_opening(self) -> usize
        ensures { result ≡ powers self }
    {
        match self {
            OpeningShape::Univariate => 1,
            OpeningShape::Circle => 2,
        }
    }
}

// How many values of a row are opened: all once, and again where its next row is declared.
fn count_of_row(width: usize, next: bool) -> usize
    requires { row_openings width next < 2 ^ 64 }
    ensures { result ≡ row_openings width next }
{
    if next { width * 2 } else { width }
}

/// How many powers of its challenge a backend takes for the values that a table without lookups opens: the main row
/// and the preprocessed row, each again where its next row is declared, and the quotient chunks' coefficients. A
/// backend over the circle takes two powers for a value (`num_batched_openings` of `p3-uni-stark`). The number must
/// fit a `usize`.
pub fn num_batched_openings(
    main_width: usize,
    main_next: bool,
    preprocessed_width: usize,
    preprocessed_next: bool,
    num_quotient_chunks: usize,
    challenge_dimension: usize,
    openings: OpeningShape,
) -> usize
    requires fits { opened_count main_width main_next preprocessed_width preprocessed_next
        num_quotient_chunks challenge_dimension * powers openings < 2 ^ 64 }
    ensures { result ≡ opened_count main_width main_next preprocessed_width preprocessed_next
        num_quotient_chunks challenge_dimension * powers openings }
{
    let rows = count_of_row(main_width, main_next)
        + count_of_row(preprocessed_width, preprocessed_next);
    (rows + num_quotient_chunks * challenge_dimension) * openings.powers_per_opening()
}
