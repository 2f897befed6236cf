//! Periodic columns, which list one period of values and repeat it over all rows of a trace.
ghost use Rattle.std.specs.Prelude.{◌≡◌, ℕ, ◌+◌, ◌*◌, ◌/◌, ◌%◌, ◌<◌, ◌≤◌, ◌↔◌, Some, length, map, List, IsTrue, MatchResult, MatchOption, ⊤};
ghost use Rattle.std.specs.Int.{◌∣◌};
ghost use Rattle.std.specs.List.{All};
ghost use Rattle.commit_core.specs.Periodic.{IsPeriod, NamesFirstUnfit, IsGreatest};
ghost use Rattle.commit_core.specs.Laws.Periods.{all_periods_prop};

use p3_matrix::is_power_of_two;
use std::alloc::AllocError;
use thiserror::Error;

/// Why a periodic column can't be laid over a trace of a given height (`PeriodicColumnShapeError` of `p3-commit`).
#[derive(Clone, Debug, Drop, PartialEq, Eq, Error)]
pub enum PeriodicColumnShapeError {
    /// The length isn't a power of two, so no subgroup has that size.
    #[error("periodic column {index} has length {length}, which is not a power of two")]
    LengthNotPowerOfTwo {
        /// The column's place among all.
        index: usize,
        /// How many values the column lists.
        length: usize,
    },
    /// The length is a power of two, but whole copies don't fill the rows.
    #[error("periodic column {index} has length {length}, which does not divide the trace height {height}")]
    LengthNotDividingHeight {
        /// The column's place among all.
        index: usize,
        /// How many values the column lists.
        length: usize,
        /// How many rows there are to fill.
        height: usize,
    },
}

/// Periodic columns that were found to fit a number of rows: each has a power of two of values that divides the
/// number (`PeriodicColumns` of `p3-commit`).
pub struct PeriodicColumns<'a, F> {
    columns: &'a [Vec<F>],
    height: usize,
    ghost fit: { All (λ c. IsPeriod height (length c.items)) columns.now } by { all_periods_prop
        (λ c. length c.items) height columns.now },
}

impl<F> Clone for PeriodicColumns<'_, F> {
    ghost is_clone = { λ x y. y ≡ x };

    ghost is_infallible = { λ _. ⊤ };

    fn clone(&self) -> Result<Self, AllocError> {
        Ok(*self)
    }
}

impl<F> Copy for PeriodicColumns<'_, F> {}

impl<'a, F> PeriodicColumns<'a, F> {
    /// Screens columns, each of which lists one period, for a number of rows. Ok exactly where each column's length
    /// is a power of two, so not zero, and divides the height; every length divides height 0. Otherwise the error
    /// names the first column that doesn't fit.
    pub fn new(columns: &'a [Vec<F>], height: usize) -> Result<Self, PeriodicColumnShapeError>
        ensures { MatchResult result
            (λ p. (p.columns.now ≡ columns.now) × (p.height ≡ height)
            × All (λ c. IsPeriod height (length c.items)) columns.now)
            (NamesFirstUnfit height (map (λ c. length c.items) columns.now)) }
    {
        for (index, column) in columns.iter().enumerate() {
            let length = column.len();
            if !is_power_of_two(length) {
                return Err(PeriodicColumnShapeError::LengthNotPowerOfTwo { index, length });
            }
            let rest = height % length;
            if rest != 0 {
                return Err(PeriodicColumnShapeError::LengthNotDividingHeight {
                    index,
                    length,
                    height,
                });
            }
        }
        Ok(PeriodicColumns { columns, height })
    }

    /// The columns, in order.
    pub fn as_slice(&self) -> &'a [Vec<F>]
        ensures { result.now ≡ self.now.columns.now }
    {
        self.columns
    }

    /// The number of rows that the columns fit.
    pub fn height(&self) -> usize
        ensures { result ≡ self.now.height }
    {
        self.height
    }

    /// How many columns there are.
    pub fn len(&self) -> usize
        ensures { result ≡ length self.now.columns.now }
    {
        self.columns.len()
    }

    /// Whether there is no column.
    pub fn is_empty(&self) -> bool
        ensures { IsTrue result ↔ (length self.now.columns.now ≡ 0) }
    {
        self.columns.is_empty()
    }

    /// The greatest length of all columns, which each other length divides, and None exactly where there is no
    /// column.
    pub fn max_period(&self) -> Option<usize>
        ensures greatest { MatchOption result (length self.now.columns.now ≡ 0)
            (IsGreatest (map (λ c. length c.items) self.now.columns.now)) }
        ensures divided { (n : ℕ) → result ≡ Some n
            → All (λ c. length c.items ∣ n) self.now.columns.now }
    {
        greatest_length(self.columns)
    }
}

// The greatest length, where there is a column.
fn greatest_length<F>(columns: &[Vec<F>]) -> Option<usize>
    ensures { MatchOption result (length columns.now ≡ 0)
        (IsGreatest (map (λ c. length c.items) columns.now)) }
{
    columns.iter().map(|column| column.len()).max()
}
