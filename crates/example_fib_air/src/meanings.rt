//! What the constraints mean: a law as the contract of a function that computes nothing.
ghost use Rattle.example_fib_air.specs.Fib.{FibMeans, FibMeets};

use p3_field::{Field, FieldCore, RingCore};

/// Rows that meet the equations of [`crate::FibAir`] with the public values a and x, n of them, show that x is number n of the sequence that
/// starts with a and a (`means`); and the rows of the trace meet them with that number (`meets`).
pub fn fib_rows_mean<F: Field>()
    ensures means { FibMeans F.ring }
    ensures meets { FibMeets F.ring }
{}
