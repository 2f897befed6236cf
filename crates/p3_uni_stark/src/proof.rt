//! The values that a proof opens of one table.

use std::marker::Model;

/// The values of one table's columns at the drawn point, and at the point after it where a next row is declared
/// (`OpenedValues` of `p3-uni-stark`).
#[derive(Drop)]
pub struct OpenedValues<Challenge> {
    /// The main columns' values at the drawn point, one for each column.
    pub trace_local: Vec<Challenge>,
    /// The main columns' values at the next point, where a next row is declared.
    pub trace_next: Option<Vec<Challenge>>,
    /// The preprocessed columns' values, where there are such columns.
    pub preprocessed: Option<PreprocessedOpenedValues<Challenge>>,
    /// For each quotient chunk the values of its coefficient columns at the drawn point.
    pub quotient_chunks: Vec<Vec<Challenge>>,
    /// The random polynomials' values at the drawn point, where the backend commits to such.
    pub random: Option<Vec<Challenge>>,
}

impl<Challenge> Model for OpenedValues<Challenge> {
    ghost use Rattle.std.specs.Prelude.{map, option_map};
    ghost use Rattle.p3_uni_stark.specs.Opened.{OpenedData};

    ghost Value = { OpenedData Challenge };

    ghost view = { λ v. record {
      trace_local = v.trace_local.items;
      trace_next = option_map (λ x. x.items) v.trace_next;
      preprocessed = v.preprocessed;
      quotient_chunks = map (λ x. x.items) v.quotient_chunks.items;
      random = option_map (λ x. x.items) v.random;
    } };
}

/// The values of one table's preprocessed columns (`PreprocessedOpenedValues` of `p3-uni-stark`).
#[derive(Drop)]
pub struct PreprocessedOpenedValues<Challenge> {
    /// The values at the drawn point, one for each column.
    pub local: Vec<Challenge>,
    /// The values at the next point, where a next row is declared.
    pub next: Option<Vec<Challenge>>,
}

impl<Challenge> Model for PreprocessedOpenedValues<Challenge> {
    ghost use Rattle.std.specs.Prelude.{option_map};
    ghost use Rattle.p3_uni_stark.specs.Opened.{PreprocessedData};

    ghost Value = { PreprocessedData Challenge };

    ghost view = { λ v. record { local = v.local.items; next = option_map (λ x. x.items) v.next } };
}
