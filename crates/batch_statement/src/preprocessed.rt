//! The commitment to the preprocessed traces of a batch.

use p3_uni_stark::{Commitment, StarkGenericConfig};
use std::marker::Model;

/// What was committed of one table's preprocessed trace (`PreprocessedInstanceMeta` of `p3-batch-stark`).
#[derive(Clone, Drop)]
pub struct PreprocessedInstanceMeta {
    /// The trace's place among the committed matrices.
    pub matrix_index: usize,
    /// How many columns it has.
    pub width: usize,
    /// The table's degree bits: the logarithm of its height, and one more where the backend masks.
    pub degree_bits: usize,
}

/// One commitment to all preprocessed traces of a batch. A contract sees it as the record `PreprocessedTracesData`.
#[derive(Drop)]
pub struct PreprocessedTraces<Com> {
    /// The commitment: a matrix for each table that has preprocessed columns.
    pub commitment: Com,
    /// For each table what was committed of it: None where it has no preprocessed columns.
    pub instances: Vec<Option<PreprocessedInstanceMeta>>,
    /// For each committed matrix the number of its table.
    pub matrix_to_instance: Vec<usize>,
}

impl<Com> Model for PreprocessedTraces<Com> {
    ghost use Rattle.batch_statement.specs.Statement.{PreprocessedTracesData};

    ghost Value = { PreprocessedTracesData Com };

    ghost view = { λ g. record {
      commitment = g.commitment;
      instances = g.instances.items;
      matrix_to_instance = g.matrix_to_instance.items;
    } };
}

/// The commitment to the preprocessed traces over a configuration (`GlobalPreprocessed` of `p3-batch-stark`).
pub type GlobalPreprocessed<SC> = PreprocessedTraces<Commitment<SC>>;
