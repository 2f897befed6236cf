//! The data that prover and verifier of a batch share.
ghost use Rattle.std.specs.Prelude.{◌≡◌, None, [], replicate, IfOk};

use crate::preprocessed::PreprocessedTraces;
use p3_field::{Field, FieldCore, Mem, RingCore};
use p3_lookup::Lookups;
use p3_uni_stark::{Commitment, StarkGenericConfig, Val};
use std::alloc::Global;
use std::marker::Model;

/// The data that prover and verifier of a batch share: the commitment to all preprocessed traces, and the lookups of each
/// table. A contract sees it as the record `WrittenCommon`.
#[derive(Drop)]
pub struct SharedData<F, Com> {
    /// The preprocessed traces: None where no table has any.
    pub preprocessed: Option<PreprocessedTraces<Com>>,
    /// The lookups of each table, in the order of the tables.
    pub lookups: Vec<Lookups<F>>,
}

impl<F, Com> Model for SharedData<F, Com> {
    ghost use Rattle.batch_statement.specs.Statement.{WrittenCommon};

    ghost Value = { WrittenCommon F Com };

    ghost view = { λ c. record { preprocessed = c.preprocessed; lookups = c.lookups.items } };
}

/// The data that prover and verifier share over a configuration (`CommonData` of `p3-batch-stark`).
pub type CommonData<SC> = SharedData<Val<SC>, Commitment<SC>>;

// So many empty lists of lookups.
fn empty_lookups<F: Field>(alloc: Global, n: usize) -> Mem<Vec<Lookups<F>>>
    ensures { IfOk result (λ v. v.items ≡ replicate n []) }
{
    let mut lookups = Vec::with_capacity(alloc, n)?;
    for _i in 0..n {
        lookups.push(Lookups::new(Vec::new(alloc)))?;
    }
    Ok(lookups)
}

impl<F, Com> SharedData<F, Com> {
    /// The data with these preprocessed traces and these lookups (`CommonData::new`).
    pub fn new(preprocessed: Option<PreprocessedTraces<Com>>, lookups: Vec<Lookups<F>>) -> Self
        ensures { result ≡ record { preprocessed = preprocessed; lookups = lookups.items } }
    {
        SharedData {
            preprocessed,
            lookups,
        }
    }
}

impl<F: Field, Com> SharedData<F, Com> {
    /// The data of so many tables without preprocessed columns and without lookups (`CommonData::empty`).
    pub fn empty(alloc: Global, n: usize) -> Mem<Self>
        ensures { IfOk result (λ c. c ≡ record { preprocessed = None; lookups = replicate n [] }) }
    {
        let lookups = empty_lookups(alloc, n)?;
        Ok(SharedData::new(None, lookups))
    }
}
