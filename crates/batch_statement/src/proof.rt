//! A batch proof.
ghost use Rattle.std.specs.Prelude.{◌≡◌, map, option_map};

use crate::commitments::BatchCommitments;
use p3_lookup::LookupTerminal;
use p3_uni_stark::{Challenge, Commitment, OpenedValues, PcsProof, StarkGenericConfig, Val};
use std::marker::Model;

/// The values that are opened of one table of a batch (`OpenedValuesWithLookups` of `p3-batch-stark`). A contract sees them
/// as the record `OpenedWithLookups`.
#[derive(Drop)]
pub struct OpenedValuesWithLookups<Challenge> {
    /// What a proof of the table alone would open.
    pub base_opened_values: OpenedValues<Challenge>,
    /// The values of the flattened permutation columns at the drawn point.
    pub permutation_local: Vec<Challenge>,
    /// Their values at the next point.
    pub permutation_next: Vec<Challenge>,
}

impl<Challenge> Model for OpenedValuesWithLookups<Challenge> {
    ghost use Rattle.batch_statement.specs.Proof.{OpenedWithLookups};

    ghost Value = { OpenedWithLookups Challenge };

    ghost view = { λ o. record {
      base = o.base_opened_values;
      permutation_local = o.permutation_local.items;
      permutation_next = o.permutation_next.items;
    } };
}

/// The values that are opened of each table of a batch (`BatchOpenedValues` of `p3-batch-stark`). A contract sees them as a
/// list.
#[derive(Drop)]
pub struct BatchOpenedValues<Challenge> {
    /// The tables' values, in the order of the tables.
    pub instances: Vec<OpenedValuesWithLookups<Challenge>>,
}

impl<Challenge> Model for BatchOpenedValues<Challenge> {
    ghost use Rattle.std.specs.Prelude.{List};
    ghost use Rattle.batch_statement.specs.Proof.{OpenedWithLookups};

    ghost Value = { List (OpenedWithLookups Challenge) };

    ghost view = { λ o. o.instances.items };
}

/// A proof of the tables of a batch, over these fields, with commitments and an opening proof of these types. A contract sees
/// it as the record `ProofData`.
#[derive(Drop)]
pub struct TablesProof<F, E, Com, Opening> {
    /// The commitments.
    pub commitments: BatchCommitments<Com>,
    /// The values that are opened of each table.
    pub opened_values: BatchOpenedValues<E>,
    /// The backend's proof that the committed polynomials have these values.
    pub opening_proof: Opening,
    /// For each table the value with which its running sum ends: None where it has no lookups.
    pub lookup_terminals: Vec<Option<LookupTerminal<E>>>,
    /// For each table the logarithm of its height, and one more where the backend masks.
    pub degree_bits: Vec<usize>,
    /// The grinding value before the lookups' challenges: None where no table has lookups.
    pub lookup_pow_witness: Option<F>,
    /// The grinding value before the point is drawn.
    pub ood_pow_witness: F,
}

impl<F, E, Com, Opening> Model for TablesProof<F, E, Com, Opening> {
    ghost use Rattle.std.specs.Prelude.{map, option_map};
    ghost use Rattle.batch_statement.specs.Proof.{ProofData};

    ghost Value = { ProofData F E Com Opening };

    ghost view = { λ p. record {
      commitments = p.commitments;
      instances = p.opened_values;
      opening_proof = p.opening_proof;
      lookup_terminals = map (option_map (λ t. t.0)) p.lookup_terminals.items;
      degree_bits = p.degree_bits.items;
      lookup_pow_witness = p.lookup_pow_witness;
      ood_pow_witness = p.ood_pow_witness;
    } };
}

impl<F, E, Com, Opening> TablesProof<F, E, Com, Opening> {
    /// The values that are opened of each table (not in Plonky3).
    pub fn instances(&self) -> &[OpenedValuesWithLookups<E>]
        ensures { result.now ≡ self.now.instances }
    {
        let opened = &self.opened_values;
        &opened.instances
    }

    /// The terminals of the tables (not in Plonky3).
    pub fn terminals(&self) -> &[Option<LookupTerminal<E>>]
        ensures { map (option_map (λ t. t.0)) result.now ≡ self.now.lookup_terminals }
    {
        &self.lookup_terminals
    }
}

/// A batch proof over a configuration (`BatchProof` of `p3-batch-stark`).
pub type BatchProof<SC> = TablesProof<Val<SC>, Challenge<SC>, Commitment<SC>, PcsProof<SC>>;
