//! A configuration of a batch's prover and verifier as plain data, and the domains of its tables.
//!
//! The definitions that contracts cite are in `specs/`: the configuration (`Setting`) and the domains (`Domains`). Nothing is computed here.
#![tactic(auto)]

ghost use Rattle.batch_config.specs.Setting.{Setting, Backend};

use batch_transcript::BatchChallenger;
use commit_core::{CosetPcs, Pcs, PolynomialSpace, UnivariateStarkPcs};
use p3_challenger::{CanObserve, CanSample, CanSampleBits, GrindingChallenger};
use p3_field::{
    BasedVectorSpace, ExtensionField, Field, FieldCore, PrimeCharacteristicRing, PrimeCore64,
    PrimeField64, RingCore, TwoAdicCore, TwoAdicField,
};
use p3_uni_stark::{Commitment, StarkGenericConfig};

/// A configuration as plain data (not in Plonky3). Each configuration has it.
pub trait Settings: StarkGenericConfig {
    // the fields, the challenger, the backend's bounds, the bits of grinding, and the transcript's version
    ghost setting: { Self → Setting Self.Challenger Self.Val Self.Challenge Self.Pcs.Commitment };

    // the backend's verifier
    ghost backend: { Self → Backend Self.Challenger Self.Val Self.Challenge Self.Pcs.Commitment
        Self.Pcs.Proof Self.Pcs.Error };
}

impl<SC: StarkGenericConfig> Settings for SC {
    ghost setting = { λ config. record {
      field = record {
        ring = SC.Val.ring;
        inv = SC.Val.inv;
        root = SC.Val.root;
        generator = SC.Val.GENERATOR;
      };
      two_adicity = SC.Val.TWO_ADICITY;
      order = SC.Val.ORDER_U64;
      extension = record {
        ring = SC.Challenge.ring;
        embed = SC.Challenge.embed;
        dimension = SC.Challenge.DIMENSION;
        basis = SC.Challenge.basis;
        coefficients = SC.Challenge.coefficients;
        from_coefficients = SC.Challenge.from_coefficients;
      };
      challenger =
          ⟦<SC::Challenger as BatchChallenger<SC::Val, SC::Challenge, Commitment<SC>>>⟧.functions;
      initial = SC.initial_of config;
      zk = SC.Pcs.ZK;
      log_min = SC.Pcs.log_min (SC.pcs_of config);
      log_max = SC.Pcs.log_max (SC.pcs_of config);
      lookup_bits = SC.lookup_bits config;
      ood_bits = SC.ood_bits config;
      version = SC.version config;
    } };

    ghost backend = { λ config.
        record {
          opens = SC.Pcs.opens (SC.pcs_of config);
          fault = SC.Pcs.fault (SC.pcs_of config);
        } };
}
