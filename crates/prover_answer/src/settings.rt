//! A configuration's prover, and the batches that it proves, as plain data.
ghost use Rattle.std.specs.Prelude.{List};
ghost use Rattle.p3_field.specs.Domain.{CosetData};
ghost use Rattle.p3_matrix.specs.Matrix.{Rows};
ghost use Rattle.commit_core.specs.Commitments.{IsCommitment};
ghost use Rattle.batch_setup.specs.Setup.{Instance};
ghost use Rattle.batch_statement.specs.Statement.{WrittenCommon};
ghost use Rattle.law_honest.specs.HonestProof.{Prover};
ghost use Rattle.prover_answer.specs.Backend.{ProverBackend};
ghost use Rattle.prover_answer.specs.Batch.{Batch, batch_of};

use air_core::{Air, BaseAir};
use batch_config::Settings;
use commit_core::{CosetPcs, Pcs, PolynomialSpace, UnivariateStarkPcs};
use p3_field::{
    BasedVectorSpace, ExtensionField, Field, FieldCore, PrimeCharacteristicRing, PrimeCore64,
    PrimeField64, RingCore, TwoAdicCore, TwoAdicField,
};
use p3_uni_stark::{StarkGenericConfig, Val};

/// A configuration's prover as plain data (not in Plonky3). Each configuration has it.
pub trait ProverSettings: StarkGenericConfig {
    // the inverses, the canonical numbers, and the backend's commitment to matrices on domains
    ghost prover: { Self → Prover Self.Val Self.Challenge Self.Pcs.Commitment };

    // this is what the backend gives where it commits to these matrices on these domains: a commitment with its prover data
    ghost commits_to: { Self → List (CosetData Self.Val × Rows Self.Val) → Self.Pcs.Commitment
        × Self.Pcs.ProverData → Type 0 };

    // the prover's side of the backend
    ghost prover_backend: { Self
        → ProverBackend Self.Challenger Self.Val Self.Challenge Self.Pcs.Commitment
        Self.Pcs.ProverData Self.Pcs.Proof Self.Pcs.ProverError };
}

impl<SC: StarkGenericConfig> ProverSettings for SC {
    ghost prover = { λ config.
        record {
          inverse = SC.Challenge.inv;
          canonical = SC.Val.canonical;
          commitment_of = SC.Pcs.commitment_of (SC.pcs_of config);
        } };

    ghost commits_to = { λ config es w.
        IsCommitment SC.Val.ring
        ⟦<<SC::Pcs as Pcs<SC::Challenge, SC::Challenger>>::Domain as PolynomialSpace>⟧.points
        ⟦<<SC::Pcs as Pcs<SC::Challenge, SC::Challenger>>::Domain as PolynomialSpace>⟧.point_at
        (SC.Pcs.commits (SC.pcs_of config)) (SC.Pcs.made (SC.pcs_of config))
        (SC.Pcs.holds (SC.pcs_of config)) es w };

    ghost prover_backend = { λ config. record {
      commit_fault = SC.Pcs.commit_fault (SC.pcs_of config);
      extension_fault = SC.Pcs.extension_fault (SC.pcs_of config);
      extends = SC.Pcs.extends (SC.pcs_of config);
      ldes_fault = SC.Pcs.ldes_fault (SC.pcs_of config);
      made = SC.Pcs.made (SC.pcs_of config);
      holds = SC.Pcs.holds (SC.pcs_of config);
      open_fault = SC.Pcs.open_fault (SC.pcs_of config);
      proves = SC.Pcs.proves (SC.pcs_of config);
      excludes = SC.Pcs.excludes (SC.pcs_of config);
    } };
}

/// The batches over a configuration as plain data (not in Plonky3). Each configuration has them, of AIRs over its field.
pub trait Batches<A>: StarkGenericConfig {
    // the batch of these instances with this common data
    ghost batch: { Self → List (Instance A Self.Val)
        → WrittenCommon Self.Val Self.Pcs.Commitment
        → Batch Self.Challenger Self.Val Self.Challenge Self.Pcs.Commitment };
}

impl<SC: StarkGenericConfig, A: Air<Val<SC>>> Batches<A> for SC {
    ghost batch = { λ config instances common.
        batch_of (⟦<SC as Settings>⟧.setting config) (⟦<SC as ProverSettings>⟧.prover config)
        A.declaration A.trees instances common };
}
