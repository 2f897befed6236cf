//! That a job has one answer, and that the plain scheme refuses no prover of a traced batch: laws as the contracts of functions that compute
//! nothing.
ghost use Rattle.std.specs.Prelude.{◌≡◌, ◌+◌, ◌≤◌, List, false, ℕ};
ghost use Rattle.commit_core.specs.Failure.{NoneOf};
ghost use Rattle.p3_field.specs.Field.{Extension, TwoAdic};
ghost use Rattle.p3_field.specs.declared.baby_bear.BabyBear.{BabyBear};
ghost use Rattle.p3_lookup.specs.Bound.{HaveLoadsBelow};
ghost use Rattle.plain_pcs.specs.Scheme.{PlainCommitmentData};
ghost use Rattle.batch_config.specs.Setting.{masks};
ghost use Rattle.batch_setup.specs.declared.error.ProverPhase.{ProverPhase};
ghost use Rattle.verifier_shape.specs.ShapeChecks.{heights_of};
ghost use Rattle.law_soundness.specs.PlainSetting.{IsOverFields, plain_scheme};
ghost use Rattle.prover_answer.specs.Batch.{Batch, IsTracedAll, table_count};
ghost use Rattle.prover_answer.specs.PlainBackend.{plain_prover_backend};
ghost use Rattle.prover_answer.specs.Telling.{IsOverloaded, PhaseTells};
ghost use Rattle.transcript_version.specs.declared.TranscriptVersion.{TranscriptVersion};
ghost use Rattle.tool_prover.specs.JobAnswer.{IsJobAnswer};
ghost use Rattle.law_tool_valid.specs.Job.{JobTable};
ghost use Rattle.tool_verifier.specs.FileAnswer.{SameAnswer};
ghost use Rattle.tool_verifier.specs.declared.status.Status.{Status};

use law_committed::fields::fields_have_laws;
use p3_field::{
    BasedVectorSpace, ExtensionField, Field, FieldCore, PrimeCharacteristicRing, RingCore,
    TwoAdicCore, TwoAdicField,
};

/// A version and a job have at most one answer: one status, and one text.
pub fn there_is_one_answer()
    ensures { (version : TranscriptVersion) (job : List (JobTable BabyBear)) (s t : Status)
        (x y : List ℕ) → IsJobAnswer version job s x → IsJobAnswer version job t y
        → SameAnswer s t x y }
{}

/// The plain scheme refuses nothing that a prover of a traced batch asks of it (not in Plonky3), in no phase (`granted`): over any
/// fields, where the configuration doesn't mask, and where the field has subgroups for the extensions of traces of each height that the
/// configuration allows. Where no bus may carry counts that add up to the order of the field, none is refused for that (`bounded`). So
/// of the refusals of such a batch (`Tells`) two are left: a denominator is zero, or no element passes a grinding.
pub fn traced_batches_are_granted<S, F: TwoAdicField, E: ExtensionField<F>>()
    ensures granted { let f : TwoAdic
        F = record { ring = F.ring; inv = F.inv; root = F.root; generator = F.GENERATOR } in
        let e : Extension F E = record {
          ring = E.ring;
          embed = E.embed;
          dimension = E.DIMENSION;
          basis = E.basis;
          coefficients = E.coefficients;
          from_coefficients = E.from_coefficients;
        } in
        (b : Batch S F E (PlainCommitmentData F)) (log_blowup : ℕ)
        → IsOverFields f e F.TWO_ADICITY b.setting → b.setting.zk ≡ false
        → b.setting.log_max + log_blowup ≤ b.setting.two_adicity → IsTracedAll b
        → (phase : ProverPhase) → NoneOf
        (PhaseTells (plain_prover_backend (plain_scheme b.setting log_blowup)) b phase) }
    ensures bounded { (b : Batch S F E (PlainCommitmentData F)) (log_blowup : ℕ)
        → HaveLoadsBelow b.setting.order b.statement.common.lookups
        (heights_of (masks b.setting) b.degree_bits (table_count b))
        → NoneOf (IsOverloaded (plain_prover_backend (plain_scheme b.setting log_blowup)) b) }
{
    fields_have_laws::<F, E>();
}
