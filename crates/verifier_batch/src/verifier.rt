//! Whether a batch proof is accepted.
ghost use Rattle.std.specs.Prelude.{◌≡◌, map, IfErr};
ghost use Rattle.batch_statement.specs.Statement.{WellFormed, read_common, stated};
ghost use Rattle.verifier_shape.specs.ShapeChecks.{HasRightCounts};
ghost use Rattle.batch_statement.specs.Verdict.{IsVerdict};
ghost use Rattle.verifier_batch.specs.BatchChecks.{checks};

use crate::check_openings;
use crate::parts::{check_batch_draws, check_batch_identities, check_batch_shape};
use air_core::{Air, BaseAir};
use batch_config::Settings;
use batch_statement::{BatchProof, BatchVerificationError, CommonData};
use commit_core::{CosetPcs, Pcs, PolynomialSpace, UnivariateStarkPcs};
use p3_field::{
    BasedVectorSpace, ExtensionField, Field, FieldCore, PrimeCharacteristicRing, PrimeCore64,
    PrimeField64, RingCore, TwoAdicCore, TwoAdicField,
};
use p3_uni_stark::{PcsError, StarkGenericConfig, Val};
use std::alloc::Global;
use verifier_draws::Drawn;
use verifier_identity::check_terminals;

/// Whether a batch proof is accepted for these tables, their public values and the data that is shared (`verify_batch` of
/// `p3-batch-stark`): Ok exactly where no check of `checks` fails, and else the refusal of the first that does, with its fields
/// (`verdict`).
///
/// The checks, in order, and what they are refused with:
///
/// - the counts of statement and proof: `InstanceCountMismatch`; the presence of what is random: `RandomizationError`;
/// - table by table its size: `DegreeBitsTooSmall`, `DegreeBitsTooLarge`, `QuotientDomainTooLarge`;
/// - bus by bus what may be sent on it: `MultiplicityBound`;
/// - table by table what is opened. The main rows: `PublicValuesLengthMismatch`, `TraceLocalWidthMismatch`, `TraceNextMismatch` or
///   `UnexpectedTraceNext`; the chunks, and what is random: `QuotientChunksCountMismatch`, `QuotientChunkDimensionMismatch`,
///   `RandomizationError`; preprocessed rows: `UnexpectedPreprocessedValues`, or `PreprocessedWidthMismatch` and
///   `UnexpectedPreprocessedNext`; permutation rows and the terminal: `PermutationWidthMismatch`, `TerminalPresenceMismatch`;
/// - that permutation columns are committed to exactly where there are lookups: `CommitmentMismatch`;
/// - the grinding values, at the challenges that are drawn again from statement and proof. Before the lookups' challenges:
///   `UnexpectedLookupPowWitness`, or `MissingLookupPowWitness`, `NonCanonicalLookupPowWitness`, `LookupPowWitness`; before zeta:
///   `NonCanonicalOodPowWitness`, `OodPowWitness`;
/// - table by table the domain of its quotient: `QuotientDomainTooLarge`; matrix by matrix the height of what is preprocessed:
///   `PreprocessedMetadataMismatch`;
/// - that the backend opens what the proof claims of its commitments: `InvalidOpeningArgument`, with the backend's first fault;
/// - table by table its periodic columns: `PeriodicColumn`; that zeta isn't in the table's domain: `OodPointInDomain`; the identity of
///   its constraints at zeta: `OodEvaluationMismatch`;
/// - the terminals' sum: `TerminalSum`.
///
/// Out of memory may come in place of any answer, but only where the first two checks hold (`memory`).
///
/// The tables' heights are the proof's own degree bits: a caller that expects heights compares `degree_bits` with them.
///
/// The shared data is well-formed for the AIRs (test: `fits`). Nothing is asked of the proof: whatever its lists' lengths and
/// numbers are, there is an answer.
pub fn verify_batch<SC: StarkGenericConfig, A: Air<Val<SC>>>(
    alloc: Global,
    config: &SC,
    airs: &[A],
    proof: &BatchProof<SC>,
    public_values: &[Vec<Val<SC>>],
    common: &CommonData<SC>,
) -> Result<(), BatchVerificationError<PcsError<SC>>>
    requires { WellFormed (map A.declaration airs.now) (read_common common.now) }
    ensures verdict { IsVerdict
        (checks (⟦<SC as Settings>⟧.setting config.now) (⟦<SC as Settings>⟧.backend config.now)
        (stated A.declaration A.trees airs.now public_values.now common.now) proof.now) result }
    ensures memory { IfErr result (λ e. e ≡ BatchVerificationError.OutOfMemory
        → HasRightCounts SC.Pcs.Error SC.Pcs.ZK
        (stated A.declaration A.trees airs.now public_values.now common.now) proof.now) }
{
    let chunks = check_batch_shape(alloc, config, airs, proof, public_values, common)?;
    let Drawn {
        challenges,
        alpha,
        zeta,
        challenger,
    } = check_batch_draws(alloc, config, airs, proof, public_values, common)?;
    let domains = check_openings(
        alloc,
        config,
        airs,
        public_values,
        common,
        proof,
        &chunks,
        zeta,
        challenger,
    )?;
    check_batch_identities(
        alloc,
        config,
        airs,
        proof,
        public_values,
        common,
        &challenges,
        &domains,
        alpha,
        zeta,
    )?;
    check_terminals(proof)
}
