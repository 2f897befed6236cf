//! The checks of what a batch proof's claims are made of: that there is a domain for each table's quotient, and that each preprocessed
//! matrix was committed for its table's height.
ghost use Rattle.std.specs.Prelude.{◌≡◌, ◌↔◌, ◌<◌, IsTrue, OnOk, All, Some, None, [], ◌∷◌, length, map};
ghost use Rattle.std.specs.Prelude.{slice_index_or as get_or};
ghost use Rattle.batch_statement.specs.Statement.{WellFormed, read_common, stated};
ghost use Rattle.batch_statement.specs.Words.{bits_at};
ghost use Rattle.verifier_batch.specs.OpeningChecks.{HasShapeFor, AreLogChunks};
ghost use Rattle.verifier_claims.specs.ClaimChecks.{HasDegreeBits, bits_listed, domain_by};
ghost use Rattle.audit_batch.specs.Asked.{always, in_order, of_each};
ghost use Rattle.audit_batch.specs.Audit.{parts_of};
ghost use Rattle.audit_batch.specs.Named.{AreNamedAfter};
ghost use Rattle.audit_batch.specs.Opened.{AreClaimsNamed, metadata_named};

use crate::naming::{name_answer, name_test};
use air_core::{Air, BaseAir};
use batch_config::Settings;
use batch_statement::{
    BatchProof, BatchVerificationError, CommonData, PreprocessedInstanceMeta, PreprocessedTraces,
};
use commit_core::{CosetPcs, Pcs, PolynomialSpace, UnivariateStarkPcs};
use p3_field::{
    BasedVectorSpace, ExtensionField, Field, FieldCore, Mem, PrimeCharacteristicRing, PrimeCore64,
    PrimeField64, RingCore, TwoAdicCore, TwoAdicField,
};
use p3_uni_stark::{InvalidProofShapeError, PcsError, StarkGenericConfig, Val, VerificationError};
use verifier_batch::shape_bounds;
use verifier_claims::{domain_fits, has_bits};

// Names each table whose quotient has no domain, where `chunks` has for each the logarithm of the number of its quotient's chunks.
fn name_domains<F: TwoAdicField, R: Drop>(
    faults: &mut Vec<BatchVerificationError<R>>,
    degree_bits: &[usize],
    chunks: &[usize],
    most: usize,
) -> Mem<()>
    requires { length chunks.now ≡ length degree_bits.now }
    ensures { OnOk result (AreNamedAfter faults.old.items
        (of_each (length degree_bits.now)
        (λ i. in_order (domain_by i (bits_at degree_bits.now i) (get_or chunks.now i 0) most
        F.TWO_ADICITY))) faults.new.items) }
{
    for index in 0..degree_bits.len() {
        let answer = domain_fits::<F, R>(index, degree_bits[index], chunks[index], most);
        name_answer(faults, answer)?;
    }
    Ok(())
}

// Whether a table's preprocessed matrix was committed for the proof's degree bits.
fn is_listed(
    entries: &[Option<PreprocessedInstanceMeta>],
    degree_bits: &[usize],
    table: usize,
) -> bool
    requires entries { table < length entries.now }
    requires bits { table < length degree_bits.now }
    ensures { IsTrue result ↔ HasDegreeBits (bits_at degree_bits.now table)
        (get_or entries.now table None) }
{
    has_bits(&entries[table], degree_bits[table])
}

// Names the table of each matrix that was committed for other degree bits.
fn name_listed<R: Drop>(
    faults: &mut Vec<BatchVerificationError<R>>,
    matrices: &[usize],
    entries: &[Option<PreprocessedInstanceMeta>],
    degree_bits: &[usize],
) -> Mem<()>
    requires listed { All (λ i. i < length degree_bits.now) matrices.now }
    requires entries { length entries.now ≡ length degree_bits.now }
    ensures { OnOk result (AreNamedAfter faults.old.items (of_each (length matrices.now)
        (λ m. always (bits_listed (get_or entries.now (get_or matrices.now m 0) None)
        degree_bits.now (get_or matrices.now m 0) ∷ []))) faults.new.items) }
{
    for matrix in 0..matrices.len() {
        let table = matrices[matrix];
        let other = InvalidProofShapeError::PreprocessedMetadataMismatch { air: table };
        let refusal = VerificationError::InvalidProofShape(other);
        let listed = is_listed(entries, degree_bits, table);
        name_test(
            faults,
            listed,
            BatchVerificationError::Verification(refusal),
        )?;
    }
    Ok(())
}

// The same of the preprocessed matrices, where there are such.
fn name_metadata<Com, R: Drop>(
    faults: &mut Vec<BatchVerificationError<R>>,
    traces: &PreprocessedTraces<Com>,
    degree_bits: &[usize],
) -> Mem<()>
    requires listed { All (λ i. i < length degree_bits.now) traces.now.matrix_to_instance }
    requires entries { length traces.now.instances ≡ length degree_bits.now }
    ensures { OnOk result (AreNamedAfter faults.old.items
        (metadata_named (Some traces.now) degree_bits.now) faults.new.items) }
{
    let matrices = &traces.matrix_to_instance;
    name_listed(faults, matrices, &traces.instances, degree_bits)?;
    Ok(())
}

/// Names the claims that can't be made: the tables whose quotients have no domain, then those whose preprocessed matrices were committed for other heights. The
/// proof's shape is right, and `chunks` has for each table the logarithm of the number of its quotient's chunks before masking.
pub(crate) fn name_claims<SC: StarkGenericConfig, A: Air<Val<SC>>>(
    faults: &mut Vec<BatchVerificationError<PcsError<SC>>>,
    config: &SC,
    airs: &[A],
    proof: &BatchProof<SC>,
    public_values: &[Vec<Val<SC>>],
    common: &CommonData<SC>,
    chunks: &[usize],
) -> Mem<()>
    requires formed { WellFormed (map A.declaration airs.now) (read_common common.now) }
    requires shape { HasShapeFor SC.Pcs.Error SC.Val.ring (⟦<SC as Settings>⟧.setting config.now)
        (stated A.declaration A.trees airs.now public_values.now common.now) proof.now }
    requires chunks { AreLogChunks (⟦<SC as Settings>⟧.setting config.now)
        (stated A.declaration A.trees airs.now public_values.now common.now) proof.now
        (length airs.now) chunks.now }
    ensures { let statement = stated A.declaration A.trees airs.now public_values.now common.now in
        OnOk result (AreClaimsNamed
        (parts_of (⟦<SC as Settings>⟧.setting config.now) (⟦<SC as Settings>⟧.backend config.now)
        statement proof.now) faults.old.items faults.new.items) }
{
    let most = shape_bounds(config).most;
    name_domains::<Val<SC>, PcsError<SC>>(faults, &proof.degree_bits, chunks, most)?;
    match &common.preprocessed {
        None => Ok(()),
        Some(traces) => {
            name_metadata(faults, traces, &proof.degree_bits)?;
            Ok(())
        }
    }
}
