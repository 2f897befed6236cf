//! The counts of statement and proof, and what a proof has to have.
ghost use Rattle.std.specs.Prelude.{◌≡◌, ◌↔◌, IsTrue, All, map};
ghost use Rattle.std.specs.List.{list_any};
ghost use Rattle.p3_lookup.specs.Written.{read_all};
ghost use Rattle.batch_statement.specs.Statement.{Statement, read_common, stated};
ghost use Rattle.verifier_shape.specs.ShapeChecks.{HaveItemForEachTable, HasEntries, IsRandomized, count_checks, permutation_check};
ghost use Rattle.batch_statement.specs.Words.{has_some, is_there};
ghost use Rattle.batch_statement.specs.Verdict.{IsDecided};

use air_core::{Air, BaseAir};
use batch_statement::{
    BatchVerificationError, OpenedValuesWithLookups, PreprocessedTraces, SharedData, TablesProof,
};
use p3_field::{Field, FieldCore, RingCore};
use p3_lookup::{LookupError, Lookups};
use p3_uni_stark::{InvalidProofShapeError, VerificationError};

// Whether there is an entry for each table, where there are preprocessed traces.
fn has_entries<Com>(preprocessed: &Option<PreprocessedTraces<Com>>, tables: usize) -> bool
    ensures { IsTrue result ↔ HasEntries tables preprocessed.now }
{
    match preprocessed {
        None => true,
        Some(traces) => traces.instances.len() == tables,
    }
}

/// Whether each list of statement and proof has an item for each table, where there are preprocessed traces also their entries.
pub fn are_counted<F: Field, A: Air<F>, E, Com, Opening>(
    airs: &[A],
    public_values: &[Vec<F>],
    common: &SharedData<F, Com>,
    proof: &TablesProof<F, E, Com, Opening>,
) -> bool
    ensures { IsTrue result ↔ HaveItemForEachTable
        (stated A.declaration A.trees airs.now public_values.now common.now) proof.now }
{
    let tables = airs.len();
    let opened = &proof.opened_values;
    opened.instances.len() == tables
        && public_values.len() == tables
        && proof.degree_bits.len() == tables
        && proof.lookup_terminals.len() == tables
        && common.lookups.len() == tables
        && has_entries(&common.preprocessed, tables)
}

// Whether something random is opened of a table.
fn has_random<E>(opened: &OpenedValuesWithLookups<E>) -> bool
    ensures { result ≡ is_there opened.now.base.random }
{
    let base = &opened.base_opened_values;
    base.random.is_some()
}

// Whether something random is opened of each table exactly where the backend masks.
fn are_randomized<E>(instances: &[OpenedValuesWithLookups<E>], zk: bool) -> bool
    ensures { IsTrue result ↔ All (λ o. is_there o.base.random ≡ zk) instances.now }
{
    for opened in instances {
        if has_random(opened) != zk {
            return false;
        }
    }
    true
}

/// Whether what is random is there, of each table and as a commitment, exactly where the backend masks.
pub fn is_randomized<F, E, Com, Opening>(proof: &TablesProof<F, E, Com, Opening>, zk: bool) -> bool
    ensures { IsTrue result ↔ IsRandomized zk proof.now }
{
    are_randomized(proof.instances(), zk) && proof.commitments.random.is_some() == zk
}

/// The checks of a batch's counts, and of the presence of what is random: `InstanceCountMismatch` exactly where the numbers
/// of AIRs, public lists, opened tables, degree bits, terminals, lists of lookups, or (where there are preprocessed traces)
/// entries differ; else `RandomizationError` exactly where the presence of some random opening, or of the random
/// commitment, differs from `zk`.
#[tactic(auto, unfolding(p3_field::specs::Checks::NoneFails, p3_field::specs::Checks::FirstFails))]
pub fn check_counts<F: Field, A: Air<F>, E, Com, Opening, R>(
    airs: &[A],
    public_values: &[Vec<F>],
    common: &SharedData<F, Com>,
    proof: &TablesProof<F, E, Com, Opening>,
    zk: bool,
) -> Result<(), BatchVerificationError<R>>
    ensures { IsDecided (count_checks zk
        (stated A.declaration A.trees airs.now public_values.now common.now) proof.now) result }
{
    if !are_counted(airs, public_values, common, proof) {
        return Err(BatchVerificationError::Verification(VerificationError::InvalidProofShape(
            InvalidProofShapeError::InstanceCountMismatch,
        )));
    }
    if !is_randomized(proof, zk) {
        return Err(BatchVerificationError::Verification(VerificationError::RandomizationError));
    }
    Ok(())
}

// Whether a table has lookups.
fn has_lookups<F>(lookups: &Lookups<F>) -> bool
    ensures { result ≡ has_some (read_all lookups.now) }
{
    !lookups.as_slice().is_empty()
}

// Whether some table has lookups.
fn some_have_lookups<F>(lookups: &[Lookups<F>]) -> bool
    ensures { result ≡ list_any has_some (map read_all lookups.now) }
{
    for table in lookups {
        if has_lookups(table) {
            return true;
        }
    }
    false
}

/// The check of the presence of permutation columns: `CommitmentMismatch` exactly where their commitment is there though no
/// table has lookups, or isn't though some table has.
#[tactic(auto, unfolding(p3_field::specs::Checks::NoneFails, p3_field::specs::Checks::FirstFails))]
pub fn check_permutation<F: Field, A: Air<F>, E, Com, Opening, R>(
    airs: &[A],
    public_values: &[Vec<F>],
    common: &SharedData<F, Com>,
    proof: &TablesProof<F, E, Com, Opening>,
) -> Result<(), BatchVerificationError<R>>
    ensures { IsDecided (permutation_check
        (stated A.declaration A.trees airs.now public_values.now common.now) proof.now) result }
{
    if proof.commitments.permutation.is_some() != some_have_lookups(&common.lookups) {
        return Err(BatchVerificationError::Lookup(LookupError::CommitmentMismatch));
    }
    Ok(())
}
