//! The folds of a table's constraints, those of its lookups among them, from the laws of builders alone.
ghost use Rattle.std.specs.Prelude.{◌≡◌, ◌*◌, ◌<◌, ◌≤◌, length, map};
ghost use Rattle.air_core.specs.Shape.{Fits, declared_shape};
ghost use Rattle.air_core.specs.Tree.{eval_tree};
ghost use Rattle.p3_lookup.specs.Written.{read_all};
ghost use Rattle.p3_uni_stark.specs.Fold.{fold};
ghost use Rattle.batch_constraints.specs.BatchTrees.{AreLookupsOf, table_trees};
ghost use Rattle.verifier_folder.specs.FolderState.{all_opened, reading_of, verifier_shape_of};

use crate::verifier_folder::VerifierFolderWithLookups;
use air_core::{Air, BaseAir};
use p3_field::{ExtensionField, Field, FieldCore, PrimeCharacteristicRing, RingCore};
use p3_lookup::{Lookup, LookupProtocol};
use p3_uni_stark::{Challenge, StarkGenericConfig, Val};

/// A verifier's folder over a configuration's fields (`VerifierConstraintFolderWithLookups` of `p3-batch-stark`).
pub type VerifierConstraintFolderWithLookups<'a, SC> = VerifierFolderWithLookups<
    'a,
    Val<SC>,
    Challenge<SC>,
>;

/// The fold of a table's constraints, the AIR's and after them those of its lookups, by the folder's challenge, at what
/// the folder reads.
///
/// The accumulator is zero, and the folder has all cells that the AIR declares. The lookups read only what the AIR may
/// send. Where there are lookups, both permutation rows have a column for the running sum and one for each lookup, and
/// there is a terminal. There are two challenges for each lookup.
pub fn verifier_fold_with_lookups<F: Field, E: ExtensionField<F>, A: Air<F>, LG: LookupProtocol>(
    air: &A,
    lookups: &[Lookup<F>],
    lookup_gadget: &LG,
    folder: VerifierFolderWithLookups<'_, F, E>,
) -> E
    requires zero { folder.inner.accumulator ≡ E.ring.zero }
    requires declared { Fits (declared_shape (A.declaration air.now))
        (verifier_shape_of (all_opened folder)) }
    requires lookups { AreLookupsOf (A.declaration air.now) (read_all lookups.now) }
    requires columns { 0 < length lookups.now
        → length lookups.now < (verifier_shape_of (all_opened folder)).permutation }
    requires challenges { 2 * length lookups.now ≤ length folder.permutation_challenges.now }
    requires terminals { 0 < length lookups.now → 0 < length folder.permutation_values.now }
    ensures { result ≡ fold E.ring folder.entry.inner.alpha
        (map (eval_tree (reading_of E.ring E.embed (all_opened folder.entry)))
        (table_trees F.ring (A.trees air.now) (read_all lookups.now))) }
{
    let mut folder = folder;
    match lookup_gadget.eval_air_and_lookups(air, &mut folder, lookups) {
        Ok(()) => folder.inner.accumulator,
        Err(_) => unreachable!(),
    }
}
