//! The fold of a table's constraints, from the laws of builders alone.
ghost use Rattle.std.specs.Prelude.{◌≡◌, ◌*◌, ◌<◌, ◌≤◌, length, map};
ghost use Rattle.air_core.specs.CellValues.{reading_at};
ghost use Rattle.air_core.specs.Shape.{Fits, declared_shape};
ghost use Rattle.air_core.specs.Tree.{eval_tree};
ghost use Rattle.p3_lookup.specs.Written.{read, read_all};
ghost use Rattle.p3_uni_stark.specs.Fold.{fold, fold_powers, weighed};
ghost use Rattle.batch_constraints.specs.BatchTrees.{table_trees, AreLookupsOf};
ghost use Rattle.prover_folder.specs.FolderState.{prover_cells_of, prover_shape_of};

use crate::folder::ProverFolderWithLookups;
use air_core::{Air, BaseAir};
use p3_field::{ExtensionField, Field, FieldCore, PrimeCharacteristicRing, RingCore};
use p3_lookup::{Lookup, LookupProtocol};
use p3_uni_stark::{Challenge, StarkGenericConfig, Val};

/// A prover's folder with lookups over a configuration's fields (`ProverConstraintFolderWithLookups` of
/// `p3-batch-stark`).
pub type ProverConstraintFolderWithLookups<'a, SC> = ProverFolderWithLookups<
    'a,
    Val<SC>,
    Challenge<SC>,
>;

/// The sum of a table's constraints, the AIR's and after them those of its lookups, each times the power that the folder
/// lists at its place; one past the last power adds nothing (not in Plonky3). Where these are a challenge's powers in
/// order, one for each constraint, it is the fold by the challenge.
///
/// The accumulator is zero, no power is taken yet, and the folder has all cells that the AIR declares. The lookups read
/// constants and what the AIR may send. Where there are lookups, the folder has in both rows a permutation column for the
/// running sum and one for each lookup, two challenges for each, and the terminal.
pub fn prover_fold_with_lookups<F: Field, E: ExtensionField<F>, A: Air<F>, LG: LookupProtocol>(
    air: &A,
    lookups: &[Lookup<F>],
    lookup_gadget: &LG,
    folder: ProverFolderWithLookups<'_, F, E>,
) -> E
    requires zero { folder.inner.accumulator ≡ E.ring.zero }
    requires first { folder.inner.constraint_index ≡ 0 }
    requires declared { Fits (declared_shape (A.declaration air.now)) (prover_shape_of folder) }
    requires lookups { AreLookupsOf (A.declaration air.now) (read_all lookups.now) }
    requires columns { 0 < length lookups.now
        → length lookups.now < (prover_shape_of folder).permutation }
    requires challenges { 2 * length lookups.now ≤ length folder.permutation_challenges.now }
    requires terminals { 0 < length lookups.now → 0 < length folder.permutation_values.now }
    ensures weighed { result ≡ weighed E.ring folder.entry.inner.alpha_powers.now
        (map (eval_tree (reading_at E.ring E.embed
        (prover_cells_of E.ring.zero E.embed folder.entry)))
        (table_trees F.ring (A.trees air.now) (read_all lookups.now))) }
    ensures fold { (alpha : E)
        → folder.entry.inner.alpha_powers.now
        ≡ fold_powers E.ring alpha
        (length (table_trees F.ring (A.trees air.now) (read_all lookups.now)))
        → result ≡ fold E.ring alpha
        (map (eval_tree (reading_at E.ring E.embed
        (prover_cells_of E.ring.zero E.embed folder.entry)))
        (table_trees F.ring (A.trees air.now) (read_all lookups.now))) }
{
    let mut folder = folder;
    match lookup_gadget.eval_air_and_lookups(air, &mut folder, lookups) {
        Ok(()) => folder.inner.accumulator,
        Err(_) => unreachable!(),
    }
}
