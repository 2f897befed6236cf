//! The folds of an AIR's constraints, from the laws of builders alone.
ghost use Rattle.std.specs.Prelude.{◌≡◌, length, map};
ghost use Rattle.air_core.specs.Shape.{Fits, declared_shape};
ghost use Rattle.air_core.specs.Tree.{eval_tree};
ghost use Rattle.p3_uni_stark.specs.Fold.{fold, fold_powers, weighed};
ghost use Rattle.p3_uni_stark.specs.Point.{point_reading, embedded, point_shape};
ghost use Rattle.p3_uni_stark.specs.VerifierState.{folder_opened_of};
ghost use Rattle.p3_uni_stark.specs.ProverState.{folder_values_of};

use crate::config::{Challenge, StarkGenericConfig, Val};
use crate::prover_folder::ProverFolder;
use crate::verifier_folder::VerifierFolder;
use air_core::{Air, BaseAir};
use p3_field::{ExtensionField, Field, FieldCore, PrimeCharacteristicRing, RingCore};

/// A verifier's folder over a configuration's fields (`VerifierConstraintFolder` of `p3-uni-stark`).
pub type VerifierConstraintFolder<'a, SC> = VerifierFolder<'a, Val<SC>, Challenge<SC>>;

/// A prover's folder over a configuration's fields (`ProverConstraintFolder` of `p3-uni-stark`).
pub type ProverConstraintFolder<'a, SC> = ProverFolder<'a, Val<SC>, Challenge<SC>>;

/// The fold of an AIR's constraints by the folder's challenge, at what the folder reads: its accumulator is zero, and
/// it has all cells that the AIR declares.
pub fn verifier_fold<F: Field, E: ExtensionField<F>, A: Air<F>>(
    air: &A,
    folder: VerifierFolder<'_, F, E>,
) -> E
    requires zero { folder.accumulator ≡ E.ring.zero }
    requires declared { Fits (declared_shape (A.declaration air.now))
        (point_shape (folder_opened_of folder).values) }
    ensures { result ≡ fold E.ring folder.entry.alpha
        (map (eval_tree (point_reading E.ring E.embed (folder_opened_of folder.entry).values))
        (A.trees air.now)) }
{
    let mut folder = folder;
    match air.eval(&mut folder) {
        Ok(()) => folder.accumulator,
        Err(_) => unreachable!(),
    }
}

/// The sum of an AIR's constraints, each times the power that the folder lists at its place; one past the last power
/// adds nothing. Where these are a challenge's powers in order, one for each constraint, it is the fold by the
/// challenge. The accumulator is zero, no power is taken yet, and the folder has all cells that the AIR declares.
pub fn prover_fold<F: Field, E: ExtensionField<F>, A: Air<F>>(
    air: &A,
    folder: ProverFolder<'_, F, E>,
) -> E
    requires zero { folder.accumulator ≡ E.ring.zero }
    requires first { folder.constraint_index ≡ 0 }
    requires declared { Fits (declared_shape (A.declaration air.now))
        (point_shape (folder_values_of folder)) }
    ensures weighed { result
        ≡ weighed E.ring folder.entry.alpha_powers.now
        (map (eval_tree (point_reading E.ring E.embed
        (embedded E.embed (folder_values_of folder.entry)))) (A.trees air.now)) }
    ensures fold { (alpha : E)
        → folder.entry.alpha_powers.now ≡ fold_powers E.ring alpha (length (A.trees air.now))
        → result ≡ fold E.ring alpha
        (map (eval_tree (point_reading E.ring E.embed
        (embedded E.embed (folder_values_of folder.entry)))) (A.trees air.now)) }
{
    let mut folder = folder;
    match air.eval(&mut folder) {
        Ok(()) => folder.accumulator,
        Err(_) => unreachable!(),
    }
}
