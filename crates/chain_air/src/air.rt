//! The AIR.
ghost use Rattle.std.proofs.Common.{rules};
ghost use Rattle.std.specs.Prelude.{◌≡◌, ℕ, ◌≤◌, List, [], ◌∷◌, IfOk, OnErr, IsOk, IsTrue, None};
ghost use Rattle.chain_air.specs.Trees.{chain_trees, chain_declaration};
ghost use Rattle.chain_air.specs.Laws.Declared.{chain_read, chain_counted, next_within};

use crate::links::assert_linking;
use air_core::{Air, BaseAir, InteractionBuilder};
use blake3_prime::{Blake3Air, NUM_BLAKE3_COLS};
use p3_field::{Field, Mem};
use p3_matrix::RowMajorMatrix;
use std::alloc::Global;

// The columns whose next row is read: the bits of the chaining value.
static NEXT_COLUMNS: [usize; 256] = [
    512, 513, 514, 515, 516, 517, 518, 519, 520, 521, 522, 523, 524, 525, 526, 527, 528, 529, 530,
    531, 532, 533, 534, 535, 536, 537, 538, 539, 540, 541, 542, 543, 544, 545, 546, 547, 548, 549,
    550, 551, 552, 553, 554, 555, 556, 557, 558, 559, 560, 561, 562, 563, 564, 565, 566, 567, 568,
    569, 570, 571, 572, 573, 574, 575, 576, 577, 578, 579, 580, 581, 582, 583, 584, 585, 586, 587,
    588, 589, 590, 591, 592, 593, 594, 595, 596, 597, 598, 599, 600, 601, 602, 603, 604, 605, 606,
    607, 608, 609, 610, 611, 612, 613, 614, 615, 616, 617, 618, 619, 620, 621, 622, 623, 624, 625,
    626, 627, 628, 629, 630, 631, 632, 633, 634, 635, 636, 637, 638, 639, 640, 641, 642, 643, 644,
    645, 646, 647, 648, 649, 650, 651, 652, 653, 654, 655, 656, 657, 658, 659, 660, 661, 662, 663,
    664, 665, 666, 667, 668, 669, 670, 671, 672, 673, 674, 675, 676, 677, 678, 679, 680, 681, 682,
    683, 684, 685, 686, 687, 688, 689, 690, 691, 692, 693, 694, 695, 696, 697, 698, 699, 700, 701,
    702, 703, 704, 705, 706, 707, 708, 709, 710, 711, 712, 713, 714, 715, 716, 717, 718, 719, 720,
    721, 722, 723, 724, 725, 726, 727, 728, 729, 730, 731, 732, 733, 734, 735, 736, 737, 738, 739,
    740, 741, 742, 743, 744, 745, 746, 747, 748, 749, 750, 751, 752, 753, 754, 755, 756, 757, 758,
    759, 760, 761, 762, 763, 764, 765, 766, 767,
];

/// A chain of BLAKE3 compressions as a table (not in Plonky3). Each row is one compression, in the 9168 columns of `Blake3Air`, and
/// its chaining value is the first 8 words of the output of the row before it. The 32 public values are the limbs of two chaining
/// values: those of the first row's, then those of the first 8 words of the last row's output, each word's low limb first.
#[derive(Clone, Copy)]
pub struct ChainAir {}

impl ChainAir {
    /// The AIR. It has no parameters.
    pub fn new() -> Self {
        ChainAir {}
    }
}

impl<F: Field> BaseAir<F> for ChainAir {
    ghost declaration = { λ _. chain_declaration };

    fn width(&self) -> usize {
        NUM_BLAKE3_COLS
    }

    fn preprocessed_trace(&self, _alloc: Global) -> Mem<Option<RowMajorMatrix<F>>> {
        Ok(None)
    }

    fn preprocessed_width(&self) -> usize {
        0
    }

    fn main_next_row_columns(&self) -> &[usize] {
        &NEXT_COLUMNS
    }

    fn preprocessed_next_row_columns(&self) -> &[usize] {
        &[]
    }

    fn num_public_values(&self) -> usize {
        32
    }

    fn periodic_columns(&self) -> &[Vec<F>] {
        &[]
    }

    fn num_constraints(&self) -> Option<usize> {
        Some(9920)
    }

    fn max_constraint_degree(&self) -> Option<usize> {
        Some(3)
    }

    fn assumes_boolean_trace(&self) -> bool {
        false
    }

    ghost has_columns = { λ _. tt };

    ghost whole_rows = { λ _. tt };

    ghost next_below = { λ _. next_within };

    ghost preprocessed_next_below = { λ _. Prim.search rules };
}

impl<F: Field> Air<F> for ChainAir {
    ghost trees = { λ _. chain_trees F.ring };

    ghost interactions = { λ _. [] };

    fn eval<AB: InteractionBuilder<F = F>>(&self, builder: &mut AB) -> Mem<()> {
        let compressions = Blake3Air {};
        compressions.eval(builder)?;
        assert_linking(builder)?;
        Ok(())
    }

    ghost counts = { λ _. chain_counted F.ring };

    ghost trees_read = { λ _. chain_read F.ring };

    ghost interactions_read = { λ _. Prim.search rules };
}
