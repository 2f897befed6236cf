//! What the terminals of a batch say of what its tables send: laws as the contracts of functions that compute nothing.
ghost use Rattle.std.specs.Prelude.{ℕ, List, Option};
ghost use Rattle.air_core.specs.Tree.{Tree};
ghost use Rattle.p3_lookup.specs.Honest.{argument};
ghost use Rattle.p3_lookup.specs.Lookup.{LookupData};
ghost use Rattle.p3_lookup.specs.Messages.{Message, Sender};
ghost use Rattle.stark_balance.specs.Batch.{VanishingBatchBalances};
ghost use Rattle.stark_balance.specs.Count.{AreTold, HasFewAlphas, HasFewMeetings, NoneIsUnlucky, OnlyZerosAreUnlucky};
ghost use Rattle.stark_balance.specs.Nets.{AreNets, nets};
ghost use Rattle.stark_balance.specs.Vanishing.{VanishingRowsSum};

use p3_field::{ExtensionField, Field, FieldCore, RingCore};

/// Where the constraints of a table's lookups vanish on each of its rows and no denominator is zero, its terminal is the sum of
/// all fractions, whatever its permutation columns are (not in Plonky3).
pub fn vanishing_rows_sum<F: Field, EF: ExtensionField<F>>()
    ensures { (challenges : List EF) (lookups : List (LookupData F)) (value : ℕ → Tree F → EF)
        → VanishingRowsSum F.ring EF.embed (argument EF.ring EF.inv challenges lookups value) }
{}

/// The entries that `nets` gives are the nets of the messages: one for each bus and tuple that is sent, with the sum of its counts
/// (not in Plonky3).
pub fn nets_are_nets<F: Field>()
    ensures { (messages : List (Message F))
        → AreNets F.ring F.eq messages (nets F.ring F.eq messages) }
{}

/// How many lookup pairs are unlucky (not in Plonky3). With tuples of one width on each bus, of at most W values, and buses that the field tells
/// apart: of n pairs of bus and tuple at most W n (n - 1) / 2 betas make two meet (`betas`), and with any other beta fewer than
/// 2 n alphas are unlucky (`alphas`). Where nothing is left over, only those pairs are that make a denominator zero (`balanced`),
/// and without messages none is (`none`).
pub fn few_lookup_pairs_are_unlucky<F: Field, EF: ExtensionField<F>>()
    ensures betas { (width : ℕ) (messages : List (Message F)) → AreTold F.ring width messages
        → HasFewMeetings F.ring F.eq EF.ring EF.inv EF.embed width messages }
    ensures alphas { (width : ℕ) (messages : List (Message F))
        → HasFewAlphas F.ring F.eq EF.ring EF.inv EF.embed width messages }
    ensures balanced { (width : ℕ) (messages : List (Message F))
        → OnlyZerosAreUnlucky F.ring F.eq EF.ring EF.inv EF.embed width messages }
    ensures none { NoneIsUnlucky F.ring F.eq EF.ring EF.inv EF.embed }
{}

/// Where the constraints of the lookups vanish on each row of each table of a batch, and the terminals that are there sum to zero,
/// nothing is left over on any bus, or the bases of the buses and beta are unlucky (not in Plonky3).
pub fn vanishing_batches_balance<F: Field, EF: ExtensionField<F>>()
    ensures { (base : ℕ → EF) (beta : EF) (senders : List (Sender F)) (terminals : List (Option EF))
        → VanishingBatchBalances F.ring EF.ring EF.inv EF.embed base beta F.eq senders terminals }
{}
