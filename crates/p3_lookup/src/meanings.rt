//! What the constraints of lookups mean: laws as the contracts of functions that compute nothing.
ghost use Rattle.std.specs.Prelude.{ℕ, List, All};
ghost use Rattle.air_core.specs.Tree.{Tree, Bus};
ghost use Rattle.p3_lookup.specs.Lookup.{LookupData, HasCountForEach};
ghost use Rattle.p3_lookup.specs.Packing.{packed, SendTheSame};
ghost use Rattle.p3_lookup.specs.Honest.{argument};
ghost use Rattle.p3_lookup.specs.Rows.{HonestColumnsVanish};
ghost use Rattle.p3_lookup.specs.Messages.{Sender, BalancedSum};
ghost use Rattle.p3_lookup.specs.Bus.{SharesByName};
ghost use Rattle.p3_lookup.specs.Batch.{SendingTable, BalancedBatch, WidthsPassOn};
ghost use Rattle.p3_lookup.specs.PermutationRows.{GeneratedRowsVanish};
ghost use Rattle.air_core.specs.Check.{TableTraces};

use p3_field::{ExtensionField, Field};

/// The permutation columns of an honest prover meet the constraints of the lookups in each row, where no denominator
/// is zero.
pub fn honest_columns_vanish<F: Field, EF: ExtensionField<F>>()
    ensures { (challenges : List EF) (lookups : List (LookupData F)) (value : ℕ → Tree F → EF)
        → HonestColumnsVanish F.ring EF.embed (argument EF.ring EF.inv challenges lookups value) }
{}

/// The columns and the terminal that `generate_permutation` gives meet the constraints of the lookups in each row of the table,
/// as a check of its rows reads them.
pub fn generated_rows_vanish<F: Field, EF: ExtensionField<F>>()
    ensures { (table : TableTraces F) (lookups : List (LookupData F)) (challenges : List EF)
        → GeneratedRowsVanish F.ring EF.ring EF.inv EF.embed table lookups challenges }
{}

/// Where nothing is left over on any bus of a batch, the terminals of its tables sum to zero.
pub fn balanced_terminals_vanish<F: Field, EF: ExtensionField<F>>()
    ensures { (senders : List (Sender F))
        → BalancedSum F.ring F.eq EF.ring EF.inv EF.embed senders }
{}

/// Where nothing is left over on any bus of a batch, the terminals of its tables sum to zero, with the buses numbered and their
/// bases made as for a batch, whatever alpha and beta are drawn.
pub fn balanced_batch_sums_to_zero<F: Field, EF: ExtensionField<F>>()
    ensures { (tables : List (SendingTable F))
        → BalancedBatch F.ring F.eq EF.ring EF.inv EF.embed tables }
{}

/// Where the lookups of a batch have tuples of one width on each bus, so have its messages.
pub fn messages_of_one_width<F: Field>()
    ensures { (tables : List (SendingTable F)) → WidthsPassOn tables }
{}

/// Two different lookups of a batch have one bus exactly where both name it.
pub fn buses_shared_by_name()
    ensures { (buses : List Bus) → SharesByName buses }
{}

/// Packing sends what was sent: each tuple with its count stands in lookups of the same kind and name as often as before.
pub fn packing_sends_the_same<F: Field>()
    ensures { (t budget : ℕ) (lookups : List (LookupData F)) → All HasCountForEach lookups
        → SendTheSame lookups (packed F.ring t budget lookups) }
{}
