//! AIRs: what a table declares of itself, and its constraints.
ghost use Rattle.std.specs.Prelude.{◌≡◌, ℕ, ◌<◌, List, Some, None, IfOk, OnErr, IsOk, IsTrue, length, map, All};
ghost use Rattle.air_core.specs.Shape.{Declaration, Fits, HasColumns, HasWholeRows, declared_shape, width_of, ReadsDeclared, IsInteraction};
ghost use Rattle.air_core.specs.Tree.{Tree, Interaction, SomeFirst, over_base};

use crate::builder::InteractionBuilder;
use p3_field::{FieldCore, Mem};
use p3_matrix::RowMajorMatrix;
use std::alloc::Global;

/// What a table declares of itself (`crate::BaseAir`). Each call answers the same value at every time.
pub trait BaseAir<F: FieldCore> {
    // The answers of all the calls.
    ghost declaration: { Self → Declaration F };

    /// How many columns the main trace has.
    fn width(&self) -> usize
        ensures { result ≡ (declaration self.now).width };

    /// The preprocessed trace: None exactly where its width is zero, and then the answer is Ok.
    fn preprocessed_trace(&self, alloc: Global) -> Mem<Option<RowMajorMatrix<F>>>
        ensures trace { IfOk result (λ m. m ≡ (declaration self.now).preprocessed) }
        ensures none { (declaration self.now).preprocessed ≡ None → IsOk result };

    /// How many columns the preprocessed trace has, zero where there is none.
    fn preprocessed_width(&self) -> usize
        ensures { result ≡ width_of (declaration self.now).preprocessed };

    /// The columns of the main trace whose next row a constraint may read. Each is below `width`.
    fn main_next_row_columns(&self) -> &[usize]
        ensures { result.now ≡ (declaration self.now).main_next };

    /// The columns of the preprocessed trace whose next row a constraint may read. Each is below `preprocessed_width`.
    fn preprocessed_next_row_columns(&self) -> &[usize]
        ensures { result.now ≡ (declaration self.now).preprocessed_next };

    /// How many public values there are.
    fn num_public_values(&self) -> usize
        ensures { result ≡ (declaration self.now).public_values };

    /// The periodic columns: row i reads a column at i modulo its length.
    fn periodic_columns(&self) -> &[Vec<F>]
        ensures { map (λ v. v.items) result.now ≡ (declaration self.now).periodic };

    /// How many constraints there are, or None where the AIR doesn't tell it.
    fn num_constraints(&self) -> Option<usize>
        ensures { result ≡ (declaration self.now).constraints };

    /// A hint on the constraints' greatest degree, or None where the AIR gives none.
    fn max_constraint_degree(&self) -> Option<usize>
        ensures { result ≡ (declaration self.now).degree_hint };

    /// Whether the constraints presume that each cell of the trace is zero or one.
    fn assumes_boolean_trace(&self) -> bool
        ensures { result ≡ (declaration self.now).boolean_trace };

    // A preprocessed trace has at least one column.
    ghost has_columns: { (a : Self) → HasColumns (declaration a).preprocessed };

    // The values of a preprocessed trace fill whole rows.
    ghost whole_rows: { (a : Self) → HasWholeRows (declaration a).preprocessed };

    // The next row is declared only in columns that the main trace has.
    ghost next_below: { (a : Self)
        → All (λ c. c < (declaration a).width) (declaration a).main_next };

    // The next preprocessed row is declared only in columns that the preprocessed trace has.
    ghost preprocessed_next_below: { (a : Self)
        → All (λ c. c < width_of (declaration a).preprocessed) (declaration a).preprocessed_next };
}

/// A table with constraints (`crate::Air`), which has one list of constraint trees and one of interactions.
pub trait Air<F: FieldCore>: BaseAir<F> {
    // The constraints, in order.
    ghost trees: { Self → List (Tree F) };

    // The interactions, in order.
    ghost interactions: { Self → List (Interaction F) };

    /// Appends exactly the AIR's trees, over the base field, and interactions to a builder, in order. The builder
    /// declares every cell that the AIR declares. Over a builder that never fails the answer is Ok. On an error some of
    /// the first trees and some of the first interactions were appended and nothing else (`on_error`), and the builder's
    /// expressions keep their meaning.
    fn eval<AB: InteractionBuilder<F = F>>(&self, builder: &mut AB) -> Mem<()>
        requires { Fits (declared_shape (Self.declaration self.now)) (AB.shape builder.old) }
        ensures later { AB.later builder.old builder.new }
        ensures keeps_shape { AB.shape builder.new ≡ AB.shape builder.old }
        ensures answers { IsTrue AB.never_fails → IsOk result }
        ensures appends { IfOk result
            (λ _. AB.appends builder.old builder.new (map over_base (trees self.now))
            (interactions self.now)) }
        ensures on_error { OnErr result
            (SomeFirst (AB.appends builder.old builder.new) (map over_base (trees self.now))
            (interactions self.now)) };

    // The declared number of constraints, where there is one, is that of the trees.
    ghost counts: { (a : Self) (n : ℕ) → (Self.declaration a).constraints ≡ Some n
        → n ≡ length (trees a) };

    // The trees read declared cells alone, and next cells only in declared next columns.
    ghost trees_read: { (a : Self)
        → All (ReadsDeclared (declared_shape (Self.declaration a))) (trees a) };

    // The interactions read constants, public values, main and preprocessed cells alone.
    ghost interactions_read: { (a : Self)
        → All (IsInteraction (declared_shape (Self.declaration a))) (interactions a) };
}
