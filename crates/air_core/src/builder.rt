//! Builders: what an AIR's constraints are handed to.
ghost use Rattle.std.specs.Prelude.{◌≡◌, ◌+◌, ◌*◌, ◌^◌, ◌<◌, ◌%◌, List, [], ◌∷◌, ◌++◌, IfOk, OnErr, IsOk, IsTrue, Bool, length, map};
ghost use prog.Memory.{size, align};
ghost use denote.Param.{layout};
ghost use Rattle.air_core.specs.Clauses.{GivesOfOne, GivesOfTwo, AppendsOfOne, AppendsOfTwo, AppendsEachOfOne, AppendsSomeOfOne, SendsTuple, SendsTuples};
ghost use Rattle.air_core.specs.Shape.{Shape, Declares, DeclaresExt};
ghost use Rattle.air_core.specs.Asserting.{AssertsOne, AssertsEach, AssertsFirst, AssertsBool};
ghost use Rattle.air_core.specs.Operation.{Operation, plus, minus, times, tree_by};
ghost use Rattle.air_core.specs.Tree.{Tree, Asserted, Interaction, Bus, Represent, RepresentsCount, constant as constant_tree, cell as cell_tree, ext_cell as ext_cell_tree, sum, difference, product, bool_tree, over_base, over_extension, local, global};
ghost use Rattle.air_core.specs.declared.cells.Count.{Count as CountOf};

use crate::cells::{Cell, Count, ExtCell};
use p3_field::{FieldCore, Mem, RingCore};

/// Takes constraints (`crate::AirBuilder`). An expression represents a constraint tree, and `assert_zero` appends
/// its expression's tree to the list of asserted trees.
///
/// The list of asserted trees, each with the field over which it was asserted, and that of interactions are meanings:
/// no builder need keep them. `appends` says what a state has in the two lists beyond an earlier one. On an error a call
/// has appended nothing, or, of several constraints, some of the first (`on_error`, `some`).
///
/// An expression may represent no tree, as one that some other builder gave. `computes` and `asserts` say what an
/// operation on it gives and what asserting it does all the same: each builder says by them what exactly that is.
pub trait AirBuilder {
    /// The field of the trace.
    type F: FieldCore;

    /// Expressions over the cells.
    type Expr: Copy;

    // This expression represents this tree in this state.
    ghost represents: { Self → Self.Expr → Tree Self.F → Type 0 };

    // The second state is the first one or comes after it.
    ghost later: { Self → Self → Type 0 };

    // The second state comes after the first, with these asserted trees and interactions appended since.
    ghost appends: { Self → Self → List (Asserted Self.F) → List (Interaction Self.F) → Type 0 };

    // The second state is the first one after exactly this expression was asserted, whatever it represents.
    ghost asserts: { Self → Self.Expr → Self → Type 0 };

    // In the second state the last expression is what this operation on the others gives, which are read in the first
    // state, whatever they represent.
    ghost computes: { Self → Operation → Self.Expr → Self.Expr → Self → Self.Expr → Type 0 };

    // The cells that are declared. No call changes them.
    ghost shape: { Self → Shape };

    // Whether no call fails.
    ghost never_fails: { Bool };

    // Whether no call fails but those that assert.
    ghost only_asserting_fails: { Bool };

    /// The value of a declared cell.
    fn cell(&mut self, c: Cell) -> Mem<Self::Expr>
        requires { Declares (shape self.old) c }
        ensures keeps_shape { shape self.new ≡ shape self.old }
        ensures appends { appends self.old self.new [] [] }
        ensures answers { IsTrue never_fails → IsOk result }
        ensures sure { IsTrue only_asserting_fails → IsOk result }
        ensures represents { IfOk result (λ e. represents self.new e (cell_tree c)) };

    /// A constant.
    fn constant(&mut self, x: Self::F) -> Mem<Self::Expr>
        ensures keeps_shape { shape self.new ≡ shape self.old }
        ensures appends { appends self.old self.new [] [] }
        ensures answers { IsTrue never_fails → IsOk result }
        ensures sure { IsTrue only_asserting_fails → IsOk result }
        ensures represents { IfOk result (λ e. represents self.new e (constant_tree x)) };

    /// The sum x + y.
    fn add(&mut self, x: Self::Expr, y: Self::Expr) -> Mem<Self::Expr>
        ensures keeps_shape { shape self.new ≡ shape self.old }
        ensures appends { appends self.old self.new [] [] }
        ensures answers { IsTrue never_fails → IsOk result }
        ensures sure { IsTrue only_asserting_fails → IsOk result }
        ensures computes { IfOk result (λ e. computes self.old plus x y self.new e) }
        ensures represents { GivesOfTwo (represents self.old) x y (represents self.new) sum
            result };

    /// The difference x - y.
    fn sub(&mut self, x: Self::Expr, y: Self::Expr) -> Mem<Self::Expr>
        ensures keeps_shape { shape self.new ≡ shape self.old }
        ensures appends { appends self.old self.new [] [] }
        ensures answers { IsTrue never_fails → IsOk result }
        ensures sure { IsTrue only_asserting_fails → IsOk result }
        ensures computes { IfOk result (λ e. computes self.old minus x y self.new e) }
        ensures represents { GivesOfTwo (represents self.old) x y (represents self.new) difference
            result };

    /// The product x * y.
    fn mul(&mut self, x: Self::Expr, y: Self::Expr) -> Mem<Self::Expr>
        ensures keeps_shape { shape self.new ≡ shape self.old }
        ensures appends { appends self.old self.new [] [] }
        ensures answers { IsTrue never_fails → IsOk result }
        ensures sure { IsTrue only_asserting_fails → IsOk result }
        ensures computes { IfOk result (λ e. computes self.old times x y self.new e) }
        ensures represents { GivesOfTwo (represents self.old) x y (represents self.new) product
            result };

    /// Asserts that x is zero in every row.
    fn assert_zero(&mut self, x: Self::Expr) -> Mem<()>
        ensures later { later self.old self.new }
        ensures keeps_shape { shape self.new ≡ shape self.old }
        ensures answers { IsTrue never_fails → IsOk result }
        ensures appends { AppendsOfOne (represents self.old) x (appends self.old self.new) over_base
            result }
        ensures asserts { IfOk result (λ _. asserts self.old x self.new) }
        ensures on_error { OnErr result (appends self.old self.new [] []) };

    /// Asserts that x - y is zero in every row.
    fn assert_eq(&mut self, x: Self::Expr, y: Self::Expr) -> Mem<()>
        ensures later { later self.old self.new }
        ensures keeps_shape { shape self.new ≡ shape self.old }
        ensures answers { IsTrue never_fails → IsOk result }
        ensures appends { AppendsOfTwo (represents self.old) x y (appends self.old self.new)
            (λ s t. over_base (difference s t)) result }
        ensures asserts { IfOk result
            (λ _. AssertsOne (λ m e. appends self.old m [] [] × computes self.old minus x y m e)
            asserts self.new) }
        ensures on_error { OnErr result (appends self.old self.new [] []) }
    {
        let difference = self.sub(x, y)?;
        self.assert_zero(difference)
    }

    /// Asserts that x * (x - 1) is zero in every row: that x is zero or one.
    fn assert_bool(&mut self, x: Self::Expr) -> Mem<()>
        ensures later { later self.old self.new }
        ensures keeps_shape { shape self.new ≡ shape self.old }
        ensures answers { IsTrue never_fails → IsOk result }
        ensures appends { AppendsOfOne (represents self.old) x (appends self.old self.new)
            (λ t. over_base (bool_tree Self.F.ring.one t)) result }
        ensures asserts { IfOk result
            (λ _. AssertsBool represents computes appends asserts Self.F.ring.one self.old x
            self.new) }
        ensures on_error { OnErr result (appends self.old self.new [] []) }
    {
        let one = self.constant(<Self::F as RingCore>::ONE)?;
        let less_one = self.sub(x, one)?;
        let product = self.mul(x, less_one)?;
        self.assert_zero(product)
    }

    /// Asserts that each of `xs` is zero in every row, in order.
    fn assert_zeros(&mut self, xs: &[Self::Expr]) -> Mem<()>
        ensures later { later self.old self.new }
        ensures keeps_shape { shape self.new ≡ shape self.old }
        ensures answers { IsTrue never_fails → IsOk result }
        ensures appends { AppendsEachOfOne (Represent (represents self.old)) xs.now
            (appends self.old self.new) (λ ts. ts) result }
        ensures on_error { AppendsSomeOfOne (Represent (represents self.old)) xs.now
            (appends self.old self.new) (λ ts. ts) result }
        ensures asserts { IfOk result (λ _. AssertsEach asserts xs.now self.old self.new) }
        ensures some { OnErr result
            (AssertsFirst (λ a b. appends a b [] []) asserts xs.now self.old self.new) }
    {
        for x in xs {
            self.assert_zero(*x)?;
        }
        Ok(())
    }

    /// Asserts that x * (x - 1) is zero in every row for each x of `xs`, in order.
    fn assert_bools(&mut self, xs: &[Self::Expr]) -> Mem<()>
        ensures later { later self.old self.new }
        ensures keeps_shape { shape self.new ≡ shape self.old }
        ensures answers { IsTrue never_fails → IsOk result }
        ensures appends { AppendsEachOfOne (Represent (represents self.old)) xs.now
            (appends self.old self.new) (map (bool_tree Self.F.ring.one)) result }
        ensures on_error { AppendsSomeOfOne (Represent (represents self.old)) xs.now
            (appends self.old self.new) (map (bool_tree Self.F.ring.one)) result }
        ensures asserts { IfOk result
            (λ _. AssertsEach (AssertsBool represents computes appends asserts Self.F.ring.one)
            xs.now self.old self.new) }
        ensures some { OnErr result (AssertsFirst (λ a b. appends a b [] [])
            (AssertsBool represents computes appends asserts Self.F.ring.one) xs.now self.old
            self.new) }
    {
        for x in xs {
            self.assert_bool(*x)?;
        }
        Ok(())
    }

    // Generic code keeps expressions in arrays: one of 1,024 takes less than 2^63 bytes, also one of counts.
    ghost arrays_fit: { 1024 * (size (layout Self.Expr.row) + align (layout Self.Expr.row))
        < 2 ^ 62 };

    ghost later_same: { (a : Self) → later a a };

    ghost later_along: { (a b c : Self) → later a b → later b c → later a c };

    ghost later_shape: { (a b : Self) → later a b → shape b ≡ shape a };

    // What represents a tree in a state represents it in every later state.
    ghost persists: { (a b : Self) → later a b → (e : Self.Expr) (t : Tree Self.F)
        → represents a e t → represents b e t };

    ghost appends_none: { (a : Self) → appends a a [] [] };

    ghost appends_later: { (a b : Self) (ts : List (Asserted Self.F))
        (is : List (Interaction Self.F)) → appends a b ts is → later a b };

    ghost appends_along: { (a b c : Self) (s t : List (Asserted Self.F))
        (i j : List (Interaction Self.F)) → appends a b s i → appends b c t j
        → appends a c (s ++ t) (i ++ j) };

    // A builder no call of which fails has none that fails but those that assert.
    ghost never_fails_sure: { IsTrue never_fails → IsTrue only_asserting_fails };

    // What operations on expressions that represent trees give represents the operation's tree.
    ghost computes_represents: { (a b : Self) → later a b
        → (op : Operation) (x y e : Self.Expr) (s t : Tree Self.F) → represents a x s
        → represents a y t
        → computes a op x y b e → represents b e (tree_by op s t) };

    // What is asserted is the tree that it represents.
    ghost asserts_appends: { (a b : Self) (x : Self.Expr) (t : Tree Self.F) → represents a x t
        → asserts a x b → appends a b (over_base t ∷ []) [] };
}

/// Takes constraints over an extension of the field too (`crate::ExtensionBuilder`).
pub trait ExtensionBuilder: AirBuilder {
    /// Expressions with values in the extension.
    type ExprEF: Copy;

    // This expression of the extension represents this tree in this state.
    ghost represents_ext: { Self → Self.ExprEF → Tree Self.F → Type 0 };

    // The second state is the first one after exactly this expression of the extension was asserted.
    ghost asserts_ext: { Self → Self.ExprEF → Self → Type 0 };

    // In the second state the last expression is what this operation on the others gives, which are read in the first
    // state, whatever they represent.
    ghost computes_ext: { Self → Operation → Self.ExprEF → Self.ExprEF → Self → Self.ExprEF
        → Type 0 };

    // In the second state the expression of the extension is the first one as one of the extension, read in the first
    // state, whatever it represents.
    ghost lifts: { Self → Self.Expr → Self → Self.ExprEF → Type 0 };

    /// An expression of the base as one of the extension: the same tree.
    fn lift(&mut self, x: Self::Expr) -> Mem<Self::ExprEF>
        ensures keeps_shape { Self.shape self.new ≡ Self.shape self.old }
        ensures appends { Self.appends self.old self.new [] [] }
        ensures answers { IsTrue Self.never_fails → IsOk result }
        ensures sure { IsTrue Self.only_asserting_fails → IsOk result }
        ensures lifts { IfOk result (λ e. lifts self.old x self.new e) }
        ensures represents { GivesOfOne (Self.represents self.old) x (represents_ext self.new)
            (λ t. t) result };

    /// The sum x + y.
    fn add_ext(&mut self, x: Self::ExprEF, y: Self::ExprEF) -> Mem<Self::ExprEF>
        ensures keeps_shape { Self.shape self.new ≡ Self.shape self.old }
        ensures appends { Self.appends self.old self.new [] [] }
        ensures answers { IsTrue Self.never_fails → IsOk result }
        ensures sure { IsTrue Self.only_asserting_fails → IsOk result }
        ensures computes { IfOk result (λ e. computes_ext self.old plus x y self.new e) }
        ensures represents { GivesOfTwo (represents_ext self.old) x y (represents_ext self.new) sum
            result };

    /// The difference x - y.
    fn sub_ext(&mut self, x: Self::ExprEF, y: Self::ExprEF) -> Mem<Self::ExprEF>
        ensures keeps_shape { Self.shape self.new ≡ Self.shape self.old }
        ensures appends { Self.appends self.old self.new [] [] }
        ensures answers { IsTrue Self.never_fails → IsOk result }
        ensures sure { IsTrue Self.only_asserting_fails → IsOk result }
        ensures computes { IfOk result (λ e. computes_ext self.old minus x y self.new e) }
        ensures represents { GivesOfTwo (represents_ext self.old) x y (represents_ext self.new)
            difference result };

    /// The product x * y.
    fn mul_ext(&mut self, x: Self::ExprEF, y: Self::ExprEF) -> Mem<Self::ExprEF>
        ensures keeps_shape { Self.shape self.new ≡ Self.shape self.old }
        ensures appends { Self.appends self.old self.new [] [] }
        ensures answers { IsTrue Self.never_fails → IsOk result }
        ensures sure { IsTrue Self.only_asserting_fails → IsOk result }
        ensures computes { IfOk result (λ e. computes_ext self.old times x y self.new e) }
        ensures represents { GivesOfTwo (represents_ext self.old) x y (represents_ext self.new)
            product result };

    /// Asserts that x is zero in every row.
    fn assert_zero_ext(&mut self, x: Self::ExprEF) -> Mem<()>
        ensures later { Self.later self.old self.new }
        ensures keeps_shape { Self.shape self.new ≡ Self.shape self.old }
        ensures answers { IsTrue Self.never_fails → IsOk result }
        ensures appends { AppendsOfOne (represents_ext self.old) x (Self.appends self.old self.new)
            over_extension result }
        ensures asserts { IfOk result (λ _. asserts_ext self.old x self.new) }
        ensures on_error { OnErr result (Self.appends self.old self.new [] []) };

    // Generic code keeps expressions of the extension in arrays: one of 1,024 takes less than 2^63 bytes.
    ghost arrays_fit_ext: { 1024 * (size (layout Self.ExprEF.row) + align (layout Self.ExprEF.row))
        < 2 ^ 62 };

    // What represents a tree in a state represents it in every later state.
    ghost persists_ext: { (a b : Self) → Self.later a b → (e : Self.ExprEF) (t : Tree Self.F)
        → represents_ext a e t → represents_ext b e t };

    // What operations on expressions that represent trees give represents the operation's tree.
    ghost computes_ext_represents: { (a b : Self) → Self.later a b
        → (op : Operation) (x y e : Self.ExprEF) (s t : Tree Self.F) → represents_ext a x s
        → represents_ext a y t → computes_ext a op x y b e → represents_ext b e (tree_by op s t) };

    // What is lifted keeps its tree.
    ghost lifts_represents: { (a b : Self) → Self.later a b
        → (x : Self.Expr) (e : Self.ExprEF) (t : Tree Self.F) → Self.represents a x t
        → lifts a x b e → represents_ext b e t };

    // What is asserted is the tree that it represents.
    ghost asserts_ext_appends: { (a b : Self) (x : Self.ExprEF) (t : Tree Self.F)
        → represents_ext a x t → asserts_ext a x b → Self.appends a b (over_extension t ∷ []) [] };
}

/// Takes constraints over the permutation trace of lookups too (`crate::PermutationAirBuilder`).
pub trait PermutationAirBuilder: ExtensionBuilder {
    /// The value of a declared cell of the extension.
    fn ext_cell(&mut self, c: ExtCell) -> Mem<Self::ExprEF>
        requires { DeclaresExt (Self.shape self.old) c }
        ensures keeps_shape { Self.shape self.new ≡ Self.shape self.old }
        ensures appends { Self.appends self.old self.new [] [] }
        ensures answers { IsTrue Self.never_fails → IsOk result }
        ensures sure { IsTrue Self.only_asserting_fails → IsOk result }
        ensures represents { IfOk result (λ e. Self.represents_ext self.new e (ext_cell_tree c)) };
}

/// Takes interactions too (`p3_lookup::InteractionBuilder`).
pub trait InteractionBuilder: PermutationAirBuilder {
    // The second state is the first one after exactly these fields and counts were sent, whatever they represent.
    ghost sends: { Self → Bus → List Self.Expr → List (CountOf Self.Expr) → Self → Type 0 };

    /// Sends the tuple of `fields` on the bus of this name, as often as `count` says.
    fn push_interaction(
        &mut self,
        bus_name: &str,
        fields: &[Self::Expr],
        count: Count<Self::Expr>,
    ) -> Mem<()>
        ensures later { Self.later self.old self.new }
        ensures keeps_shape { Self.shape self.new ≡ Self.shape self.old }
        ensures answers { IsTrue Self.never_fails → IsOk result }
        ensures sure { IsTrue Self.only_asserting_fails → IsOk result }
        ensures appends { SendsTuple (Self.represents self.old) (global bus_name.now) fields.now
            count (Self.appends self.old self.new) result }
        ensures sends { IfOk result
            (λ _. sends self.old (global bus_name.now) fields.now (count ∷ []) self.new) }
        ensures on_error { OnErr result (Self.appends self.old self.new [] []) };

    /// Sends tuples within the table itself: `fields` has the tuples one after another, all of one width, as many as
    /// there are counts, and tuple k is sent as often as count k says. There is at least one count, and the number of
    /// counts divides that of the fields.
    fn push_local_interaction(
        &mut self,
        fields: &[Self::Expr],
        counts: &[Count<Self::Expr>],
    ) -> Mem<()>
        requires counted { 0 < length counts.now }
        requires whole { length fields.now % length counts.now ≡ 0 }
        ensures later { Self.later self.old self.new }
        ensures keeps_shape { Self.shape self.new ≡ Self.shape self.old }
        ensures answers { IsTrue Self.never_fails → IsOk result }
        ensures sure { IsTrue Self.only_asserting_fails → IsOk result }
        ensures appends { SendsTuples (Self.represents self.old) local fields.now counts.now
            (Self.appends self.old self.new) result }
        ensures sends { IfOk result (λ _. sends self.old local fields.now counts.now self.new) }
        ensures on_error { OnErr result (Self.appends self.old self.new [] []) };

    // What is sent are the trees that the expressions represent.
    ghost sends_appends: { (a b : Self) (bus : Bus) (xs : List Self.Expr)
        (cs : List (CountOf Self.Expr)) (fs : List (Tree Self.F))
        (vs : List (CountOf (Tree Self.F)))
        → Represent (Self.represents a) xs fs
        → Represent (RepresentsCount (Self.represents a)) cs vs → sends a bus xs cs b
        → Self.appends a b [] (record { bus = bus; fields = fs; counts = vs } ∷ []) };
}
