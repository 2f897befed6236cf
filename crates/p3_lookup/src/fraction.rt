//! The constraint of a lookup's fraction, handed to a builder.
ghost use Rattle.std.specs.Prelude.{◌≡◌, ◌+◌, ◌*◌, ◌<◌, [], length, map, All, IfOk, IsOk, IsTrue};
ghost use Rattle.p3_field.specs.Poly.{eval_poly};
ghost use Rattle.air_core.specs.Clauses.{GivesOfOne, GivesOfTwo};
ghost use Rattle.air_core.specs.Tree.{Tree, sum, difference, product, constant as constant_tree};
ghost use Rattle.air_core.specs.Shape.{ReadsSendable};
ghost use Rattle.air_core.specs.Symbolic.{tree_of};
ghost use Rattle.p3_lookup.specs.Lookup.{pair_up};
ghost use Rattle.p3_lookup.specs.Written.{tree_count};
ghost use Rattle.p3_lookup.specs.Term.{common, numerator};
ghost use Rattle.p3_lookup.specs.Trees.{trees};
ghost use Rattle.p3_lookup.specs.Emission.{ArePartsOf};

use crate::expression::lifted;
use crate::lookup::Lookup;
use air_core::{
    AirBuilder, Count, ExtCell, ExtensionBuilder, PermutationAirBuilder, SymbolicExpression,
};
use p3_field::{FieldCore, Mem, RingCore};

// x + beta * sum.
fn combined_step<AB: ExtensionBuilder>(
    builder: &mut AB,
    x: &SymbolicExpression<AB::F>,
    beta: AB::ExprEF,
    rest: AB::ExprEF,
) -> Mem<AB::ExprEF>
    requires reads { ReadsSendable (AB.shape builder.old) (tree_of x.now) }
    ensures keeps_shape { AB.shape builder.new ≡ AB.shape builder.old }
    ensures answers { IsTrue AB.never_fails → IsOk result }
    ensures appends { AB.appends builder.old builder.new [] [] }
    ensures represents { GivesOfTwo (AB.represents_ext builder.old) beta rest
        (AB.represents_ext builder.new) (λ b s. sum (tree_of x.now) (product b s)) result }
{
    let first = lifted(builder, x)?;
    let others = builder.mul_ext(beta, rest)?;
    builder.add_ext(first, others)
}

// The constant zero or one.
pub(crate) fn constant_ext<AB: ExtensionBuilder>(builder: &mut AB, x: AB::F) -> Mem<AB::ExprEF>
    ensures keeps_shape { AB.shape builder.new ≡ AB.shape builder.old }
    ensures answers { IsTrue AB.never_fails → IsOk result }
    ensures appends { AB.appends builder.old builder.new [] [] }
    ensures represents { IfOk result (λ e. AB.represents_ext builder.new e (constant_tree x)) }
{
    let constant = builder.constant(x)?;
    builder.lift(constant)
}

// The sum of the tuple's e_k times beta^k.
fn combined<AB: ExtensionBuilder>(
    builder: &mut AB,
    tuple: &[SymbolicExpression<AB::F>],
    beta: AB::ExprEF,
) -> Mem<AB::ExprEF>
    requires reads { All (ReadsSendable (AB.shape builder.old)) (map tree_of tuple.now) }
    ensures keeps_shape { AB.shape builder.new ≡ AB.shape builder.old }
    ensures answers { IsTrue AB.never_fails → IsOk result }
    ensures appends { AB.appends builder.old builder.new [] [] }
    ensures represents { GivesOfOne (AB.represents_ext builder.old) beta
        (AB.represents_ext builder.new) (eval_poly (trees AB.F.ring) (map tree_of tuple.now))
        result }
{
    let mut sum = constant_ext(builder, <AB::F as RingCore>::ZERO)?;
    for i in (0..tuple.len()).rev() {
        sum = combined_step(builder, &tuple[i], beta, sum)?;
    }
    Ok(sum)
}

// The base minus the tuple's sum.
fn denominator_of<AB: ExtensionBuilder>(
    builder: &mut AB,
    tuple: &[SymbolicExpression<AB::F>],
    base: AB::ExprEF,
    beta: AB::ExprEF,
) -> Mem<AB::ExprEF>
    requires reads { All (ReadsSendable (AB.shape builder.old)) (map tree_of tuple.now) }
    ensures keeps_shape { AB.shape builder.new ≡ AB.shape builder.old }
    ensures answers { IsTrue AB.never_fails → IsOk result }
    ensures appends { AB.appends builder.old builder.new [] [] }
    ensures represents { GivesOfTwo (AB.represents_ext builder.old) base beta
        (AB.represents_ext builder.new)
        (λ a b. difference a (eval_poly (trees AB.F.ring) (map tree_of tuple.now) b)) result }
{
    let sum = combined(builder, tuple, beta)?;
    builder.sub_ext(base, sum)
}

// The common denominator and the numerator with one more term.
fn with_term<AB: ExtensionBuilder>(
    builder: &mut AB,
    count: AB::ExprEF,
    denominator: AB::ExprEF,
    common: AB::ExprEF,
    numerator: AB::ExprEF,
) -> Mem<(AB::ExprEF, AB::ExprEF)>
    ensures keeps_shape { AB.shape builder.new ≡ AB.shape builder.old }
    ensures answers { IsTrue AB.never_fails → IsOk result }
    ensures appends { AB.appends builder.old builder.new [] [] }
    ensures represents { (m d c n : Tree AB.F) → AB.represents_ext builder.old count m
        → AB.represents_ext builder.old denominator d
        → AB.represents_ext builder.old common c → AB.represents_ext builder.old numerator n
        → IfOk result (λ p. AB.represents_ext builder.new p.0 (product d c)
        × AB.represents_ext builder.new p.1 (sum (product m c) (product d n))) }
{
    let own = builder.mul_ext(count, common)?;
    let others = builder.mul_ext(denominator, numerator)?;
    let numerator = builder.add_ext(own, others)?;
    let common = builder.mul_ext(denominator, common)?;
    Ok((common, numerator))
}

// The common denominator and the numerator with one more tuple and its count.
fn with_tuple<AB: ExtensionBuilder>(
    builder: &mut AB,
    tuple: &[SymbolicExpression<AB::F>],
    count: &SymbolicExpression<AB::F>,
    challenges: (AB::ExprEF, AB::ExprEF),
    parts: (AB::ExprEF, AB::ExprEF),
) -> Mem<(AB::ExprEF, AB::ExprEF)>
    requires tuple { All (ReadsSendable (AB.shape builder.old)) (map tree_of tuple.now) }
    requires count { ReadsSendable (AB.shape builder.old) (tree_of count.now) }
    ensures keeps_shape { AB.shape builder.new ≡ AB.shape builder.old }
    ensures answers { IsTrue AB.never_fails → IsOk result }
    ensures appends { AB.appends builder.old builder.new [] [] }
    ensures represents { (a b c n : Tree AB.F) → AB.represents_ext builder.old challenges.0 a
        → AB.represents_ext builder.old challenges.1 b
        → AB.represents_ext builder.old parts.0 c → AB.represents_ext builder.old parts.1 n
        → IfOk result (λ p. AB.represents_ext builder.new p.0
        (product (difference a (eval_poly (trees AB.F.ring) (map tree_of tuple.now) b)) c)
        × AB.represents_ext builder.new p.1
        (sum (product (tree_of count.now) c)
        (product (difference a (eval_poly (trees AB.F.ring) (map tree_of tuple.now) b)) n))) }
{
    let denominator = denominator_of(builder, tuple, challenges.0, challenges.1)?;
    let times = lifted(builder, count)?;
    with_term(builder, times, denominator, parts.0, parts.1)
}

// The common denominator and the numerator of a lookup's terms, where the challenges are its base and beta.
pub(crate) fn fraction_parts<AB: ExtensionBuilder>(
    builder: &mut AB,
    elements: &[Vec<SymbolicExpression<AB::F>>],
    multiplicities: &[Count<SymbolicExpression<AB::F>>],
    challenges: (AB::ExprEF, AB::ExprEF),
) -> Mem<(AB::ExprEF, AB::ExprEF)>
    requires counted { length multiplicities.now ≡ length elements.now }
    requires tuples { All (All (ReadsSendable (AB.shape builder.old)))
        (map (map tree_of) (map (λ v. v.items) elements.now)) }
    requires counts { All (λ c. ReadsSendable (AB.shape builder.old) c.value)
        (map tree_count multiplicities.now) }
    ensures keeps_shape { AB.shape builder.new ≡ AB.shape builder.old }
    ensures answers { IsTrue AB.never_fails → IsOk result }
    ensures appends { AB.appends builder.old builder.new [] [] }
    ensures represents { (a b : Tree AB.F) → AB.represents_ext builder.old challenges.0 a
        → AB.represents_ext builder.old challenges.1 b
        → IfOk result (λ p. ArePartsOf (AB.represents_ext builder.new) AB.F.ring a b p
        (pair_up (map (map tree_of) (map (λ v. v.items) elements.now))
        (map tree_count multiplicities.now))) }
{
    let mut common = constant_ext(builder, <AB::F as RingCore>::ONE)?;
    let mut numerator = constant_ext(builder, <AB::F as RingCore>::ZERO)?;
    for i in (0..elements.len()).rev() {
        let parts = (common, numerator);
        let next = with_tuple(
            builder,
            &elements[i],
            &multiplicities[i].value,
            challenges,
            parts,
        )?;
        common = next.0;
        numerator = next.1;
    }
    Ok((common, numerator))
}
