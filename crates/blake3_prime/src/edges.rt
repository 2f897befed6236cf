//! The constraints before and after the rounds.
ghost use Rattle.std.specs.Prelude.{◌≡◌, ◌+◌, ◌*◌, ◌<◌, ◌≤◌, [], ◌∷◌, IfOk, IsOk, IsTrue, false};
ghost use Rattle.air_core.specs.declared.cells.Cell.TheVariants.{Main as MainCell};
ghost use Rattle.air_core.specs.Tree.{bool_tree, difference, cell as cell_tree};
ghost use Rattle.air_gadgets.specs.Gadgets.{RepresentAt, number, xor_tree};
ghost use Rattle.air_gadgets.specs.Words.{limb};
ghost use Rattle.air_core.specs.Appended.{Appended, AppendedSome, OnFailure};
ghost use Rattle.blake3_prime.specs.Trees.{bits_trees, packed_trees, limbs_trees, word_trees, iv_trees, masked_trees, xor_trees, first_trees, first_output_trees, other_output_trees, last_trees};

use crate::half::assert_turned;
use crate::reading::{limbs_at, packed_at};
use air_core::AirBuilder;
use air_gadgets::xor;
use blake3_compress::{IV, cell_at};
use p3_field::{Mem, RingCore};

// Asserts that the cell is a bit.
fn assert_bit<AB: AirBuilder>(builder: &mut AB, column: usize) -> Mem<()>
    requires wide { 9168 ≤ (AB.shape builder.old).main }
    requires within_column { column < 9168 }
    ensures later { AB.later builder.old builder.new }
    ensures keeps_shape { AB.shape builder.new ≡ AB.shape builder.old }
    ensures answers { IsTrue AB.never_fails → IsOk result }
    ensures appends { IfOk result
        (λ _. Appended AB.appends builder.old builder.new
        (bool_tree AB.F.ring.one (cell_tree (MainCell false column)) ∷ [])) }
    ensures on_error { OnFailure result
        (AppendedSome AB.appends builder.old builder.new
        (bool_tree AB.F.ring.one (cell_tree (MainCell false column)) ∷ [])) }
{
    let cell = cell_at(builder, column)?;
    builder.assert_bool(cell)?;
    Ok(())
}

/// Asserts that the n cells from a column on are bits.
pub fn assert_bits<AB: AirBuilder>(builder: &mut AB, column: usize, n: usize) -> Mem<()>
    requires wide { 9168 ≤ (AB.shape builder.old).main }
    requires within_column { column + n ≤ 9168 }
    ensures later { AB.later builder.old builder.new }
    ensures keeps_shape { AB.shape builder.new ≡ AB.shape builder.old }
    ensures answers { IsTrue AB.never_fails → IsOk result }
    ensures appends { IfOk result
        (λ _. Appended AB.appends builder.old builder.new (bits_trees AB.F.ring column n)) }
    ensures on_error { OnFailure result
        (AppendedSome AB.appends builder.old builder.new (bits_trees AB.F.ring column n)) }
{
    for i in 0..n {
        assert_bit(builder, column + i)?;
    }
    Ok(())
}

// Asserts that the packed limbs of the bits from one column on are the limbs from another on.
fn assert_packed<AB: AirBuilder>(builder: &mut AB, column: usize, limbs: usize) -> Mem<()>
    requires wide { 9168 ≤ (AB.shape builder.old).main }
    requires within_column { column + 32 ≤ 9168 }
    requires within_limbs { limbs + 2 ≤ 9168 }
    ensures later { AB.later builder.old builder.new }
    ensures keeps_shape { AB.shape builder.new ≡ AB.shape builder.old }
    ensures answers { IsTrue AB.never_fails → IsOk result }
    ensures appends { IfOk result
        (λ _. Appended AB.appends builder.old builder.new (packed_trees AB.F.ring column limbs)) }
    ensures on_error { OnFailure result
        (AppendedSome AB.appends builder.old builder.new (packed_trees AB.F.ring column limbs)) }
{
    let packed = packed_at(builder, column)?;
    let cells = limbs_at(builder, limbs)?;
    builder.assert_eq(packed[0], cells[0])?;
    builder.assert_eq(packed[1], cells[1])?;
    Ok(())
}

/// Asserts that of four words.
pub fn assert_limbs<AB: AirBuilder>(builder: &mut AB, column: usize, limbs: usize) -> Mem<()>
    requires wide { 9168 ≤ (AB.shape builder.old).main }
    requires within_column { column + 128 ≤ 9168 }
    requires within_limbs { limbs + 8 ≤ 9168 }
    ensures later { AB.later builder.old builder.new }
    ensures keeps_shape { AB.shape builder.new ≡ AB.shape builder.old }
    ensures answers { IsTrue AB.never_fails → IsOk result }
    ensures appends { IfOk result
        (λ _. Appended AB.appends builder.old builder.new (limbs_trees AB.F.ring column limbs)) }
    ensures on_error { OnFailure result
        (AppendedSome AB.appends builder.old builder.new (limbs_trees AB.F.ring column limbs)) }
{
    for i in 0..4 {
        assert_packed(builder, column + 32 * i, limbs + 2 * i)?;
    }
    Ok(())
}

// The limbs of a word as constants.
fn word_limbs<AB: AirBuilder>(builder: &mut AB, word: u32) -> Mem<[AB::Expr; 2]>
    ensures later { AB.later builder.old builder.new }
    ensures keeps_shape { AB.shape builder.new ≡ AB.shape builder.old }
    ensures answers { IsTrue AB.never_fails → IsOk result }
    ensures appends { AB.appends builder.old builder.new [] [] }
    ensures represents { IfOk result
        (λ es. RepresentAt (AB.represents builder.new) es (λ k. number AB.F.ring (limb word k))) }
{
    let low = builder.constant(<AB::F as RingCore>::from_u64((word % 65536) as u64))?;
    let high = builder.constant(<AB::F as RingCore>::from_u64((word / 65536) as u64))?;
    Ok([low, high])
}

// Asserts that the limbs from a column on are those of a word.
fn assert_word<AB: AirBuilder>(builder: &mut AB, column: usize, word: u32) -> Mem<()>
    requires wide { 9168 ≤ (AB.shape builder.old).main }
    requires within_column { column + 2 ≤ 9168 }
    ensures later { AB.later builder.old builder.new }
    ensures keeps_shape { AB.shape builder.new ≡ AB.shape builder.old }
    ensures answers { IsTrue AB.never_fails → IsOk result }
    ensures appends { IfOk result
        (λ _. Appended AB.appends builder.old builder.new (word_trees AB.F.ring column word)) }
    ensures on_error { OnFailure result
        (AppendedSome AB.appends builder.old builder.new (word_trees AB.F.ring column word)) }
{
    let cells = limbs_at(builder, column)?;
    let limbs = word_limbs(builder, word)?;
    builder.assert_eq(cells[0], limbs[0])?;
    builder.assert_eq(cells[1], limbs[1])?;
    Ok(())
}

/// Asserts that four words are those of the initial value.
pub fn assert_iv<AB: AirBuilder>(builder: &mut AB, column: usize) -> Mem<()>
    requires wide { 9168 ≤ (AB.shape builder.old).main }
    requires within_column { column + 8 ≤ 9168 }
    ensures later { AB.later builder.old builder.new }
    ensures keeps_shape { AB.shape builder.new ≡ AB.shape builder.old }
    ensures answers { IsTrue AB.never_fails → IsOk result }
    ensures appends { IfOk result
        (λ _. Appended AB.appends builder.old builder.new (iv_trees AB.F.ring column)) }
    ensures on_error { OnFailure result
        (AppendedSome AB.appends builder.old builder.new (iv_trees AB.F.ring column)) }
{
    for i in 0..4 {
        assert_word(builder, column + 2 * i, IV[i])?;
    }
    Ok(())
}

/// Asserts that four words by limbs are the exclusive or of others by bits, and that those of the mask are bits.
pub fn assert_masked<AB: AirBuilder>(
    builder: &mut AB,
    limbs: usize,
    bits: usize,
    mask: usize,
) -> Mem<()>
    requires wide { 9168 ≤ (AB.shape builder.old).main }
    requires within_limbs { limbs + 8 ≤ 9168 }
    requires within_bits { bits + 128 ≤ 9168 }
    requires within_mask { mask + 128 ≤ 9168 }
    ensures later { AB.later builder.old builder.new }
    ensures keeps_shape { AB.shape builder.new ≡ AB.shape builder.old }
    ensures answers { IsTrue AB.never_fails → IsOk result }
    ensures appends { IfOk result
        (λ _. Appended AB.appends builder.old builder.new
        (masked_trees AB.F.ring limbs bits mask)) }
    ensures on_error { OnFailure result
        (AppendedSome AB.appends builder.old builder.new (masked_trees AB.F.ring limbs bits mask)) }
{
    for i in 0..4 {
        assert_turned(builder, limbs + 2 * i, bits + 32 * i, mask + 32 * i, 0)?;
    }
    Ok(())
}

// Asserts that a cell is the exclusive or of two others.
fn assert_xor<AB: AirBuilder>(builder: &mut AB, column: usize, left: usize, right: usize) -> Mem<()>
    requires wide { 9168 ≤ (AB.shape builder.old).main }
    requires within_column { column < 9168 }
    requires within_left { left < 9168 }
    requires within_right { right < 9168 }
    ensures later { AB.later builder.old builder.new }
    ensures keeps_shape { AB.shape builder.new ≡ AB.shape builder.old }
    ensures answers { IsTrue AB.never_fails → IsOk result }
    ensures appends { IfOk result (λ _. Appended AB.appends builder.old builder.new
        (difference (cell_tree (MainCell false column))
        (xor_tree AB.F.ring (cell_tree (MainCell false left)) (cell_tree (MainCell false right)))
        ∷ [])) }
    ensures on_error { OnFailure result
        (AppendedSome AB.appends builder.old builder.new
        (difference (cell_tree (MainCell false column))
        (xor_tree AB.F.ring (cell_tree (MainCell false left)) (cell_tree (MainCell false right)))
        ∷ [])) }
{
    let cell = cell_at(builder, column)?;
    let x = cell_at(builder, left)?;
    let y = cell_at(builder, right)?;
    let both = xor(builder, x, y)?;
    builder.assert_eq(cell, both)?;
    Ok(())
}

/// Asserts that 128 cells are bit by bit the exclusive or of others.
pub fn assert_xors<AB: AirBuilder>(
    builder: &mut AB,
    column: usize,
    left: usize,
    right: usize,
) -> Mem<()>
    requires wide { 9168 ≤ (AB.shape builder.old).main }
    requires within_column { column + 128 ≤ 9168 }
    requires within_left { left + 128 ≤ 9168 }
    requires within_right { right + 128 ≤ 9168 }
    ensures later { AB.later builder.old builder.new }
    ensures keeps_shape { AB.shape builder.new ≡ AB.shape builder.old }
    ensures answers { IsTrue AB.never_fails → IsOk result }
    ensures appends { IfOk result
        (λ _. Appended AB.appends builder.old builder.new (xor_trees AB.F.ring column left right)) }
    ensures on_error { OnFailure result
        (AppendedSome AB.appends builder.old builder.new (xor_trees AB.F.ring column left right)) }
{
    for i in 0..128 {
        assert_xor(builder, column + i, left + i, right + i)?;
    }
    Ok(())
}

/// Appends the constraints before the rounds.
pub fn assert_first<AB: AirBuilder>(builder: &mut AB) -> Mem<()>
    requires wide { 9168 ≤ (AB.shape builder.old).main }
    ensures later { AB.later builder.old builder.new }
    ensures keeps_shape { AB.shape builder.new ≡ AB.shape builder.old }
    ensures answers { IsTrue AB.never_fails → IsOk result }
    ensures appends { IfOk result
        (λ _. Appended AB.appends builder.old builder.new (first_trees AB.F.ring)) }
    ensures on_error { OnFailure result
        (AppendedSome AB.appends builder.old builder.new (first_trees AB.F.ring)) }
{
    assert_bits(builder, 0, 896)?;
    assert_limbs(builder, 512, 896)?;
    assert_iv(builder, 904)?;
    Ok(())
}

// Appends the constraints of the output's first four words.
fn assert_first_output<AB: AirBuilder>(builder: &mut AB) -> Mem<()>
    requires wide { 9168 ≤ (AB.shape builder.old).main }
    ensures later { AB.later builder.old builder.new }
    ensures keeps_shape { AB.shape builder.new ≡ AB.shape builder.old }
    ensures answers { IsTrue AB.never_fails → IsOk result }
    ensures appends { IfOk result
        (λ _. Appended AB.appends builder.old builder.new (first_output_trees AB.F.ring)) }
    ensures on_error { OnFailure result
        (AppendedSome AB.appends builder.old builder.new (first_output_trees AB.F.ring)) }
{
    assert_limbs(builder, 8528, 8392)?;
    assert_bits(builder, 8656, 128)?;
    assert_masked(builder, 8256, 8656, 8528)?;
    Ok(())
}

// Appends the constraints of the output's other words.
fn assert_other_output<AB: AirBuilder>(builder: &mut AB) -> Mem<()>
    requires wide { 9168 ≤ (AB.shape builder.old).main }
    ensures later { AB.later builder.old builder.new }
    ensures keeps_shape { AB.shape builder.new ≡ AB.shape builder.old }
    ensures answers { IsTrue AB.never_fails → IsOk result }
    ensures appends { IfOk result
        (λ _. Appended AB.appends builder.old builder.new (other_output_trees AB.F.ring)) }
    ensures on_error { OnFailure result
        (AppendedSome AB.appends builder.old builder.new (other_output_trees AB.F.ring)) }
{
    assert_xors(builder, 8784, 8264, 8400)?;
    assert_xors(builder, 8912, 512, 8528)?;
    assert_xors(builder, 9040, 640, 8400)?;
    Ok(())
}

/// Appends the constraints after the rounds.
pub fn assert_last<AB: AirBuilder>(builder: &mut AB) -> Mem<()>
    requires wide { 9168 ≤ (AB.shape builder.old).main }
    ensures later { AB.later builder.old builder.new }
    ensures keeps_shape { AB.shape builder.new ≡ AB.shape builder.old }
    ensures answers { IsTrue AB.never_fails → IsOk result }
    ensures appends { IfOk result
        (λ _. Appended AB.appends builder.old builder.new (last_trees AB.F.ring)) }
    ensures on_error { OnFailure result
        (AppendedSome AB.appends builder.old builder.new (last_trees AB.F.ring)) }
{
    assert_first_output(builder)?;
    assert_other_output(builder)?;
    Ok(())
}
