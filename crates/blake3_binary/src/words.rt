//! Words of the state as expressions.
ghost use Rattle.std.specs.Prelude.{◌≡◌, ◌+◌, ◌<◌, ◌≤◌, [], IfOk, IsOk, IsTrue};
ghost use Rattle.air_gadgets.specs.Gadgets.{RepresentAt};
ghost use Rattle.blake3_binary.specs.Sums.{turned};
ghost use Rattle.blake3_binary.specs.Trees.{from_column};
ghost use Rattle.blake3_binary.specs.Places.{word_bit, IsInRow};

use crate::adding::turned_bits;
use crate::reading::constant_bits;
use air_core::AirBuilder;
use blake3_compress::bits_at;
use p3_field::Mem;

/// Where the bits of a word of the state come from.
#[derive(Clone, Copy)]
pub enum Word {
    /// From a column on.
    Column {
        /// The column of the lowest bit.
        column: usize,
    },
    /// A constant.
    Constant {
        /// The word.
        word: u32,
    },
    /// The word from one column on xor that from another on, turned to the left.
    Turned {
        /// The column of the first.
        left: usize,
        /// The column of the one that is turned.
        right: usize,
        /// By how much.
        shift: usize,
    },
}

/// The bits of the word from one column on xor that from another on, turned to the left.
pub fn turned_at<AB: AirBuilder>(
    builder: &mut AB,
    left: usize,
    right: usize,
    shift: usize,
) -> Mem<[AB::Expr; 32]>
    requires wide { 11536 ≤ (AB.shape builder.old).main }
    requires within_left { left + 32 ≤ 11536 }
    requires within_right { right + 32 ≤ 11536 }
    ensures later { AB.later builder.old builder.new }
    ensures keeps_shape { AB.shape builder.new ≡ AB.shape builder.old }
    ensures answers { IsTrue AB.never_fails → IsOk result }
    ensures appends { AB.appends builder.old builder.new [] [] }
    ensures represents { IfOk result
        (λ es. RepresentAt (AB.represents builder.new) es
        (turned (from_column left) (from_column right) shift)) }
{
    let x = bits_at(builder, left)?;
    let y = bits_at(builder, right)?;
    let bits = turned_bits(builder, x, y, shift)?;
    Ok(bits)
}

/// The bits of a word.
pub fn word_at<AB: AirBuilder>(builder: &mut AB, word: Word) -> Mem<[AB::Expr; 32]>
    requires wide { 11536 ≤ (AB.shape builder.old).main }
    requires within { IsInRow word }
    ensures later { AB.later builder.old builder.new }
    ensures keeps_shape { AB.shape builder.new ≡ AB.shape builder.old }
    ensures answers { IsTrue AB.never_fails → IsOk result }
    ensures appends { AB.appends builder.old builder.new [] [] }
    ensures represents { IfOk result
        (λ es. RepresentAt (AB.represents builder.new) es (word_bit AB.F.ring word)) }
{
    match word {
        Word::Column { column } => bits_at(builder, column),
        Word::Constant { word } => constant_bits(builder, word),
        Word::Turned { left, right, shift } => turned_at(builder, left, right, shift),
    }
}
