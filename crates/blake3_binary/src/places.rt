//! Where the words of the state stand in the row.
ghost use Rattle.std.specs.Prelude.{◌≡◌, ℕ, ◌+◌, ◌*◌, ◌/◌, ◌%◌, ◌<◌, ◌≤◌};
ghost use Rattle.blake3_compress.specs.TraceRow.{message_of};
ghost use Rattle.blake3_binary.specs.Trees.{half_column};
ghost use Rattle.blake3_binary.specs.Places.{IsInRow, a_word, b_place, c_word, d_place};

use crate::words::Word;
use blake3_compress::{IV, scheduled_word};

/// The column of the message word that step g of half round n takes in.
pub fn message_column(n: usize, g: usize) -> usize
    requires steps { g < 4 }
    requires rounds { n < 28 }
    ensures column { result ≡ 256 + 32 * message_of n g }
    ensures within { result + 32 ≤ 768 }
{
    256 + 32 * scheduled_word(n / 4, 8 * (n % 4 / 2) + 2 * g + n % 2)
}

/// Where step g of half round n stands.
pub fn half_column(n: usize, g: usize) -> usize
    requires halves { n < 28 }
    requires steps { g < 4 }
    ensures column { result ≡ half_column n g }
    ensures within { result + 95 ≤ 11536 }
{
    896 + 190 * (4 * (n / 2) + g) + 95 * (n % 2)
}

/// Where b stands after n half rounds.
pub fn b_place(n: usize, column: usize) -> usize
    requires halves { n ≤ 28 }
    requires columns { column < 4 }
    ensures column { result ≡ b_place n column }
    ensures within { result + 32 ≤ 11536 }
{
    if n == 0 {
        return 128 + 32 * column;
    }
    let before = n - 1;
    half_column(before, (column + 3 * (before % 4 / 2)) % 4) + 63
}

/// Where d stands after n half rounds.
pub fn d_place(n: usize, column: usize) -> usize
    requires halves { n ≤ 28 }
    requires columns { column < 4 }
    ensures column { result ≡ d_place n column }
    ensures within { result + 32 ≤ 11536 }
{
    if n == 0 {
        return 768 + 32 * column;
    }
    let before = n - 1;
    half_column(before, (column + 9 * (before % 4 / 2)) % 4) + 31
}

/// The word a after n half rounds.
pub fn a_word(n: usize, column: usize) -> Word
    requires halves { n ≤ 28 }
    requires columns { column < 4 }
    ensures word { result ≡ a_word n column }
    ensures within { IsInRow result }
{
    if n == 0 {
        return Word::Column {
            column: 32 * column,
        };
    }
    let before = n - 1;
    let g = column % 4;
    Word::Turned {
        left: d_place(before, (g + 3 * (before % 4 / 2)) % 4),
        right: half_column(before, g) + 31,
        shift: 16 - 8 * (before % 2),
    }
}

/// The word c after n half rounds.
pub fn c_word(n: usize, column: usize) -> Word
    requires halves { n ≤ 28 }
    requires columns { column < 4 }
    ensures word { result ≡ c_word n column }
    ensures within { IsInRow result }
{
    if n == 0 {
        return Word::Constant { word: IV[column] };
    }
    let before = n - 1;
    let turn = before % 4 / 2;
    let g = (column + 6 * turn) % 4;
    Word::Turned {
        left: b_place(before, (g + turn) % 4),
        right: half_column(before, g) + 63,
        shift: 12 - 5 * (before % 2),
    }
}
