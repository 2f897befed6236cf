//! Where the words of the row stand.
ghost use Rattle.std.specs.Prelude.{◌≡◌, ℕ, ◌+◌, ◌-◌, ◌*◌, ◌/◌, ◌%◌, ◌^◌, ◌<◌, ◌≤◌, List, [], ◌∷◌, length};
ghost use Rattle.blake3_compress.specs.TraceRow.{turn_of, d_turn, b_turn, message_of};
ghost use Rattle.blake3_prime.specs.Trees.{place_of, columns_of_step};

use blake3_compress::scheduled_word;

/// The columns of a state's four rows: rows 0 and 2 by limbs, rows 1 and 3 by bits.
#[derive(Clone, Copy)]
pub struct Place {
    /// The first row's column.
    pub row0: usize,
    /// The second row's column.
    pub row1: usize,
    /// The third row's column.
    pub row2: usize,
    /// The fourth row's column.
    pub row3: usize,
}

/// Where the words of a step stand: a and c by limbs, b and d by bits.
#[derive(Clone, Copy)]
pub struct Columns {
    /// The first row's word.
    pub a: usize,
    /// The second row's word.
    pub b: usize,
    /// The third row's word.
    pub c: usize,
    /// The fourth row's word.
    pub d: usize,
}

/// The column of the message word that step g of half round n takes in.
pub fn message_column(n: usize, g: usize) -> usize
    requires steps { g < 4 }
    requires rounds { n < 28 }
    ensures column { result ≡ 32 * message_of n g }
    ensures within { result + 32 ≤ 512 }
{
    32 * scheduled_word(n / 4, 8 * (n % 4 / 2) + 2 * g + n % 2)
}

/// Where the state after n half rounds stands.
pub fn state_place(n: usize) -> Place
    requires { n ≤ 28 }
    ensures place { result ≡ place_of n }
    ensures row0 { result.row0 + 8 ≤ 9168 }
    ensures row1 { result.row1 + 128 ≤ 9168 }
    ensures row2 { result.row2 + 8 ≤ 9168 }
    ensures row3 { result.row3 + 128 ≤ 9168 }
{
    if n == 0 {
        return Place {
            row0: 896,
            row1: 640,
            row2: 904,
            row3: 768,
        };
    }
    let at = 912 + 272 * (n - 1);
    Place {
        row0: at,
        row1: at + 8,
        row2: at + 136,
        row3: at + 144,
    }
}

/// Where the words of step g stand in the state after m half rounds, by columns or by diagonals (turn 0 or 1).
pub fn step_columns(m: usize, turn: usize, g: usize) -> Columns
    requires steps { g < 4 }
    requires states { m ≤ 28 }
    requires turns { turn < 2 }
    ensures columns { result ≡ columns_of_step (place_of m) turn g }
    ensures a { result.a + 2 ≤ 9168 }
    ensures b { result.b + 32 ≤ 9168 }
    ensures c { result.c + 2 ≤ 9168 }
    ensures d { result.d + 32 ≤ 9168 }
{
    let place = state_place(m);
    Columns {
        a: place.row0 + 2 * (g % 4),
        b: place.row1 + 32 * ((g + turn) % 4),
        c: place.row2 + 2 * ((g + turn * 2) % 4),
        d: place.row3 + 32 * ((g + turn * 3) % 4),
    }
}
