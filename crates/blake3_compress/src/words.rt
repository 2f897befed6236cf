//! The compression on words, half a round at a time.
ghost use Rattle.std.specs.Prelude.{◌≡◌, ℕ, ◌+◌, ◌-◌, ◌*◌, ◌/◌, ◌%◌, ◌^◌, ◌<◌, ◌≤◌, List, [], ◌∷◌, length};
ghost use Rattle.std.specs.Prelude.{bit_xor};
ghost use Rattle.p3_field.specs.Poly.{tabulate};
ghost use Rattle.blake3_compress.specs.Compress.{Input, State, first_state, half_quarter_round, half_a, half_b, half_c, half_d, words_taken};
ghost use Rattle.blake3_compress.specs.TraceRow.{turn_of, d_turn, b_turn, message_of, half_round};
ghost use Rattle.blake3_compress.specs.Generated.{quarter_of, AreFirst, IsState, input_of};

use crate::schedule::scheduled_word;

/// The first four words of the initial value, as SHA-256 has them (the BLAKE3 paper, section 2.2).
pub const IV: [u32; 4] = [0x6a09e667, 0xbb67ae85, 0x3c6ef372, 0xa54ff53a];

/// Four words of the state, one of each row.
#[derive(Clone, Copy)]
pub struct FourWords {
    /// The first row's word.
    pub a: u32,
    /// The second row's word.
    pub b: u32,
    /// The third row's word.
    pub c: u32,
    /// The fourth row's word.
    pub d: u32,
}

/// The state, by rows.
#[derive(Clone, Copy)]
pub struct StateWords {
    /// The first row.
    pub row0: [u32; 4],
    /// The second row.
    pub row1: [u32; 4],
    /// The third row.
    pub row2: [u32; 4],
    /// The fourth row.
    pub row3: [u32; 4],
}

// A half of G, which turns d by s and b by t.
fn half_step(s: u32, t: u32, q: FourWords, message: u32) -> FourWords
    ensures a { result.a ≡ half_a (quarter_of q) message }
    ensures b { result.b ≡ half_b s t (quarter_of q) message }
    ensures c { result.c ≡ half_c s (quarter_of q) message }
    ensures d { result.d ≡ half_d s (quarter_of q) message }
{
    let a = q.a.wrapping_add(q.b).wrapping_add(message);
    let d = (q.d ^ a).rotate_right(s);
    let c = q.c.wrapping_add(d);
    let b = (q.b ^ c).rotate_right(t);
    FourWords { a, b, c, d }
}

/// The words that step g of half round n takes: a column, or in the second half of a round a diagonal.
pub fn taken_words(n: usize, state: &StateWords, g: usize) -> FourWords
    requires steps { g < 4 }
    ensures { (v : State) → IsState state.now v → quarter_of result ≡ words_taken (turn_of n) v g }
{
    let turn = n % 4 / 2;
    FourWords {
        a: state.row0[g % 4],
        b: state.row1[(g + turn) % 4],
        c: state.row2[(g + turn * 2) % 4],
        d: state.row3[(g + turn * 3) % 4],
    }
}

/// The words that step g of half round n makes of these.
pub fn made_words(n: usize, block: &[u32; 28], state: &StateWords, g: usize) -> FourWords
    requires halves { n < 28 }
    requires steps { g < 4 }
    ensures { (x : Input) (v : State) → AreFirst block.now x → IsState state.now v
        → quarter_of result ≡ half_quarter_round (d_turn n) (b_turn n) (words_taken (turn_of n) v g)
        (x (message_of n g)) }
{
    let words = taken_words(n, state, g);
    let message = block[scheduled_word(n / 4, 8 * (n % 4 / 2) + 2 * g + n % 2)];
    half_step(
        16 - 8 * (n % 2) as u32,
        12 - 5 * (n % 2) as u32,
        words,
        message,
    )
}

/// The first state: the chaining value, four words of the initial value, and the last four words.
pub fn first_words(words: &[u32; 28]) -> StateWords
    ensures { IsState result (first_state (input_of words.now)) }
{
    StateWords {
        row0: [words[16], words[17], words[18], words[19]],
        row1: [words[20], words[21], words[22], words[23]],
        row2: IV,
        row3: [words[24], words[25], words[26], words[27]],
    }
}

/// The exclusive or of four words each.
pub fn xor_words(a: &[u32; 4], b: &[u32; 4]) -> [u32; 4]
    ensures { (v w : ℕ → ℕ) → a.now ≡ tabulate 4 v → b.now ≡ tabulate 4 w
        → result ≡ tabulate 4 (λ i. bit_xor (v i) (w i)) }
{
    [a[0] ^ b[0], a[1] ^ b[1], a[2] ^ b[2], a[3] ^ b[3]]
}

/// The state after half round n, from that before it. A round has four half rounds: the first and the second half of its
/// column steps, then of its diagonal steps.
pub fn after_half_round(n: usize, block: &[u32; 28], state: &StateWords) -> StateWords
    requires { n < 28 }
    ensures { (x : Input) (v : State) → AreFirst block.now x → IsState state.now v
        → IsState result (half_round x n v) }
{
    let p = made_words(n, block, state, 0);
    let q = made_words(n, block, state, 1);
    let r = made_words(n, block, state, 2);
    let s = made_words(n, block, state, 3);
    if n % 4 / 2 == 0 {
        return StateWords {
            row0: [p.a, q.a, r.a, s.a],
            row1: [p.b, q.b, r.b, s.b],
            row2: [p.c, q.c, r.c, s.c],
            row3: [p.d, q.d, r.d, s.d],
        };
    }
    StateWords {
        row0: [p.a, q.a, r.a, s.a],
        row1: [s.b, p.b, q.b, r.b],
        row2: [r.c, s.c, p.c, q.c],
        row3: [q.d, r.d, s.d, p.d],
    }
}
