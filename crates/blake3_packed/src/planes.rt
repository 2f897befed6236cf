//! Sums and turns of words in 64 lanes, by their bit planes.
ghost use Rattle.std.specs.Prelude.{◌≡◌, ℕ, ◌+◌, ◌%◌, ◌^◌, ◌<◌, bit_xor};
ghost use Rattle.std.specs.Int.{rotate_right, w32};
ghost use Rattle.blake3_packed.specs.Lanes.{ArePlanes, AreCarries};

/// x + y into x, in each lane.
pub fn add_planes(x: &mut [u64; 32], y: &[u64; 32])
    ensures { (v w : ℕ → ℕ) → ArePlanes x.old v → ArePlanes y.now w
        → ArePlanes x.new (λ j. (v j + w j) % 2 ^ 32) }
{
    let mut carry = 0u64;
    for k in 0..32 {
        let a = x[k];
        let b = y[k];
        let half = a ^ b;
        x[k] = half ^ carry;
        carry = (a & b) | (carry & half);
    }
}

/// x + y + z into x, in each lane. Gives the carries of x + y.
pub fn add_two_planes(x: &mut [u64; 32], y: &[u64; 32], z: &[u64; 32]) -> [u64; 32]
    ensures { (v w u : ℕ → ℕ) → ArePlanes x.old v → ArePlanes y.now w → ArePlanes z.now u
        → ArePlanes x.new (λ j. (v j + w j + u j) % 2 ^ 32) × AreCarries result v w }
{
    let mut carries = [0u64; 32];
    let mut first = 0u64;
    let mut second = 0u64;
    for k in 0..32 {
        let a = x[k];
        let b = y[k];
        let c = z[k];
        let half = a ^ b;
        carries[k] = first;
        let sum = half ^ first;
        first = (a & b) | (first & half);
        let other = sum ^ c;
        x[k] = other ^ second;
        second = (sum & c) | (second & other);
    }
    carries
}

/// (x xor y) turned to the right by s, in each lane.
#[inline(always)]
pub fn turned_planes(x: &[u64; 32], y: &[u64; 32], s: usize) -> [u64; 32]
    requires { s < 32 }
    ensures { (v w : ℕ → ℕ) → ArePlanes x.now v → ArePlanes y.now w
        → ArePlanes result (λ j. rotate_right w32 (bit_xor (v j) (w j)) s) }
{
    let mut turned = [0u64; 32];
    for k in 0..32 {
        let from = (k + s) % 32;
        turned[k] = x[from] ^ y[from];
    }
    turned
}
