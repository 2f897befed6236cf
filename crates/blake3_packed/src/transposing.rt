//! Rows and columns of bits exchanged.
ghost use Rattle.std.specs.Prelude.{◌≡◌, ℕ, ◌+◌, ◌<◌};
ghost use Rattle.blake3_packed.specs.Lanes.{IsHalving, IsExchanged, IsTransposed};

// Rows p and p + 32 become rows 2p and 2p + 1, and exchange those halves of each run of 2 * width bits in which the higher
// row number becomes the lower place of a bit.
#[inline(always)]
fn exchanged(rows: &[u64; 64], width: u32, mask: u64) -> [u64; 64]
    requires small { width < 64 }
    requires halving { IsHalving width mask }
    ensures { IsExchanged width rows.now result }
{
    let mut made = [0u64; 64];
    for p in 0..32 {
        let low = rows[p];
        let high = rows[p + 32];
        let moved = ((low >> width) ^ high) & mask;
        made[2 * p] = low ^ (moved << width);
        made[2 * p + 1] = high ^ moved;
    }
    made
}

/// Bit j of row i becomes bit i of row j.
pub fn transposed(rows: &[u64; 64]) -> [u64; 64]
    ensures { IsTransposed rows.now result }
{
    let a = exchanged(rows, 32, 0x00000000ffffffff);
    let b = exchanged(&a, 16, 0x0000ffff0000ffff);
    let c = exchanged(&b, 8, 0x00ff00ff00ff00ff);
    let d = exchanged(&c, 4, 0x0f0f0f0f0f0f0f0f);
    let e = exchanged(&d, 2, 0x3333333333333333);
    exchanged(&e, 1, 0x5555555555555555)
}
