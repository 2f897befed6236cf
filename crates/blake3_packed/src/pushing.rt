//! Planes pushed to the packed rows.
ghost use Rattle.std.specs.Prelude.{◌≡◌, ℕ, suc, ◌+◌, ◌*◌, ◌≤◌, IfOk};
ghost use Rattle.std.specs.Int.{bit_at};
ghost use Rattle.p3_field.specs.Poly.{tabulate};
ghost use Rattle.blake3_compress.specs.Compress.{Input};
ghost use Rattle.blake3_compress.specs.TraceRow.{bit_cells};
ghost use Rattle.blake3_binary.specs.Sums.{carry};
ghost use Rattle.blake3_packed.specs.Lanes.{PushedLanes, ArePlanes, AreCarries, AreWordPlanes};

use p3_field::Mem;

/// Pushes the planes of a word.
pub fn push_planes(values: &mut Vec<u64>, planes: &[u64; 32]) -> Mem<()>
    ensures { (w : ℕ → ℕ) → ArePlanes planes.now w
        → IfOk result (λ _. PushedLanes values.old.items values.new.items 32
        (λ j. tabulate 32 (bit_at (w j)))) }
{
    values.extend_from_slice(planes)?;
    Ok(())
}

/// Pushes the carries of a sum into places 1 to 31.
pub fn push_carries(values: &mut Vec<u64>, carries: &[u64; 32]) -> Mem<()>
    ensures { (v w : ℕ → ℕ) → AreCarries carries.now v w
        → IfOk result (λ _. PushedLanes values.old.items values.new.items 31
        (λ j. tabulate 31 (λ i. carry (v j) (w j) (suc i)))) }
{
    values.extend_from_slice(&carries[1..32])?;
    Ok(())
}

/// Pushes the planes of n words from one on.
pub fn push_words(values: &mut Vec<u64>, words: &[[u64; 32]; 28], from: usize, n: usize) -> Mem<()>
    requires { from + n ≤ 28 }
    ensures { (x : ℕ → Input) → AreWordPlanes 28 words.now x
        → IfOk result (λ _. PushedLanes values.old.items values.new.items (32 * n)
        (λ j. bit_cells n (λ i. x j (from + i)))) }
{
    for i in 0..n {
        push_planes(values, &words[from + i])?;
    }
    Ok(())
}
