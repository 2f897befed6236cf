//! What the constraints mean: laws as the contracts of functions that compute nothing.
ghost use Rattle.std.specs.Prelude.{◌≡◌, ℕ, ◌^◌, ◌<◌, ◌≤◌, All, length};
ghost use Rattle.air_core.specs.Degree.{multiple};
ghost use Rattle.chain_air.specs.Meanings.{ChainsMean, TracesMean};
ghost use Rattle.chain_air.specs.Trees.{chain_trees};

use p3_field::{Field, PrimeField64};

/// Traces meet the constraints in each row exactly where their rows are those of a chain between the two chaining values whose limbs are the public values
/// (`traces`); rows of compressions are linked, as the other constraints ask, exactly where they are those of such a chain (`rows`).
pub fn chains_mean<F: PrimeField64>()
    requires { 2 ^ 20 < F.ORDER_U64 }
    ensures traces { TracesMean F.ring }
    ensures rows { ChainsMean F.ring }
{}

/// There are 9920 constraints.
pub fn constraints_are_counted<F: Field>()
    ensures { length (chain_trees F.ring) ≡ 9920 }
{}

/// The constraints have degree at most 3, where the transition selector has degree two at most.
pub fn degree_is_three<F: Field>()
    ensures { (n : ℕ) → n ≤ 2 → All (λ t. multiple n t ≤ 3) (chain_trees F.ring) }
{}
