//! What the rows of a committed table are, where it holds with the constraints of a chain.
ghost use Rattle.law_chain.specs.Committed.{CommittedChains};

use chain_air::meanings::chains_mean;
use law_committed::fields::baby_bear_has_laws;
use p3_field::BabyBear;

/// A committed table over BabyBear and its extension, with the columns and the public values of a chain between two chaining values,
/// holds with the constraints of a chain exactly where its rows over the base field are those of such a chain.
pub fn committed_tables_are_chains()
    ensures { CommittedChains }
{
    chains_mean::<BabyBear>();
    baby_bear_has_laws();
}
