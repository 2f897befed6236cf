//! The program's configuration.
ghost use Rattle.std.specs.Prelude.{◌≡◌};
ghost use Rattle.tool_statement.specs.Config.{tool_setting};

use batch_config::Settings;
use commit_core::UnivariateStarkPcs;
use p3_challenger::Sha256Challenger;
use p3_dft::Radix2Dit;
use p3_field::{BabyBear, QuarticExtension, TwoAdicCore};
use p3_uni_stark::{StarkConfig, TranscriptVersion};
use plain_pcs::PlainPcs;

/// The program's configuration (not in Plonky3): values in `BabyBear`, challenges in its extension of degree four, a transcript over
/// SHA-256, and the plain scheme.
pub type ToolConfig = StarkConfig<
    PlainPcs<BabyBear, Radix2Dit>,
    QuarticExtension,
    Sha256Challenger,
>;

/// The configuration with this version of the transcript: extensions are twice as large as their columns' domain, a transcript begins at a
/// chain of zeros, and each grinding has 4 bits.
pub fn tool_config(version: TranscriptVersion) -> ToolConfig
    ensures scheme { result.pcs ≡ record { log_blowup = 1 } }
    ensures setting { ⟦<ToolConfig as Settings>⟧.setting result ≡ tool_setting version }
{
    match PlainPcs::new(Radix2Dit, 1) {
        Some(pcs) => { ToolConfig::new(pcs, Sha256Challenger::new(), 4, 4).with_version(version) }
        None => unreachable!(),
    }
}
