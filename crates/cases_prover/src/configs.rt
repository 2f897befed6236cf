//! The configurations: the program's in both versions of the transcript, and one that grinds no bits.

use p3_challenger::Sha256Challenger;
use p3_dft::Radix2Dit;
use p3_uni_stark::TranscriptVersion;
use plain_pcs::PlainPcs;
use tool_statement::{ToolConfig, tool_config};

// The program's configuration without grinding.
fn zero_config() -> ToolConfig {
    match PlainPcs::new(Radix2Dit, 1) {
        Some(pcs) => ToolConfig::new(pcs, Sha256Challenger::new(), 0, 0),
        None => unreachable!(),
    }
}

/// The configuration of this name.
pub fn config_of(name: &str) -> ToolConfig {
    match name {
        "v1" => tool_config(TranscriptVersion::V1),
        "v2" => tool_config(TranscriptVersion::V2),
        _ => zero_config(),
    }
}
