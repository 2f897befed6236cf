//! The configurations: the program's is the library's own, and three more.
ghost use Rattle.std.specs.Prelude.{◌≡◌, ◌<◌, ◌^◌, IfSome};

use crate::challengers::FixedChallenger;
use commit_core::{CosetPcs, Pcs, PolynomialSpace, UnivariateStarkPcs};
use law_soundness::PlainConfig;
use p3_challenger::Sha256Challenger;
use p3_dft::{NaiveDft, Radix2Dit};
use p3_field::{BabyBear, QuarticExtension};
use plain_pcs::PlainPcs;
use tool_statement::ToolConfig;

/// A smaller configuration: challenges in the base field, a blowup of four.
pub type SmallConfig = PlainConfig<BabyBear, NaiveDft, BabyBear, Sha256Challenger>;

/// The program's configuration but for the challenger, which draws what is known before.
pub type FixedConfig = PlainConfig<BabyBear, Radix2Dit, QuarticExtension, FixedChallenger>;

/// As many bits as are ground at once, at most 30: they are fewer values than the base field has.
pub fn few_bits(number: u64) -> Option<usize>
    ensures { IfSome result (λ bits. 2 ^ bits < 2013265921) }
{
    if number <= 30 {
        Some(number as usize)
    } else {
        None
    }
}

/// The smaller configuration, which grinds so many bits before the point, and none before the lookups' challenges.
pub fn small_config(ood_bits: usize) -> SmallConfig
    requires { 2 ^ ood_bits < 2013265921 }
    ensures { result.pcs.log_blowup ≡ 2 }
{
    match PlainPcs::new(NaiveDft, 2) {
        Some(pcs) => SmallConfig::new(pcs, Sha256Challenger::new(), 0, ood_bits),
        None => unreachable!(),
    }
}

/// The program's configuration without grinding.
pub fn zero_config() -> ToolConfig {
    match PlainPcs::new(Radix2Dit, 1) {
        Some(pcs) => ToolConfig::new(pcs, Sha256Challenger::new(), 0, 0),
        None => unreachable!(),
    }
}

/// The configuration whose challenger draws alpha and then zeta, without grinding.
pub fn fixed_config(alpha: QuarticExtension, zeta: QuarticExtension) -> FixedConfig {
    let challenger = FixedChallenger {
        next: alpha,
        later: zeta,
    };
    match PlainPcs::new(Radix2Dit, 1) {
        Some(pcs) => FixedConfig::new(pcs, challenger, 0, 0),
        None => unreachable!(),
    }
}
