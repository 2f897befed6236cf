//! Constraints folded by both folders.
ghost use Rattle.std.specs.Prelude.{◌≡◌};
ghost use Rattle.p3_field.specs.Quartic.{quartic_ring};

use crate::reading::{number, values_of};
use crate::writing::{listed, push_values};
use air_core::{
    AirBuilder, Count, ExtCell, ExtensionBuilder, InteractionBuilder, PermutationAirBuilder,
};
use air_tables::SwapAir;
use p3_field::{BabyBear, ExtensionField, FieldCore, Mem, QuarticExtension, RingCore};
use p3_uni_stark::{ProverFolder, VerifierFolder, prover_fold, verifier_fold};
use std::alloc::Global;

// The prover's folder over these rows, public values and powers, where each selector is one and nothing is summed yet.
fn prover_folder<'a>(
    local: &'a [BabyBear],
    next: &'a [BabyBear],
    public_values: &'a [BabyBear],
    powers: &'a [QuarticExtension],
) -> ProverFolder<'a, BabyBear, QuarticExtension>
    ensures zero { result.accumulator ≡ quartic_ring.zero }
    ensures first { result.constraint_index ≡ 0 }
    ensures local { result.main_local.now ≡ local.now }
    ensures next { result.main_next.now ≡ next.now }
    ensures public { result.public_values.now ≡ public_values.now }
{
    ProverFolder {
        main_local: local,
        main_next: next,
        preprocessed_local: &[],
        preprocessed_next: &[],
        periodic_values: &[],
        public_values,
        is_first_row: BabyBear::ONE,
        is_last_row: BabyBear::ONE,
        is_transition: BabyBear::ONE,
        alpha_powers: powers,
        constraint_index: 0,
        accumulator: QuarticExtension::ZERO,
    }
}

// The verifier's folder over these rows and public values by a challenge, where each selector is one and nothing is summed
// yet.
fn verifier_folder<'a>(
    local: &'a [QuarticExtension],
    next: &'a [QuarticExtension],
    public_values: &'a [BabyBear],
    alpha: QuarticExtension,
) -> VerifierFolder<'a, BabyBear, QuarticExtension>
    ensures zero { result.accumulator ≡ quartic_ring.zero }
    ensures local { result.main_local.now ≡ local.now }
    ensures next { result.main_next.now ≡ next.now }
    ensures public { result.public_values.now ≡ public_values.now }
{
    VerifierFolder {
        main_local: local,
        main_next: next,
        preprocessed_local: &[],
        preprocessed_next: &[],
        periodic_values: &[],
        public_values,
        is_first_row: QuarticExtension::ONE,
        is_last_row: QuarticExtension::ONE,
        is_transition: QuarticExtension::ONE,
        alpha,
        accumulator: QuarticExtension::ZERO,
    }
}

// The folds of the swap table's constraints: the numbers are a row, the next one, and the public values.
fn folds_of_swap(
    alloc: Global,
    numbers: &[usize],
    powers: &[QuarticExtension],
    alpha: QuarticExtension,
) -> Mem<String> {
    let values = values_of::<BabyBear>(alloc, numbers)?;
    let [l, r, next_l, next_r, a, b, x] = *values.as_slice() else {
        return String::from_str(alloc, "bad case");
    };
    let (local, next, public_values) = ([l, r], [next_l, next_r], [a, b, x]);
    let folder = prover_folder(&local, &next, &public_values, powers);
    let prover = prover_fold(&SwapAir, folder);
    let local = [
        QuarticExtension::from_base(l),
        QuarticExtension::from_base(r),
    ];
    let next = [
        QuarticExtension::from_base(next_l),
        QuarticExtension::from_base(next_r),
    ];
    let folder = verifier_folder(&local, &next, &public_values, alpha);
    listed(alloc, &[prover, verifier_fold(&SwapAir, folder)])
}

// Asserts over the extension that the square of x is zero, and sends x on a bus and within the table, as often as x says; or asserts
// that x + 3 is x, that x is a bit, and that x and x + 3 are zero.
fn asserted<AB: InteractionBuilder>(builder: &mut AB, call: &str, x: AB::Expr) -> Mem<()> {
    if call == "square" {
        let above = builder.lift(x)?;
        let square = builder.mul_ext(above, above)?;
        let sum = builder.add_ext(square, above)?;
        let back = builder.sub_ext(sum, above)?;
        builder.assert_zero_ext(back)?;
        let count = Count { value: x, bound: 1 };
        builder.push_interaction("squares", &[x], count)?;
        return builder.push_local_interaction(&[x], &[count]);
    }
    let three = builder.constant(<AB::F as RingCore>::from_u64(3))?;
    let sum = builder.add(x, three)?;
    builder.assert_eq(sum, x)?;
    builder.assert_bools(&[x])?;
    builder.assert_zeros(&[x, sum])
}

/// Folds by the powers of the second list, and by the challenge of the third: the swap table's constraints; or assertions on the
/// first number, as often as the second says. Of these come the number of powers taken, both sums, and both empty sums of lookups.
pub fn folds(alloc: Global, call: &str, lists: &[Vec<usize>]) -> Mem<String> {
    let [numbers, powers, alpha] = lists else {
        return String::from_str(alloc, "bad case");
    };
    let powers = values_of::<QuarticExtension>(alloc, powers)?;
    let alpha = QuarticExtension::from_u64(number(alpha, 0) as u64);
    if call == "swap" {
        return folds_of_swap(alloc, numbers, &powers, alpha);
    }
    let x = BabyBear::from_u64(number(numbers, 0) as u64);
    let mut prover = prover_folder(&[], &[], &[], &powers);
    let mut verifier = verifier_folder(&[], &[], &[], alpha);
    let above = verifier.constant(x)?;
    for _ in 0..number(numbers, 1) {
        asserted(&mut prover, call, x)?;
        asserted(&mut verifier, call, above)?;
    }
    let taken = prover.constraint_index;
    let mut out = format!(in alloc; "{taken}")?;
    let empty = [
        prover.ext_cell(ExtCell::Terminal)?,
        verifier.ext_cell(ExtCell::Terminal)?,
    ];
    push_values(&mut out, alloc, &[prover.accumulator, verifier.accumulator])?;
    push_values(&mut out, alloc, &empty)?;
    Ok(out)
}
