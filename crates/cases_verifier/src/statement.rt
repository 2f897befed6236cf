//! What is kept from one case to the next: what is stated, tables with what both sides share of them, and the numbers of a proof.
ghost use Rattle.std.specs.Prelude.{◌≤◌, All};

use crate::reading::{Case, elements};
use crate::settings::small_config;
use crate::writing::bad_case;
use air_tables::{SwapAir, WheelAir};
use batch_config::Settings;
use batch_setup::ProverData;
use batch_statement::SharedData;
use blake3_prime::Blake3Air;
use commit_core::{CosetPcs, Pcs, PolynomialSpace, UnivariateStarkPcs};
use law_soundness::PlainConfig;
use p3_challenger::{CanObserve, CanSample, GrindingChallenger};
use p3_dft::TwoAdicSubgroupDft;
use p3_field::{BabyBear, ExtensionField, Mem};
use p3_uni_stark::TranscriptVersion;
use plain_pcs::{PlainCommitment, PlainPcs};
use std::alloc::Global;
use tool_statement::tool_config;
use tool_tables::{ToolAir, WordsAir, tables_send_one_width};

/// What both sides share over the plain scheme.
pub type Common = SharedData<BabyBear, PlainCommitment<BabyBear>>;

/// What is stated.
#[derive(Drop)]
pub struct Stated {
    /// The tables.
    pub airs: Vec<ToolAir<BabyBear>>,
    /// Their public values.
    pub publics: Vec<Vec<BabyBear>>,
    /// What both sides share of them.
    pub common: Common,
}

/// What is kept from one case to the next.
#[derive(Drop)]
pub struct Kept {
    /// What is stated.
    pub stated: Stated,
    /// The numbers of this statement in a proof file.
    pub statement: Vec<u64>,
    /// The numbers of a proof.
    pub numbers: Vec<u64>,
}

/// The table of this kind, by the number that it has in a proof file, and of 2^`log_rows` rows.
pub fn air_of(alloc: Global, kind: u64, log_rows: u64) -> Mem<Option<ToolAir<BabyBear>>> {
    match kind {
        1 => Ok(Some(ToolAir::Swap(SwapAir))),
        2 if log_rows <= 10 => {
            let wheel = WheelAir::new(alloc, log_rows as usize)?;
            Ok(Some(ToolAir::Wheel(wheel)))
        }
        3 => Ok(Some(ToolAir::Words(WordsAir::Take))),
        4 => Ok(Some(ToolAir::Words(WordsAir::Give))),
        5 => Ok(Some(ToolAir::Hash(Blake3Air {}))),
        _ => Ok(None),
    }
}

// What both sides share of tables with these degree bits; None where a table doesn't fit its own.
fn shared<D, E, C>(
    alloc: Global,
    config: &PlainConfig<BabyBear, D, E, C>,
    airs: &[ToolAir<BabyBear>],
    degree_bits: &[usize],
) -> Option<Common>
where
    D: TwoAdicSubgroupDft<BabyBear>,
    E: ExtensionField<BabyBear>,
    C: Copy
        + CanObserve<E>
        + CanSample<E>
        + CanSample<BabyBear>
        + GrindingChallenger<Witness = BabyBear>
        + CanObserve<PlainCommitment<BabyBear>>,
    requires blowup { config.now.pcs.log_blowup ≤ 2 }
    requires bits { All (λ b. b ≤ 20) degree_bits.now }
{
    tables_send_one_width::<BabyBear>();
    match ProverData::<PlainConfig<BabyBear, D, E, C>>::from_airs_and_degrees(
        alloc,
        config,
        airs,
        degree_bits,
    ) {
        Ok(made) => Some(made.common),
        Err(_) => None,
    }
}

// What is stated of tables over a configuration: of each its kind, the logarithm of its rows' number, and its public values.
fn tables_stated(alloc: Global, name: &str, tables: &[Vec<u64>]) -> Mem<Option<Stated>> {
    let mut airs = Vec::new(alloc);
    let mut publics = Vec::new(alloc);
    let mut degree_bits = Vec::new(alloc);
    for table in tables {
        let [kind, log_rows, values @ ..] = table.as_slice() else {
            return Ok(None);
        };
        let Some(air) = air_of(alloc, *kind, *log_rows)? else {
            return Ok(None);
        };
        airs.push(air)?;
        degree_bits.push(*log_rows as usize)?;
        publics.push(elements(alloc, values)?)?;
    }
    if !degree_bits.iter().all(|bits| *bits <= 20) {
        return Ok(None);
    }
    let shared = match name {
        "tool" => shared(
            alloc,
            &tool_config(TranscriptVersion::V1),
            &airs,
            &degree_bits,
        ),
        _ => shared(alloc, &small_config(0), &airs, &degree_bits),
    };
    let Some(common) = shared else {
        return Ok(None);
    };
    Ok(Some(Stated {
        airs,
        publics,
        common,
    }))
}

// The numbers of a statement in a proof file: how many tables there are, and those of each.
fn tables_numbers(alloc: Global, tables: &[Vec<u64>]) -> Mem<Vec<u64>> {
    let mut numbers = vec![in alloc; tables.len() as u64]?;
    for table in tables {
        numbers.extend_from_slice(table)?;
    }
    Ok(numbers)
}

// Gives a table's preprocessed trace other degree bits, and answers those that it was committed for.
fn set_degree_bits(common: &mut Common, table: usize, degree_bits: usize) -> Option<usize> {
    let traces = common.preprocessed.as_mut()?;
    let entry = traces.instances.get_mut(table)?.as_mut()?;
    let before = entry.degree_bits;
    entry.degree_bits = degree_bits;
    Some(before)
}

/// Takes over what a case states, and answers how many tables or numbers that is, or what stood in the place of a height.
pub fn keep(alloc: Global, kept: &mut Kept, case: &Case) -> Mem<String> {
    let [numbers, tables @ ..] = case.groups.as_slice() else {
        return bad_case(alloc);
    };
    let answer = match case.call {
        "tables" => {
            let Some(next) = tables_stated(alloc, case.name, tables)? else {
                return bad_case(alloc);
            };
            kept.stated = next;
            kept.statement = tables_numbers(alloc, tables)?;
            Some(tables.len())
        }
        "proof" => {
            kept.numbers = Vec::from_slice(alloc, numbers)?;
            Some(numbers.len())
        }
        _ => match numbers.as_slice() {
            [table, bits] => set_degree_bits(
                &mut kept.stated.common,
                *table as usize,
                *bits as usize,
            ),
            _ => None,
        },
    };
    match answer {
        Some(count) => format!(in alloc; "{count}"),
        None => bad_case(alloc),
    }
}
