//! What a statement's tables fix: their AIRs, their public values, and the data that prover and verifier share.
ghost use Rattle.std.specs.Prelude.{◌≡◌, All, IfOk, map};
ghost use Rattle.p3_field.specs.BabyBear.{baby_bear_ring};
ghost use Rattle.commit_core.specs.Commitments.{IsCommitment};
ghost use Rattle.plain_pcs.specs.Extension.{commitment_of};
ghost use Rattle.plain_pcs.specs.Holding.{AreHolding, IsMade};
ghost use Rattle.batch_setup.specs.Packed.{source_of};
ghost use Rattle.batch_setup.specs.Preprocessed.{IsPrepared};
ghost use Rattle.batch_statement.specs.Statement.{WellFormed, read_common};
ghost use Rattle.tool_tables.specs.Tool.{tool_declaration, tool_interactions, tool_trees};
ghost use Rattle.tool_statement.specs.Config.{tool_scheme};
ghost use Rattle.tool_statement.specs.StatedTables.{TableWithin, entries_of, log_heights_of, preprocessed_traces, publics_lists, sources_of, tool_common};

use crate::config::ToolConfig;
use crate::table::TableStatement;
use air_core::{Air, BaseAir};
use batch_setup::{ProverData, SetupError};
use batch_statement::SharedData;
use commit_core::{PolynomialSpace, UnivariateStarkPcs};
use p3_field::{BabyBear, Mem, TwoAdicCore, TwoAdicMultiplicativeCoset};
use plain_pcs::PlainCommitment;
use std::alloc::{AllocError, Global};
use tool_tables::{ToolAir, tables_send_one_width};

/// The data that prover and verifier share over the program's configuration (not in Plonky3).
pub type ToolCommon = SharedData<BabyBear, PlainCommitment<BabyBear>>;

/// The tables' AIRs in order. The only error is running out of memory.
pub fn airs_of(alloc: Global, tables: &[TableStatement]) -> Mem<Vec<ToolAir<BabyBear>>>
    requires { All TableWithin tables.now }
    ensures { IfOk result (λ v.
        map (source_of (tool_declaration baby_bear_ring) (tool_trees baby_bear_ring)
        (tool_interactions baby_bear_ring)) v.items ≡ sources_of tables.now) }
{
    let mut airs = Vec::new(alloc);
    for table in tables {
        airs.push(table.air(alloc)?)?;
    }
    Ok(airs)
}

/// The tables' public values in order. The only error is running out of memory.
pub fn public_values_of(alloc: Global, tables: &[TableStatement]) -> Mem<Vec<Vec<BabyBear>>>
    ensures { IfOk result (λ v. map (λ p. p.items) v.items ≡ publics_lists tables.now) }
{
    let mut values = Vec::new(alloc);
    for table in tables {
        values.push(table.public_values(alloc)?)?;
    }
    Ok(values)
}

// The logarithms of the tables' heights.
fn log_heights(alloc: Global, tables: &[TableStatement]) -> Mem<Vec<usize>>
    ensures { IfOk result (λ v. v.items ≡ log_heights_of tables.now) }
{
    let mut bits = Vec::new(alloc);
    for table in tables {
        bits.push(table.log_height())?;
    }
    Ok(bits)
}

/// The prover's data of these tables, whose AIRs are those of [`airs_of`]: what `ProverData::from_airs_and_degrees` makes of them. The only error is
/// running out of memory.
pub fn prover_data(
    alloc: Global,
    config: &ToolConfig,
    tables: &[TableStatement],
    airs: &[ToolAir<BabyBear>],
) -> Mem<ProverData<ToolConfig>>
    requires within { All TableWithin tables.now }
    requires scheme { config.now.pcs ≡ record { log_blowup = 1 } }
    requires airs { map (source_of (tool_declaration baby_bear_ring) (tool_trees baby_bear_ring)
        (tool_interactions baby_bear_ring)) airs.now ≡ sources_of tables.now }
    ensures common { IfOk result (λ d. read_common d.common ≡ tool_common tables.now) }
    ensures formed { IfOk result
        (λ d. WellFormed (map (tool_declaration baby_bear_ring) airs.now) (read_common d.common)) }
    ensures prover_data { IfOk result
        (λ d. IsPrepared (λ es p.
        IsCommitment baby_bear_ring
        ⟦<TwoAdicMultiplicativeCoset<BabyBear> as PolynomialSpace>⟧.points
        ⟦<TwoAdicMultiplicativeCoset<BabyBear> as PolynomialSpace>⟧.point_at
        (λ es c. c ≡ commitment_of tool_scheme es) IsMade (AreHolding tool_scheme) es p)
        (entries_of tables.now)
        (preprocessed_traces tables.now) d.common.preprocessed
        d.prover_only.preprocessed_prover_data) }
{
    tables_send_one_width::<BabyBear>();
    let bits = log_heights(alloc, tables)?;
    match ProverData::<ToolConfig>::from_airs_and_degrees(alloc, config, airs, &bits) {
        Ok(data) => Ok(data),
        Err(SetupError::OutOfMemory) => Err(AllocError),
        Err(SetupError::LengthMismatch) => unreachable!(),
        Err(SetupError::PreprocessedHeight { .. }) => unreachable!(),
        Err(SetupError::Pcs { .. }) => unreachable!(),
        Err(SetupError::LookupBudget { .. }) => unreachable!(),
    }
}

/// The shared data of these tables, whose AIRs are those of [`airs_of`]: what [`prover_data`] makes of them. The only error is running out of
/// memory.
pub fn shared_data(
    alloc: Global,
    config: &ToolConfig,
    tables: &[TableStatement],
    airs: &[ToolAir<BabyBear>],
) -> Mem<ToolCommon>
    requires within { All TableWithin tables.now }
    requires scheme { config.now.pcs ≡ record { log_blowup = 1 } }
    requires airs { map (source_of (tool_declaration baby_bear_ring) (tool_trees baby_bear_ring)
        (tool_interactions baby_bear_ring)) airs.now ≡ sources_of tables.now }
    ensures common { IfOk result (λ c. read_common c ≡ tool_common tables.now) }
    ensures formed { IfOk result
        (λ c. WellFormed (map (tool_declaration baby_bear_ring) airs.now) (read_common c)) }
{
    let data = prover_data(alloc, config, tables, airs)?;
    Ok(data.common)
}
