//! The chunks of the quotient of one table.
ghost use Rattle.std.specs.Prelude.{◌≡◌, ℕ, ◌+◌, ◌*◌, ◌^◌, ◌≤◌, List, All, IfOk, length};
ghost use Rattle.std.specs.Prelude.{option_to_list, false};
ghost use Rattle.std.specs.Option.{option_map};
ghost use Rattle.p3_field.specs.Field.{TwoAdic, Extension};
ghost use Rattle.p3_matrix.specs.Matrix.{FillsRows};
ghost use Rattle.air_core.specs.Tree.{Tree};
ghost use Rattle.commit_core.specs.Space.{EachOf};
ghost use Rattle.p3_lookup.specs.Written.{read_all};
ghost use Rattle.law_committed.specs.Committed.{CommittedTable};
ghost use Rattle.prover_values.specs.Chunks.{IsChunk};
ghost use Rattle.prover_values.specs.Evaluations.{quotient_values_on};
ghost use Rattle.law_valid.specs.Traced.{constraints, log_parts as log_parts_of, log_rows as log_rows_of, quotient_shift};
ghost use Rattle.law_honest.specs.HonestProof.{chunk_matrices, committed_table, honest_terminal};
ghost use Rattle.prover_quotients.specs.ProverData.{HaveTableValues, HoldsTable};
ghost use Rattle.prover_quotients.specs.Tables.{IsTracedTable, table_of_instance};

use crate::columns::{TableColumns, columns_on};
use crate::domains::{power_of_two, quotient_domain};
use crate::places::Places;
use air_core::{Air, AirLayout, BaseAir};
use batch_config::Settings;
use batch_constraints::get_log_num_quotient_chunks;
use batch_setup::{Committed, StarkInstance, natural_domain};
use commit_core::{CosetPcs, Pcs, PolynomialSpace, UnivariateStarkPcs};
use p3_field::{
    BasedVectorSpace, ExtensionField, Field, FieldCore, Mem, PrimeCharacteristicRing, PrimeCore64,
    PrimeField64, RingCore, TwoAdicCore, TwoAdicField, TwoAdicMultiplicativeCoset,
};
use p3_lookup::{LogUpGadget, LookupTerminal, Lookups};
use p3_matrix::{RowMajorMatrix, log2_strict_usize};
use p3_uni_stark::{Challenge, Domain, StarkGenericConfig, Val};
use prover_answer::ProverSettings;
use prover_values::{quotient_chunks, quotient_values};
use std::alloc::Global;

// The logarithm of the number of rows of a table.
fn log_rows<SC: StarkGenericConfig, A: Air<Val<SC>>>(
    config: &SC,
    instance: &StarkInstance<'_, SC, A>,
    lookups: &Lookups<Val<SC>>,
) -> usize
    requires { let c = ⟦<SC as Settings>⟧.setting config.now in
        IsTracedTable c (table_of_instance c A.declaration A.trees instance.now
        (read_all lookups.now)) }
    ensures { let c = ⟦<SC as Settings>⟧.setting config.now in
        result ≡ log_rows_of c (table_of_instance c A.declaration A.trees instance.now
        (read_all lookups.now)) }
{
    log2_strict_usize(instance.trace.height())
}

// The logarithm of the number of chunks of its quotient.
fn log_parts<SC: StarkGenericConfig, A: Air<Val<SC>>>(
    alloc: Global,
    config: &SC,
    instance: &StarkInstance<'_, SC, A>,
    lookups: &Lookups<Val<SC>>,
) -> Mem<usize>
    requires plain { SC.Pcs.ZK ≡ false }
    requires traced { let c = ⟦<SC as Settings>⟧.setting config.now in
        IsTracedTable c (table_of_instance c A.declaration A.trees instance.now
        (read_all lookups.now)) }
    ensures { let c = ⟦<SC as Settings>⟧.setting config.now in
        IfOk result (λ k. k ≡ log_parts_of c
        (table_of_instance c A.declaration A.trees instance.now (read_all lookups.now))) }
{
    let layout = AirLayout::from_air::<Val<SC>, A>(instance.air);
    let gadget = LogUpGadget::new();
    get_log_num_quotient_chunks(
        alloc,
        instance.air,
        layout,
        instance.trace.height(),
        lookups.as_slice(),
        0,
        &gadget,
    )
}

// A terminal that may be there, as a list.
fn terminal_values<E: Copy>(alloc: Global, terminal: &Option<LookupTerminal<E>>) -> Mem<Vec<E>>
    ensures { IfOk result (λ v. v.items ≡ option_to_list (option_map (λ t. t.0) terminal.now)) }
{
    let mut values = Vec::new(alloc);
    if let Some(terminal) = terminal {
        values.push(terminal.0)?;
    }
    Ok(values)
}

// The values of its quotient on this domain, on which its columns' values are given.
fn table_values<SC: StarkGenericConfig, A: Air<Val<SC>>>(
    alloc: Global,
    config: &SC,
    instance: &StarkInstance<'_, SC, A>,
    lookups: &Lookups<Val<SC>>,
    domain: Domain<SC>,
    columns: &TableColumns<Val<SC>>,
    challenges: &[Challenge<SC>],
    terminal: &Option<LookupTerminal<Challenge<SC>>>,
    alpha: Challenge<SC>,
) -> Mem<Vec<Challenge<SC>>>
    requires plain { SC.Pcs.ZK ≡ false }
    requires traced { let c = ⟦<SC as Settings>⟧.setting config.now in
        IsTracedTable c (table_of_instance c A.declaration A.trees instance.now
        (read_all lookups.now)) }
    requires domain { let c = ⟦<SC as Settings>⟧.setting config.now in
        let t = table_of_instance c A.declaration A.trees instance.now (read_all lookups.now) in
        domain ≡ record {
          shift = quotient_shift c;
          log_size = log_rows_of c t + log_parts_of c t;
        } }
    requires columns { let c = ⟦<SC as Settings>⟧.setting config.now in
        let t = table_of_instance c A.declaration A.trees instance.now (read_all lookups.now) in
        HaveTableValues c.field domain
        (committed_table c (⟦<SC as ProverSettings>⟧.prover config.now) t challenges.now)
        columns.now }
    requires challenges { 2 * length lookups.now ≤ length challenges.now }
    requires terminal { let c = ⟦<SC as Settings>⟧.setting config.now in
        let t = table_of_instance c A.declaration A.trees instance.now (read_all lookups.now) in
        option_map (λ t. t.0) terminal.now
        ≡ honest_terminal c (⟦<SC as ProverSettings>⟧.prover config.now) t challenges.now }
    ensures { let c = ⟦<SC as Settings>⟧.setting config.now in
        let t = table_of_instance c A.declaration A.trees instance.now (read_all lookups.now) in
        IfOk result (λ v. v.items
        ≡ quotient_values_on c.field c.extension
        (committed_table c (⟦<SC as ProverSettings>⟧.prover config.now) t challenges.now)
        (constraints c t) alpha domain) }
{
    let layout = AirLayout::from_air::<Val<SC>, A>(instance.air);
    let gadget = LogUpGadget::new();
    let terminals = terminal_values(alloc, terminal)?;
    let rows = natural_domain(config, log_rows(config, instance, lookups));
    quotient_values::<SC, A, LogUpGadget>(
        alloc,
        config.pcs(),
        instance.air,
        &instance.public_values,
        layout,
        rows,
        domain,
        &columns.main,
        columns.permutation.as_ref(),
        lookups.as_slice(),
        &terminals,
        &gadget,
        challenges,
        columns.preprocessed.as_ref(),
        alpha,
    )
}

// Each of these matrices fills its rows, as any matrix does.
fn matrices_fill<D, F>(chunks: &[(D, RowMajorMatrix<F>)])
    ensures { All (λ e. FillsRows e.1.values e.1.width) chunks.now }
{
    for chunk in chunks {
        let _height = chunk.1.height();
    }
}

// The 2^`log_parts` chunks of a quotient by its values on this domain.
fn chunks_of_values<F: TwoAdicField, E: ExtensionField<F>>(
    alloc: Global,
    domain: TwoAdicMultiplicativeCoset<F>,
    values: &[E],
    log_parts: usize,
) -> Mem<Vec<(TwoAdicMultiplicativeCoset<F>, RowMajorMatrix<F>)>>
    requires fits { log_parts ≤ domain.log_size }
    requires short { domain.log_size ≤ F.TWO_ADICITY }
    requires count { length values.now ≡ 2 ^ domain.log_size }
    ensures chunks { let f : TwoAdic
        F = record { ring = F.ring; inv = F.inv; root = F.root; generator = F.GENERATOR } in
        let e : Extension F E = record {
          ring = E.ring;
          embed = E.embed;
          dimension = E.DIMENSION;
          basis = E.basis;
          coefficients = E.coefficients;
          from_coefficients = E.from_coefficients;
        } in
        IfOk result (λ v. (t : CommittedTable F E) (trees : List (Tree F)) (alpha : E)
        → domain.log_size ≡ t.log_height + log_parts
        → values.now ≡ quotient_values_on f e t trees alpha domain
        → EachOf (2 ^ log_parts) v.items (IsChunk f e t domain.shift log_parts trees alpha)) }
    ensures fills { IfOk result (λ v. All (λ e. FillsRows e.1.values e.1.width) v.items) }
{
    let chunks = quotient_chunks(alloc, domain, values, power_of_two(log_parts))?;
    matrices_fill(&chunks);
    Ok(chunks)
}

/// The chunks of the quotient of one table, whose matrices stand at these places in the prover data.
pub(crate) fn table_chunks<SC: StarkGenericConfig, A: Air<Val<SC>>>(
    alloc: Global,
    config: &SC,
    instance: &StarkInstance<'_, SC, A>,
    lookups: &Lookups<Val<SC>>,
    preprocessed: Option<&Committed<SC>>,
    main: &Committed<SC>,
    permutation: Option<&Committed<SC>>,
    places: Places,
    challenges: &[Challenge<SC>],
    terminal: &Option<LookupTerminal<Challenge<SC>>>,
    alpha: Challenge<SC>,
) -> Mem<Vec<(Domain<SC>, RowMajorMatrix<Val<SC>>)>>
    requires plain { SC.Pcs.ZK ≡ false }
    requires traced { let c = ⟦<SC as Settings>⟧.setting config.now in
        IsTracedTable c (table_of_instance c A.declaration A.trees instance.now
        (read_all lookups.now)) }
    requires held { let c = ⟦<SC as Settings>⟧.setting config.now in
        let t = table_of_instance c A.declaration A.trees instance.now (read_all lookups.now) in
        HoldsTable (⟦<SC as ProverSettings>⟧.prover_backend config.now) places
        (option_map (λ d. d.now) preprocessed) main.now (option_map (λ d. d.now) permutation)
        (committed_table c (⟦<SC as ProverSettings>⟧.prover config.now) t challenges.now) }
    requires challenges { 2 * length lookups.now ≤ length challenges.now }
    requires terminal { let c = ⟦<SC as Settings>⟧.setting config.now in
        let t = table_of_instance c A.declaration A.trees instance.now (read_all lookups.now) in
        option_map (λ t. t.0) terminal.now
        ≡ honest_terminal c (⟦<SC as ProverSettings>⟧.prover config.now) t challenges.now }
    ensures { let c = ⟦<SC as Settings>⟧.setting config.now in
        let t = table_of_instance c A.declaration A.trees instance.now (read_all lookups.now) in
        IfOk result (λ v. v.items
        ≡ chunk_matrices c (⟦<SC as ProverSettings>⟧.prover config.now) t challenges.now alpha) }
{
    let parts = log_parts(alloc, config, instance, lookups)?;
    let rows = natural_domain(config, log_rows(config, instance, lookups));
    let domain = quotient_domain(rows, parts);
    let columns = columns_on(
        alloc,
        config,
        preprocessed,
        main,
        permutation,
        places,
        domain,
    )?;
    let values = table_values(
        alloc, config, instance, lookups, domain, &columns, challenges, terminal, alpha,
    )?;
    chunks_of_values(alloc, domain, &values, parts)
}
