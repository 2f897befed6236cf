//! The values of a table's columns on a domain, from the prover data.
ghost use Rattle.std.specs.Prelude.{◌≡◌, ℕ, IfOk, List};
ghost use Rattle.std.specs.Option.{option_map};
ghost use Rattle.law_committed.specs.Committed.{CommittedTable};
ghost use Rattle.prover_quotients.specs.ProverData.{AreSomeValues, AreValuesOf, HaveTableValues, HoldsAt, HoldsSome, HoldsTable};

use crate::places::Places;
use batch_config::Settings;
use batch_setup::Committed;
use commit_core::{CosetPcs, Pcs, PolynomialSpace, UnivariateStarkPcs};
use p3_field::{
    BasedVectorSpace, ExtensionField, Field, FieldCore, Mem, PrimeCharacteristicRing, PrimeCore64,
    PrimeField64, RingCore, TwoAdicCore, TwoAdicField,
};
use p3_matrix::RowMajorMatrix;
use p3_uni_stark::{Domain, StarkGenericConfig, Val};
use prover_answer::ProverSettings;
use std::alloc::Global;

/// The values of a table's columns on a domain, a row for each point.
#[derive(Drop)]
pub(crate) struct TableColumns<F> {
    /// The main columns.
    pub(crate) main: RowMajorMatrix<F>,
    /// The preprocessed columns, where there are some.
    pub(crate) preprocessed: Option<RowMajorMatrix<F>>,
    /// The flattened permutation columns, where there are some.
    pub(crate) permutation: Option<RowMajorMatrix<F>>,
}

// The values on a domain of the columns of the matrix of this number that prover data holds.
fn values_on<SC: StarkGenericConfig>(
    alloc: Global,
    config: &SC,
    held: &Committed<SC>,
    index: usize,
    domain: Domain<SC>,
) -> Mem<RowMajorMatrix<Val<SC>>>
    requires { (polynomials : List (List SC.Val))
        × HoldsAt (⟦<SC as ProverSettings>⟧.prover_backend config.now) held.now index polynomials }
    ensures { IfOk result (λ m. (polynomials : List (List SC.Val))
        → HoldsAt (⟦<SC as ProverSettings>⟧.prover_backend config.now) held.now index polynomials
        → AreValuesOf (⟦<SC as Settings>⟧.setting config.now).field domain polynomials m) }
{
    config
        .pcs()
        .get_evaluations_on_domain(alloc, held, index, domain)
}

// The same of a matrix that may be absent.
fn some_values_on<SC: StarkGenericConfig>(
    alloc: Global,
    config: &SC,
    held: Option<&Committed<SC>>,
    place: Option<usize>,
    domain: Domain<SC>,
) -> Mem<Option<RowMajorMatrix<Val<SC>>>>
    requires { (polynomials : List (List SC.Val))
        × HoldsSome (⟦<SC as ProverSettings>⟧.prover_backend config.now) place
        (option_map (λ d. d.now) held) polynomials }
    ensures { IfOk result (λ o. (polynomials : List (List SC.Val))
        → HoldsSome (⟦<SC as ProverSettings>⟧.prover_backend config.now) place
        (option_map (λ d. d.now) held.entry) polynomials
        → AreSomeValues (⟦<SC as Settings>⟧.setting config.now).field domain polynomials o) }
{
    match place {
        None => Ok(None),
        Some(index) => match held {
            None => Ok(None),
            Some(held) => {
                let values = values_on(alloc, config, held, index, domain)?;
                Ok(Some(values))
            }
        },
    }
}

// The values on a domain of the columns of the table whose matrices stand at these places in the prover data.
pub(crate) fn columns_on<SC: StarkGenericConfig>(
    alloc: Global,
    config: &SC,
    preprocessed: Option<&Committed<SC>>,
    main: &Committed<SC>,
    permutation: Option<&Committed<SC>>,
    places: Places,
    domain: Domain<SC>,
) -> Mem<TableColumns<Val<SC>>>
    requires { (t : CommittedTable SC.Val SC.Challenge)
        × HoldsTable (⟦<SC as ProverSettings>⟧.prover_backend config.now) places
        (option_map (λ d. d.now) preprocessed) main.now (option_map (λ d. d.now) permutation) t }
    ensures { IfOk result (λ v. (t : CommittedTable SC.Val SC.Challenge)
        → HoldsTable (⟦<SC as ProverSettings>⟧.prover_backend config.now) places
        (option_map (λ d. d.now) preprocessed.entry) main.now
        (option_map (λ d. d.now) permutation.entry) t
        → HaveTableValues (⟦<SC as Settings>⟧.setting config.now).field domain t v) }
{
    let main = values_on(alloc, config, main, places.main, domain)?;
    let preprocessed = some_values_on(alloc, config, preprocessed, places.preprocessed, domain)?;
    let permutation = some_values_on(alloc, config, permutation, places.permutation, domain)?;
    Ok(TableColumns {
        main,
        preprocessed,
        permutation,
    })
}
