//! The lookup argument.
ghost use Rattle.std.specs.Prelude.{◌≡◌, ◌+◌, ◌*◌, ◌<◌, [], ◌++◌, length, map, IfOk, OnErr, IsOk, IsTrue, IfSome, ◌↔◌, MatchResult};
ghost use Rattle.std.specs.Option.{option_map};
ghost use Rattle.p3_matrix.specs.Matrix.{height};
ghost use Rattle.p3_lookup.specs.Generated.{argument_over, IsGenerated, ReadTraces};
ghost use Rattle.air_core.specs.Tree.{over_base, over_extension, SomeFirst};
ghost use Rattle.air_core.specs.Shape.{Fits, declared_shape};
ghost use Rattle.p3_lookup.specs.Lookup.{FitLookups, HasCountForEach};
ghost use Rattle.p3_lookup.specs.Packing.{lookup_degree};
ghost use Rattle.p3_lookup.specs.Written.{read, read_all};
ghost use Rattle.p3_lookup.specs.Trees.{lookup_trees};
ghost use Rattle.p3_lookup.specs.Term.{sum_of};
ghost use Rattle.p3_lookup.specs.Terminal.{present};
ghost use Rattle.p3_lookup.specs.declared.terminal.LookupError.TheVariants.{TerminalSum};

use crate::degree::degree_of;
use crate::emission::{assert_fractions, assert_running};
use crate::generate::columns_and_terminal;
use crate::lookup::Lookup;
use crate::terminal::{GenerateError, LookupError, LookupTerminal};
use air_core::{Air, AirBuilder, BaseAir, InteractionBuilder, PermutationAirBuilder};
use p3_field::{ExtensionField, Field, FieldCore, Mem, PrimeCharacteristicRing, RingCore};
use p3_matrix::RowMajorMatrix;
use std::alloc::Global;

// Appends the constraints of lookups.
fn assert_lookups<AB: PermutationAirBuilder>(builder: &mut AB, lookups: &[Lookup<AB::F>]) -> Mem<()>
    requires lookups { FitLookups (AB.shape builder.old) (read_all lookups.now) }
    ensures later { AB.later builder.old builder.new }
    ensures keeps_shape { AB.shape builder.new ≡ AB.shape builder.old }
    ensures answers { IsTrue AB.never_fails → IsOk result }
    ensures appends { IfOk result
        (λ _. AB.appends builder.old builder.new
        (map over_extension (lookup_trees AB.F.ring (read_all lookups.now))) []) }
    ensures on_error { OnErr result
        (SomeFirst (AB.appends builder.old builder.new)
        (map over_extension (lookup_trees AB.F.ring (read_all lookups.now))) []) }
{
    if lookups.is_empty() {
        return Ok(());
    }
    assert_fractions(builder, lookups)?;
    assert_running(builder, lookups.len())
}

/// What a lookup argument does (`p3_lookup::LookupProtocol`).
pub trait LookupProtocol {
    /// How many challenges a lookup has.
    fn num_challenges(&self) -> usize
        ensures { result ≡ 2 };

    /// The largest degree, as a multiple of the height, of the constraints of a table with this lookup alone, where the
    /// transition selector has degree `t`.
    fn constraint_degree_with_transition<F: Field>(&self, lookup: &Lookup<F>, t: usize) -> usize
        requires { HasCountForEach (read lookup.now) }
        ensures { result ≡ lookup_degree F.ring t (read lookup.now) };

    /// Appends an AIR's constraints and interactions, then the constraints of its lookups. Over a builder that never
    /// fails the answer is Ok.
    fn eval_air_and_lookups<A: Air<AB::F>, AB: InteractionBuilder>(
        &self,
        air: &A,
        builder: &mut AB,
        lookups: &[Lookup<AB::F>],
    ) -> Mem<()>
        requires air { Fits (declared_shape (A.declaration air.now)) (AB.shape builder.old) }
        requires lookups { FitLookups (AB.shape builder.old) (read_all lookups.now) }
        ensures later { AB.later builder.old builder.new }
        ensures keeps_shape { AB.shape builder.new ≡ AB.shape builder.old }
        ensures answers { IsTrue AB.never_fails → IsOk result }
        ensures appends { IfOk result (λ _. AB.appends builder.old builder.new
            (map over_base (A.trees air.now)
            ++ map over_extension (lookup_trees AB.F.ring (read_all lookups.now)))
            (A.interactions air.now)) }
        ensures on_error { OnErr result
            (SomeFirst (AB.appends builder.old builder.new)
            (map over_base (A.trees air.now)
            ++ map over_extension (lookup_trees AB.F.ring (read_all lookups.now)))
            (A.interactions air.now)) };

    /// The honest permutation columns of a table and their terminal: per row the running sum of all fractions in the rows
    /// before, then the fraction of each lookup. The answer is `DenominatorZero` exactly where a denominator is zero, and
    /// names the first one.
    ///
    /// The preprocessed trace, where there is one, has the main trace's height. There are two challenges for each lookup.
    /// Lookups read constants, public values, main and preprocessed cells that are there.
    fn generate_permutation<F: Field, EF: ExtensionField<F>>(
        &self,
        alloc: Global,
        main: &RowMajorMatrix<F>,
        preprocessed: Option<&RowMajorMatrix<F>>,
        public_values: &[F],
        lookups: &[Lookup<F>],
        challenges: &[EF],
    ) -> Result<(RowMajorMatrix<EF>, LookupTerminal<EF>), GenerateError>
        requires preprocessed { IfSome preprocessed (λ m. height m.now ≡ height main.now) }
        requires lookups { ReadTraces main.now (option_map (λ m. m.now) preprocessed)
            public_values.now (read_all lookups.now) }
        requires challenges { length challenges.now ≡ 2 * length lookups.now }
        ensures { let p = argument_over F.ring EF.ring EF.inv EF.embed main.now
            (option_map (λ m. m.now) preprocessed.entry) public_values.now (read_all lookups.now)
            challenges.now in
            IsGenerated p (height main.now) result };

    /// Whether the terminals that are present sum to zero: the answer is `TerminalSum` exactly where they don't.
    fn verify_terminal_sum<EF: Field>(
        &self,
        terminals: &[Option<LookupTerminal<EF>>],
    ) -> Result<(), LookupError>
        ensures { MatchResult result (λ _. sum_of EF.ring (present terminals.now) ≡ EF.ring.zero)
            (λ e. (e ≡ TerminalSum) × (sum_of EF.ring (present terminals.now) ≡ EF.ring.zero
            → ⊥)) };
}

// Whether the terminals that are present sum to zero.
fn terminals_vanish<EF: Field>(terminals: &[Option<LookupTerminal<EF>>]) -> bool
    ensures { IsTrue result ↔ (sum_of EF.ring (present terminals.now) ≡ EF.ring.zero) }
{
    let mut sum = EF::ZERO;
    for terminal in terminals {
        if let Some(value) = terminal {
            sum = sum + value.0;
        }
    }
    sum.is_zero()
}

/// The lookup argument by sums of fractions (`p3_lookup::LogUpGadget`).
#[derive(Drop)]
pub struct LogUpGadget;

impl LogUpGadget {
    /// The argument, which has no parameters.
    pub fn new() -> Self {
        LogUpGadget
    }
}

impl LookupProtocol for LogUpGadget {
    fn num_challenges(&self) -> usize {
        2
    }

    fn constraint_degree_with_transition<F: Field>(&self, lookup: &Lookup<F>, t: usize) -> usize {
        degree_of(lookup, t)
    }

    fn eval_air_and_lookups<A: Air<AB::F>, AB: InteractionBuilder>(
        &self,
        air: &A,
        builder: &mut AB,
        lookups: &[Lookup<AB::F>],
    ) -> Mem<()> {
        air.eval(builder)?;
        assert_lookups(builder, lookups)
    }

    fn generate_permutation<F: Field, EF: ExtensionField<F>>(
        &self,
        alloc: Global,
        main: &RowMajorMatrix<F>,
        preprocessed: Option<&RowMajorMatrix<F>>,
        public_values: &[F],
        lookups: &[Lookup<F>],
        challenges: &[EF],
    ) -> Result<(RowMajorMatrix<EF>, LookupTerminal<EF>), GenerateError> {
        columns_and_terminal(
            alloc,
            main,
            preprocessed,
            public_values,
            lookups,
            challenges,
        )
    }

    fn verify_terminal_sum<EF: Field>(
        &self,
        terminals: &[Option<LookupTerminal<EF>>],
    ) -> Result<(), LookupError> {
        if terminals_vanish(terminals) {
            Ok(())
        } else {
            Err(LookupError::TerminalSum)
        }
    }
}
