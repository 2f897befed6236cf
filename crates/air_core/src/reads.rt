//! Tests of what constraints and interactions read, against what an AIR declares.
ghost use Rattle.std.specs.Prelude.{◌≡◌, ◌↔◌, IsTrue, All, map};
ghost use Rattle.air_core.specs.Shape.{declared_shape, has, ReadsDeclared, ReadsSendable};
ghost use Rattle.air_core.specs.Reads.{declares, is_sendable, shape_by};
ghost use Rattle.air_core.specs.Symbolic.{tree_of};

use crate::base::BaseAir;
use crate::cells::{Cell, ExtCell};
use crate::degrees::CellDegrees;
use crate::symbolic::SymbolicExpression;
use p3_field::{Field, FieldCore, RingCore};

// The cells that an AIR declares.
#[derive(Drop)]
struct DeclaredCells<'a> {
    width: usize,
    main_next: &'a [usize],
    preprocessed_width: usize,
    preprocessed_next: &'a [usize],
    public_values: usize,
    periodic_columns: usize,
}

// Whether the column is listed.
fn lists(columns: &[usize], column: usize) -> bool
    ensures { result ≡ has columns.now column }
{
    columns.iter().any(|c| *c == column)
}

impl DeclaredCells<'_> {
    // What this AIR declares.
    fn new<F: Field, A: BaseAir<F>>(air: &A) -> DeclaredCells<'_>
        ensures { shape_by result ≡ declared_shape (A.declaration air.now) }
    {
        DeclaredCells {
            width: air.width(),
            main_next: air.main_next_row_columns(),
            preprocessed_width: air.preprocessed_width(),
            preprocessed_next: air.preprocessed_next_row_columns(),
            public_values: air.num_public_values(),
            periodic_columns: air.periodic_columns().len(),
        }
    }

    // Whether the cell is declared.
    fn declares(&self, cell: Cell) -> bool
        ensures { result ≡ declares (shape_by self.now) cell }
    {
        match cell {
            Cell::Main { next, column } => {
                column < self.width && (!next || lists(self.main_next, column))
            }
            Cell::Preprocessed { next, column } => {
                column < self.preprocessed_width && (!next || lists(self.preprocessed_next, column))
            }
            Cell::Periodic(n) => n < self.periodic_columns,
            Cell::Public(n) => n < self.public_values,
            Cell::FirstRow | Cell::LastRow | Cell::Transition => true,
        }
    }
}

// Whether an interaction may read the cell.
fn may_be_sent(cell: Cell) -> bool
    ensures { result ≡ is_sendable cell }
{
    match cell {
        Cell::Main { .. } | Cell::Preprocessed { .. } | Cell::Public(_) => true,
        _ => false,
    }
}

// Degree zero for the cells that may be read, and one for the others.
#[derive(Drop)]
struct Strangers<'a> {
    declared: DeclaredCells<'a>,
    sent: bool,
}

impl<'a> CellDegrees for Strangers<'a> {
    ghost use Rattle.air_core.specs.Reads.{strangeness, shape_by};

    ghost base = { λ d c. strangeness d.sent (shape_by d.declared) c };

    ghost extension = { λ _ _. 1 };

    fn of_cell(&self, cell: Cell) -> usize {
        if self.declared.declares(cell) && (!self.sent || may_be_sent(cell)) {
            0
        } else {
            1
        }
    }

    fn of_ext_cell(&self, _cell: ExtCell) -> usize {
        1
    }
}

impl<F: Field> SymbolicExpression<F> {
    /// Whether the constraint reads only cells that the AIR declares, and next cells only in declared next columns (not
    /// in Plonky3).
    pub fn reads_declared<A: BaseAir<F>>(&self, air: &A) -> bool
        ensures { IsTrue result ↔ ReadsDeclared (declared_shape (A.declaration air.now))
            (tree_of self.now) }
    {
        let cells = Strangers {
            declared: DeclaredCells::new(air),
            sent: false,
        };
        self.degree_by(&cells) == 0
    }

    /// Whether the expression reads only what an interaction of the AIR may read: constants, and public values, main and
    /// preprocessed cells that it declares, next cells only in declared next columns (not in Plonky3).
    pub fn reads_sendable<A: BaseAir<F>>(&self, air: &A) -> bool
        ensures { IsTrue result ↔ ReadsSendable (declared_shape (A.declaration air.now))
            (tree_of self.now) }
    {
        let cells = Strangers {
            declared: DeclaredCells::new(air),
            sent: true,
        };
        self.degree_by(&cells) == 0
    }
}

/// Whether each of these reads only what an interaction of the AIR may read.
pub fn all_sendable<F: Field, A: BaseAir<F>>(expressions: &[SymbolicExpression<F>], air: &A) -> bool
    ensures { IsTrue result ↔ All (ReadsSendable (declared_shape (A.declaration air.now)))
        (map tree_of expressions.now) }
{
    for expression in expressions {
        if !expression.reads_sendable(air) {
            return false;
        }
    }
    true
}
