//! The relations that a descent leaves.
ghost use Rattle.std.specs.Prelude.{◌≡◌, ℕ, ℤ, ◌+◌, ◌<◌, ◌^◌, List, length};
ghost use Rattle.rg_fraction.specs.Fractions.{IsValue};
ghost use Rattle.rg_linear.specs.System.{LinearSystem, LinearRow, row_variable, with_rows};
ghost use Rattle.rg_linear.specs.Dictionary.{Relation};
ghost use Rattle.rg_linear.specs.Descent.{multiplier_of, IsBasicPoint};
ghost use Rattle.rg_branch.specs.Relating.{AreRelationsOf, IsRefutedBy};

use rg_feasible::Dictionary;
use rg_fraction::Fraction;
use rg_linear::JoinedSystem;
use rg_revised::Revised;

// The relations over the set at which a descent ended: those of the columns alone, or those of all variables.
#[derive(Clone, Copy)]
pub(crate) enum Relations<'a> {
    OfColumns(&'a Revised),
    OfAll(&'a Dictionary),
}

impl Relations<'_> {
    // The value of a row of the system where every member is 0.
    pub(crate) fn row_value(self, system: &JoinedSystem<'_>, row: u32) -> Fraction
        requires row { row < length system.now.rows }
        requires are { (further : List LinearRow) × (members : List ℕ) × AreRelationsOf (with_rows system.now further) members self }
        ensures { (further : List LinearRow) (members : List ℕ) → AreRelationsOf (with_rows system.now further) members self.entry → (scale : ℤ) (v : ℕ → ℤ) → IsBasicPoint (with_rows system.now further) members scale v → IsValue result (v (row_variable system.now row)) scale }
    {
        match self {
            Relations::OfColumns(revised) => revised.value(system.row(row)),
            Relations::OfAll(dictionary) => dictionary.point(system.columns() + row),
        }
    }

    // The value of a column there.
    pub(crate) fn column_value(self, column: u32) -> Fraction
        requires are { (node : LinearSystem) × (members : List ℕ) × AreRelationsOf node members self × (column < node.columns) }
        ensures { (node : LinearSystem) (members : List ℕ) → AreRelationsOf node members self.entry → (scale : ℤ) (v : ℕ → ℤ) → IsBasicPoint node members scale v → IsValue result (v column) scale }
    {
        match self {
            Relations::OfColumns(revised) => revised.column(column),
            Relations::OfAll(dictionary) => dictionary.point(column),
        }
    }

    // The multiplier of a row, after a refutation.
    pub(crate) fn multiplier(self, row: u32) -> i128
        requires refuted { (node : LinearSystem) × (i : ℕ) × (k : Relation) × IsRefutedBy node i k self × (row < length node.rows) × (node.columns + length node.rows < 2 ^ 32) }
        ensures { (node : LinearSystem) (i : ℕ) (k : Relation) → IsRefutedBy node i k self.entry → result ≡ multiplier_of node k i row }
    {
        match self {
            Relations::OfColumns(revised) => revised.multiplier(row),
            Relations::OfAll(dictionary) => dictionary.multiplier(row),
        }
    }
}
