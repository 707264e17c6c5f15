//! The revised dictionary: the relations of a system's columns over a free set, over one denominator. Those of the
//! rows are computed from them (the revised simplex method: Chvátal, *Linear Programming*). Each function of this
//! file has an empty body: its contract is a law.
#![tactic(auto)]

mod basis;
mod choosing;
mod crossing;
mod descent;
mod divisor;
mod factor;
mod few;
mod long_reading;
mod members;
mod modes;
mod naming;
mod narrowing;
mod pivot;
mod primitive;
mod reading;
mod revised;
mod room;
mod row;
mod row_factors;
mod rows;
mod saved;
mod starting;
mod step;
mod support;
mod table;
mod tableau;
mod value;
mod walk;

ghost use Rattle.std.specs.Prelude.{◌≡◌, ◌≢◌, ◌↔◌, ℕ, ◌+◌, ◌<◌, List, length, Contains, ℤ, pos, ◌<ℤ◌, ◌≤ℤ◌};
ghost use Rattle.rg_integers.specs.Sign.{size};
ghost use Rattle.rg_linear.specs.System.{LinearSystem, variables, row_variable};
ghost use Rattle.rg_linear.specs.Dictionary.{Relation, IsFree, DictionaryRow, HasDictionary, column_set};
ghost use Rattle.rg_linear.specs.Exchange.{exchanged, AllFit, IsReduced};
ghost use Rattle.rg_linear.specs.Descent.{IsSatisfied, IsStuck, Chooses};
ghost use Rattle.rg_linear.specs.Cycle.{IsSkipped, Picks};
ghost use Rattle.rg_revised.specs.Basis.{IsRelationOf, itself, IsBasis, row_over, AreRenewed, IsSmall};

pub use descent::Descent;
pub use revised::Revised;
pub use saved::Saved;
pub use walk::{RevisedWalk, Taken};

/// Law: a relation of a variable outside the set is a multiple of its primitive one, by a positive number.
pub fn multiples_are_reduced()
    ensures some { (system : LinearSystem) (members : List ℕ) (w : ℕ) (k : Relation) → IsFree system members → w < variables system → ¬ Contains members w → IsRelationOf system members w k → (l : Relation) × DictionaryRow system members w l × IsReduced k l }
    ensures any { (system : LinearSystem) (members : List ℕ) (w : ℕ) (k l : Relation) → IsRelationOf system members w k → DictionaryRow system members w l → IsReduced k l }
{}

/// Law: at the start each column is itself, over 1.
pub fn columns_are_a_basis()
    ensures { (system : LinearSystem) → IsBasis system (column_set system) (pos 1) (itself (pos 1)) }
{}

/// Law: the relations of the columns give those of the rows.
pub fn rows_follow()
    ensures relation { (system : LinearSystem) (members : List ℕ) (d : ℤ) (relation : ℕ → Relation) (i : ℕ) → IsBasis system members d relation → i < length system.rows → IsRelationOf system members (row_variable system i) (row_over system d relation i) }
    ensures member { (system : LinearSystem) (members : List ℕ) (w : ℕ) (k : Relation) → IsFree system members → Contains members w → IsRelationOf system members w k → k.constant ≡ pos 0 }
    ensures has { (system : LinearSystem) (members : List ℕ) (d : ℤ) (relation : ℕ → Relation) → IsBasis system members d relation → HasDictionary system members }
{}

/// Law: any relation of a row shows whether the row holds, fails or refutes.
pub fn rows_are_judged()
    ensures satisfied { (system : LinearSystem) (members : List ℕ) (i : ℕ) (k : Relation) → IsFree system members → i < length system.rows → IsRelationOf system members (row_variable system i) k → pos 0 ≤ℤ k.constant → IsSatisfied system members i }
    ensures outside { (system : LinearSystem) (members : List ℕ) (w : ℕ) (k : Relation) → IsFree system members → IsRelationOf system members w k → k.constant <ℤ pos 0 → ¬ Contains members w }
    ensures stuck { (system : LinearSystem) (members fixed : List ℕ) (i : ℕ) (k : Relation) → IsFree system members → i < length system.rows
        → IsRelationOf system members (row_variable system i) k → k.constant <ℤ pos 0 → ((m : ℕ) → Contains members m → ¬ Contains fixed m → k.coefficient m ≡ pos 0)
        → IsStuck system members fixed i }
    ensures chooses { (system : LinearSystem) (members fixed : List ℕ) (i j : ℕ) (k : Relation) → IsFree system members → i < length system.rows
        → IsRelationOf system members (row_variable system i) k → k.constant <ℤ pos 0 → Contains members j → ¬ Contains fixed j → k.coefficient j ≢ pos 0
        → ((m : ℕ) → Contains members m → ¬ Contains fixed m → m < j → k.coefficient m ≡ pos 0) → Chooses system members fixed i j }
{}

/// Law: an exchange renews the relations of the columns; the new denominator is the size of the coefficient of the
/// member that leaves.
pub fn basis_is_exchanged()
    ensures { (system : LinearSystem) (members : List ℕ) (d : ℤ) (relation : ℕ → Relation) (i j : ℕ) (k : Relation) → IsBasis system members d relation
        → i < variables system → ¬ Contains members i → IsRelationOf system members i k → k.d ≡ d → Contains members j → k.coefficient j ≢ pos 0
        → (relation' : ℕ → Relation) → AreRenewed system d k i j relation relation' → IsBasis system (exchanged members i j) (size (k.coefficient j)) relation' }
{}

/// Law: where the numbers of the columns' relations are small, no term of an exchange is out of range.
pub fn small_is_not_wide()
    ensures { (system : LinearSystem) (members : List ℕ) (d : ℤ) (relation : ℕ → Relation) (i j : ℕ) → IsBasis system members d relation → IsSmall system members d relation → AllFit system members i j }
{}

/// Law: any relation of a row of the cycle walk shows what the walk does with it.
pub fn walk_is_judged()
    ensures skipped { (system : LinearSystem) (members : List ℕ) (i : ℕ) (k : Relation) → IsFree system members → i < length system.rows
        → ¬ Contains members (row_variable system i) → IsRelationOf system members (row_variable system i) k → ((t : ℕ) → t < system.columns → k.coefficient t ≡ pos 0)
        → IsSkipped system members i }
    ensures picks { (system : LinearSystem) (members : List ℕ) (i j : ℕ) (k : Relation) → IsFree system members → i < length system.rows
        → ¬ Contains members (row_variable system i) → IsRelationOf system members (row_variable system i) k → j < system.columns → k.coefficient j ≢ pos 0
        → ((t : ℕ) → t < j → k.coefficient t ≡ pos 0) → Picks system members i j }
{}
