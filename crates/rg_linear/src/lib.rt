//! Systems of rows over columns: free sets of variables, the one relation that each other variable has
//! over them, exchanges, and the order of work on a system.
//!
//! A point is a value for each variable over one positive scale, so every equation is read multiplied
//! out and no rational number is needed. Each function of this file has an empty body: its contract is a law.
//!
//! Relations over a free set are the rows of a dictionary of linear programming (Chvátal, *Linear
//! Programming*), and an exchange is its pivot. Here every relation is kept in whole numbers without a
//! common factor.
#![tactic(auto)]

pub mod branching;
pub mod cycle;
pub mod descent;
mod joined;
mod row;
pub mod samples;
pub mod stack;
mod system;
pub mod table;

ghost use Rattle.std.specs.Prelude.{◌≡◌, ◌≢◌, ℕ, ◌<◌, List, [], ◌∷◌, ◌++◌, length, map, Contains, ℤ, pos, ◌*ℤ◌};
ghost use Rattle.rg_linear.specs.System.{LinearSystem, row_variable, IsPoint};
ghost use Rattle.rg_linear.specs.Dictionary.{Relation, IsFree, DictionaryRow, HasDictionary, column_set, row_relation};
ghost use Rattle.rg_integers.specs.declared.term.Wide.{Wide};
ghost use Rattle.rg_integers.specs.Term.{term_value};
ghost use Rattle.rg_linear.specs.Exchange.{without, exchanged, terms, AllFit, FirstWide, renewed, turned, IsReduced, SetFits};
ghost use Rattle.rg_linear.specs.Descent.{IsAtZero};

pub use joined::{JoinedSystem, RowList};
pub use row::{Row, norm};
pub use system::{System, largest_norm};

/// Law: a variable has one relation over a free set.
pub fn relation_is_one()
    ensures { (system : LinearSystem) (members : List ℕ) (w : ℕ) (k l : Relation) → DictionaryRow system members w k → DictionaryRow system members w l → k ≡ l }
{}

/// Law: the columns are free, and the relation of a row over them is the row itself.
pub fn columns_are_free()
    ensures free { (system : LinearSystem) → IsFree system (column_set system) }
    ensures rows { (system : LinearSystem) (i : ℕ) → i < length system.rows → DictionaryRow system (column_set system) (row_variable system i) (row_relation system i) }
    ensures all { (system : LinearSystem) → HasDictionary system (column_set system) }
{}

/// Law: where every member is 0, a variable is its constant over its d, and there is such a point.
pub fn zero_is_a_point()
    ensures some { (system : LinearSystem) (members : List ℕ) → IsFree system members → (scale : ℤ) × (v : ℕ → ℤ) × IsPoint system scale v × IsAtZero members v }
    ensures value { (system : LinearSystem) (members : List ℕ) (w : ℕ) (k : Relation) → DictionaryRow system members w k → (scale : ℤ) (v : ℕ → ℤ) → IsPoint system scale v → IsAtZero members v → k.d *ℤ v w ≡ k.constant *ℤ scale }
{}

/// Law: an exchange gives a free set. The new relations are the values of the terms, without their common factor;
/// that of the member that leaves has none to begin with.
pub fn exchange_is_exact()
    ensures set { (system : LinearSystem) (members : List ℕ) (i j : ℕ) (k : Relation) → DictionaryRow system members i k → Contains members j → k.coefficient j ≢ pos 0 → IsFree system (exchanged members i j) }
    ensures leaves { (system : LinearSystem) (members : List ℕ) (i j : ℕ) (k : Relation) → DictionaryRow system members i k → Contains members j → k.coefficient j ≢ pos 0 → DictionaryRow system (exchanged members i j) j (turned k i j) }
    ensures stays { (system : LinearSystem) (members : List ℕ) (i j : ℕ) (k : Relation) → DictionaryRow system members i k → Contains members j → k.coefficient j ≢ pos 0
        → (w : ℕ) (l : Relation) → DictionaryRow system members w l → w ≢ i → l.coefficient j ≡ pos 0 → DictionaryRow system (exchanged members i j) w l }
    ensures changes { (system : LinearSystem) (members : List ℕ) (i j : ℕ) (k : Relation) → DictionaryRow system members i k → Contains members j
        → k.coefficient j ≢ pos 0 → (w : ℕ) (l : Relation) → DictionaryRow system members w l → w ≢ i → (l' : Relation) → IsReduced (renewed k i j l) l'
        → DictionaryRow system (exchanged members i j) w l' }
    ensures values { (members : List ℕ) (k : Relation) (i j : ℕ) (l : Relation) → ¬ Contains members i → map term_value (terms members k j l) ≡ (renewed k i j l).d ∷ (renewed k i j l).constant ∷ map (renewed k i j l).coefficient (without j members) ++ (renewed k i j l).coefficient i ∷ [] }
    ensures all { (system : LinearSystem) (members : List ℕ) (i j : ℕ) (k : Relation) → HasDictionary system members → DictionaryRow system members i k → Contains members j → k.coefficient j ≢ pos 0 → HasDictionary system (exchanged members i j) }
    ensures fit { (system : LinearSystem) (members : List ℕ) (i j : ℕ) (k : Relation) → HasDictionary system members → DictionaryRow system members i k → Contains members j → k.coefficient j ≢ pos 0 → AllFit system members i j → SetFits system members → SetFits system (exchanged members i j) }
{}

/// Law: of the terms of an exchange at most one is the first out of range.
pub fn wide_is_one()
    ensures { (system : LinearSystem) (members : List ℕ) (i j w n w' n' : ℕ) (t t' : Wide) → FirstWide system members i j w n t → FirstWide system members i j w' n' t' → (w ≡ w') × (n ≡ n') × (t ≡ t') }
{}
