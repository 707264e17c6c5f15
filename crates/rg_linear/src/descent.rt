//! The outcome of a descent: there is one, and it is sound. It ends with a point, with multipliers as in
//! Farkas' lemma (Schrijver, *Theory of Linear and Integer Programming*), or with a term out of range.

ghost use Rattle.std.specs.Prelude.{◌≡◌, ◌≢◌, ℕ, List, Contains, ◌⊎◌, ℤ, pos, ◌<ℤ◌};
ghost use Rattle.rg_linear.specs.System.{LinearSystem, AreFarkasMultipliers, row_variable, IsPoint, MeetsRows};
ghost use Rattle.rg_linear.specs.Dictionary.{Relation, DictionaryRow};
ghost use Rattle.rg_linear.specs.Descent.{Outcome, DescentFrom, DescentFromStart, IsAtZero, multiplier_of, IsNotWide};
ghost use Rattle.rg_linear.specs.Width.{IsNarrow};

/// Law: a descent has one outcome, and from the start it has one for every system.
pub fn descent_is_one()
    ensures one { (system : LinearSystem) (members fixed : List ℕ) (r i : ℕ) (o o' : Outcome) → DescentFrom system members fixed r i o → DescentFrom system members fixed r i o' → o ≡ o' }
    ensures some { (system : LinearSystem) → (o : Outcome) × DescentFromStart system o }
{}

/// Law: the point of a descent meets every row.
pub fn point_is_sound()
    ensures { (system : LinearSystem) (members : List ℕ) → DescentFromStart system (Outcome.point members) → (scale : ℤ) (v : ℕ → ℤ) → IsPoint system scale v → IsAtZero members v → MeetsRows system v }
{}

/// Law: the multipliers of a refuted descent refute: that of the failing row and those of the fixed rows are
/// positive, the others 0. Then no point meets all rows.
pub fn refuted_is_sound()
    ensures refutes { (system : LinearSystem) (members fixed : List ℕ) (i : ℕ) (k : Relation) → DescentFromStart system (Outcome.refuted members i fixed) → DictionaryRow system members (row_variable system i) k → AreFarkasMultipliers system (multiplier_of system k i) }
    ensures positive { (system : LinearSystem) (members fixed : List ℕ) (i : ℕ) (k : Relation) → DescentFromStart system (Outcome.refuted members i fixed)
        → DictionaryRow system members (row_variable system i) k → (m : ℕ) → (m ≡ i) ⊎ Contains fixed (row_variable system m) → pos 0 <ℤ multiplier_of system k i m }
    ensures others { (system : LinearSystem) (members fixed : List ℕ) (i : ℕ) (k : Relation) → DescentFromStart system (Outcome.refuted members i fixed)
        → DictionaryRow system members (row_variable system i) k → (m : ℕ) → m ≢ i → ¬ Contains fixed (row_variable system m) → multiplier_of system k i m ≡ pos 0 }
    ensures no_point { (system : LinearSystem) (multiplier : ℕ → ℤ) → AreFarkasMultipliers system multiplier → (scale : ℤ) (v : ℕ → ℤ) → IsPoint system scale v → ¬ MeetsRows system v }
{}

/// Law: on few columns with small numbers no term of a descent is out of range.
pub fn narrow_is_not_wide()
    ensures { (system : LinearSystem) (o : Outcome) → IsNarrow system → DescentFromStart system o → IsNotWide o }
{}
