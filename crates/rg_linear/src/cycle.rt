//! The outcome of the walk over the rows of a system without constants, and the basis that it gives for vectors. Its
//! columns are the labels of a transition system, its rows the Parikh vectors of cycles (Badouel, Bernardinello and
//! Darondeau, *Petri Net Synthesis*).

ghost use Rattle.std.specs.Prelude.{◌≡◌, ◌↔◌, ℕ, List, ℤ};
ghost use Rattle.rg_linear.specs.System.{LinearSystem, IsPoint};
ghost use Rattle.rg_linear.specs.Cycle.{IsHomogeneous, CycleOutcome, CycleWalkFrom, CycleWalk, RowsAreZero, FollowsRelations, KeepsVectors, CycleBasis, IsCycleBasis};

/// Law: the walk over the rows has exactly one outcome for every system. With its set, all rows are 0 exactly if the
/// columns outside the set have the values that their relations give.
pub fn cycle_is_exact()
    ensures one { (system : LinearSystem) (members : List ℕ) (i : ℕ) (o o' : CycleOutcome) → CycleWalkFrom system members i o → CycleWalkFrom system members i o' → o ≡ o' }
    ensures some { (system : LinearSystem) → (o : CycleOutcome) × CycleWalk system o }
    ensures exact { (system : LinearSystem) (members : List ℕ) → IsHomogeneous system → CycleWalk system (CycleOutcome.free_set members) → (scale : ℤ) (v : ℕ → ℤ) → IsPoint system scale v → RowsAreZero system v ↔ FollowsRelations system members v }
{}

/// Law: the indices of the vectors that are kept are one list.
pub fn kept_is_one()
    ensures { (vectors : List (List ℤ)) (kept kept' : List ℕ) → KeepsVectors vectors kept → KeepsVectors vectors kept' → kept ≡ kept' }
{}

/// Law: vectors have one basis over so many labels.
pub fn cycle_basis_is_one()
    ensures { (labels : ℕ) (vectors : List (List ℤ)) (basis basis' : CycleBasis) → IsCycleBasis labels vectors basis → IsCycleBasis labels vectors basis' → basis ≡ basis' }
{}
