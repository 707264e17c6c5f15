//! The rows of a flat table of relations.

ghost use Rattle.std.specs.Prelude.{◌≡◌, ℕ, suc, ◌<◌, List, ◌∷◌, ◌++◌, map, take, drop, length, slice_index};
ghost use Rattle.std.specs.List.Sorted.{IsStrictlyIncreasing};
ghost use Rattle.rg_linear.specs.Dictionary.{Relation};
ghost use Rattle.rg_linear.specs.Exchange.{without, exchanged};
ghost use Rattle.rg_linear.specs.Table.{numbers_of, index_for};

/// Law: over the new set a row has the coefficient of i at the index of i among the members but j.
pub fn rows_are_moved()
    ensures moved { (members : List ℕ) (i j : ℕ) (k : Relation) → numbers_of (exchanged members i j) k ≡ k.d ∷ k.constant ∷
        (map k.coefficient (take (index_for i (without j members)) (without j members)) ++ k.coefficient i ∷ map k.coefficient
        (drop (index_for i (without j members)) (without j members))) }
    ensures gone { (members : List ℕ) (p : ℕ) → IsStrictlyIncreasing members → p < length members → without (slice_index members p) members ≡ take p members ++ drop (suc p) members }
{}
