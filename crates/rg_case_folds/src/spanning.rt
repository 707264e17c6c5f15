//! The spanning tree, and what its chords say of effects. The equations of the chords are those of the
//! fundamental cycles (Badouel, Bernardinello and Darondeau, *Petri Net Synthesis*).

ghost use Rattle.std.specs.Prelude.{◌≡◌, ◌↔◌, ◌++◌, ◌∷◌, [], pos, ℕ, ℤ, List, Contains};
ghost use Rattle.rg_theory.specs.System.{System, IsInRange, IsReachable, Leads};
ghost use Rattle.rg_theory.specs.Tree.{IsTree, tree_order, way_to, chords, KeepsArcs};
ghost use Rattle.rg_case_folds.specs.Potentials.{chord_sum, potential};
ghost use Rattle.rg_linear.specs.Cycle.{FollowsRelations, CycleBasis};
ghost use Rattle.rg_case_folds.specs.Chords.{KeepsChords, chord_system, IsBasis};

use rg_theory::Arc;

/// Law: the tree meets every state that can be reached, by one way, which an arc of the tree makes longer by its
/// label.
pub fn ways_are_one()
    ensures met { (lts : System) (tree : List Arc) (s : ℕ) → IsTree lts tree → IsReachable lts s → Contains (tree_order lts tree) s }
    ensures arcs { (lts : System) (tree : List Arc) (a : Arc) → IsTree lts tree → Contains tree a → Contains lts.arcs a }
    ensures begins { (lts : System) (tree : List Arc) → IsTree lts tree → way_to tree lts.initial ≡ [] }
    ensures joins { (lts : System) (tree : List Arc) (a : Arc) → IsTree lts tree → Contains tree a → way_to tree a.to ≡ way_to tree a.from ++ a.label ∷ [] }
    ensures leads { (lts : System) (tree : List Arc) (s : ℕ) → IsTree lts tree → IsReachable lts s → Leads lts lts.initial (way_to tree s) s }
    ensures one { (lts : System) (tree : List Arc) (ts : List ℕ) (s : ℕ) → IsTree lts tree → Leads (record lts { arcs = tree }) lts.initial ts s → ts ≡ way_to tree s }
{}

/// Law: effects of the labels give numbers along the tree that keep every arc exactly if every chord's sum is 0; and
/// numbers that keep every arc are given in this way by their own effects.
pub fn chords_are_exact()
    ensures exact { (lts : System) (tree : List Arc) (start : ℤ) (effect : ℕ → ℤ) → IsInRange lts → IsTree lts tree → KeepsArcs lts (potential lts tree start effect) effect ↔ ((a : Arc) → Contains (chords lts tree) a → chord_sum lts tree effect a ≡ pos 0) }
    ensures own { (lts : System) (tree : List Arc) (number effect : ℕ → ℤ) (s : ℕ) → IsInRange lts → IsTree lts tree → KeepsArcs lts number effect → IsReachable lts s → number s ≡ potential lts tree (number lts.initial) effect s }
{}

/// Law: the chords that are kept are one list, a system has one basis, and the effects that keep every arc are those
/// that follow the relations of the basis.
pub fn basis_is_exact()
    ensures kept { (lts : System) (tree : List Arc) (kept kept' : List ℕ) → KeepsChords lts tree kept → KeepsChords lts tree kept' → kept ≡ kept' }
    ensures one { (lts : System) (tree : List Arc) (basis basis' : CycleBasis) → IsBasis lts tree basis → IsBasis lts tree basis' → basis ≡ basis' }
    ensures exact { (lts : System) (tree : List Arc) (basis : CycleBasis) (start : ℤ) (effect : ℕ → ℤ) → IsInRange lts → IsTree lts tree → IsBasis lts tree basis → KeepsArcs lts (potential lts tree start effect) effect ↔ FollowsRelations (chord_system lts tree basis.kept) basis.members effect }
{}
