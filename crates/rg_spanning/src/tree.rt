//! The spanning tree.
ghost use Rattle.std.specs.Prelude.{◌≡◌, ◌↔◌, ℕ, ◌+ℤ◌, ◌-ℤ◌, ℤ, pos, if◌then◌else◌, ◌<◌, length, Contains, Some, None, IfOk, IfSome, IsErrOf, IsSome, slice_get, slice_index};
ghost use Rattle.rg_theory.specs.declared.Arc.{Arc};
ghost use Rattle.rg_theory.specs.System.{IsAllReachable, IsLeastUnreachable};
ghost use Rattle.rg_theory.specs.Tree.{parikh, chord_entry};
ghost use Rattle.rg_spanning.specs.Spanning.{Spanning, IsTreeOf, order_of};
ghost use Rattle.rg_spanning.specs.declared.tree.GrowStop.TheVariants as stop;

use crate::chords::beside;
use crate::counts::count_rows;
use crate::growth::{Growth, first_unmet, grow_tree};
use crate::table::Table;
use rg_lts::Lts;
use rg_theory::Arc;
use std::alloc::{AllocError, Global};
use std::marker::Model;

/// Why no spanning tree was grown.
#[derive(Clone, Copy, Debug, PartialEq, Eq)]
pub enum GrowStop {
    /// The least state that can't be reached.
    Unreachable(u32),
    /// Memory ran out.
    NoMemory,
}

impl From<AllocError> for GrowStop {
    ghost from_gives = { λ _ e. e ≡ stop.NoMemory };

    fn from(_: AllocError) -> GrowStop {
        GrowStop::NoMemory
    }
}

/// The tree of the breadth first walk from the initial state, which takes the states in the order in which they are
/// met and the arcs of each by label and target; with the Parikh vector of each state, which counts the labels on the
/// way to it, and the chords, which are the other arcs.
#[derive(Drop)]
pub struct Tree {
    labels: u32,
    initial: u32,
    order: Vec<u32>,
    arcs: Vec<Arc>,
    entries: Vec<Option<Arc>>,
    rows: Table,
    chords: Vec<Arc>,
}

impl Model for Tree {
    ghost use Rattle.std.specs.Prelude.{length};
    ghost use Rattle.rg_spanning.specs.Spanning.{Spanning};
    ghost use Rattle.rg_spanning.specs.Tables.{AreTables};

    ghost Value = { Spanning };

    ghost view = { λ t. record {
      states = length t.entries.items;
      labels = t.labels;
      initial = t.initial;
      arcs = t.arcs.items;
      chords = t.chords.items;
    } };

    ghost invariant = { λ t. AreTables t.labels t.initial t.order.items t.arcs.items t.entries.items t.rows t.chords.items };
}

impl Tree {
    /// Grows the tree of the system. Returns `Unreachable` with the least state that can't be reached, and `NoMemory`
    /// if memory runs out.
    pub fn grow(alloc: Global, lts: &Lts) -> Result<Tree, GrowStop>
        ensures tree { IfOk result (IsTreeOf lts.now) }
        ensures all_reachable { IfOk result (λ _. IsAllReachable lts.now) }
        ensures unreachable { (s : ℕ) → IsErrOf result (stop.Unreachable s) → IsLeastUnreachable lts.now s }
    {
        let growth = grow_tree(alloc, lts)?;
        if let Some(s) = first_unmet(lts, &growth) {
            return Err(GrowStop::Unreachable(s));
        }
        let rows = count_rows(alloc, lts, &growth)?;
        let chords = beside(alloc, lts, &growth)?;
        let Growth {
            order,
            arcs,
            entries,
        } = growth;
        Ok(Tree {
            labels: lts.labels(),
            initial: lts.initial(),
            order,
            arcs,
            entries,
            rows,
            chords,
        })
    }

    /// Returns the tree's arcs, in the order in which they join.
    pub fn arcs(&self) -> &[Arc]
        ensures { result.now ≡ self.now.arcs }
    {
        &self.arcs
    }

    /// Returns the states, in the order in which they are met.
    pub fn order(&self) -> &[u32]
        ensures { result.now ≡ order_of self.now }
    {
        &self.order
    }

    /// Returns the arc of the tree that enters state `s`; None for the initial state alone.
    pub fn parent(&self, s: u32) -> Option<Arc>
        requires { s < self.now.states }
        ensures found { IfSome result (λ a. Contains self.now.arcs a × (a.to ≡ s)) }
        ensures none { (result ≡ None) ↔ (s ≡ self.now.initial) }
    {
        self.entries[s as usize]
    }

    /// Returns the Parikh vector of state `s`: how often each label occurs on the way to it.
    pub fn parikh(&self, s: u32) -> &[u32]
        requires { s < self.now.states }
        ensures one_each { length result.now ≡ self.now.labels }
        ensures counts { (t : ℕ) → t < self.now.labels → slice_index result.now t ≡ parikh self.now.arcs s t }
    {
        self.rows.row(s)
    }

    /// Returns the arcs that are not in the tree, in the order of the system's arcs.
    pub fn chords(&self) -> &[Arc]
        ensures { result.now ≡ self.now.chords }
    {
        &self.chords
    }

    /// Returns the entry of label `t` in the vector of chord `i`: how often the label occurs on the tree's path to
    /// the chord's source and on the chord, minus how often it occurs on the tree's path to the chord's target.
    pub fn chord_entry(&self, i: usize, t: u32) -> i128
        requires chord { i < length self.now.chords }
        requires label { t < self.now.labels }
        ensures { (a : Arc) → slice_get self.now.chords i ≡ Some a → result ≡ chord_entry self.now.arcs a t }
    {
        let a = self.chords[i];
        let source = self.rows.row(a.from)[t as usize];
        let target = self.rows.row(a.to)[t as usize];
        difference(source, t == a.label, target)
    }
}

// Asks that values of a type may move to another thread, and that threads may share them.
fn crosses_threads<T: Send + Sync>() {}

// Trees cross threads.
fn trees_cross_threads() {
    crosses_threads::<Tree>()
}

// The source's count, and one where the chord has the label, less the target's.
fn difference(source: u32, own: bool, target: u32) -> i128
    ensures { result ≡ (pos source +ℤ (if own then pos 1 else pos 0)) -ℤ pos target }
{
    i128::from(source) + if own { 1 } else { 0 } - i128::from(target)
}
