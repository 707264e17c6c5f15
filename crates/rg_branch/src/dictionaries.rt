//! The dictionaries that nodes are settled with.
ghost use Rattle.std.specs.Prelude.{◌≡◌, ◌<◌, List, [], ◌∷◌, ◌++◌, length, reverse, map, false, IsTrue, IfOk, IfErr, IfSome, OnOk};
ghost use Rattle.rg_linear.specs.System.{LinearSystem, LinearRow, with_rows};
ghost use Rattle.rg_linear.specs.Branching.{Form, SplitSide, node_system};
ghost use Rattle.rg_linear.specs.View.{linear_row, IsWellFormed};
ghost use Rattle.rg_branch_trees.specs.Turning.{turned_back};
ghost use Rattle.rg_revised.specs.Settling.{IsAtPoint, IsDescent};
ghost use Rattle.rg_branch.specs.View.{forms_of};
ghost use Rattle.rg_branch.specs.Asked.{CanBranch, AreSidesOf, HasRowsOf};
ghost use Rattle.rg_branch.specs.Answer.{NodeTells, IsAnswer, IsSound, IsStop};
ghost use Rattle.rg_branch.specs.Kept.{IsAtParent, IsSavedOf, AreSaved};

use crate::bounded::Bounded;
use crate::node::{NodeEnd, point_end, settle_full, weights};
use crate::relations::Relations;
use crate::splits::Splits;
use crate::whole::{BranchStop, RawNode, Whole};
use rg_feasible::Dictionary;
use rg_linear::{JoinedSystem, Row};
use rg_memory::NoMemory;
use rg_revised::{Descent, Revised, Saved};
use std::alloc::Global;

// How many copies are kept at most.
const MOST: usize = 64;

// A revised dictionary, and a full one, which is made where numbers are too large for it.
#[derive(Drop)]
pub(crate) struct Dictionaries {
    pub(crate) revised: Revised,
    pub(crate) full: Option<Dictionary>,
    // Whether the revised dictionary is at the point of the node above, from which the descent of the next node goes
    // on.
    pub(crate) at_point: bool,
    // Copies of the revised dictionary for the high sides that are to come, the innermost one last: each is at the
    // point of the split, or is None, where the revised dictionary wasn't. There may be fewer copies than such sides.
    pub(crate) copies: Vec<Option<Saved>>,
}

// Makes the descent of the system with these rows after its own: from the point of the system without the last row,
// if the dictionary is at it, and else from the start.
fn descent(
    revised: &mut Revised,
    at_point: bool,
    system: &JoinedSystem<'_>,
    rows: &[Row],
) -> Descent
    requires columns { revised.old.columns ≡ system.now.columns }
    requires well_formed { IsWellFormed (with_rows system.now (map linear_row rows.now)) }
    requires point { IsTrue at_point → (front : List LinearRow) × (last : LinearRow) × (map linear_row rows.now ≡ front ++ last ∷ []) × IsAtPoint (with_rows system.now front) revised.old }
    ensures outcome { IsDescent (with_rows system.now (map linear_row rows.now)) revised.new result }
    ensures columns { revised.new.columns ≡ revised.old.columns }
{
    if at_point {
        revised.go_on(system, rows)
    } else {
        revised.settle(system, rows)
    }
}

// A copy of the dictionary, if it is at a point.
fn copy(alloc: Global, revised: &Revised, at_point: bool) -> Result<Option<Saved>, NoMemory>
    ensures { (system : LinearSystem) → revised.now.columns ≡ system.columns → (IsTrue at_point → IsAtPoint system revised.now) → IfOk result (λ copy. IfSome copy (IsSavedOf system)) }
{
    if !at_point {
        return Ok(None);
    }
    let copy = revised.save(alloc)?;
    Ok(Some(copy))
}

// Drops the copy for the outermost split, if there are as many as may be kept.
fn drop_outermost(copies: &mut Vec<Option<Saved>>)
    ensures { (system : LinearSystem) (forms : List Form) (sides : List SplitSide) → AreSaved system forms (reverse copies.old.items) sides → AreSaved system forms (reverse copies.new.items) sides }
{
    if copies.len() >= MOST {
        copies.remove(0);
    }
}

impl Dictionaries {
    // Dictionaries for systems of so many columns.
    pub(crate) fn new(alloc: Global, columns: u32) -> Result<Dictionaries, NoMemory>
        ensures { IfOk result (λ d. d.revised.columns ≡ columns) }
    {
        let revised = Revised::new(alloc, columns)?;
        Ok(Dictionaries {
            revised,
            full: None,
            at_point: false,
            copies: Vec::new(alloc),
        })
    }

    // Settles the system below the splits with the revised dictionary. None where a number is too large for it.
    fn settle_small(
        &mut self,
        alloc: Global,
        system: &JoinedSystem<'_>,
        forms: &[Bounded],
        before: u32,
        splits: &Splits,
    ) -> Result<Option<NodeEnd>, NoMemory>
        requires can { CanBranch system.now before forms.now }
        requires sides { AreSidesOf (forms_of forms.now) splits.now.above.items }
        requires rows { HasRowsOf (forms_of forms.now) splits.now }
        requires columns { self.old.revised.columns ≡ system.now.columns }
        requires point { IsTrue self.old.at_point → IsAtParent system.now (forms_of forms.now) (reverse splits.now.above.items) self.old.revised }
        ensures node { IfOk result (λ end. IfSome end (NodeTells system.now (forms_of forms.now) splits.now.above.items)) }
        ensures point { IsTrue self.new.at_point → IsAtPoint (node_system system.now (forms_of forms.now) splits.now.above.items) self.new.revised }
        ensures columns { self.new.revised.columns ≡ self.old.revised.columns }
        ensures copies { self.new.copies.items ≡ self.old.copies.items }
    {
        let count = system.count() as usize + splits.rows.len();
        let ended = descent(&mut self.revised, self.at_point, system, &splits.rows);
        self.at_point = false;
        let relations = Relations::OfColumns(&self.revised);
        match ended {
            Descent::Point => {
                self.at_point = true;
                let end = point_end(alloc, relations, system, forms, before)?;
                Ok(Some(end))
            }
            Descent::Refuted(_) => {
                let weights = weights(alloc, relations, count as u32)?;
                Ok(Some(NodeEnd::Refuted(weights)))
            }
            Descent::Large => Ok(None),
        }
    }

    // Settles the system below the splits.
    pub(crate) fn node_end(
        &mut self,
        alloc: Global,
        system: &JoinedSystem<'_>,
        forms: &[Bounded],
        before: u32,
        splits: &Splits,
    ) -> Result<NodeEnd, NoMemory>
        requires can { CanBranch system.now before forms.now }
        requires sides { AreSidesOf (forms_of forms.now) splits.now.above.items }
        requires rows { HasRowsOf (forms_of forms.now) splits.now }
        requires columns { self.old.revised.columns ≡ system.now.columns }
        requires point { IsTrue self.old.at_point → IsAtParent system.now (forms_of forms.now) (reverse splits.now.above.items) self.old.revised }
        ensures node { IfOk result (NodeTells system.now (forms_of forms.now) splits.now.above.items) }
        ensures point { IsTrue self.new.at_point → IsAtPoint (node_system system.now (forms_of forms.now) splits.now.above.items) self.new.revised }
        ensures columns { self.new.revised.columns ≡ self.old.revised.columns }
        ensures copies { self.new.copies.items ≡ self.old.copies.items }
    {
        match self.settle_small(alloc, system, forms, before, splits)? {
            Some(end) => Ok(end),
            None => settle_full(alloc, &mut self.full, system, forms, before, splits),
        }
    }

    // Keeps a copy for the high side of a split, if the revised dictionary is at its point.
    fn save(&mut self, alloc: Global) -> Result<(), NoMemory>
        ensures saved { (system : LinearSystem) (forms : List Form) (above : List SplitSide) (side : SplitSide) → self.old.revised.columns ≡ system.columns
            → (IsTrue self.old.at_point → IsAtPoint (node_system system forms above) self.old.revised) → side.high ≡ false
            → AreSaved system forms (reverse self.old.copies.items) (reverse above) → OnOk result (AreSaved system forms (reverse self.new.copies.items) (side ∷ reverse above)) }
        ensures revised { self.new.revised ≡ self.old.revised }
        ensures point { self.new.at_point ≡ self.old.at_point }
    {
        let copy = copy(alloc, &self.revised, self.at_point)?;
        drop_outermost(&mut self.copies);
        self.copies.push(copy)?;
        Ok(())
    }

    // Goes back to the point of the innermost split whose high side is to come, if there is a copy of it.
    fn restore(&mut self)
        requires { (system : LinearSystem) × (forms : List Form) × (sides : List SplitSide) × AreSaved system forms (reverse self.old.copies.items) sides × (self.old.revised.columns ≡ system.columns) }
        ensures saved { (system : LinearSystem) (forms : List Form) (sides next : List SplitSide) → AreSaved system forms (reverse self.old.copies.items) sides
            → turned_back sides ≡ next → 0 < length next → AreSaved system forms (reverse self.new.copies.items) next }
        ensures point { (system : LinearSystem) (forms : List Form) (sides next : List SplitSide) → AreSaved system forms (reverse self.old.copies.items) sides
            → turned_back sides ≡ next → 0 < length next → IsTrue self.new.at_point → IsAtParent system forms next self.new.revised }
        ensures columns { self.new.revised.columns ≡ self.old.revised.columns }
    {
        self.at_point = false;
        let Some(Some(copy)) = self.copies.pop() else {
            return;
        };
        self.revised.restore(copy);
        self.at_point = true;
    }

    // Returns a point of the system at which every form is whole, or a tree that shows that there is none.
    pub(crate) fn solve_whole(
        &mut self,
        alloc: Global,
        system: &JoinedSystem<'_>,
        forms: &[Bounded],
        before: u32,
    ) -> Result<Whole, BranchStop>
        requires can { CanBranch system.now before forms.now }
        requires columns { self.old.revised.columns ≡ system.now.columns }
        ensures answer { IfOk result (IsAnswer system.now (forms_of forms.now)) }
        ensures sound { IfOk result (IsSound system.now (forms_of forms.now)) }
        ensures stop { IfErr result (IsStop system.now (forms_of forms.now)) }
        ensures columns { self.new.revised.columns ≡ self.old.revised.columns }
    {
        let mut splits = Splits {
            above: Vec::new(alloc),
            rows: Vec::new(alloc),
        };
        self.at_point = false;
        self.copies.clear();
        let mut nodes = Vec::new(alloc);
        loop {
            match self.node_end(alloc, system, forms, before, &splits)? {
                NodeEnd::Stopped(members, wide) => {
                    return Err(BranchStop::Wide {
                        above: splits.above,
                        members,
                        wide,
                    });
                }
                NodeEnd::Whole(values) => return Ok(Whole::Point(values, splits.above)),
                NodeEnd::Fraction(form, at) => {
                    nodes.push(RawNode::Split(form, at))?;
                    self.save(alloc)?;
                    splits.go_low(alloc, forms, form, at)?;
                }
                NodeEnd::Refuted(weights) => {
                    nodes.push(RawNode::Leaf(weights))?;
                    splits.turn(alloc, forms)?;
                    if splits.above.is_empty() {
                        return Ok(Whole::Tree(nodes));
                    }
                    self.restore();
                }
            }
        }
    }
}
