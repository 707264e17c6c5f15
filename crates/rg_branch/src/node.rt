//! One node of a branching.
ghost use Rattle.std.specs.Prelude.{◌≡◌, ◌+◌, ◌<◌, ◌^◌, ℕ, List, [], length, map, IfOk, IfSome, OnOk};
ghost use Rattle.rg_linear.specs.System.{LinearSystem};
ghost use Rattle.rg_linear.specs.Dictionary.{Relation};
ghost use Rattle.rg_linear.specs.Descent.{multiplier_of};
ghost use Rattle.rg_linear.specs.Branching.{SplitSide, node_system, weights_from};
ghost use Rattle.rg_branch.specs.View.{forms_of, weight_of};
ghost use Rattle.rg_branch.specs.Asked.{CanBranch, AreSidesOf, HasRowsOf};
ghost use Rattle.rg_branch.specs.Relating.{IsPointOf, IsRefutedBy};
ghost use Rattle.rg_branch.specs.Answer.{NodeTells};

use crate::bounded::Bounded;
use crate::point::{are_whole, first_fraction, values};
use crate::relations::Relations;
use crate::splits::Splits;
use rg_feasible::{Dictionary, PivotWide, Settled};
use rg_fraction::Fraction;
use rg_linear::{JoinedSystem, System};
use rg_memory::NoMemory;
use std::alloc::{AllocError, Global};

// What a node comes to.
#[derive(Drop)]
pub(crate) enum NodeEnd {
    // A term is out of range, at the set of these members.
    Stopped(Vec<u32>, PivotWide),
    // The rows with their multipliers refute.
    Refuted(Vec<(u32, i128)>),
    // All forms are whole at the point with these values.
    Whole(Vec<Fraction>),
    // This form is the first that isn't whole, with this floor.
    Fraction(u32, i64),
}

// Settles the system below the splits with the full dictionary, which may be any: it is filled again.
pub(crate) fn settle_full(
    alloc: Global,
    full: &mut Option<Dictionary>,
    system: &JoinedSystem<'_>,
    forms: &[Bounded],
    before: u32,
    splits: &Splits,
) -> Result<NodeEnd, NoMemory>
    requires can { CanBranch system.now before forms.now }
    requires sides { AreSidesOf (forms_of forms.now) splits.now.above.items }
    requires rows { HasRowsOf (forms_of forms.now) splits.now }
    ensures { IfOk result (NodeTells system.now (forms_of forms.now) splits.now.above.items) }
{
    let columns = system.columns();
    if full.is_none() {
        *full = Some(Dictionary::new(alloc, &System::new(columns, Vec::new(alloc)))?);
    }
    match full {
        Some(dictionary) => fill_and_settle(alloc, dictionary, system, forms, before, splits),
        None => unreachable!(),
    }
}

// Fills the dictionary with the rows of the node, and settles it.
fn fill_and_settle(
    alloc: Global,
    dictionary: &mut Dictionary,
    system: &JoinedSystem<'_>,
    forms: &[Bounded],
    before: u32,
    splits: &Splits,
) -> Result<NodeEnd, NoMemory>
    requires can { CanBranch system.now before forms.now }
    requires sides { AreSidesOf (forms_of forms.now) splits.now.above.items }
    requires rows { HasRowsOf (forms_of forms.now) splits.now }
    ensures { IfOk result (NodeTells system.now (forms_of forms.now) splits.now.above.items) }
{
    let columns = system.columns();
    let count = system.count() as usize + splits.rows.len();
    dictionary.renew(alloc, system, &splits.rows)?;
    match dictionary.settle() {
        Settled::Wide(wide) => {
            let members = members(alloc, dictionary, columns)?;
            Ok(NodeEnd::Stopped(members, wide))
        }
        Settled::Refuted(_) => {
            let weights = weights(alloc, Relations::OfAll(dictionary), count as u32)?;
            Ok(NodeEnd::Refuted(weights))
        }
        Settled::Point => {
            let end = point_end(alloc, Relations::OfAll(dictionary), system, forms, before)?;
            Ok(end)
        }
    }
}

// What a node comes to at the point of its descent.
pub(crate) fn point_end(
    alloc: Global,
    relations: Relations<'_>,
    system: &JoinedSystem<'_>,
    forms: &[Bounded],
    before: u32,
) -> Result<NodeEnd, AllocError>
    requires can { CanBranch system.now before forms.now }
    requires point { (above : List SplitSide) × (members : List ℕ) × IsPointOf (node_system system.now (forms_of forms.now) above) members relations }
    ensures { (above : List SplitSide) (members : List ℕ) → IsPointOf (node_system system.now (forms_of forms.now) above) members relations.entry → IfOk result (NodeTells system.now (forms_of forms.now) above) }
{
    let values = values(alloc, relations, system.columns())?;
    match first_fraction(relations, system, forms, before, are_whole(&values)) {
        Some((form, floor)) => Ok(NodeEnd::Fraction(form, floor)),
        None => Ok(NodeEnd::Whole(values)),
    }
}

// The set of the dictionary.
fn members(alloc: Global, dictionary: &Dictionary, columns: u32) -> Result<Vec<u32>, AllocError>
    requires { length dictionary.now.table.members ≡ columns }
    ensures { IfOk result (λ v. v.items ≡ dictionary.now.table.members) }
{
    let mut members = Vec::new(alloc);
    for i in 0..columns {
        members.push(dictionary.member(i))?;
    }
    Ok(members)
}

// The rows whose multiplier isn't 0, with it.
pub(crate) fn weights(
    alloc: Global,
    relations: Relations<'_>,
    rows: u32,
) -> Result<Vec<(u32, i128)>, AllocError>
    requires refuted { (node : LinearSystem) × (i : ℕ) × (k : Relation) × IsRefutedBy node i k relations × (rows ≡ length node.rows) × (node.columns + length node.rows < 2 ^ 32) }
    ensures { (node : LinearSystem) (i : ℕ) (k : Relation) → IsRefutedBy node i k relations.entry → IfOk result (λ v. map weight_of v.items ≡ weights_from (multiplier_of node k i) 0 rows) }
{
    let mut weights = Vec::new(alloc);
    for row in 0..rows {
        let multiplier = relations.multiplier(row);
        if multiplier == 0 {
            continue;
        }
        weights.push((row, multiplier))?;
    }
    Ok(weights)
}
