//! Reading the relations of the labels.
ghost use Rattle.std.specs.Prelude.{◌≡◌, ℕ, ◌+◌, ◌<◌, nat_lt, length, map, filter, Contains, IfOk};
ghost use Rattle.rg_integers.specs.Range.{InRange};
ghost use Rattle.rg_integers.specs.Sum.{number_at};
ghost use Rattle.rg_linear.specs.Dictionary.{Relation as LinearRelation};
ghost use Rattle.rg_linear.specs.System.{LinearSystem};
ghost use Rattle.rg_linear.specs.Table.{numbers_of};
ghost use Rattle.rg_cycles.specs.Basis.{vector_numbers};
ghost use Rattle.rg_cycles.specs.Relating.{AreRelationsOf, columns_of, members_of};
ghost use Rattle.rg_cycles.specs.Reading.{HasNumbers, AreRead, IsRead};

use crate::relation::Relation;
use crate::relations::Relations;
use std::alloc::{AllocError, Global};

// The relations of the labels; None for those in the set.
pub(crate) fn relations(
    alloc: Global,
    found: Relations<'_>,
    kept: &[u32],
) -> Result<Vec<Option<Relation>>, AllocError>
    requires are { (system : LinearSystem) × AreRelationsOf system found }
    requires kept { (m : ℕ) → Contains (members_of found) m → m < columns_of found + length kept.now }
    requires count { length (members_of found) ≡ columns_of found }
    ensures { IfOk result (λ v. AreRead found.entry kept.now v.items) }
{
    let mut relations = Vec::new(alloc);
    for t in 0..found.columns() {
        let relation = relation_at(alloc, found, kept, t)?;
        relations.push(relation)?;
    }
    Ok(relations)
}

// The relation of label t; None where it is in the set.
fn relation_at(
    alloc: Global,
    found: Relations<'_>,
    kept: &[u32],
    t: u32,
) -> Result<Option<Relation>, AllocError>
    requires are { (system : LinearSystem) × AreRelationsOf system found }
    requires kept { (m : ℕ) → Contains (members_of found) m → m < columns_of found + length kept.now }
    requires count { length (members_of found) ≡ columns_of found }
    requires label { t < columns_of found }
    ensures { IfOk result (IsRead found.entry kept.now t) }
{
    if found.contains(t) {
        return Ok(None);
    }
    let labels = found.columns();
    let members = found.members();
    let numbers = found.numbers(alloc, t)?;
    let relation = relation_with(alloc, labels, kept, members, &numbers)?;
    Ok(Some(relation))
}

// The relation with these numbers.
fn relation_with(
    alloc: Global,
    labels: u32,
    kept: &[u32],
    members: &[u32],
    numbers: &[i128],
) -> Result<Relation, AllocError>
    requires lengths { length numbers.now ≡ length members.now + 2 }
    requires in_range { (n : ℕ) → InRange (number_at numbers.now n) }
    requires rows { (m : ℕ) → Contains members.now m → m < labels + length kept.now }
    ensures { IfOk result (λ r. (k : LinearRelation) → numbers.now ≡ numbers_of members.now k → HasNumbers labels kept.now members.now k r) }
{
    let free = free_numbers(alloc, labels, members, numbers)?;
    let chords = chord_numbers(alloc, labels, kept, members, numbers)?;
    Ok(Relation {
        d: numbers[0],
        free,
        chords,
    })
}

// The numbers of the labels among the members.
fn free_numbers(
    alloc: Global,
    labels: u32,
    members: &[u32],
    numbers: &[i128],
) -> Result<Vec<i128>, AllocError>
    requires lengths { length numbers.now ≡ length members.now + 2 }
    requires in_range { (n : ℕ) → InRange (number_at numbers.now n) }
    ensures { IfOk result (λ v. (k : LinearRelation) → numbers.now ≡ numbers_of members.now k → v.items ≡ map k.coefficient (filter (λ m. nat_lt m labels) members.now)) }
{
    let mut free = Vec::new(alloc);
    for (index, &member) in members.iter().enumerate() {
        if member < labels {
            free.push(numbers[index + 2])?;
        }
    }
    Ok(free)
}

// The chords that are rows among the members, with their numbers, but those with 0.
fn chord_numbers(
    alloc: Global,
    labels: u32,
    kept: &[u32],
    members: &[u32],
    numbers: &[i128],
) -> Result<Vec<(u32, i128)>, AllocError>
    requires lengths { length numbers.now ≡ length members.now + 2 }
    requires in_range { (n : ℕ) → InRange (number_at numbers.now n) }
    requires rows { (m : ℕ) → Contains members.now m → m < labels + length kept.now }
    ensures { IfOk result (λ v. (k : LinearRelation) → numbers.now ≡ numbers_of members.now k → v.items ≡ vector_numbers labels kept.now members.now k) }
{
    let mut chords = Vec::new(alloc);
    for (index, &member) in members.iter().enumerate() {
        let number = numbers[index + 2];
        if member >= labels && number != 0 {
            chords.push((kept[(member - labels) as usize], number))?;
        }
    }
    Ok(chords)
}
