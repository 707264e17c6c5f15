//! The slots of names.
ghost use Rattle.std.specs.Prelude.{◌≡◌, ◌↔◌, ℕ, ◌<◌, IsTrue, List, Some, None, IfSome, IfNone, OnOk, OnErr, ◌∷◌, [], ◌++◌, length, map, string_bytes, slice_get, slice_index_or};
ghost use Rattle.rg_lts.specs.Slots.{digest, slot_of, NumberMap, IsInSlot, IsIndexed};

use std::alloc::{AllocError, Global};
use std::collections::BTreeMap;

// How many slots there are for each name that is expected.
const SLOTS_OF_NAME: usize = 4;

// Makes the slots, if there are none.
pub(crate) fn make(slots: &mut Vec<Option<usize>>, expected: usize) -> Result<(), AllocError>
    ensures { (names : List (List ℕ)) (others : NumberMap) → IsIndexed names slots.old.items others → IsIndexed names slots.new.items others }
{
    if slots.is_empty() {
        slots.resize(expected.saturating_mul(SLOTS_OF_NAME), None)?;
    }
    Ok(())
}

// Gives a name its number: in its slot, or, if the slot has a number already, in the map.
pub(crate) fn enter(
    alloc: Global,
    slots: &mut Vec<Option<usize>>,
    others: &mut BTreeMap<String, usize>,
    name: &str,
    number: usize,
) -> Result<(), AllocError>
    ensures ok { OnOk result ((names : List (List ℕ)) → length names ≡ number → IsIndexed names slots.old.items others.old
        → IsIndexed (names ++ name.now ∷ []) slots.new.items others.new) }
    ensures err { OnErr result ((names : List (List ℕ)) → IsIndexed names slots.old.items others.old → IsIndexed names slots.new.items others.new) }
{
    let at = slot_of(name.as_bytes(), slots.len());
    if is_free(slots, at) {
        slots[at] = Some(number);
    } else {
        let owned = String::from_str(alloc, name)?;
        others.insert(owned, number)?;
    }
    Ok(())
}

// The number in the slot of a name, if it is the number of the name.
pub(crate) fn number_in_slot(names: &[String], slots: &[Option<usize>], name: &str) -> Option<usize>
    ensures some { IfSome result (λ i. slice_get (map string_bytes names.now) i ≡ Some name.now) }
    ensures none { IfNone result ((i : ℕ) → ¬ IsInSlot (map string_bytes names.now) slots.now name.now i) }
{
    match number_at(slots, slot_of(name.as_bytes(), slots.len())) {
        Some(number) => {
            if is_name_at(names, number, name) {
                Some(number)
            } else {
                None
            }
        }
        None => None,
    }
}

// Whether the name is at the index.
fn is_name_at(names: &[String], index: usize, name: &str) -> bool
    ensures { IsTrue result ↔ (slice_get (map string_bytes names.now) index ≡ Some name.now) }
{
    match names.get(index) {
        Some(there) => there.as_str() == name,
        None => false,
    }
}

// Whether there is such a slot, and no number in it.
fn is_free(slots: &[Option<usize>], at: usize) -> bool
    ensures { IsTrue result → (at < length slots.now) × (slice_index_or slots.now at None ≡ None) }
{
    at < slots.len() && slots[at].is_none()
}

// The number in a slot.
fn number_at(slots: &[Option<usize>], at: usize) -> Option<usize>
    ensures { result ≡ slice_index_or slots.now at None }
{
    match slots.get(at) {
        Some(slot) => *slot,
        None => None,
    }
}

// The slot of a name, where there are so many.
#[tactic(auto, unfolding(crate::specs::Slots::slot_of))]
fn slot_of(name: &[u8], count: usize) -> usize
    ensures { result ≡ slot_of name.now count }
{
    if count == 0 {
        0
    } else {
        digest(name) as usize % count
    }
}

// A number in which most names differ.
#[tactic(auto, unfolding(crate::specs::Slots::digest))]
fn digest(name: &[u8]) -> u32
    ensures { result ≡ digest name.now }
{
    let mut sum: u32 = 0;
    for byte in name {
        sum = sum.wrapping_mul(37).wrapping_add(u32::from(*byte));
    }
    sum
}
