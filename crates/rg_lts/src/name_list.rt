//! Lists of names.
ghost use Rattle.std.specs.Prelude.{◌≡◌, ◌<◌, [], ◌∷◌, ◌++◌, length, Contains, Some, IfSome, IfNone, OnOk, OnErr, slice_get};

use crate::slots;
use std::alloc::{AllocError, Global};
use std::collections::BTreeMap;
use std::marker::Model;

/// Names in the order in which they were added. Each name has a slot by its digest. The slot has the number of the
/// name or of another one with the same slot; then a map in the order of the names has the number. So each name is
/// found in few steps, also where all names have one digest.
#[derive(Drop)]
pub struct NameList {
    names: Vec<String>,
    slots: Vec<Option<usize>>,
    others: BTreeMap<String, usize>,
    expected: usize,
}

impl Model for NameList {
    ghost use Rattle.std.specs.Prelude.{ℕ, List, map, string_bytes};
    ghost use Rattle.rg_lts.specs.Slots.{IsIndexed};

    ghost Value = { List (List ℕ) };

    ghost view = { λ l. map string_bytes l.names.items };

    ghost invariant = { λ l. IsIndexed (map string_bytes l.names.items) l.slots.items l.others };
}

impl NameList {
    /// Returns a list of no names. When the first name is added, the list takes memory for four slots for each name
    /// that is expected. There may be more names, or fewer.
    pub fn new(alloc: Global, expected: usize) -> NameList
        ensures { result ≡ [] }
    {
        NameList {
            names: Vec::new(alloc),
            slots: Vec::new(alloc),
            others: BTreeMap::new(alloc),
            expected,
        }
    }

    /// Returns how many names there are.
    pub fn len(&self) -> usize
        ensures { result ≡ length self.now }
    {
        self.names.len()
    }

    /// Returns the name at an index.
    pub fn name(&self, index: usize) -> &str
        requires { index < length self.now }
        ensures { slice_get self.now index ≡ Some result.now }
    {
        self.names[index].as_str()
    }

    /// Returns the index of the name, or None if it isn't there.
    pub fn number_of(&self, name: &str) -> Option<usize>
        ensures within { IfSome result (λ i. i < length self.now) }
        ensures found { IfSome result (λ i. slice_get self.now i ≡ Some name.now) }
        ensures none { IfNone result (¬ Contains self.now name.now) }
    {
        match slots::number_in_slot(&self.names, &self.slots, name) {
            Some(number) => Some(number),
            None => self.others.get(name).copied(),
        }
    }

    /// Adds a name at the end. Returns `AllocError` if memory runs out; then the list is as before.
    pub fn add(&mut self, alloc: Global, name: &str) -> Result<(), AllocError>
        ensures ok { OnOk result (self.new ≡ self.old ++ name.now ∷ []) }
        ensures err { OnErr result (self.new ≡ self.old) }
    {
        let owned = String::from_str(alloc, name)?;
        let number = self.names.len();
        self.names.reserve(1)?;
        slots::make(&mut self.slots, self.expected)?;
        slots::enter(alloc, &mut self.slots, &mut self.others, name, number)?;
        self.names.push(owned).unwrap();
        Ok(())
    }
}
