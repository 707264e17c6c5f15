//! The members of a set, in order.

ghost use Rattle.std.specs.Prelude.{◌≡◌, ℕ, ◌<◌, [], ◌∷◌, ◌++◌, length, Contains, remove, IfSome, IfNone, slice_index};
ghost use Rattle.std.specs.List.Sorted.{IsStrictlyIncreasing};
ghost use Rattle.rg_linear.specs.Exchange.{exchanged};

/// The members, and the slot at which each is looked for first.
#[derive(Drop)]
pub(crate) struct Members {
    pub(crate) variables: Vec<u32>,
    pub(crate) slots: Vec<u32>,
}

// Takes an item out, and puts another one at the end.
fn replace_item(list: &mut Vec<u32>, index: usize, last: u32)
    requires { index < length list.old.items }
    ensures items { list.new.items ≡ remove list.old.items index ++ last ∷ [] }
    ensures length { length list.new.items ≡ length list.old.items }
{
    list.remove(index);
    match list.push(last) {
        Ok(()) => {}
        Err(_) => unreachable!(),
    }
}

impl Members {
    /// Puts a variable that is greater than every member, and that has this slot, in the place of one.
    pub(crate) fn replace(&mut self, leaves: u32, enters: u32, slot: u32)
        requires ordered { IsStrictlyIncreasing self.old.variables.items }
        requires member { Contains self.old.variables.items leaves }
        requires last { (m : ℕ) → Contains self.old.variables.items m → m < enters }
        requires slots { length self.old.slots.items ≡ length self.old.variables.items }
        ensures exchanged { self.new.variables.items ≡ exchanged self.old.variables.items enters leaves }
        ensures length { length self.new.variables.items ≡ length self.old.variables.items }
        ensures slots { length self.new.slots.items ≡ length self.old.slots.items }
    {
        let Some(index) = slot_of(&self.variables, leaves) else {
            unreachable!()
        };
        replace_item(&mut self.variables, index, enters);
        replace_item(&mut self.slots, index, slot);
    }
}

/// Returns the slot of the variable, which is looked for at this one first.
pub(crate) fn slot_from(slots: &[u32], first: u32, variable: u32) -> Option<usize>
    ensures found { IfSome result (λ s. (s < length slots.now) × (slice_index slots.now s ≡ variable)) }
    ensures none { IfNone result (Contains slots.now variable → ⊥) }
{
    let slot = first as usize;
    if slot < slots.len() && slots[slot] == variable {
        return Some(slot);
    }
    slot_of(slots, variable)
}

/// Returns the slot of the variable.
pub(crate) fn slot_of(slots: &[u32], variable: u32) -> Option<usize>
    ensures found { IfSome result (λ s. (s < length slots.now) × (slice_index slots.now s ≡ variable)) }
    ensures none { IfNone result (Contains slots.now variable → ⊥) }
{
    for (slot, &held) in slots.iter().enumerate() {
        if held == variable {
            return Some(slot);
        }
    }
    None
}
