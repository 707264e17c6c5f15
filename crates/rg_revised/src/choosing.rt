//! The choice of the variable that leaves.

ghost use Rattle.std.specs.Prelude.{◌≡◌, ◌≢◌, ◌↔◌, ◌⊎◌, ℕ, ◌+◌, ◌<◌, ◌≤◌, ◌^◌, length, slice_index, Contains, IsTrue, IfSome, IfNone};
ghost use Rattle.rg_revised.specs.Reading.{IsVacant};

/// Returns the slot of the least variable that isn't fixed and that the numbers name.
pub(crate) fn least_vacant(
    columns: u32,
    slots: &[u32],
    stack: &[u32],
    numbers: &[i64],
) -> Option<usize>
    requires numbers { length slots.now < length numbers.now }
    ensures is { IfSome result (IsVacant columns slots.now stack.now numbers.now) }
    ensures least { IfSome result (λ p. (q : ℕ) → IsVacant columns slots.now stack.now numbers.now q → slice_index slots.now p ≤ slice_index slots.now q) }
    ensures none { IfNone result ((q : ℕ) → ¬ IsVacant columns slots.now stack.now numbers.now q) }
{
    let mut best = None;
    for s in 0..slots.len() {
        if numbers[s] != 0
            && is_less(slots, best, s)
            && is_vacant(columns, slots, stack, numbers, s)
        {
            best = Some(s);
        }
    }
    best
}

// Whether the variable of the slot isn't fixed, and the numbers name it.
fn is_vacant(columns: u32, slots: &[u32], stack: &[u32], numbers: &[i64], s: usize) -> bool
    requires slot { s < length slots.now }
    requires numbers { length slots.now < length numbers.now }
    ensures { IsTrue result ↔ IsVacant columns slots.now stack.now numbers.now s }
{
    numbers[s] != 0 && !is_fixed(columns, stack, slots[s])
}

// Whether the variable is that of a row of the stack.
fn is_fixed(columns: u32, stack: &[u32], variable: u32) -> bool
    ensures { IsTrue result ↔ ((s : ℕ) × Contains stack.now s × (variable ≡ columns + s)) }
{
    variable >= columns && stack.contains(&(variable - columns))
}

// Whether the variable of the slot is less than the best one, if there is one.
pub(crate) fn is_less(slots: &[u32], best: Option<usize>, s: usize) -> bool
    requires s { s < length slots.now }
    requires best { IfSome best (λ p. p < length slots.now) }
    ensures less { IfSome best (λ p. IsTrue result ↔ (slice_index slots.now s < slice_index slots.now p)) }
    ensures first { IfNone best (IsTrue result) }
{
    match best {
        Some(p) => slots[s] < slots[p],
        None => true,
    }
}
