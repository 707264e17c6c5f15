//! The primitive relation of a column.

ghost use Rattle.std.specs.Prelude.{◌≡◌, ◌∷◌, ℕ, ◌+◌, ◌<◌, length, Contains, slice_index, map, IfOk, pos, ◌<ℤ◌, ◌*ℤ◌, unsigned_abs};
ghost use Rattle.rg_integers.specs.Range.{InRange};
ghost use Rattle.rg_integers.specs.Sum.{number_at};
ghost use Rattle.rg_linear.specs.Dictionary.{Relation};
ghost use Rattle.rg_linear.specs.Exchange.{IsReduced};
ghost use Rattle.rg_linear.specs.Table.{numbers_of};
ghost use Rattle.rg_revised.specs.Held.{AreDistinct, relation_of};
ghost use Rattle.rg_revised.specs.Settling.{IsCommonFactor};

use crate::factor::{common_factor, divide_by_factor};
use crate::members::slot_from;
use std::alloc::{AllocError, Global};

// The number of a variable that has a slot, divided by the common factor. The slot is looked for at the first one
// first.
fn primitive_number(
    variable: u32,
    first: u32,
    slots: &[u32],
    d: i64,
    row: &[i64],
    factor: i128,
) -> i128
    requires row { length row.now ≡ length slots.now + 1 }
    requires slot { Contains slots.now variable }
    requires factor { IsCommonFactor d row.now factor }
    requires factor_in_range { InRange factor }
    ensures value { (s : ℕ) × (s < length slots.now) × (slice_index slots.now s ≡ variable) × (factor *ℤ result ≡ number_at row.now s) }
    ensures in_range { InRange result }
{
    let Some(slot) = slot_from(slots, first, variable) else {
        unreachable!()
    };
    divide_by_factor(row[slot], factor)
}

/// Returns the numbers of the primitive relation: `d`, the constant, and those of the members in order, where the row
/// has a number for the variable of each slot, and after them the constant. The slot of each member is looked for
/// first at that of `firsts`.
pub(crate) fn primitive_numbers(
    alloc: Global,
    members: &[u32],
    firsts: &[u32],
    slots: &[u32],
    d: i64,
    row: &[i64],
) -> Result<Vec<i128>, AllocError>
    requires row { length row.now ≡ length slots.now + 1 }
    requires positive { pos 0 <ℤ d }
    requires firsts { length firsts.now ≡ length members.now }
    requires members { (m : ℕ) → Contains members.now m → Contains slots.now m }
    ensures numbers { IfOk result (λ v. (k : Relation) → AreDistinct slots.now → IsReduced (relation_of slots.now d row.now) k → v.items ≡ numbers_of members.now k) }
    ensures length { IfOk result (λ v. length v.items ≡ length members.now + 2) }
    ensures in_range { IfOk result (λ v. (n : ℕ) → InRange (number_at v.items n)) }
{
    let factor = common_factor(d, row);
    let mut numbers = Vec::new(alloc);
    numbers.push(divide_by_factor(d, factor))?;
    numbers.push(divide_by_factor(row[slots.len()], factor))?;
    for (index, &member) in members.iter().enumerate() {
        let first = firsts[index];
        let number = primitive_number(member, first, slots, d, row, factor);
        numbers.push(number)?;
    }
    Ok(numbers)
}
