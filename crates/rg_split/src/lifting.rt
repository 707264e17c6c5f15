//! Places of a system as places of the system with one of its labels split.
ghost use Rattle.std.specs.Prelude.{◌≡◌, ◌+◌, ◌<◌, ◌^◌, ℕ, length, map, All, IfOk, OnOk};
ghost use Rattle.rg_net.specs.Shown.{shown_place};
ghost use Rattle.rg_split.specs.Lifting.{HasWeights, with_copy};

use rg_marks::CompactPlace;
use rg_memory::NoMemory;
use rg_net::Place;
use std::alloc::{AllocError, Global};

// The places, each with the weights of this label for one label more.
pub(crate) fn lift(
    alloc: Global,
    places: &[CompactPlace],
    label: u32,
) -> Result<Vec<CompactPlace>, NoMemory>
    requires each { (labels : ℕ) × (label < labels) × (labels + 1 < 2 ^ 32) × All (HasWeights labels) places.now }
    ensures { IfOk result (λ v. v.items ≡ map (with_copy label) places.now) }
{
    let mut lifted = Vec::with_capacity(alloc, places.len())?;
    for place in places {
        let mut place = place.place(alloc)?;
        copy_weights(&mut place, label as usize)?;
        lifted.push(CompactPlace::new(alloc, &place)?)?;
    }
    Ok(lifted)
}

// Adds one label more, with the weights of this one.
fn copy_weights(place: &mut Place, label: usize) -> Result<(), AllocError>
    requires pre { label < length place.old.pre.items }
    requires post { label < length place.old.post.items }
    ensures { OnOk result (shown_place place.new ≡ with_copy label (shown_place place.old)) }
{
    let pre = place.pre[label];
    let post = place.post[label];
    place.pre.push(pre)?;
    place.post.push(post)?;
    Ok(())
}
