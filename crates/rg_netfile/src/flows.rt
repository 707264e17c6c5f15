//! What each label takes from places and puts on them.
ghost use Rattle.std.specs.Prelude.{◌≡◌, ◌++◌, [], length, All, IfOk, OnOk};
ghost use Rattle.rg_netfile.specs.ListedSets.{member_if, members_of, AreFlows, AreFlowsWith};
ghost use Rattle.rg_net.specs.NetText.{starts};

use rg_memory::NoMemory;
use rg_net::{Net, Place};
use std::alloc::Global;

/// A place of a set with its weight, which isn't 0.
#[derive(Clone, Copy)]
pub(crate) struct WeightedPlace {
    pub place: usize,
    pub weight: u128,
}

/// The places from which a label takes tokens and those on which it puts some, each in their order.
#[derive(Drop)]
pub(crate) struct Flow {
    pub taken: Vec<WeightedPlace>,
    pub put: Vec<WeightedPlace>,
}

// The flow of each label. It goes over the places once.
pub(crate) fn flows_of(alloc: Global, net: &Net) -> Result<Vec<Flow>, NoMemory>
    ensures { IfOk result (λ flows. AreFlows net.now flows.items) }
{
    let mut flows = no_flows(alloc, net.labels())?;
    for (i, place) in net.places().iter().enumerate() {
        add_place(&mut flows, i, place)?;
    }
    Ok(flows)
}

// An empty flow for each label.
fn no_flows(alloc: Global, labels: u32) -> Result<Vec<Flow>, NoMemory>
    ensures long { IfOk result (λ flows. length flows.items ≡ labels) }
    ensures taken { IfOk result (λ flows. All (λ f. f.taken.items ≡ []) flows.items) }
    ensures put { IfOk result (λ flows. All (λ f. f.put.items ≡ []) flows.items) }
{
    let mut flows = Vec::with_capacity(alloc, labels as usize)?;
    for _ in 0..labels {
        flows.push(Flow {
            taken: Vec::new(alloc),
            put: Vec::new(alloc),
        })?;
    }
    Ok(flows)
}

// Adds place i to the flow of each label that takes from it or puts on it.
fn add_place(flows: &mut [Flow], i: usize, place: &Place) -> Result<(), NoMemory>
    requires pre { length place.now.pre.items ≡ length flows.old }
    requires post { length place.now.post.items ≡ length flows.old }
    ensures { OnOk result (AreFlowsWith place.now i (length flows.old) flows.old flows.new) }
{
    let mut t = 0;
    for flow in flows.iter_mut() {
        add_weighted(&mut flow.taken, i, place.pre[t])?;
        add_weighted(&mut flow.put, i, place.post[t])?;
        t += 1;
    }
    Ok(())
}

// Adds place i with its weight to the set, unless the weight is 0.
fn add_weighted(set: &mut Vec<WeightedPlace>, i: usize, weight: u128) -> Result<(), NoMemory>
    ensures { OnOk result (set.new.items ≡ set.old.items ++ member_if i weight) }
{
    if weight != 0 {
        set.push(WeightedPlace { place: i, weight })?;
    }
    Ok(())
}

// The places with tokens at the start, in their order.
pub(crate) fn starts(alloc: Global, net: &Net) -> Result<Vec<WeightedPlace>, NoMemory>
    ensures { IfOk result (λ set. set.items ≡ members_of (starts net.now)) }
{
    let mut set = Vec::new(alloc);
    for (i, place) in net.places().iter().enumerate() {
        add_weighted(&mut set, i, place.start)?;
    }
    Ok(set)
}
