//! What each label takes from places and puts on them.
ghost use Rattle.std.specs.Prelude.{◌≡◌, ◌<◌, ◌+◌, ◌++◌, [], length, All, IfOk, OnOk};
ghost use Rattle.rg_net_verdict.specs.Flows.{AreFlows, AreFlowsBelow, flow_if};

use rg_net::Net;
use std::alloc::{AllocError, Global};

/// A place from which a label takes tokens or on which it puts some, with both weights.
#[derive(Clone, Copy)]
pub(crate) struct Flow {
    pub place: u32,
    pub pre: u128,
    pub post: u128,
}

// For each label the places from which it takes or on which it puts tokens, in their order. It goes over the places
// once.
pub(crate) fn flows_of(alloc: Global, net: &Net) -> Result<Vec<Vec<Flow>>, AllocError>
    ensures { IfOk result (λ flows. AreFlows net.now flows.items) }
{
    let mut flows = no_flows(alloc, net.labels())?;
    for i in 0..net.places().len() {
        add_place(&mut flows, net, i as u32)?;
    }
    Ok(flows)
}

// An empty list for each label.
fn no_flows(alloc: Global, labels: u32) -> Result<Vec<Vec<Flow>>, AllocError>
    ensures long { IfOk result (λ flows. length flows.items ≡ labels) }
    ensures empty { IfOk result (λ flows. All (λ f. f.items ≡ []) flows.items) }
{
    let mut flows = Vec::new(alloc);
    for _ in 0..labels {
        flows.push(Vec::new(alloc))?;
    }
    Ok(flows)
}

// Adds a place to the list of each label that takes from it or puts on it.
fn add_place(flows: &mut [Vec<Flow>], net: &Net, i: u32) -> Result<(), AllocError>
    requires place { i < length net.now.places }
    requires below { AreFlowsBelow net.now i flows.old }
    ensures { OnOk result (AreFlowsBelow net.now (i + 1) flows.new) }
{
    let place = &net.places()[i as usize];
    let mut t = 0;
    for flow in flows.iter_mut() {
        add_flow(flow, i, place.pre[t], place.post[t])?;
        t += 1;
    }
    Ok(())
}

// Adds the place with its weights to a list, unless both are 0.
fn add_flow(flow: &mut Vec<Flow>, place: u32, pre: u128, post: u128) -> Result<(), AllocError>
    ensures { OnOk result (flow.new.items ≡ flow.old.items ++ flow_if place pre post) }
{
    if pre == 0 && post == 0 {
        return Ok(());
    }
    flow.push(Flow { place, pre, post })?;
    Ok(())
}
