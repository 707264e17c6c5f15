//! The markings of the states along the tree.
ghost use Rattle.std.specs.Prelude.{◌≡◌, ◌≢◌, ◌<◌, ◌≤◌, length, All, IfOk, IsErrOf, Ok, Err, map, ℤ, pos, neg_ℤ};
ghost use Rattle.rg_integers.specs.Range.{greatest, InRange};
ghost use Rattle.rg_theory.specs.System.{states, labels, IsInRange, IsAllReachable};
ghost use Rattle.rg_theory.specs.Tree.{IsTree};
ghost use Rattle.rg_theory.specs.Net.{start_marking, IsEnabled, Fires};
ghost use Rattle.rg_theory.specs.Solves.{marking_of};
ghost use Rattle.rg_net.specs.Range.{IsNetInRange};
ghost use Rattle.rg_net.specs.ClassBreaks.{shown_markings};
ghost use Rattle.rg_net.specs.Firing.{IsFirstPassed};
ghost use Rattle.rg_net_verdict.specs.declared.check.Halt.TheVariants as halt;
ghost use Rattle.rg_net_verdict.specs.declared.verdict.CheckStop.TheVariants as stop;
ghost use Rattle.rg_net_verdict.specs.declared.verdict.CheckWide.{CheckWide};
ghost use Rattle.rg_net_verdict.specs.declared.verdict.NetNo.{NetNo};
ghost use Rattle.rg_net_verdict.specs.declared.verdict.NetVerdict.TheVariants as verdict;
ghost use Rattle.rg_net_verdict.specs.Verdict.{HaveMarkings, Tells};
ghost use Rattle.rg_net_verdict.specs.Rows.{AreRows, IsShownPassed};
ghost use Rattle.rg_net_verdict.specs.Flows.{AreFlows, IsFlow};

use crate::check::Halt;
use crate::flow::Flow;
use crate::moves::{allows, row_after};
use crate::verdict::{CheckStop, CheckWide, NetNo};
use rg_integers::Wide;
use rg_lts::Lts;
use rg_net::{Class, FireStop, Net, Place};
use rg_theory::Arc;
use std::alloc::{AllocError, Global};

// The markings of the states by number, along the tree arc by arc.
pub(crate) fn rows_along(
    alloc: Global,
    lts: &Lts,
    tree: &[Arc],
    net: &Net,
    flows: &[Vec<Flow>],
) -> Result<Vec<Vec<u128>>, Halt>
    requires flows { AreFlows net.now flows.now }
    requires labels { net.now.labels ≡ labels lts.now }
    requires tree { IsTree lts.now tree.now }
    requires reachable { IsAllReachable lts.now }
    ensures rows { IfOk result (λ rows. AreRows lts.now net.now (shown_markings rows.items)) }
    ensures have { IfOk result (λ rows. HaveMarkings lts.now net.now tree.now (marking_of (shown_markings rows.items))) }
    ensures no { (class : Class) (n : NetNo) → IsErrOf result (halt.No n) → Tells lts.now net.now tree.now class (Ok (verdict.No n)) }
    ensures wide { (class : Class) (w : CheckWide) → IsErrOf result (halt.Stop (stop.Wide w)) → Tells lts.now net.now tree.now class (Err w) }
{
    let mut rows = begin_rows(alloc, lts, net)?;
    for a in tree {
        let source = &rows[a.from as usize];
        let flow = &flows[a.label as usize];
        if !allows(flow, source) {
            return Err(Halt::No(NetNo::NotEnabled(a.from, a.label)));
        }
        let target = fire_along(alloc, net, flow, source, a)?;
        rows[a.to as usize] = target;
    }
    Ok(rows)
}

// A row for each state, empty but that of the initial state, which has the start of each place.
fn begin_rows(alloc: Global, lts: &Lts, net: &Net) -> Result<Vec<Vec<u128>>, AllocError>
    ensures long { IfOk result (λ rows. length rows.items ≡ states lts.now) }
    ensures start { IfOk result (λ rows. marking_of (shown_markings rows.items) lts.now.initial ≡ start_marking net.now) }
    ensures net { IfOk result (λ _. IsNetInRange net.now) }
    ensures system { IfOk result (λ _. IsInRange lts.now) }
{
    let mut rows = Vec::with_capacity(alloc, lts.states() as usize)?;
    for _ in 0..lts.states() {
        rows.push(Vec::new(alloc))?;
    }
    rows[lts.initial() as usize] = start(alloc, net)?;
    Ok(rows)
}

// The start of each place.
fn start(alloc: Global, net: &Net) -> Result<Vec<u128>, AllocError>
    ensures value { IfOk result (λ row. row.items ≡ start_marking net.now) }
    ensures in_range { IfOk result (λ _. IsNetInRange net.now) }
{
    starts(alloc, net.places())
}

// The start of each of these places.
fn starts(alloc: Global, places: &[Place]) -> Result<Vec<u128>, AllocError>
    ensures { IfOk result (λ row. row.items ≡ map (λ p. p.start) places.now) }
{
    places.iter().map(|place| place.start).collect(alloc)
}

// The row after the firing along an arc that is enabled.
fn fire_along(
    alloc: Global,
    net: &Net,
    flow: &[Flow],
    source: &[u128],
    a: &Arc,
) -> Result<Vec<u128>, Halt>
    requires flow { IsFlow net.now a.now.label flow.now }
    requires enabled { IsEnabled net.now source.now a.now.label }
    requires places { length source.now ≡ length net.now.places }
    requires label { a.now.label < net.now.labels }
    requires in_range { All (λ n. n ≤ greatest) source.now }
    ensures fires { IfOk result (λ row. Fires net.now source.now a.now.label row.items) }
    ensures in_range { IfOk result (λ row. All (λ n. n ≤ greatest) row.items) }
    ensures passes { (w : CheckWide) → IsErrOf result (halt.Stop (stop.Wide w)) → IsShownPassed net.now source.now a.now w }
    ensures no { (n : NetNo) → result ≢ Err (halt.No n) }
{
    match row_after(alloc, flow, source) {
        Ok(row) => Ok(row),
        Err(FireStop::NoMemory) => Err(Halt::Stop(CheckStop::NoMemory)),
        Err(FireStop::Passes(place)) => {
            let wide = wide_of(net, source, a, place);
            Err(Halt::Stop(CheckStop::Wide(wide)))
        }
    }
}

// What is shown of the firing that passes on the place.
fn wide_of(net: &Net, source: &[u128], a: &Arc, place: u32) -> CheckWide
    requires enabled { IsEnabled net.now source.now a.now.label }
    requires places { length source.now ≡ length net.now.places }
    requires label { a.now.label < net.now.labels }
    requires in_range { All (λ n. n ≤ greatest) source.now }
    requires passed { IsFirstPassed net.now source.now a.now.label place }
    ensures { IsShownPassed net.now source.now a.now result }
{
    let weights = &net.places()[place as usize];
    let t = a.label as usize;
    let left = source[place as usize] - weights.pre[t];
    let wide = Wide {
        a: whole(left),
        b: 1,
        c: opposite(weights.post[t]),
        d: 1,
    };
    CheckWide {
        state: a.to,
        place,
        wide,
    }
}

// The number as one with a sign.
fn whole(n: u128) -> i128
    requires { n ≤ greatest }
    ensures value { result ≡ pos n }
    ensures in_range { InRange result }
{
    n as i128
}

// The number below 0 of the same size.
fn opposite(n: u128) -> i128
    requires { n ≤ greatest }
    ensures value { result ≡ neg_ℤ (pos n) }
    ensures in_range { InRange result }
{
    -whole(n)
}
