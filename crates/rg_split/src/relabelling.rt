//! Which label a reason splits, and the labels that the arcs have then.
ghost use Rattle.std.specs.Prelude.{◌≡◌, ◌<◌, ◌≤◌, ◌+ℤ◌, ◌*ℤ◌, ℕ, ℤ, map, length, sum_by, nat_abs, All, AllPairs, Some, IfOk, IfSome, IfNone, slice_get, slice_index_or, min};
ghost use Rattle.rg_integers.specs.Range.{greatest, InRange};
ghost use Rattle.rg_integers.specs.Sum.{number_at};
ghost use Rattle.rg_theory.specs.declared.Arc.{Arc};
ghost use Rattle.rg_theory.specs.System.{IsArcBefore, labels, arc};
ghost use Rattle.rg_theory.specs.ClassWords.{no_condition};
ghost use Rattle.rg_theory.specs.Limits.{most_labels};
ghost use Rattle.rg_cert_data.specs.Certificates.{reason_of, HasWholeCases, case_tree, IsWhole};
ghost use Rattle.rg_cert_data.specs.Trees.{named_row};
ghost use Rattle.rg_outcome.specs.Outcome.{Out, Answer.unsolvable as of_reason};
ghost use Rattle.rg_split.specs.Parts.{SplitsLabel, arc_multiplier, given_to};
ghost use Rattle.rg_split.specs.Rounds.{HasLabel, relabelled};
ghost use Rattle.rg_split.specs.Leaves.{IsRefutingTree, IsRefutingLeaf, IsPartOfTree, IsPartOfLeaf, IsLeastBelow, fork_label, label_by, labels_by, added};

use rg_cert_data::{Case, Node, Reason};
use rg_cert_meaning::RowName;
use rg_lts::Lts;
use rg_memory::NoMemory;
use rg_theory::Arc;
use std::alloc::Global;

// The label that is split, and the label of each arc after it, in the order of arcs.
#[derive(Drop)]
pub(crate) struct Relabelling {
    pub(crate) label: u32,
    pub(crate) labels: Vec<u32>,
}

// What a reason splits.
pub(crate) fn relabelling_of(
    alloc: Global,
    of: &Lts,
    reason: &Reason,
) -> Result<Relabelling, NoMemory>
    requires answer { Out of.now no_condition (of_reason (reason_of reason.now)) }
    requires whole { HasWholeCases reason.now }
    requires has_label { HasLabel (reason_of reason.now) }
    requires room { labels of.now < most_labels }
    ensures splits { IfOk result (λ p. SplitsLabel of.now (reason_of reason.now) p.label) }
    ensures labels { IfOk result (λ p. p.labels.items ≡ map (λ a. (relabelled (reason_of reason.now) p.label (labels of.now) a).label) of.now.arcs) }
{
    of.is_well_formed();
    match reason {
        Reason::Fork(s, t, _, to) => {
            let second = Arc {
                from: *s,
                label: *t,
                to: *to,
            };
            Ok(Relabelling {
                label: *t,
                labels: labels_with(alloc, of.arcs(), second, of.labels())?,
            })
        }
        Reason::Event(_, _, case) => case_relabelling(alloc, of, case),
        Reason::States(_, _, cases) => case_relabelling(alloc, of, &cases[0]),
        Reason::Unreachable(_) => unreachable!(),
    }
}

// The labels of arcs, with the new one at this arc.
fn labels_with(alloc: Global, arcs: &[Arc], second: Arc, new: u32) -> Result<Vec<u32>, NoMemory>
    ensures { IfOk result (λ v. v.items ≡ map (fork_label second new) arcs.now) }
{
    let mut labels = Vec::new(alloc);
    for a in arcs {
        labels.push(fork_label(*a, second, new))?;
    }
    Ok(labels)
}

// The label of an arc, where this one has a new one.
fn fork_label(a: Arc, second: Arc, new: u32) -> u32
    ensures { result ≡ fork_label second new a }
{
    if a == second { new } else { a.label }
}

// What the leaf of a case splits.
fn case_relabelling(alloc: Global, of: &Lts, case: &Case) -> Result<Relabelling, NoMemory>
    requires whole { IsWhole case.now }
    requires refutes { IsRefutingTree of.now (case_tree case.now) }
    ensures { IfOk result (λ p. IsPartOfTree of.now (case_tree case.now) p.label p.labels.items) }
{
    match case.nodes.get(0) {
        Some(Node::Leaf(rows)) => leaf_relabelling(alloc, of, rows),
        _ => unreachable!(),
    }
}

// What a leaf splits.
fn leaf_relabelling(
    alloc: Global,
    of: &Lts,
    rows: &[(RowName, i128)],
) -> Result<Relabelling, NoMemory>
    requires { IsRefutingLeaf of.now (map named_row rows.now) }
    ensures { IfOk result (λ p. IsPartOfLeaf of.now (map named_row rows.now) p.label p.labels.items) }
{
    of.is_well_formed();
    let sums = multipliers(alloc, of.arcs(), rows)?;
    match least_counting(of.arcs(), &sums) {
        Some(label) => Ok(Relabelling {
            label,
            labels: labels_after(alloc, of.arcs(), &sums, label, of.labels())?,
        }),
        None => unreachable!(),
    }
}

// The multiplier of each arc in a leaf, in the order of arcs.
fn multipliers(alloc: Global, arcs: &[Arc], rows: &[(RowName, i128)]) -> Result<Vec<i128>, NoMemory>
    requires order { AllPairs IsArcBefore arcs.now }
    requires multipliers { All (λ r. nat_abs r.multiplier ≤ greatest) (map named_row rows.now) }
    requires small { (a : Arc) → sum_by (λ r. nat_abs (given_to a r.name r.multiplier)) (map named_row rows.now) ≤ greatest }
    ensures sums { IfOk result (λ v. v.items ≡ map (arc_multiplier (map named_row rows.now)) arcs.now) }
    ensures in_range { IfOk result (λ v. All InRange v.items) }
{
    let mut sums = vec![in alloc; 0i128; arcs.len()]?;
    for (name, multiplier) in rows {
        if let RowName::Arc(arc) = name {
            add(arcs, &mut sums, arc, *multiplier);
        }
    }
    Ok(sums)
}

// Adds a multiplier to that of an arc.
fn add(arcs: &[Arc], sums: &mut [i128], arc: &Arc, multiplier: i128)
    requires order { AllPairs IsArcBefore arcs.now }
    requires each { length sums.old ≡ length arcs.now }
    requires in_range { All InRange sums.old }
    requires fits { (k : ℕ) → slice_get arcs.now k ≡ Some arc.now → InRange (number_at sums.old k +ℤ multiplier) }
    ensures { sums.new ≡ added arc.now multiplier arcs.now sums.old }
{
    if let Ok(index) = arcs.binary_search(arc) {
        sums[index] += multiplier;
    }
}

// The least label of an arc whose number isn't 0.
fn least_counting(arcs: &[Arc], sums: &[i128]) -> Option<u32>
    requires long { length sums.now ≡ length arcs.now }
    requires in_range { All InRange sums.now }
    ensures { IsLeastBelow arcs.now sums.now (length arcs.now) result }
{
    let mut least = None;
    for i in 0..arcs.len() {
        if sums[i] != 0 {
            least = Some(lesser(least, arcs[i].label));
        }
    }
    least
}

// The lesser of two numbers.
fn lesser(least: Option<u32>, t: u32) -> u32
    ensures some { IfSome least (λ u. result ≡ min u t) }
    ensures none { IfNone least (result ≡ t) }
{
    match least {
        Some(u) => u.min(t),
        None => t,
    }
}

// The label of each arc, where those of one label with a number above 0 have the new one.
fn labels_after(
    alloc: Global,
    arcs: &[Arc],
    sums: &[i128],
    label: u32,
    new: u32,
) -> Result<Vec<u32>, NoMemory>
    requires long { length sums.now ≡ length arcs.now }
    requires in_range { All InRange sums.now }
    ensures { IfOk result (λ v. v.items ≡ labels_by label new arcs.now sums.now) }
{
    let mut labels = Vec::new(alloc);
    for i in 0..arcs.len() {
        labels.push(label_after(arcs, sums, i, label, new))?;
    }
    Ok(labels)
}

// The label of the arc at an index, where those of one label with a number above 0 have the new one.
fn label_after(arcs: &[Arc], sums: &[i128], i: usize, label: u32, new: u32) -> u32
    requires index { i < length arcs.now }
    requires long { length sums.now ≡ length arcs.now }
    requires in_range { All InRange sums.now }
    ensures { result ≡ label_by label new (slice_index_or arcs.now i (arc 0 0 0)) (number_at sums.now i) }
{
    if arcs[i].label == label && sums[i] > 0 {
        new
    } else {
        arcs[i].label
    }
}
