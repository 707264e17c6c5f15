//! Systems with the states of another one, whose arcs have other labels.
ghost use Rattle.std.specs.Prelude.{◌≡◌, ◌<◌, ◌≤◌, length, map, All, IfOk};
ghost use Rattle.rg_theory.specs.Limits.{most_labels};
ghost use Rattle.rg_lts.specs.WellFormed.{AreNames};
ghost use Rattle.rg_line_formats.specs.Parts.{IsSystemWith};
ghost use Rattle.rg_split.specs.Building.{arcs_with};

use rg_line_formats::build;
use rg_lts::Lts;
use rg_memory::NoMemory;
use rg_theory::Arc;
use std::alloc::Global;

// The system with the states of this one, with labels of these names, and with its arcs, each with the label of this
// number in the place of its own.
pub(crate) fn with_labels(
    alloc: Global,
    of: &Lts,
    names: &[&str],
    labels: &[u32],
) -> Result<Lts, NoMemory>
    requires names { AreNames (map (λ n. n.now) names.now) }
    requires few { length names.now ≤ most_labels }
    requires each { length labels.now ≡ length of.now.arcs }
    requires within { All (λ t. t < length names.now) labels.now }
    ensures { IfOk result (IsSystemWith of.now.state_names (map (λ n. n.now) names.now) (arcs_with labels.now of.now.arcs) of.now.initial) }
{
    of.is_well_formed();
    let states = state_names(alloc, of)?;
    let arcs = arcs_with(alloc, of.arcs(), labels)?;
    Ok(build(alloc, &states, names, &arcs, of.initial())?)
}

// The names of the states.
fn state_names<'a>(alloc: Global, of: &'a Lts) -> Result<Vec<&'a str>, NoMemory>
    ensures { IfOk result (λ v. map (λ n. n.now) v.items ≡ of.entry.now.state_names) }
{
    let mut names = Vec::new(alloc);
    for s in 0..of.states() {
        names.push(of.state_name(s))?;
    }
    Ok(names)
}

// The names of the labels.
pub(crate) fn label_names<'a>(alloc: Global, of: &'a Lts) -> Result<Vec<&'a str>, NoMemory>
    ensures { IfOk result (λ v. map (λ n. n.now) v.items ≡ of.entry.now.label_names) }
{
    let mut names = Vec::new(alloc);
    for t in 0..of.labels() {
        names.push(of.label_name(t))?;
    }
    Ok(names)
}

// The arcs with these labels in the places of their own.
fn arcs_with(alloc: Global, arcs: &[Arc], labels: &[u32]) -> Result<Vec<Arc>, NoMemory>
    requires { length labels.now ≡ length arcs.now }
    ensures { IfOk result (λ v. v.items ≡ arcs_with labels.now arcs.now) }
{
    let mut others = Vec::new(alloc);
    for i in 0..arcs.len() {
        others.push(Arc {
            from: arcs[i].from,
            label: labels[i],
            to: arcs[i].to,
        })?;
    }
    Ok(others)
}
