//! The system of given names and arcs.
ghost use Rattle.std.specs.Prelude.{◌≡◌, ◌≤◌, [], length, map, All, IfOk, OnOk};
ghost use Rattle.rg_theory.specs.Limits.{most_states, most_labels, most_arcs};
ghost use Rattle.rg_lts.specs.WellFormed.{AreNames};
ghost use Rattle.rg_lts.specs.Draft.{IsArcWithin};
ghost use Rattle.rg_line_formats.specs.Parts.{AreParts, IsSystemWith, HasArcsOf};

use rg_lts::{BuildFault, Lts, LtsBuilder};
use rg_theory::Arc;
use std::alloc::{AllocError, Global};

/// Returns the system with states and labels of these names, these arcs and this initial state, by numbers. Arcs may
/// be in any order and may be repeated. Returns `AllocError` if memory runs out.
pub fn build(
    alloc: Global,
    states: &[&str],
    labels: &[&str],
    arcs: &[Arc],
    initial: u32,
) -> Result<Lts, AllocError>
    requires { AreParts (map (λ n. n.now) states.now) (map (λ n. n.now) labels.now) arcs.now initial }
    ensures { IfOk result (IsSystemWith (map (λ n. n.now) states.now) (map (λ n. n.now) labels.now) arcs.now initial) }
{
    let mut builder = LtsBuilder::new(alloc);
    add_states(&mut builder, states)?;
    add_labels(&mut builder, labels)?;
    add_arcs(&mut builder, arcs)?;
    match builder.initial(states[initial as usize]) {
        Ok(()) => {}
        Err(_) => unreachable!(),
    }
    match builder.finish() {
        Ok(lts) => Ok(lts),
        Err(BuildFault::NoMemory) => Err(AllocError),
        Err(_) => unreachable!(),
    }
}

// Adds states with these names.
fn add_states(builder: &mut LtsBuilder, names: &[&str]) -> Result<(), AllocError>
    requires none { builder.old.state_names ≡ [] }
    requires names { AreNames (map (λ n. n.now) names.now) }
    requires few { length names.now ≤ most_states }
    ensures { OnOk result (builder.new ≡ record builder.old { state_names = map (λ n. n.now) names.now }) }
{
    for name in names {
        match builder.state(name) {
            Ok(_) => {}
            Err(BuildFault::NoMemory) => return Err(AllocError),
            Err(_) => unreachable!(),
        }
    }
    Ok(())
}

// Adds labels with these names.
fn add_labels(builder: &mut LtsBuilder, names: &[&str]) -> Result<(), AllocError>
    requires none { builder.old.label_names ≡ [] }
    requires names { AreNames (map (λ n. n.now) names.now) }
    requires few { length names.now ≤ most_labels }
    ensures { OnOk result (builder.new ≡ record builder.old { label_names = map (λ n. n.now) names.now }) }
{
    for name in names {
        match builder.label(name) {
            Ok(_) => {}
            Err(BuildFault::NoMemory) => return Err(AllocError),
            Err(_) => unreachable!(),
        }
    }
    Ok(())
}

// Adds these arcs.
fn add_arcs(builder: &mut LtsBuilder, arcs: &[Arc]) -> Result<(), AllocError>
    requires none { builder.old.arcs ≡ [] }
    requires within { All (IsArcWithin builder.old) arcs.now }
    requires few { length arcs.now ≤ most_arcs }
    ensures { OnOk result (HasArcsOf builder.old builder.new arcs.now) }
{
    for arc in arcs {
        match builder.arc_between(*arc) {
            Ok(()) => {}
            Err(BuildFault::NoMemory) => return Err(AllocError),
            Err(_) => unreachable!(),
        }
    }
    Ok(())
}
