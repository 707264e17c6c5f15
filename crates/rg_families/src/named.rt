//! The system of given names and arcs.
ghost use Rattle.std.specs.Prelude.{◌≡◌, ◌≤◌, [], map, length, Contains, IfOk, OnOk};
ghost use Rattle.rg_theory.specs.Limits.{most_states, most_labels, most_arcs};
ghost use Rattle.rg_lts.specs.WellFormed.{AreNames};
ghost use Rattle.rg_families.specs.Named.{Triple, drawing, IsSystemOf, IsSound, IsKnown, HasArcs, names_of, triple_of};

use rg_lts::{BuildFault, Lts, LtsBuilder};
use rg_memory::NoMemory;
use std::alloc::Global;

/// An arc by the names of the state that it leaves, of its label, and of the state that it enters.
#[derive(Drop)]
pub(crate) struct NamedArc {
    pub(crate) from: String,
    pub(crate) label: String,
    pub(crate) to: String,
}

// The system of these names, these arcs and this initial state.
pub(crate) fn build(
    alloc: Global,
    states: &[String],
    labels: &[String],
    arcs: &[NamedArc],
    initial: &str,
) -> Result<Lts, NoMemory>
    requires { IsSound (drawing (names_of states.now) (names_of labels.now) (map triple_of arcs.now) initial.now) }
    ensures { IfOk result (IsSystemOf (drawing (names_of states.now) (names_of labels.now) (map triple_of arcs.now) initial.now)) }
{
    let mut builder = LtsBuilder::new(alloc);
    add_states(&mut builder, states)?;
    add_labels(&mut builder, labels)?;
    add_arcs(&mut builder, arcs)?;
    match builder.initial(initial) {
        Ok(()) => {}
        Err(_) => unreachable!(),
    }
    match builder.finish() {
        Ok(lts) => Ok(lts),
        Err(BuildFault::NoMemory) => Err(NoMemory),
        Err(_) => unreachable!(),
    }
}

// Adds states with these names.
fn add_states(builder: &mut LtsBuilder, names: &[String]) -> Result<(), NoMemory>
    requires none { builder.old.state_names ≡ [] }
    requires names { AreNames (names_of names.now) }
    requires few { length (names_of names.now) ≤ most_states }
    ensures { OnOk result (builder.new ≡ record builder.old { state_names = names_of names.now }) }
{
    for name in names {
        match builder.state(name.as_str()) {
            Ok(_) => {}
            Err(BuildFault::NoMemory) => return Err(NoMemory),
            Err(_) => unreachable!(),
        }
    }
    Ok(())
}

// Adds labels with these names.
fn add_labels(builder: &mut LtsBuilder, names: &[String]) -> Result<(), NoMemory>
    requires none { builder.old.label_names ≡ [] }
    requires names { AreNames (names_of names.now) }
    requires few { length (names_of names.now) ≤ most_labels }
    ensures { OnOk result (builder.new ≡ record builder.old { label_names = names_of names.now }) }
{
    for name in names {
        match builder.label(name.as_str()) {
            Ok(_) => {}
            Err(BuildFault::NoMemory) => return Err(NoMemory),
            Err(_) => unreachable!(),
        }
    }
    Ok(())
}

// Adds arcs between states that are there.
fn add_arcs(builder: &mut LtsBuilder, arcs: &[NamedArc]) -> Result<(), NoMemory>
    requires none { builder.old.arcs ≡ [] }
    requires states { AreNames builder.old.state_names }
    requires labels { AreNames builder.old.label_names }
    requires known { (t : Triple) → Contains (map triple_of arcs.now) t → IsKnown builder.old.state_names builder.old.label_names t }
    requires few { length arcs.now ≤ most_arcs }
    ensures { OnOk result (HasArcs builder.old builder.new (map triple_of arcs.now)) }
{
    for arc in arcs {
        match builder.arc(arc.from.as_str(), arc.label.as_str(), arc.to.as_str()) {
            Ok(()) => {}
            Err(BuildFault::NoMemory) => return Err(NoMemory),
            Err(_) => unreachable!(),
        }
    }
    Ok(())
}
