//! The first fork.
ghost use Rattle.std.specs.Prelude.{IfSome, IfNone};
ghost use Rattle.rg_theory.specs.System.{IsForkFree, IsLeastFork};
ghost use Rattle.rg_checks.specs.Flaws.{IsFirstFork};

use rg_lts::Lts;

/// A fork: the label leads from one state to two.
#[derive(Clone, Copy, Debug, PartialEq, Eq)]
pub struct Fork {
    /// The state that both arcs leave.
    pub from: u32,
    pub label: u32,
    /// The two states, the lesser one first.
    pub to: u32,
    pub other: u32,
}

/// Returns the first fork by state, then label, with the two least states to which the label leads from there.
/// Returns None exactly if there is no fork. It takes no memory.
pub fn least_fork(lts: &Lts) -> Option<Fork>
    ensures least { IfSome result (IsFirstFork lts.now) }
    ensures none { IfNone result (IsForkFree lts.now) }
{
    let arcs = lts.arcs();
    for i in 1..arcs.len() {
        let (a, b) = (arcs[i - 1], arcs[i]);
        if a.from == b.from && a.label == b.label {
            return Some(Fork {
                from: a.from,
                label: a.label,
                to: a.to,
                other: b.to,
            });
        }
    }
    None
}

/// Returns the first fork by state, then label: the state, the label, and the two least states to which the label
/// leads from there. Returns None exactly if there is no fork. It takes no memory.
pub fn first_fork(lts: &Lts) -> Option<(u32, u32, u32, u32)>
    ensures least { IfSome result (λ f. IsLeastFork lts.now f.0 f.1 f.2 f.3) }
    ensures none { IfNone result (IsForkFree lts.now) }
{
    let fork = least_fork(lts)?;
    Some((fork.from, fork.label, fork.to, fork.other))
}
