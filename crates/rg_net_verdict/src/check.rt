//! The judge.
ghost use Rattle.std.specs.Prelude.{◌≡◌, IfOk, OnOk, IsErrOf, Ok, Err};
ghost use Rattle.rg_integers.specs.Range.{greatest};
ghost use Rattle.rg_theory.specs.System.{labels};
ghost use Rattle.rg_theory.specs.Class.{IsBounded};
ghost use Rattle.rg_checks.specs.Flaws.{IsFlawless};
ghost use Rattle.rg_lts.specs.WellFormed.{IsWellFormed};
ghost use Rattle.rg_spanning.specs.Spanning.{AreArcsOf};
ghost use Rattle.rg_net_verdict.specs.declared.check.Halt.TheVariants as halt;
ghost use Rattle.rg_net_verdict.specs.declared.verdict.CheckStop.TheVariants as stop;
ghost use Rattle.rg_net_verdict.specs.declared.verdict.CheckWide.{CheckWide};
ghost use Rattle.rg_net_verdict.specs.declared.verdict.NetNo.{NetNo};
ghost use Rattle.rg_net_verdict.specs.declared.verdict.NetVerdict.TheVariants as verdict;
ghost use Rattle.rg_net_verdict.specs.Verdict.{IsVerdict, no_of, Tells};

use crate::flow::flows_of;
use crate::rows::rows_along;
use crate::same::first_same;
use crate::verdict::{CheckStop, NetNo, NetVerdict};
use crate::wrong::{Marked, first_wrong};
use rg_checks::{Flaw, NoMemory, first_flaw};
use rg_lts::Lts;
use rg_net::{Class, Net, in_class};
use rg_spanning::TreeArcs;
use std::alloc::{AllocError, Global};

/// Why the tests end before the last.
#[derive(Clone, Copy, Debug)]
pub(crate) enum Halt {
    No(NetNo),
    Stop(CheckStop),
}

impl From<AllocError> for Halt {
    ghost from_gives = { λ _ e. e ≡ halt.Stop stop.NoMemory };

    fn from(_: AllocError) -> Halt {
        Halt::Stop(CheckStop::NoMemory)
    }
}

/// Returns whether the net, which has one transition for each label of the system, solves the system and is of the
/// class; if not, the first difference. The tests run in this order, and the first that fails decides: each state can
/// be reached; no label leads from a state to two; the arcs of the breadth first tree are enabled, in the order in
/// which they join; no two states have one marking; at each state the labels with an arc, and no others, are enabled,
/// and their firings give the markings of the arcs' targets; the class. The marking of a state is the one that the
/// labels of its way in the tree lead to.
///
/// Returns `Wide` if a firing along the tree leaves more than `2^127 - 1` tokens on a place, and `NoMemory` if memory
/// runs out: the markings of all states are held at once, 16 bytes for each state and place, and for each label the
/// places from which it takes or on which it puts tokens, 48 bytes for each.
pub fn check_net(alloc: Global, lts: &Lts, net: &Net, class: Class) -> Result<NetVerdict, CheckStop>
    requires { net.now.labels ≡ labels lts.now }
    ensures verdict { IfOk result (λ v. IsVerdict lts.now net.now class (Ok v)) }
    ensures wide { (w : CheckWide) → IsErrOf result (stop.Wide w) → IsVerdict lts.now net.now class (Err w) }
    ensures in_range { IfOk result (λ v. v ≡ verdict.Yes → IsBounded net.now greatest) }
{
    match first_flaw(alloc, lts) {
        Ok(None) => flawless_verdict(alloc, lts, net, class),
        Ok(Some(flaw)) => Ok(NetVerdict::No(no_of(flaw))),
        Err(NoMemory) => Err(CheckStop::NoMemory),
    }
}

// The difference that a flaw of the system is.
fn no_of(flaw: Flaw) -> NetNo
    ensures { result ≡ no_of flaw }
{
    match flaw {
        Flaw::Unreachable(s) => NetNo::Unreachable(s),
        Flaw::Fork(fork) => NetNo::Fork(fork.from, fork.label, fork.to, fork.other),
    }
}

// The same of a flawless system.
fn flawless_verdict(
    alloc: Global,
    lts: &Lts,
    net: &Net,
    class: Class,
) -> Result<NetVerdict, CheckStop>
    requires labels { net.now.labels ≡ labels lts.now }
    requires flawless { IsFlawless lts.now }
    ensures verdict { IfOk result (λ v. IsVerdict lts.now net.now class (Ok v)) }
    ensures wide { (w : CheckWide) → IsErrOf result (stop.Wide w) → IsVerdict lts.now net.now class (Err w) }
    ensures in_range { IfOk result (λ v. v ≡ verdict.Yes → IsBounded net.now greatest) }
{
    lts.is_well_formed();
    let Ok(tree) = TreeArcs::grow(alloc, lts) else {
        return Err(CheckStop::NoMemory);
    };
    match judge(alloc, lts, &tree, net, class) {
        Ok(()) => Ok(NetVerdict::Yes),
        Err(Halt::No(no)) => Ok(NetVerdict::No(no)),
        Err(Halt::Stop(stop)) => Err(stop),
    }
}

// The tests along the tree and after them.
fn judge(alloc: Global, lts: &Lts, tree: &TreeArcs, net: &Net, class: Class) -> Result<(), Halt>
    requires system { IsWellFormed lts.now }
    requires labels { net.now.labels ≡ labels lts.now }
    requires tree { AreArcsOf lts.now tree.now }
    requires flawless { IsFlawless lts.now }
    ensures yes { OnOk result (Tells lts.now net.now tree.now.arcs.items class (Ok verdict.Yes)) }
    ensures no { (n : NetNo) → IsErrOf result (halt.No n) → Tells lts.now net.now tree.now.arcs.items class (Ok (verdict.No n)) }
    ensures wide { (w : CheckWide) → IsErrOf result (halt.Stop (stop.Wide w)) → Tells lts.now net.now tree.now.arcs.items class (Err w) }
    ensures in_range { OnOk result (IsBounded net.now greatest) }
{
    let flows = flows_of(alloc, net)?;
    let rows = rows_along(alloc, lts, &tree.arcs, net, &flows)?;
    if let Some((s, r)) = first_same(alloc, lts, &rows)? {
        return Err(Halt::No(NetNo::SameMarking(s, r)));
    }
    let marked = Marked {
        lts,
        tree,
        net,
        flows: flows.as_slice(),
        rows: rows.as_slice(),
    };
    if let Some(no) = first_wrong(marked) {
        return Err(Halt::No(no));
    }
    match in_class(net, &rows, class) {
        Ok(()) => Ok(()),
        Err(first) => Err(Halt::No(NetNo::Class(first))),
    }
}
