//! The walk over the rows of a dictionary.
ghost use Rattle.std.specs.Prelude.{◌≡◌, ℕ, suc, ◌+◌, ◌<◌, ◌^◌, length, IfSome, IfNone, IfErr, OnOk, IsErrOf};
ghost use Rattle.rg_linear.specs.System.{LinearSystem};
ghost use Rattle.rg_linear.specs.Dictionary.{numbers_from};
ghost use Rattle.rg_linear.specs.Cycle.{CycleOutcome, CycleWalkFrom, CycleWalk};
ghost use Rattle.rg_feasible.specs.Contents.{IsDictionary, SameShape};
ghost use Rattle.rg_cycles.specs.declared.stop.Stop.TheVariants as stop;
ghost use Rattle.rg_cycles.specs.declared.stop.CycleWide.{CycleWide};
ghost use Rattle.rg_cycles.specs.Refusal.{shown_term};
ghost use Rattle.rg_cycles.specs.Walk.{NamesLabel, IsWhole, RowsAhead};

use crate::stop::{CycleWide, Stop};
use rg_feasible::{ExchangeWide, RelationTable};
use std::alloc::{AllocError, Global};

// An exchange that was refused, and the member that was to leave.
#[derive(Drop)]
struct Refusal {
    leaves: u32,
    at: ExchangeWide,
}

// Takes the rows in order; see `reduce`.
pub(crate) fn walk(alloc: Global, dictionary: &mut RelationTable) -> Result<(), Stop>
    requires whole { IsWhole dictionary.old }
    requires few { dictionary.old.columns + dictionary.old.rows < 2 ^ 32 }
    requires start { dictionary.old.members ≡ numbers_from 0 dictionary.old.columns }
    ensures shape { SameShape dictionary.old dictionary.new }
    ensures ends { OnOk result ((system : LinearSystem) → IsDictionary system dictionary.old → IsDictionary system dictionary.new × CycleWalk system (CycleOutcome.free_set dictionary.new.members)) }
    ensures wide { (w : CycleWide) → IsErrOf result (stop.Wide w) → (system : LinearSystem) → IsDictionary system dictionary.old → CycleWalk system (CycleOutcome.too_wide (shown_term w)) }
{
    for i in 0..dictionary.rows() {
        if let Err(refusal) = take_row(dictionary, i) {
            let pivot = dictionary.columns() + i;
            let members = dictionary.members().to_vec(alloc)?;
            return Err(Stop::Wide(wide(members, pivot, refusal)));
        }
    }
    Ok(())
}

// What is shown of a refusal.
fn wide(members: Vec<u32>, pivot: u32, refusal: Refusal) -> CycleWide
    ensures { shown_term result ≡ record { members = members.items; pivot = pivot; leaves = refusal.leaves; target = refusal.at.target; entry = refusal.at.entry; term = refusal.at.wide } }
{
    CycleWide {
        members,
        pivot,
        leaves: refusal.leaves,
        target: refusal.at.target,
        entry: refusal.at.entry,
        wide: refusal.at.wide,
    }
}

// Exchanges row i with the least label that its relation names. A row whose relation names none is passed over.
fn take_row(dictionary: &mut RelationTable, i: u32) -> Result<(), Refusal>
    requires whole { IsWhole dictionary.old }
    requires few { dictionary.old.columns + dictionary.old.rows < 2 ^ 32 }
    requires row { i < dictionary.old.rows }
    requires ahead { RowsAhead dictionary.old i }
    ensures shape { SameShape dictionary.old dictionary.new }
    ensures ahead { OnOk result (RowsAhead dictionary.new (i + 1)) }
    ensures stays { OnOk result ((system : LinearSystem) → IsDictionary system dictionary.old → IsDictionary system dictionary.new) }
    ensures goes_on { OnOk result ((system : LinearSystem) (o : CycleOutcome) → IsDictionary system dictionary.old → CycleWalkFrom system dictionary.new.members (suc i) o → CycleWalkFrom system dictionary.old.members i o) }
    ensures members_stay { IfErr result (λ _. dictionary.new.members ≡ dictionary.old.members) }
    ensures passes { IfErr result (λ e. (system : LinearSystem) → IsDictionary system dictionary.old
        → CycleWalkFrom system dictionary.old.members i
        (CycleOutcome.too_wide (record {
          members = dictionary.old.members;
          pivot = dictionary.old.columns + i;
          leaves = e.leaves;
          target = e.at.target;
          entry = e.at.entry;
          term = e.at.wide;
        }))) }
{
    let labels = dictionary.columns();
    let pivot = labels + i;
    let Some(index) = least_label(labels, dictionary.members(), dictionary.numbers(pivot)) else {
        return Ok(());
    };
    let leaves = dictionary.members()[index];
    match dictionary.exchange(pivot, index) {
        Ok(()) => Ok(()),
        Err(at) => Err(Refusal { leaves, at }),
    }
}

// The index of the first member that is a label and that the relation with these numbers names.
fn least_label(labels: u32, members: &[u32], numbers: &[i128]) -> Option<usize>
    requires { length numbers.now ≡ length members.now + 2 }
    ensures names { IfSome result (NamesLabel labels members.now numbers.now) }
    ensures least { IfSome result (λ p. (q : ℕ) → q < p → ¬ NamesLabel labels members.now numbers.now q) }
    ensures none { IfNone result ((q : ℕ) → ¬ NamesLabel labels members.now numbers.now q) }
{
    for (index, &member) in members.iter().enumerate() {
        if member < labels && numbers[index + 2] != 0 {
            return Some(index);
        }
    }
    None
}
