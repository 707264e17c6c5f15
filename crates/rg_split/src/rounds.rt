//! Rounds in which labels are split.
ghost use Rattle.std.specs.Prelude.{◌≤◌, IfOk};
ghost use Rattle.rg_split.specs.Rounds.{SplitsTo};
ghost use Rattle.rg_split.specs.Answer.{splitting_of, Says};

use crate::round::{Round, first_labelling, take_round};
use crate::splitting::Splitting;
use rg_lts::Lts;
use rg_memory::NoMemory;
use rg_ports::Gate;
use std::alloc::Global;
use std::thread::Threads;

/// Splits labels of the system until a net solves it, as petrify does for state graphs (Cortadella, Kishinevsky,
/// Lavagno, Yakovlev, *Deriving Petri nets from finite transition systems*), here by certificates.
///
/// Each round asks for the one answer for the system among all nets. A net or a number out of range ends the rounds,
/// and so does a state that can't be reached, which the first round reports. Otherwise the certificate names a label:
/// that of a fork, whose second arc gets a new label; or the least one with an arc whose multiplier in the leaf of
/// the first case isn't 0, of which the arcs with a positive multiplier get one new label. A round more follows,
/// unless there are 256 labels. The new label has the next number, and the name of the label that it replaces, cut to
/// 250 bytes, with `_` and the least number from 2 with which it is no label's name.
///
/// So labels are split only if a certificate asks for it; the number of labels needn't be the least. There is one
/// answer for a system, for any number of jobs and any gate (`outcome`, with `splitting_is_one`). Returns `NoMemory`
/// if memory runs out.
pub fn split<R: Threads + Sync, G: Gate + Sync>(
    rt: &R,
    alloc: Global,
    lts: &Lts,
    jobs: u8,
    gate: &G,
) -> Result<Splitting, NoMemory>
    requires some { 1 ≤ jobs }
    ensures outcome { IfOk result (λ r. SplitsTo lts.now (splitting_of r)) }
    ensures says { IfOk result (Says lts.now) }
{
    lts.is_well_formed();
    let mut now = first_labelling(alloc, lts)?;
    loop {
        match take_round(rt, alloc, lts, now, jobs, gate)? {
            Round::Ends(end) => return Ok(end),
            Round::GoesOn(next) => now = next,
        }
    }
}
