//! The labels of transitions.
ghost use Rattle.std.specs.Prelude.{◌≡◌, ◌==◌, ◌≢◌, ◌<◌, length, All, Contains, Some, true, false, slice_get, IfOk, IfErr, IfSome, IfNone, OnOk};
ghost use Rattle.std.specs.List.{list_all};
ghost use Rattle.rg_theory.specs.System.{labels};
ghost use Rattle.rg_net_grammar.specs.Contents.{label_of};
ghost use Rattle.rg_net_grammar.specs.View.{transition_in, transitions_in, IsTransitionOf};
ghost use Rattle.rg_netfile.specs.Contents.{have_each_once};
ghost use Rattle.rg_netfile.specs.Built.{AreApart, AreNumbers, AreCounts};
ghost use Rattle.rg_netfile.specs.declared.fault.NetFault.TheVariants as fault;

use crate::fault::NetFault;
use rg_grammar::{text_of, value_of};
use rg_lexer::Token;
use rg_lts::Lts;
use rg_net_grammar::Transition;
use std::alloc::Global;
use std::str;

// The label of a transition.
fn label_of<'a>(bytes: &'a [u8], transition: Transition<Token>) -> &'a [u8]
    requires { IsTransitionOf bytes.now transition }
    ensures { result.now ≡ label_of (transition_in bytes.entry.now transition) }
{
    match transition.label {
        Some(value) => value_of(bytes, value),
        None => text_of(bytes, transition.name),
    }
}

// The number of a label of the system.
fn number_of(lts: &Lts, label: &[u8]) -> Option<u32>
    ensures within { IfSome result (λ t. t < labels lts.now) }
    ensures found { IfSome result (λ t. slice_get lts.now.label_names t ≡ Some label.now) }
    ensures none { IfNone result (¬ Contains lts.now.label_names label.now) }
{
    lts.is_well_formed();
    match str::from_utf8(label) {
        Ok(name) => lts.label_number(name),
        Err(_) => None,
    }
}

// The number of each transition's label. `TransitionsDiffer` where one is no label of the system.
fn numbers(
    alloc: Global,
    bytes: &[u8],
    lts: &Lts,
    transitions: &[Transition<Token>],
) -> Result<Vec<u32>, NetFault>
    requires { All (IsTransitionOf bytes.now) transitions.now }
    ensures numbers { IfOk result (λ v. AreNumbers lts.now.label_names (transitions_in bytes.now transitions.now) v.items) }
    ensures within { IfOk result (λ v. All (λ t. t < labels lts.now) v.items) }
    ensures fault { IfErr result (λ f. f ≢ fault.NoMemory
        → (f ≡ fault.TransitionsDiffer) × (have_each_once lts.now.label_names (transitions_in bytes.now transitions.now) ≡ false)) }
{
    let mut found = Vec::new(alloc);
    for transition in transitions {
        match number_of(lts, label_of(bytes, *transition)) {
            Some(t) => found.push(t)?,
            None => return Err(NetFault::TransitionsDiffer),
        }
    }
    Ok(found)
}

// How often each of so many numbers is in a list.
fn counts(alloc: Global, labels: u32, numbers: &[u32]) -> Result<Vec<usize>, NetFault>
    requires { All (λ t. t < labels) numbers.now }
    ensures ok { IfOk result (λ v. AreCounts labels numbers.now v.items) }
    ensures fault { IfErr result (λ f. f ≡ fault.NoMemory) }
{
    let mut counts = vec![in alloc; 0; labels as usize]?;
    for number in numbers {
        counts[*number as usize] += 1;
    }
    Ok(counts)
}

// Whether each number is 1.
fn are_ones(numbers: &[usize]) -> bool
    ensures { result ≡ list_all (λ n. n == 1) numbers.now }
{
    numbers.iter().all(|n| *n == 1)
}

/// Returns the number of each transition's label. Returns `TransitionsDiffer` if the transitions' labels aren't each
/// label of the system once.
pub(crate) fn label_numbers(
    alloc: Global,
    bytes: &[u8],
    lts: &Lts,
    transitions: &[Transition<Token>],
) -> Result<Vec<u32>, NetFault>
    requires { All (IsTransitionOf bytes.now) transitions.now }
    ensures numbers { IfOk result (λ v. AreNumbers lts.now.label_names (transitions_in bytes.now transitions.now) v.items) }
    ensures within { IfOk result (λ v. All (λ t. t < labels lts.now) v.items) }
    ensures apart { IfOk result (λ v. AreApart v.items) }
    ensures once { OnOk result (have_each_once lts.now.label_names (transitions_in bytes.now transitions.now) ≡ true) }
    ensures fault { IfErr result (λ f. f ≢ fault.NoMemory
        → (f ≡ fault.TransitionsDiffer) × (have_each_once lts.now.label_names (transitions_in bytes.now transitions.now) ≡ false)) }
{
    let numbers = numbers(alloc, bytes, lts, transitions)?;
    let counts = counts(alloc, lts.labels(), &numbers)?;
    if are_ones(&counts) {
        Ok(numbers)
    } else {
        Err(NetFault::TransitionsDiffer)
    }
}
