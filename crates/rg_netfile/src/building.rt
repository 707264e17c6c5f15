//! The net of what a file declares.
ghost use Rattle.std.specs.Prelude.{◌≡◌, ◌≢◌, ◌≤◌, ◌<◌, ◌⊎◌, [], ◌∷◌, ◌++◌, length, map, All, Contains, IfOk, IfErr, IsErrOf, OnOk};
ghost use Rattle.rg_lexer.specs.Lexeme.{Lexeme};
ghost use Rattle.rg_theory.specs.System.{labels};
ghost use Rattle.rg_grammar.specs.Entry.{IsNameOf};
ghost use Rattle.rg_text.specs.Faults.{faults_after, IsFirst, AreNone};
ghost use Rattle.rg_net_grammar.specs.declared.found.Transition.{Transition};
ghost use Rattle.rg_net_grammar.specs.View.{places_in, transitions_in, found_in, IsTransitionOf, HoldsNames};
ghost use Rattle.rg_netfile.specs.Contents.{most_places, place_fault, transition_fault, name_faults, faults, IsNetOf};
ghost use Rattle.rg_netfile.specs.Built.{AreApart, IsKnownOf, IsKnown};
ghost use Rattle.rg_netfile.specs.declared.fault.NetFault.TheVariants as fault;

use crate::fault::NetFault;
use crate::filling::fill;
use crate::known::Known;
use crate::labels::label_numbers;
use crate::names::see;
use crate::sums::Sums;
use rg_grammar::name_of;
use rg_lexer::Token;
use rg_lts::{Lts, NameList};
use rg_net::Net;
use rg_net_grammar::{Found, Transition};
use std::alloc::Global;
use std::collections::BTreeSet;

// The most places.
const PLACE_LIMIT: usize = 16_384;

// Adds the name of a place, which is at a position.
fn add_place(alloc: Global, table: &mut NameList, name: &str, at: u32) -> Result<(), NetFault>
    ensures ok { OnOk result (table.new ≡ table.old ++ name.now ∷ []) }
    ensures absent { OnOk result (¬ Contains table.old name.now) }
    ensures few { OnOk result (length table.old < most_places) }
    ensures fault { IfErr result (λ f. f ≢ fault.NoMemory → ((f ≡ fault.TwicePlace at) × Contains table.old name.now)
        ⊎ ((f ≡ fault.TooManyPlaces at) × (¬ Contains table.old name.now) × (most_places ≤ length table.old))) }
    ensures memory { IsErrOf result fault.NoMemory → ¬ Contains table.old name.now }
    ensures room { IsErrOf result fault.NoMemory → ¬ (most_places ≤ length table.old) }
{
    if let Some(_) = table.number_of(name) {
        return Err(NetFault::TwicePlace(at));
    }
    if table.len() >= PLACE_LIMIT {
        return Err(NetFault::TooManyPlaces(at));
    }
    table.add(alloc, name)?;
    Ok(())
}

// The names of the places.
fn place_table(alloc: Global, bytes: &[u8], places: &[Token]) -> Result<NameList, NetFault>
    requires { All (IsNameOf bytes.now) places.now }
    ensures names { IfOk result (λ table. table ≡ map (λ (x : Lexeme). x.text) (places_in bytes.now places.now)) }
    ensures apart { IfOk result (λ table. AreApart table) }
    ensures few { OnOk result (length places.now ≤ most_places) }
    ensures none { OnOk result (AreNone (faults_after place_fault [] (places_in bytes.now places.now))) }
    ensures fault { IfErr result (λ f. f ≢ fault.NoMemory → IsFirst (faults_after place_fault [] (places_in bytes.now places.now)) f) }
{
    let mut table = NameList::new(alloc, places.len().min(PLACE_LIMIT));
    for place in places {
        add_place(alloc, &mut table, name_of(bytes, *place), place.from)?;
    }
    Ok(table)
}

// Checks that no two transitions have the same name. There may be many, and of any names, so those that are seen are
// kept in order.
fn check_transition_names(
    alloc: Global,
    bytes: &[u8],
    transitions: &[Transition<Token>],
) -> Result<(), NetFault>
    requires { All (IsTransitionOf bytes.now) transitions.now }
    ensures apart { OnOk result (AreApart (map (λ (t : Transition Lexeme). t.name.text) (transitions_in bytes.now transitions.now))) }
    ensures none { OnOk result (AreNone (faults_after transition_fault [] (transitions_in bytes.now transitions.now))) }
    ensures fault { IfErr result (λ f. f ≢ fault.NoMemory → IsFirst (faults_after transition_fault [] (transitions_in bytes.now transitions.now)) f) }
{
    let mut seen = BTreeSet::new(alloc);
    for transition in transitions {
        let new = see(alloc, &mut seen, name_of(bytes, transition.name))?;
        if !new {
            return Err(NetFault::TwiceTransition(transition.name.from));
        }
    }
    Ok(())
}

// The names of the transitions.
fn transition_table(
    alloc: Global,
    bytes: &[u8],
    transitions: &[Transition<Token>],
) -> Result<NameList, NetFault>
    requires { All (IsTransitionOf bytes.now) transitions.now }
    ensures names { IfOk result (λ table. table ≡ map (λ (t : Transition Lexeme). t.name.text) (transitions_in bytes.now transitions.now)) }
    ensures cause { IfErr result (λ f. f ≡ fault.NoMemory) }
{
    let mut table = NameList::new(alloc, transitions.len());
    for transition in transitions {
        table.add(alloc, name_of(bytes, transition.name))?;
    }
    Ok(table)
}

// The names of places and transitions, and the transitions' labels.
fn known_names(alloc: Global, bytes: &[u8], lts: &Lts, found: &Found) -> Result<Known, NetFault>
    requires { HoldsNames bytes.now found.now }
    ensures known { IfOk result (λ k. IsKnownOf lts.now (found_in bytes.now found.now) k) }
    ensures is_known { IfOk result (λ k. IsKnown k) }
    ensures within { IfOk result (λ k. All (λ t. t < labels lts.now) k.labels) }
    ensures few { OnOk result (length found.now.places.items ≤ most_places) }
    ensures none { OnOk result (AreNone (name_faults lts.now (found_in bytes.now found.now))) }
    ensures fault { IfErr result (λ f. f ≢ fault.NoMemory → IsFirst (name_faults lts.now (found_in bytes.now found.now)) f) }
{
    let places = place_table(alloc, bytes, &found.places)?;
    check_transition_names(alloc, bytes, &found.transitions)?;
    let labels = label_numbers(alloc, bytes, lts, &found.transitions)?;
    let transitions = transition_table(alloc, bytes, &found.transitions)?;
    Ok(Known::new(places, transitions, labels))
}

/// Returns the net of what is declared, or the first fault of it: `NoType`, then by place `TwicePlace` or
/// `TooManyPlaces`, then by transition `TwiceTransition`, then `TransitionsDiffer`, then by flow `UnknownTransition`
/// and by member `NumberPasses` or `UnknownPlace`, then by member of the markings.
pub(crate) fn build(alloc: Global, bytes: &[u8], lts: &Lts, found: &Found) -> Result<Net, NetFault>
    requires { HoldsNames bytes.now found.now }
    ensures none { OnOk result (AreNone (faults lts.now (found_in bytes.now found.now))) }
    ensures net { IfOk result (IsNetOf lts.now (found_in bytes.now found.now)) }
    ensures fault { IfErr result (λ f. f ≢ fault.NoMemory → IsFirst (faults lts.now (found_in bytes.now found.now)) f) }
{
    if !found.typed {
        return Err(NetFault::NoType);
    }
    let known = known_names(alloc, bytes, lts, found)?;
    let mut sums = Sums::new(alloc, lts.labels(), found.places.len())?;
    fill(&mut sums, &known, bytes, found)?;
    Ok(sums.finish())
}
