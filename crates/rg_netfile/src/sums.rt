//! Nets whose numbers grow.
ghost use Rattle.std.specs.Prelude.{◌≡◌, ℕ, ◌+◌, ◌<◌, ◌≤◌, length, map, replicate, IfOk, IfErr, OnOk, OnErr};
ghost use Rattle.rg_theory.specs.Net.{Net as NetOfTheory};
ghost use Rattle.rg_net.specs.Range.{IsNetInRange, IsPlaceInRange};
ghost use Rattle.rg_integers.specs.Range.{greatest};
ghost use Rattle.rg_net.specs.Shown.{shown_place};
ghost use Rattle.rg_netfile.specs.Built.{number_in, with_more, IsSlotIn, AddsTo, IsOver, IsWithin};
ghost use Rattle.rg_netfile.specs.declared.fault.NetFault.TheVariants as fault;

use crate::fault::NetFault;
use crate::slot::Slot;
use rg_integers::GREATEST;
use rg_net::{Net, Place};
use std::alloc::Global;
use std::marker::Model;

/// The greatest number of a net.
pub(crate) const GREATEST_WEIGHT: u128 = GREATEST as u128;

/// A net whose numbers grow with each member of a flow or marking.
#[derive(Drop)]
pub(crate) struct Sums {
    labels: u32,
    places: Vec<Place>,
}

impl Model for Sums {
    ghost Value = { NetOfTheory };

    ghost view = { λ s. record { labels = s.labels; places = map shown_place s.places.items } };

    ghost invariant = { λ s. IsNetInRange (record { labels = s.labels; places = map shown_place s.places.items }) };
}

impl Sums {
    /// Returns the sums of so many places for so many labels, all of them 0.
    pub(crate) fn new(alloc: Global, labels: u32, count: usize) -> Result<Sums, NetFault>
        requires { count < 4294967296 }
        ensures value { IfOk result (λ s. s ≡ record { labels = labels; places = replicate count (record { start = 0; pre = replicate labels 0; post = replicate labels 0 }) }) }
        ensures fault { IfErr result (λ f. f ≡ fault.NoMemory) }
    {
        let mut places = Vec::new(alloc);
        for _ in 0..count {
            places.push(blank(alloc, labels)?)?;
        }
        Ok(Sums { labels, places })
    }

    /// Adds tokens to a number of place `i`. Returns `NumberPasses` if it would pass the greatest number.
    pub(crate) fn add(&mut self, i: usize, slot: Slot, count: u128, at: u32) -> Result<(), NetFault>
        requires place { i < length self.old.places }
        requires slot { IsSlotIn self.old.labels slot }
        ensures in_range { IsNetInRange self.old }
        ensures ok { OnOk result (AddsTo self.old i slot count self.new) }
        ensures within { OnOk result (IsWithin self.old i slot count greatest) }
        ensures fault { IfErr result (λ f. (f ≡ fault.NumberPasses at) × IsOver self.old i slot count greatest) }
    {
        add_to(&mut self.places[i], slot, count, at)
    }

    /// Returns the net.
    pub(crate) fn finish(self) -> Net
        ensures value { result ≡ self }
        ensures in_range { IsNetInRange self }
    {
        let Sums { labels, places } = self;
        Net::new(labels, places)
    }
}

// A place whose numbers are all 0.
fn blank(alloc: Global, labels: u32) -> Result<Place, NetFault>
    ensures value { IfOk result (λ p. shown_place p ≡ record { start = 0; pre = replicate labels 0; post = replicate labels 0 }) }
    ensures fault { IfErr result (λ f. f ≡ fault.NoMemory) }
{
    let pre = vec![in alloc; 0; labels as usize]?;
    let post = vec![in alloc; 0; labels as usize]?;
    Ok(Place {
        start: 0,
        pre,
        post,
    })
}

// Adds tokens to a number of a place.
fn add_to(place: &mut Place, slot: Slot, count: u128, at: u32) -> Result<(), NetFault>
    requires pre { IsSlotIn (length place.old.pre.items) slot }
    requires post { IsSlotIn (length place.old.post.items) slot }
    requires in_range { IsPlaceInRange (shown_place place.old) }
    ensures ok { OnOk result (shown_place place.new ≡ with_more (shown_place place.old) slot count) }
    ensures within { OnOk result (number_in (shown_place place.old) slot + count ≤ greatest) }
    ensures in_range { IsPlaceInRange (shown_place place.new) }
    ensures fault { IfErr result (λ f. (f ≡ fault.NumberPasses at) × (greatest < number_in (shown_place place.old) slot + count)) }
    ensures err { OnErr result (place.new ≡ place.old) }
    ensures pre_stays { length place.new.pre.items ≡ length place.old.pre.items }
    ensures post_stays { length place.new.post.items ≡ length place.old.post.items }
{
    match slot {
        Slot::Start => place.start = sum(place.start, count, at)?,
        Slot::Taken(t) => place.pre[t as usize] = sum(place.pre[t as usize], count, at)?,
        Slot::Put(t) => place.post[t as usize] = sum(place.post[t as usize], count, at)?,
    }
    Ok(())
}

// The sum of two numbers. `NumberPasses` where it passes the greatest number.
fn sum(a: u128, b: u128, at: u32) -> Result<u128, NetFault>
    requires { a ≤ greatest }
    ensures ok { IfOk result (λ n. (n ≡ a + b) × (n ≤ greatest)) }
    ensures fault { IfErr result (λ f. (f ≡ fault.NumberPasses at) × (greatest < a + b)) }
{
    if GREATEST_WEIGHT - a < b {
        return Err(NetFault::NumberPasses(at));
    }
    Ok(a + b)
}
