//! Nets with one transition for each label.
ghost use Rattle.std.specs.Prelude.{◌≡◌, ℕ, ◌<◌, ◌≤◌, length, map, All};
ghost use Rattle.rg_theory.specs.Net.{Net as NetOfTheory};
ghost use Rattle.rg_net.specs.Range.{IsNetInRange};
ghost use Rattle.rg_net.specs.Shown.{shown_place};

use std::marker::Model;

/// A place of a net.
#[derive(Debug, Drop)]
pub struct Place {
    /// How many tokens it has at the start.
    pub start: u128,
    /// How many tokens a firing of each label takes from it: one entry per label, in the labels' order.
    pub pre: Vec<u128>,
    /// How many tokens a firing of each label puts on it: one entry per label, in the labels' order.
    pub post: Vec<u128>,
}

/// A place/transition net with one transition for each label of a system, as in Badouel, Bernardinello and
/// Darondeau, Petri Net Synthesis.
#[derive(Drop)]
pub struct Net {
    labels: u32,
    places: Vec<Place>,
}

impl Model for Net {
    ghost Value = { NetOfTheory };

    ghost view = { λ n. record { labels = n.labels; places = map shown_place n.places.items } };

    ghost invariant = { λ n. IsNetInRange (record { labels = n.labels; places = map shown_place n.places.items }) };
}

impl Net {
    /// Returns the net of these places for so many labels. Each place has one weight of each kind for each label, no
    /// start and no weight is over `2^127 - 1`, and there are fewer than `2^32` places.
    pub fn new(labels: u32, places: Vec<Place>) -> Net
        requires { IsNetInRange (record { labels = labels; places = map shown_place places.items }) }
        ensures { result ≡ record { labels = labels; places = map shown_place places.items } }
    {
        Net { labels, places }
    }

    /// Returns how many labels there are.
    pub fn labels(&self) -> u32
        ensures { result ≡ self.now.labels }
    {
        self.labels
    }

    /// Returns the places, in the order in which they were given.
    pub fn places(&self) -> &[Place]
        ensures value { map shown_place result.now ≡ self.now.places }
        ensures in_range { IsNetInRange self.now }
    {
        &self.places
    }
}
