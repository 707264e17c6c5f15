//! The names that flows and markings may use.
ghost use Rattle.std.specs.Prelude.{◌≡◌, ℕ, ◌<◌, length, Contains, Some, IfSome, IfNone, slice_get};
ghost use Rattle.rg_netfile.specs.Built.{KnownNames, IsKnown, HasLabel};

use rg_lts::NameList;
use std::marker::Model;

/// The names of places and of transitions, and the number of each transition's label.
#[derive(Drop)]
pub(crate) struct Known {
    places: NameList,
    transitions: NameList,
    labels: Vec<u32>,
}

impl Model for Known {
    ghost Value = { KnownNames };

    ghost view = { λ k. record { places = k.places; transitions = k.transitions; labels = k.labels.items } };

    ghost invariant = { λ k. IsKnown (record { places = k.places; transitions = k.transitions; labels = k.labels.items }) };
}

impl Known {
    /// Returns these names and numbers. Names differ, each transition has a label, and no two have the same.
    pub(crate) fn new(places: NameList, transitions: NameList, labels: Vec<u32>) -> Known
        requires { IsKnown (record { places = places; transitions = transitions; labels = labels.items }) }
        ensures { result ≡ record { places = places; transitions = transitions; labels = labels.items } }
    {
        Known {
            places,
            transitions,
            labels,
        }
    }

    /// Returns the number of the place with the name.
    pub(crate) fn place(&self, name: &str) -> Option<usize>
        ensures known { IsKnown self.now }
        ensures within { IfSome result (λ i. i < length self.now.places) }
        ensures found { IfSome result (λ i. slice_get self.now.places i ≡ Some name.now) }
        ensures none { IfNone result (¬ Contains self.now.places name.now) }
    {
        self.places.number_of(name)
    }

    /// Returns the label's number of the transition with the name.
    pub(crate) fn label(&self, name: &str) -> Option<u32>
        ensures known { IsKnown self.now }
        ensures found { IfSome result (HasLabel self.now name.now) }
        ensures none { IfNone result (¬ Contains self.now.transitions name.now) }
    {
        match self.transitions.number_of(name) {
            Some(i) => Some(self.labels[i]),
            None => None,
        }
    }
}
