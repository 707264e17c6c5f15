//! Places of which only the weights that aren't 0 are kept.
ghost use Rattle.std.specs.Prelude.{◌≡◌, ◌<◌, ◌^◌, length, All, IfOk};
ghost use Rattle.rg_theory.specs.Net.{Place as PlaceOfTheory};
ghost use Rattle.rg_net.specs.Shown.{shown_place};
ghost use Rattle.rg_marks.specs.Compact.{kept_numbers, place_of};

use rg_net::Place;
use std::alloc::{AllocError, Global};
use std::marker::Model;

// The weights of one label at a place.
#[derive(Clone, Copy, Debug)]
struct LabelWeights {
    label: u32,
    pre: u128,
    post: u128,
}

/// A place that keeps weights only of the labels that take tokens from it or put tokens on it. A net has one
/// transition for each label, and most places of nets have weights of two or three labels.
#[derive(Drop)]
pub struct CompactPlace {
    start: u128,
    labels: u32,
    weights: Vec<LabelWeights>,
}

impl Model for CompactPlace {
    ghost Value = { PlaceOfTheory };

    ghost view = { λ p. place_of p.start p.labels p.weights.items };

    ghost invariant = { λ p. All (λ w. w.label < p.labels) p.weights.items };
}

impl CompactPlace {
    /// Returns the place with its weights that aren't 0. Returns `AllocError` if memory runs out.
    pub fn new(alloc: Global, place: &Place) -> Result<CompactPlace, AllocError>
        requires same { length place.now.pre.items ≡ length place.now.post.items }
        requires few { length place.now.pre.items < 2 ^ 32 }
        ensures { IfOk result (λ p. p ≡ shown_place place.now) }
    {
        let mut weights = Vec::new(alloc);
        for t in 0..place.pre.len() {
            let (pre, post) = (place.pre[t], place.post[t]);
            if pre > 0 || post > 0 {
                let label = t as u32;
                weights.push(LabelWeights { label, pre, post })?;
            }
        }
        Ok(CompactPlace {
            start: place.start,
            labels: place.pre.len() as u32,
            weights,
        })
    }

    /// Returns the place with two weights for each label. Returns `AllocError` if memory runs out.
    pub fn place(&self, alloc: Global) -> Result<Place, AllocError>
        ensures { IfOk result (λ place. shown_place place ≡ self.now) }
    {
        let (pre, post) = all_weights(alloc, self.labels, &self.weights)?;
        Ok(Place {
            start: self.start,
            pre,
            post,
        })
    }
}

// The weights of so many labels, of which those that aren't 0 are listed: how much each label takes, and how much it
// puts.
fn all_weights(
    alloc: Global,
    labels: u32,
    weights: &[LabelWeights],
) -> Result<(Vec<u128>, Vec<u128>), AllocError>
    requires { All (λ w. w.label < labels) weights.now }
    ensures pre { IfOk result (λ all. all.0.items ≡ kept_numbers (λ w. w.pre) labels weights.now) }
    ensures post { IfOk result (λ all. all.1.items ≡ kept_numbers (λ w. w.post) labels weights.now) }
{
    let mut pre = vec![in alloc; 0u128; labels as usize]?;
    let mut post = vec![in alloc; 0u128; labels as usize]?;
    for k in (0..weights.len()).rev() {
        let w = weights[k];
        pre[w.label as usize] = w.pre;
        post[w.label as usize] = w.post;
    }
    Ok((pre, post))
}
