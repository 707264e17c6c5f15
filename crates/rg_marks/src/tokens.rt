//! The tokens of a place at the states.
ghost use Rattle.std.specs.Prelude.{◌≡◌, length, IfOk};
ghost use Rattle.rg_theory.specs.System.{states, IsInRange, IsAllReachable};
ghost use Rattle.rg_theory.specs.Tree.{IsTree};
ghost use Rattle.rg_lts.specs.WellFormed.{IsWellFormed};
ghost use Rattle.rg_net.specs.Shown.{shown_place};
ghost use Rattle.rg_marks.specs.Tokens.{IsNarrow, AreTokens};

use rg_lts::Lts;
use rg_net::Place;
use rg_theory::Arc;
use std::alloc::{AllocError, Global};

/// Returns a number for each state of the system, for `fill_tokens` to write. Returns `AllocError` if memory runs
/// out.
pub fn no_tokens(alloc: Global, lts: &Lts) -> Result<Vec<u128>, AllocError>
    ensures one_each { IfOk result (λ v. length v.items ≡ states lts.now) }
    ensures well_formed { IfOk result (λ _. IsWellFormed lts.now) }
{
    vec![in alloc; 0; lts.states() as usize]
}

/// Writes the tokens of a place that is a region at each state of the system, arc by arc of a spanning tree of it.
pub fn fill_tokens(lts: &Lts, tree: &[Arc], place: &Place, tokens: &mut [u128])
    requires in_range { IsInRange lts.now }
    requires tree { IsTree lts.now tree.now }
    requires reachable { IsAllReachable lts.now }
    requires narrow { IsNarrow lts.now (shown_place place.now) }
    requires one_each { length tokens.old ≡ states lts.now }
    ensures { AreTokens lts.now (shown_place place.now) tokens.new }
{
    tokens[lts.initial() as usize] = place.start;
    for a in tree {
        let t = a.label as usize;
        let left = tokens[a.from as usize] - place.pre[t];
        tokens[a.to as usize] = left + place.post[t];
    }
}
