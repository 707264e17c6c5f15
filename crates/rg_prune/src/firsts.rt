//! The problems that the places of a list are the first to separate.
ghost use Rattle.std.specs.Prelude.{map, All, IfOk};
ghost use Rattle.rg_theory.specs.System.{IsAllReachable};
ghost use Rattle.rg_theory.specs.Tree.{IsTree};
ghost use Rattle.rg_net.specs.Shown.{shown_place};
ghost use Rattle.rg_marks.specs.Tokens.{IsNarrow};
ghost use Rattle.rg_marks.specs.Firsts.{AreAllFirsts};

use rg_lts::Lts;
use rg_marks::{Firsts, Separated, fill_tokens, no_tokens};
use rg_net::Place;
use rg_theory::Arc;
use std::alloc::{AllocError, Global};

// For each place the problems that it is the first to separate.
pub(crate) fn all_firsts(
    alloc: Global,
    lts: &Lts,
    tree: &[Arc],
    places: &[Place],
) -> Result<Vec<Firsts>, AllocError>
    requires tree { IsTree lts.now tree.now }
    requires reachable { IsAllReachable lts.now }
    requires narrow { All (λ p. IsNarrow lts.now (shown_place p)) places.now }
    ensures { IfOk result (λ all. AreAllFirsts lts.now (map shown_place places.now) all.items) }
{
    let mut separated = Separated::nothing(alloc, lts)?;
    let mut tokens = no_tokens(alloc, lts)?;
    let mut all = Vec::new(alloc);
    for place in places {
        fill_tokens(lts, tree, place, &mut tokens);
        let firsts = separated.add(alloc, lts, place, &tokens)?;
        all.push(firsts)?;
    }
    Ok(all)
}
