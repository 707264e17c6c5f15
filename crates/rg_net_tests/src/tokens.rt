//! The tokens of places of the word a b a at its states.
ghost use Rattle.rg_theory.specs.System.{IsAllReachable};
ghost use Rattle.rg_theory.specs.Tree.{IsTree};

use crate::separated::{COUNTS, EMPTY, Given, ONCE, TURNS, is_region};
use rg_lts::{Arc, Lts};
use rg_marks::{fill_tokens, no_tokens};
use rg_net::Place;
use rg_samples::{ABA, system};
use rg_spanning::Tree;
use std::alloc::{AllocError, Global};
use std::test::Fail;

// Whether the place is a region, and its tokens at the states are those that are given.
fn has_tokens(alloc: Global, lts: &Lts, tree: &[Arc], given: Given) -> Result<bool, AllocError>
    requires reachable { IsAllReachable lts.now }
    requires tree { IsTree lts.now tree.now }
{
    let place = Place {
        start: given.start,
        pre: Vec::from_slice(alloc, &given.pre)?,
        post: Vec::from_slice(alloc, &given.post)?,
    };
    if !is_region(lts, &place, &given.tokens) {
        return Ok(false);
    }
    lts.is_well_formed();
    let mut tokens = no_tokens(alloc, lts)?;
    fill_tokens(lts, tree, &place, &mut tokens);
    Ok(tokens.as_slice() == given.tokens.as_slice())
}

#[test]
fn tokens_of_places(rt: HostRuntime) -> Result<(), Fail> {
    let Some(lts) = system(rt.alloc(), ABA) else {
        return Err(Fail::from(AllocError));
    };
    let Ok(tree) = Tree::grow(rt.alloc(), &lts) else {
        return Err(Fail::from(AllocError));
    };
    for (i, given) in [COUNTS, TURNS, ONCE, EMPTY].into_iter().enumerate() {
        let has = has_tokens(rt.alloc(), &lts, tree.arcs(), given)?;
        assert!(rt; has, "place {i}");
    }
    Ok(())
}
