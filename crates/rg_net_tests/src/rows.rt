//! Which of the places of a net that solves a system are left.
ghost use Rattle.std.specs.Prelude.{◌≡◌, map, All, IfOk, IfSome};
ghost use Rattle.rg_theory.specs.System.{IsAllReachable};
ghost use Rattle.rg_theory.specs.Problem.{SeparateAll};
ghost use Rattle.rg_net.specs.Shown.{shown_place};
ghost use Rattle.rg_marks.specs.Tokens.{IsNarrow};
ghost use Rattle.rg_marks.specs.Firsts.{AreAllFirsts};

use crate::separated::is_region;
use rg_lts::{Arc, Lts};
use rg_marks::{Firsts, Separated};
use rg_net::{Net, Place};
use rg_net_verdict::{NetVerdict, check_net, verdict_is_sound};
use rg_prune::{compact_all, prune, prune_with_firsts};
use rg_samples::{CHOICE, CHOICE_NET, DEAD, LOOP, STEP, net, system};
use rg_spanning::Tree;
use rg_theory::{ALL_NETS, solved_is_separated};
use std::alloc::{AllocError, Global};

const STEPS: &str = ".type LTS .states s0[initial] s1 s2 .labels a .arcs s0 a s1 s1 a s2";

/// Two tokens, of which each step takes one.
const TAKEN: &str = ".type PN .places c .transitions a .flows a: {c} -> {} .initial_marking {2*c}";

const ONE_TAKEN: &str =
    ".type PN .places f .transitions a .flows a: {f} -> {} .initial_marking {f}";

/// One of 2^127 - 1 tokens is taken, and all are asked.
const GREATEST_TAKEN: &str =
    ".type PN .places e .transitions a .flows a: {170141183460469231731687303715884105727*e} -> {170141183460469231731687303715884105726*e} .initial_marking {170141183460469231731687303715884105727*e}";

// A system, a net that solves it, and a net of the places that are left, in order.
const CHOICES: [(&str, &str, &str); 6] = [
    (
        CHOICE,
        ".type PN .places r p q .transitions a b .flows a: {r, p, q} -> {q} b: {r, p, q} -> {p} .initial_marking {r, p, q}",
        ".type PN .places r p .transitions a b .flows a: {r, p} -> {} b: {r, p} -> {p} .initial_marking {r, p}",
    ),
    (
        CHOICE,
        ".type PN .places x p q .transitions a b .flows a: {x, p, q} -> {q} b: {p, q} -> {p} .initial_marking {x, p, q}",
        CHOICE_NET,
    ),
    (
        CHOICE,
        ".type PN .places p q r .transitions a b .flows a: {p, q, r} -> {q} b: {p, q, r} -> {p} .initial_marking {p, q, r}",
        CHOICE_NET,
    ),
    (
        CHOICE,
        ".type PN .places p q r .transitions a b .flows a: {p, q, r} -> {q} b: {p, q, r} -> {p, r} .initial_marking {p, q, r}",
        CHOICE_NET,
    ),
    (
        CHOICE,
        ".type PN .places p r q .transitions a b .flows a: {p, r, q} -> {q} b: {p, r, q} -> {p, r} .initial_marking {p, r, q}",
        CHOICE_NET,
    ),
    (
        CHOICE,
        ".type PN .places x p y q z .transitions a b .flows a: {p, q} -> {q} b: {p, q} -> {p} .initial_marking {p, q}",
        CHOICE_NET,
    ),
];

const STEPS_AND_LOOPS: [(&str, &str, &str); 6] = [
    (LOOP, ".type PN .transitions a", ".type PN .transitions a"),
    (
        DEAD,
        ".type PN .places u v .transitions a .flows a: {u, v} -> {}",
        ".type PN .places u .transitions a .flows a: {u} -> {}",
    ),
    (
        STEPS,
        ".type PN .places c d .transitions a .flows a: {c} -> {d} .initial_marking {2*c}",
        TAKEN,
    ),
    (
        STEPS,
        ".type PN .places d c .transitions a .flows a: {c} -> {d} .initial_marking {2*c}",
        TAKEN,
    ),
    (
        STEP,
        ".type PN .places e f .transitions a .flows a: {170141183460469231731687303715884105727*e, f} -> {170141183460469231731687303715884105726*e} .initial_marking {170141183460469231731687303715884105727*e, f}",
        GREATEST_TAKEN,
    ),
    (
        STEP,
        ".type PN .places f e .transitions a .flows a: {170141183460469231731687303715884105727*e, f} -> {170141183460469231731687303715884105726*e} .initial_marking {170141183460469231731687303715884105727*e, f}",
        ONE_TAKEN,
    ),
];

// The same places.
fn copy(alloc: Global, places: &[Place]) -> Result<Vec<Place>, AllocError>
    ensures { IfOk result (λ copies. map shown_place copies.items ≡ map shown_place places.now) }
{
    let mut copies = Vec::new(alloc);
    for place in places {
        let pre = Vec::from_slice(alloc, &place.pre)?;
        let post = Vec::from_slice(alloc, &place.post)?;
        let start = place.start;
        copies.push(Place { start, pre, post })?;
    }
    Ok(copies)
}

// The tokens that the place has after an arc.
fn tokens_after(tokens: &[u128], place: &Place, a: Arc) -> Option<u128> {
    let takes = *place.pre.get(a.label as usize)?;
    let puts = *place.post.get(a.label as usize)?;
    tokens
        .get(a.from as usize)?
        .checked_sub(takes)?
        .checked_add(puts)
}

// The tokens of the place at the states, as the arcs of a tree lead to them.
fn tokens_of(alloc: Global, lts: &Lts, place: &Place) -> Option<Vec<u128>> {
    let tree = Tree::grow(alloc, lts).ok()?;
    let mut tokens = vec![in alloc; 0u128; lts.states() as usize].ok()?;
    *tokens.get_mut(lts.initial() as usize)? = place.start;
    for a in tree.arcs() {
        let there = tokens_after(&tokens, place, *a)?;
        *tokens.get_mut(a.to as usize)? = there;
    }
    Some(tokens)
}

// For each place the problems that it is the first to separate; an error where one isn't a region, or there is no
// memory left.
fn all_firsts(alloc: Global, lts: &Lts, places: &[Place]) -> Result<Vec<Firsts>, AllocError>
    requires { IsAllReachable lts.now }
    ensures { IfOk result (λ all. AreAllFirsts lts.now (map shown_place places.now) all.items) }
{
    let mut separated = Separated::nothing(alloc, lts)?;
    let mut all = Vec::new(alloc);
    for place in places {
        let Some(tokens) = tokens_of(alloc, lts, place) else {
            return Err(AllocError);
        };
        if !is_region(lts, place, &tokens) {
            return Err(AllocError);
        }
        let firsts = separated.add(alloc, lts, place, &tokens)?;
        all.push(firsts)?;
    }
    Ok(all)
}

// The places of the net; None where it doesn't solve the system, or there is no memory left.
fn solving_places(alloc: Global, lts: &Lts, net: &Net) -> Option<Vec<Place>>
    ensures reachable { IfSome result (λ _. IsAllReachable lts.now) }
    ensures narrow { IfSome result (λ places. All (λ p. IsNarrow lts.now (shown_place p)) places.items) }
    ensures separate { IfSome result (λ places. SeparateAll (map shown_place places.items) lts.now) }
{
    if net.labels() != lts.labels() {
        return None;
    }
    lts.is_well_formed();
    verdict_is_sound();
    solved_is_separated();
    let Ok(NetVerdict::Yes) = check_net(alloc, lts, net, ALL_NETS) else {
        return None;
    };
    let Ok(places) = copy(alloc, net.places()) else {
        return None;
    };
    Some(places)
}

// Those of the places of the net that are left; None where it doesn't solve the system, or there is no memory left.
fn prune_net(alloc: Global, lts: &Lts, net: &Net) -> Option<Vec<Place>> {
    let places = solving_places(alloc, lts, net)?;
    prune(alloc, lts, places).ok()
}

// The same, by the problems that each place is the first to separate.
fn prune_with_own_firsts(alloc: Global, lts: &Lts, net: &Net) -> Option<Vec<Place>> {
    let places = solving_places(alloc, lts, net)?;
    let firsts = all_firsts(alloc, lts, &places).ok()?;
    let Ok(compact) = compact_all(alloc, lts, &places) else {
        return None;
    };
    prune_with_firsts(alloc, lts, compact, firsts).ok()
}

// Whether the places are the same, in order.
fn are_same(some: &[Place], others: &[Place]) -> bool {
    if some.len() != others.len() {
        return false;
    }
    for (p, q) in some.iter().zip(others) {
        if p.start != q.start
            || p.pre.as_slice() != q.pre.as_slice()
            || p.post.as_slice() != q.post.as_slice()
        {
            return false;
        }
    }
    true
}

// Whether of the first net's places those of the second are left.
fn leaves(alloc: Global, lts: &str, given: &str, wanted: &str) -> Option<bool> {
    let lts = system(alloc, lts)?;
    let given = net(alloc, &lts, given)?;
    let wanted = net(alloc, &lts, wanted)?;
    let left = prune_net(alloc, &lts, &given)?;
    let with_firsts = prune_with_own_firsts(alloc, &lts, &given)?;
    Some(are_same(&left, wanted.places()) && are_same(&with_firsts, wanted.places()))
}

#[test]
fn choices(rt: HostRuntime) {
    for (lts, given, wanted) in CHOICES {
        assert!(rt;
            leaves(rt.alloc(), lts, given, wanted) == Some(true),
            "{given}"
        );
    }
}

#[test]
fn steps_and_loops(rt: HostRuntime) {
    for (lts, given, wanted) in STEPS_AND_LOOPS {
        assert!(rt;
            leaves(rt.alloc(), lts, given, wanted) == Some(true),
            "{given}"
        );
    }
}
