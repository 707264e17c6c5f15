//! Locks: users of one lock, each of which is idle, waits for the lock, or has it.
ghost use Rattle.std.specs.Prelude.{◌≡◌, ◌+◌, ◌<◌, ◌≤◌, ◌++◌, ◌∷◌, [], List, length, map, replicate, All, slice_set, slice_index_or, string_bytes, IfOk, OnOk};
ghost use Rattle.std.specs.List.{flat_map};
ghost use Rattle.rg_families.specs.declared.Kind.TheVariants.{Lock};
ghost use Rattle.rg_families.specs.declared.lock.User.{User};
ghost use Rattle.rg_families.specs.declared.lock.User.TheVariants.{Idle};
ghost use Rattle.rg_families.specs.Families.{IsFamilyNumber};
ghost use Rattle.rg_families.specs.Named.{IsSystemOf, names_of, triple_of, each_below};
ghost use Rattle.rg_families.specs.Lock.{most_lock, Users, letter, word, is_critical, is_taken, with_lock, without_lock, users_of, ask, get, put, turn, turns, lock};

use crate::named::{NamedArc, build};
use rg_lts::Lts;
use rg_memory::NoMemory;
use std::alloc::{AllocError, Global};

/// The greatest number of users of a lock.
pub const MOST_LOCK: u32 = 9;

// What a user does.
#[derive(Clone, Copy, Debug, PartialEq, Eq)]
enum User {
    Idle,
    Waiting,
    Critical,
}

// The lock of so many users.
pub(crate) fn lock(alloc: Global, n: u32) -> Result<Lts, NoMemory>
    requires { IsFamilyNumber Lock n }
    ensures { IfOk result (IsSystemOf (lock n)) }
{
    let all = with_lock(alloc, n)?;
    let states = words(alloc, &all)?;
    let labels = labels(alloc, n)?;
    let arcs = arcs(alloc, &all)?;
    let initial = all_idle(alloc, n)?;
    build(alloc, &states, &labels, &arcs, &initial)
}

// All that the users may do, at most one of them having the lock, in the order of their words.
fn with_lock(alloc: Global, n: u32) -> Result<Vec<Vec<User>>, NoMemory>
    requires { n ≤ most_lock }
    ensures { IfOk result (λ all. users_of all.items ≡ with_lock n) }
{
    let mut with_lock = vec![in alloc; Vec::new(alloc)]?;
    let mut without_lock = vec![in alloc; Vec::new(alloc)]?;
    for _ in 0..n {
        let mut with_more = Vec::new(alloc);
        push_led(alloc, &mut with_more, User::Idle, &with_lock)?;
        push_led(alloc, &mut with_more, User::Waiting, &with_lock)?;
        push_led(alloc, &mut with_more, User::Critical, &without_lock)?;
        let mut without_more = Vec::new(alloc);
        push_led(alloc, &mut without_more, User::Idle, &without_lock)?;
        push_led(alloc, &mut without_more, User::Waiting, &without_lock)?;
        with_lock = with_more;
        without_lock = without_more;
    }
    Ok(with_lock)
}

// Adds these users, each time led by another one.
fn push_led(
    alloc: Global,
    all: &mut Vec<Vec<User>>,
    first: User,
    rests: &[Vec<User>],
) -> Result<(), NoMemory>
    ensures { OnOk result (users_of all.new.items ≡ users_of all.old.items ++ map (◌∷◌ first) (users_of rests.now)) }
{
    for rest in rests {
        let mut users = vec![in alloc; first]?;
        users.extend_from_slice(rest)?;
        all.push(users)?;
    }
    Ok(())
}

// The word of what the users do.
fn word(alloc: Global, users: &[User]) -> Result<String, NoMemory>
    ensures { IfOk result (λ name. string_bytes name ≡ word users.now) }
{
    let mut name = String::new(alloc);
    for user in users {
        name.push_str(letter(*user))?;
    }
    Ok(name)
}

// The letter of a user.
fn letter(user: User) -> &'static str
    ensures { result.now ≡ letter user ∷ [] }
{
    match user {
        User::Idle => "i",
        User::Waiting => "w",
        User::Critical => "c",
    }
}

// The words of all these users.
fn words(alloc: Global, all: &[Vec<User>]) -> Result<Vec<String>, NoMemory>
    ensures { IfOk result (λ names. names_of names.items ≡ map word (users_of all.now)) }
{
    let mut names = Vec::new(alloc);
    for users in all {
        names.push(word(alloc, users)?)?;
    }
    Ok(names)
}

// The word of idle users.
fn all_idle(alloc: Global, n: u32) -> Result<String, NoMemory>
    ensures { IfOk result (λ name. string_bytes name ≡ word (replicate n Idle)) }
{
    let mut name = String::new(alloc);
    for _ in 0..n {
        name.push_str(letter(User::Idle))?;
    }
    Ok(name)
}

// The names of the labels.
fn labels(alloc: Global, n: u32) -> Result<Vec<String>, NoMemory>
    requires { n ≤ most_lock }
    ensures { IfOk result (λ names. names_of names.items ≡ each_below n (λ k. ask k ∷ get k ∷ put k ∷ [])) }
{
    let mut names = Vec::new(alloc);
    for k in 0..n {
        names.push(ask(alloc, k)?)?;
        names.push(get(alloc, k)?)?;
        names.push(put(alloc, k)?)?;
    }
    Ok(names)
}

// The label of a user who asks.
fn ask(alloc: Global, k: u32) -> Result<String, AllocError>
    requires { k ≤ most_lock }
    ensures { IfOk result (λ name. string_bytes name ≡ ask k) }
{
    format!(in alloc; "ask{}", k + 1)
}

// The label of a user who gets the lock.
fn get(alloc: Global, k: u32) -> Result<String, AllocError>
    requires { k ≤ most_lock }
    ensures { IfOk result (λ name. string_bytes name ≡ get k) }
{
    format!(in alloc; "get{}", k + 1)
}

// The label of a user who puts the lock back.
fn put(alloc: Global, k: u32) -> Result<String, AllocError>
    requires { k ≤ most_lock }
    ensures { IfOk result (λ name. string_bytes name ≡ put k) }
{
    format!(in alloc; "put{}", k + 1)
}

// The arcs.
fn arcs(alloc: Global, all: &[Vec<User>]) -> Result<Vec<NamedArc>, NoMemory>
    requires { All (λ (users : Users). length users ≤ most_lock) (users_of all.now) }
    ensures { IfOk result (λ arcs. map triple_of arcs.items ≡ flat_map turns (users_of all.now)) }
{
    let mut arcs = Vec::new(alloc);
    for users in all {
        push_turns(alloc, &mut arcs, users)?;
    }
    Ok(arcs)
}

// Adds what each of the users can do.
fn push_turns(alloc: Global, arcs: &mut Vec<NamedArc>, users: &[User]) -> Result<(), NoMemory>
    requires { length users.now ≤ most_lock }
    ensures { OnOk result (map triple_of arcs.new.items ≡ map triple_of arcs.old.items ++ turns users.now) }
{
    for k in 0..users.len() as u32 {
        push_turn(alloc, arcs, users, k)?;
    }
    Ok(())
}

// Adds what user k can do.
fn push_turn(
    alloc: Global,
    arcs: &mut Vec<NamedArc>,
    users: &[User],
    k: u32,
) -> Result<(), NoMemory>
    requires within { k < length users.now }
    requires few { length users.now ≤ most_lock }
    ensures { OnOk result (map triple_of arcs.new.items ≡ map triple_of arcs.old.items ++ turn users.now k (slice_index_or users.now k Idle)) }
{
    let (label, to) = match users[k as usize] {
        User::Idle => (ask(alloc, k)?, User::Waiting),
        User::Waiting => {
            if is_taken(users) {
                return Ok(());
            }
            (get(alloc, k)?, User::Critical)
        }
        User::Critical => (put(alloc, k)?, User::Idle),
    };
    arcs.push(NamedArc {
        from: word(alloc, users)?,
        label,
        to: word_after(alloc, users, k, to)?,
    })?;
    Ok(())
}

// Whether one of the users has the lock.
fn is_taken(users: &[User]) -> bool
    ensures { result ≡ is_taken users.now }
{
    users.iter().any(|user| is_critical(*user))
}

// Whether the user has the lock.
fn is_critical(user: User) -> bool
    ensures { result ≡ is_critical user }
{
    user == User::Critical
}

// The word of the users once user k has gone on.
fn word_after(alloc: Global, users: &[User], k: u32, to: User) -> Result<String, NoMemory>
    requires { k < length users.now }
    ensures { IfOk result (λ name. string_bytes name ≡ word (slice_set users.now k to)) }
{
    let mut after = Vec::from_slice(alloc, users)?;
    after[k as usize] = to;
    word(alloc, &after)
}
