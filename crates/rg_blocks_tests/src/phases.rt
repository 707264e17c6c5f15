//! Each number is done once, in parts that run in parallel.
ghost use Rattle.std.specs.Prelude.{ℕ, ◌+◌, ◌<◌, ◌≤◌};

use crate::meeting::Meeting;
use crate::passes::Passes;
use rg_phase::{NoMemory, PartTask, Task, block, block_of_parts};
use rg_ports::{Gate, NoGate};
use std::alloc::Global;
use std::sync::atomic::{AtomicU64, Ordering};
use std::test::Fail;
use std::thread::Threads;

// Doubles a number.
#[derive(Drop)]
struct Doubles;

impl Task for Doubles {
    type Out = u64;

    ghost Shown = { ℕ };

    ghost show = { λ v. v };

    ghost asks = { λ _ _. Unit {0} };

    ghost answer = { λ _ i. i + i };

    fn run(&self, i: u32) -> Result<u64, NoMemory> {
        Ok(u64::from(i) + u64::from(i))
    }
}

#[test]
fn two_parts_meet(rt: HostRuntime) -> Result<(), NoMemory> {
    let gate = Meeting::new(rt.alloc(), 2, 1)?;
    match block(&rt, rt.alloc(), &Doubles, 0, 3, 2, &gate) {
        Ok(all) => assert_eq!(rt; all.as_slice(), [0, 2, 4].as_slice()),
        Err(_) => assert!(rt; false),
    }
    assert!(rt; gate.have_met());
    assert!(rt; gate.passed_once());
    Ok(())
}

#[test]
fn the_answer_is_that_of_one_job(rt: HostRuntime) -> Result<(), Fail> {
    for jobs in 1..17 {
        match block(&rt, rt.alloc(), &Doubles, 3, 8, jobs, &NoGate) {
            Ok(all) => assert_eq!(rt; all.as_slice(), [6, 8, 10, 12, 14].as_slice()),
            Err(_) => assert!(rt; false),
        }
    }
    match block(&rt, rt.alloc(), &Doubles, 5, 5, 7, &NoGate) {
        Ok(all) => assert!(rt; all.is_empty()),
        Err(_) => assert!(rt; false),
    }
    Ok(())
}

// Whether the answers for the numbers from `from` on below `to` are in order.
fn are_doubles(all: &[u64], from: u32, to: u32) -> bool {
    for i in from..to {
        let answer = all.get((i - from) as usize).copied();
        if answer != Some(u64::from(i) + u64::from(i)) {
            return false;
        }
    }
    true
}

// With 255 jobs there are more parts than numbers. Of the others, 3, 7 and 16 don't divide 100.
#[test]
fn each_number_is_done_once(rt: HostRuntime) -> Result<(), NoMemory> {
    for jobs in [1u8, 2, 3, 7, 16, 255] {
        let gate = Passes::new(rt.alloc(), 1000, 100)?;
        match block(&rt, rt.alloc(), &Doubles, 1000, 1100, jobs, &gate) {
            Ok(all) => {
                assert_eq!(rt; all.len(), 100);
                assert!(rt; are_doubles(&all, 1000, 1100));
            }
            Err(_) => assert!(rt; false),
        }
        assert!(rt; gate.were_once());
    }
    Ok(())
}

// Has no memory for number 4.
#[derive(Drop)]
struct Stops;

impl Task for Stops {
    type Out = u64;

    ghost Shown = { ℕ };

    ghost show = { λ v. v };

    ghost asks = { λ _ _. Unit {0} };

    ghost answer = { λ _ i. i };

    fn run(&self, i: u32) -> Result<u64, NoMemory> {
        if i == 4 {
            return Err(NoMemory);
        }
        Ok(u64::from(i))
    }
}

// Counts how often it is entered and left.
#[derive(Drop)]
struct Counts {
    entered: AtomicU64,
    left: AtomicU64,
}

impl Gate for Counts {
    fn enter(&self, _: u32) {
        self.entered.fetch_add(1, Ordering::SeqCst);
    }

    fn leave(&self, _: u32) {
        self.left.fetch_add(1, Ordering::SeqCst);
    }
}

// The part of number 4 does nothing after it, and the other parts do all of theirs. With one job and with two, no
// number after 4 is done: of two parts the second one begins with it. Of three parts the second one has numbers 4 and
// 5.
#[test]
fn want_of_memory_leaves_the_gate(rt: HostRuntime) -> Result<(), Fail> {
    for (jobs, wanted) in [(1, 5), (2, 5), (3, 7), (8, 8)] {
        let gate = Counts {
            entered: AtomicU64::new(0),
            left: AtomicU64::new(0),
        };
        match block(&rt, rt.alloc(), &Stops, 0, 8, jobs, &gate) {
            Ok(_) => assert!(rt; false),
            Err(stop) => assert_eq!(rt; stop, NoMemory),
        }
        let entered = gate.entered.load(Ordering::SeqCst);
        assert_eq!(rt; entered, wanted);
        assert_eq!(rt; gate.left.load(Ordering::SeqCst), entered);
    }
    Ok(())
}

// Answers how many numbers its part did before this one. There is no memory for a part that has done as many as this.
#[derive(Drop)]
struct Counted {
    most: u32,
}

impl PartTask for Counted {
    type Part = u32;

    type Out = u32;

    ghost holds = { λ s done. done ≤ s.most };

    ghost asks = { λ _ _. Unit {0} };

    ghost answers = { λ s _ v. v < s.most };

    fn begin(&self) -> Result<u32, NoMemory> {
        Ok(0)
    }

    fn run(&self, part: &mut u32, _i: u32) -> Result<u32, NoMemory> {
        let done = *part;
        if done == self.most {
            return Err(NoMemory);
        }
        *part = done + 1;
        Ok(done)
    }
}

// What is answered for the numbers from 2 on below 9, with one job, two and so on, worked by hand: the jobs and the
// numbers are halved, and the second half has one more where they are odd. So the parts have 7; 3 and 4; 3, 2 and 2;
// 1, 2, 2 and 2; 1, 2, 2, 1 and 1; 1, 1, 1, 2, 1 and 1; and 1 each.
const PARTS: [[u32; 7]; 7] = [
    [0, 1, 2, 3, 4, 5, 6],
    [0, 1, 2, 0, 1, 2, 3],
    [0, 1, 2, 0, 1, 0, 1],
    [0, 0, 1, 0, 1, 0, 1],
    [0, 0, 1, 0, 1, 0, 0],
    [0, 0, 0, 0, 1, 0, 0],
    [0, 0, 0, 0, 0, 0, 0],
];

#[test]
fn each_part_begins_anew(rt: HostRuntime) -> Result<(), Fail> {
    for jobs in 1..8 {
        let wanted = PARTS[jobs as usize - 1];
        match block_of_parts(&rt, rt.alloc(), &Counted { most: 7 }, 2, 9, jobs, &NoGate) {
            Ok(all) => assert_eq!(rt; all.as_slice(), wanted.as_slice()),
            Err(_) => assert!(rt; false),
        }
    }
    Ok(())
}

// Of the numbers 0 to 10 two parts have 0 to 4 and 5 to 10.
#[test]
fn two_parts_of_eleven(rt: HostRuntime) -> Result<(), Fail> {
    match block_of_parts(&rt, rt.alloc(), &Counted { most: 6 }, 0, 11, 2, &NoGate) {
        Ok(all) => assert_eq!(rt;
            all.as_slice(),
            [0, 1, 2, 3, 4, 0, 1, 2, 3, 4, 5].as_slice()
        ),
        Err(_) => assert!(rt; false),
    }
    Ok(())
}

// Whether parts of which each does at most so many numbers do all numbers up to `to`, or memory runs out.
fn has_enough<R: Threads + Sync>(
    rt: &R,
    alloc: Global,
    most: u32,
    to: u32,
    jobs: u8,
) -> Option<bool> {
    if jobs == 0 {
        return None;
    }
    match block_of_parts(rt, alloc, &Counted { most }, 0, to, jobs, &NoGate) {
        Ok(all) if all.len() == to as usize => Some(true),
        Ok(_) => None,
        Err(NoMemory) => Some(false),
    }
}

// There is enough where each part has memory for its numbers. The largest part of four numbers has two of two jobs;
// that of seven has four of two jobs, three of three, two of six and one of seven.
#[test]
fn want_of_memory_of_a_part(rt: HostRuntime) -> Result<(), Fail> {
    for (most, to, jobs, enough) in [
        (3, 4, 1u8, false),
        (4, 4, 1, true),
        (1, 4, 2, false),
        (2, 4, 2, true),
        (3, 7, 2, false),
        (4, 7, 2, true),
        (2, 7, 3, false),
        (3, 7, 3, true),
        (1, 7, 6, false),
        (2, 7, 6, true),
        (1, 7, 7, true),
    ] {
        assert_eq!(rt; has_enough(&rt, rt.alloc(), most, to, jobs), Some(enough));
    }
    Ok(())
}
