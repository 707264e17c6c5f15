//! A gate that shows whether numbers of a block are at work in parallel.
use crate::passes::Passes;
use rg_phase::NoMemory;
use rg_ports::Gate;
use std::alloc::Global;
use std::sync::atomic::{AtomicU64, Ordering};

// How often a number that waits looks for the others.
const TURNS: u64 = 10_000_000_000;

/// Holds the first numbers of a block until the last one is entered, and the last one until each of them is. None
/// waits in vain where each of these numbers has a part of its own.
#[derive(Drop)]
pub struct Meeting {
    last: u32,
    first: u32,
    first_came: AtomicU64,
    last_came: AtomicU64,
    missed: AtomicU64,
    passes: Passes,
}

impl Meeting {
    /// Returns the gate of a block of the numbers 0 to `last`, so many of which are the first ones.
    pub fn new(alloc: Global, last: u32, first: u32) -> Result<Meeting, NoMemory> {
        Ok(Meeting {
            last,
            first,
            first_came: AtomicU64::new(0),
            last_came: AtomicU64::new(0),
            missed: AtomicU64::new(0),
            passes: Passes::new(alloc, 0, last.saturating_add(1))?,
        })
    }

    /// Returns whether none of them gave up.
    pub fn have_met(&self) -> bool {
        self.missed.load(Ordering::SeqCst) == 0
    }

    /// Returns whether each number was entered once and left once, and no other one was.
    pub fn passed_once(&self) -> bool {
        self.passes.were_once()
    }

    // Waits until so many have come.
    fn wait(&self, came: &AtomicU64, many: u32) {
        for _ in 0..TURNS {
            if came.load(Ordering::SeqCst) >= u64::from(many) {
                return;
            }
        }
        self.missed.store(1, Ordering::SeqCst);
    }
}

impl Gate for Meeting {
    fn enter(&self, i: u32) {
        self.passes.enter(i);
        if i < self.first {
            self.first_came.fetch_add(1, Ordering::SeqCst);
            self.wait(&self.last_came, 1);
        }
        if i == self.last {
            self.last_came.store(1, Ordering::SeqCst);
            self.wait(&self.first_came, self.first);
        }
    }

    fn leave(&self, i: u32) {
        self.passes.leave(i);
    }
}
