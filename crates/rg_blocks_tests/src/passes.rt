//! A gate that shows whether each number of a block is done once.
use rg_phase::NoMemory;
use rg_ports::Gate;
use std::alloc::Global;
use std::sync::atomic::{AtomicU64, Ordering};

/// Counts how often each number of a block is entered and left, and how often another one is.
#[derive(Drop)]
pub struct Passes {
    from: u32,
    entered: Vec<AtomicU64>,
    left: Vec<AtomicU64>,
    others: AtomicU64,
}

impl Passes {
    /// Returns the gate of a block of so many numbers from `from` on.
    pub fn new(alloc: Global, from: u32, count: u32) -> Result<Passes, NoMemory> {
        Ok(Passes {
            from,
            entered: zeros(alloc, count)?,
            left: zeros(alloc, count)?,
            others: AtomicU64::new(0),
        })
    }

    /// Returns whether each number was entered once and left once, and no other one was.
    pub fn were_once(&self) -> bool {
        are_one(&self.entered) && are_one(&self.left) && self.others.load(Ordering::SeqCst) == 0
    }

    fn count(&self, counts: &[AtomicU64], i: u32) {
        match counts.get(i.wrapping_sub(self.from) as usize) {
            Some(count) => count.fetch_add(1, Ordering::SeqCst),
            None => self.others.fetch_add(1, Ordering::SeqCst),
        };
    }
}

impl Gate for Passes {
    fn enter(&self, i: u32) {
        self.count(&self.entered, i);
    }

    fn leave(&self, i: u32) {
        self.count(&self.left, i);
    }
}

// So many counts of 0.
fn zeros(alloc: Global, count: u32) -> Result<Vec<AtomicU64>, NoMemory> {
    let mut zeros = Vec::new(alloc);
    for _ in 0..count {
        zeros.push(AtomicU64::new(0))?;
    }
    Ok(zeros)
}

fn are_one(counts: &[AtomicU64]) -> bool {
    for count in counts {
        if count.load(Ordering::SeqCst) != 1 {
            return false;
        }
    }
    true
}
