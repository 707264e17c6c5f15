//! A gate that shows how many numbers are at work at once.
use rg_ports::Gate;
use std::sync::atomic::{AtomicU64, Ordering};

// How often a number that is held looks whether the others have come.
const TURNS: u64 = 1_000_000_000;

// How often it looks after that whether one more has come.
const FURTHER_TURNS: u64 = 5_000_000;

/// Holds some numbers, each the first time it is entered, until all of them are inside, and then until one more is or
/// for some million turns. It counts how many are inside at once, how often numbers are entered and left, and keeps
/// which ones.
#[derive(Drop)]
pub struct Holding<'a> {
    held: &'a [u32],
    came: AtomicU64,
    inside: AtomicU64,
    most: AtomicU64,
    entered: AtomicU64,
    seen: AtomicU64,
    left: AtomicU64,
    gone: AtomicU64,
}

impl<'a> Holding<'a> {
    /// Returns a gate that holds these numbers.
    pub fn new(held: &'a [u32]) -> Holding<'a> {
        Holding {
            held,
            came: AtomicU64::new(0),
            inside: AtomicU64::new(0),
            most: AtomicU64::new(0),
            entered: AtomicU64::new(0),
            seen: AtomicU64::new(0),
            left: AtomicU64::new(0),
            gone: AtomicU64::new(0),
        }
    }

    /// Returns whether all of the numbers that are held were inside at once, and no other number with them.
    pub fn were_alone(&self) -> bool {
        self.most.load(Ordering::SeqCst) == self.held.len() as u64
    }

    /// Returns whether each number below `count` was entered once and left once, and no other was.
    pub fn has_passed_once(&self, count: u32) -> bool {
        let all = 1u64.checked_shl(count).unwrap_or(0).wrapping_sub(1);
        self.entered.load(Ordering::SeqCst) == u64::from(count)
            && self.seen.load(Ordering::SeqCst) == all
            && self.left.load(Ordering::SeqCst) == u64::from(count)
            && self.gone.load(Ordering::SeqCst) == all
    }

    // Waits until so many of the numbers that are held have come.
    fn wait_for_all(&self) {
        for _ in 0..TURNS {
            if self.came.load(Ordering::SeqCst) >= self.held.len() as u64 {
                return;
            }
        }
    }

    // Waits whether one more number comes.
    fn wait_for_more(&self) {
        for _ in 0..FURTHER_TURNS {
            if self.most.load(Ordering::SeqCst) > self.held.len() as u64 {
                return;
            }
        }
    }
}

impl Gate for Holding<'_> {
    fn enter(&self, i: u32) {
        let before = self.inside.fetch_add(1, Ordering::SeqCst);
        self.most
            .fetch_max(before.saturating_add(1), Ordering::SeqCst);
        self.entered.fetch_add(1, Ordering::SeqCst);
        let bit = 1u64.checked_shl(i).unwrap_or(0);
        let seen = self.seen.fetch_or(bit, Ordering::SeqCst);
        if self.held.contains(&i) && seen & bit == 0 {
            self.came.fetch_add(1, Ordering::SeqCst);
            self.wait_for_all();
            self.wait_for_more();
        }
    }

    fn leave(&self, i: u32) {
        self.inside.fetch_sub(1, Ordering::SeqCst);
        self.left.fetch_add(1, Ordering::SeqCst);
        let bit = 1u64.checked_shl(i).unwrap_or(0);
        self.gone.fetch_or(bit, Ordering::SeqCst);
    }
}
