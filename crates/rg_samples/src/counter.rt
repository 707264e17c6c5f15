//! A gate that counts.
use rg_ports::Gate;
use std::sync::atomic::{AtomicU64, Ordering};

/// Counts the numbers that are entered.
#[derive(Drop)]
pub struct Counter {
    entered: AtomicU64,
}

impl Counter {
    /// Returns a gate that no number has entered.
    pub fn new() -> Counter {
        Counter {
            entered: AtomicU64::new(0),
        }
    }

    /// Returns how often numbers were entered.
    pub fn count(&self) -> u64 {
        self.entered.load(Ordering::SeqCst)
    }
}

impl Gate for Counter {
    fn enter(&self, i: u32) {
        let _ = i;
        self.entered.fetch_add(1, Ordering::SeqCst);
    }

    fn leave(&self, i: u32) {
        let _ = i;
    }
}
