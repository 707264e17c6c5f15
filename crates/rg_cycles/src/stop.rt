//! Why the cycle equations weren't solved.
ghost use Rattle.std.specs.Prelude.{◌≡◌};
ghost use Rattle.rg_cycles.specs.declared.stop.Stop.TheVariants as stop;

use rg_integers::Wide;
use std::alloc::AllocError;

/// The first term out of range on the walk over the chords. It occurs at the free set `members`, in the exchange of
/// the row `pivot` with the member `leaves`, in the new relation of `target`, as term number `entry`, counted from 0.
/// Variables are the labels and, after them, the distinct chords that aren't 0.
#[derive(PartialEq, Debug, Drop)]
pub struct CycleWide {
    pub members: Vec<u32>,
    pub pivot: u32,
    pub leaves: u32,
    pub target: u32,
    pub entry: u32,
    pub wide: Wide,
}

/// Why there is no basis.
#[derive(PartialEq, Debug, Drop)]
pub enum Stop {
    /// A term of the walk is out of range.
    Wide(CycleWide),
    /// Memory ran out.
    NoMemory,
}

impl From<AllocError> for Stop {
    ghost from_gives = { λ _ e. e ≡ stop.NoMemory };

    fn from(_: AllocError) -> Stop {
        Stop::NoMemory
    }
}
