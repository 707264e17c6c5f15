//! The faults of texts.
ghost use Rattle.std.specs.Prelude.{◌≡◌};
ghost use Rattle.rg_cert.specs.declared.fault.CertFault.TheVariants as fault;

use rg_memory::NoMemory;
use std::alloc::{AllocError, AllocFailed};

/// Why bytes are the text of no certificate for a system: the first fault, by line. Lines are counted from 1. Of the
/// faults of one line, `Expected` is first, then `NumberPasses`, then `UnknownName`, then a fault of the tree.
#[derive(Clone, Copy, Debug, PartialEq, Eq)]
pub enum CertFault {
    /// The line is missing, isn't ended by a line feed, has another form than is expected, or follows the end.
    Expected(u32),
    /// The line has its form, and a name in it is that of no state or label.
    UnknownName(u32),
    /// The line has its form, and a number in it is out of its range.
    NumberPasses(u32),
    /// A case or the end follows where a node of a tree is expected.
    TreeShort,
    /// A node follows a tree that is complete.
    TreeLong,
    /// Memory ran out.
    NoMemory,
}

impl From<AllocError> for CertFault {
    ghost from_gives = { λ _ e. e ≡ fault.NoMemory };

    fn from(_: AllocError) -> CertFault {
        CertFault::NoMemory
    }
}

impl<T: Drop> From<AllocFailed<T>> for CertFault {
    ghost from_gives = { λ _ e. e ≡ fault.NoMemory };

    fn from(_: AllocFailed<T>) -> CertFault {
        CertFault::NoMemory
    }
}

impl From<NoMemory> for CertFault {
    ghost from_gives = { λ _ e. e ≡ fault.NoMemory };

    fn from(_: NoMemory) -> CertFault {
        CertFault::NoMemory
    }
}
