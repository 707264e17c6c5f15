//! How a run ends.
ghost use Rattle.std.specs.Prelude.{◌≡◌};
ghost use Rattle.rg_top.specs.Numbers.{status_number};

use rg_commands::Usage;
use rg_messages::{FileFault, WideCause};

/// How a run ends.
#[derive(Drop)]
pub enum Status {
    /// The command's yes. Its text is written to out: a net, a net with labels, a system, factors, a map of states, a
    /// report, that a certificate is accepted, that a net is right, or the lines of a self test.
    Done,
    /// The command's no. Its text is written to out: a certificate, why a certificate is refused or a net isn't
    /// right, why a system has no factors or is not split, the first difference of two systems, or what a form can't
    /// hold.
    No,
    /// The words are refused; a line is written to err.
    Usage(Usage),
    /// A file is missing or too long, or a file other than a certificate has a fault of its text; a line is written
    /// to err.
    File(FileFault),
    /// A number that the stated order of work forms, or a marking of a net, is out of range; a line with it is
    /// written to err.
    TooWide(WideCause),
    /// A call of the shelf failed; nothing is written.
    ReadFault,
    /// A write failed; a proper prefix of the output is written.
    WriteFault,
    /// Memory ran out; nothing is written.
    NoMemory,
}

impl Status {
    /// Returns the exit status of the program, from 0 to 7.
    pub fn number(&self) -> u8
        ensures { result ≡ status_number self.now }
    {
        match self {
            Status::Done => 0,
            Status::No => 1,
            Status::Usage(_) => 2,
            Status::File(_) => 3,
            Status::TooWide(_) => 4,
            Status::ReadFault => 5,
            Status::WriteFault => 6,
            Status::NoMemory => 7,
        }
    }
}
