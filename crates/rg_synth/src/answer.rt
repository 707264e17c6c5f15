//! What is answered for a system and a class.

use rg_cert_data::{Certificate, WideAt};
use rg_net::Net;

/// The answer for a system and a class.
#[derive(Drop)]
pub enum Answer {
    /// A net of the class whose reachability graph is the system, without a place that could be left out.
    Net(Net),
    /// Why there is none.
    Unsolvable(Certificate),
    /// A number that the stated order of work forms is out of range.
    TooWide(WideAt),
}
