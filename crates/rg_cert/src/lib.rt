//! Certificates that a system has no net, and their text.
#![tactic(auto)]

mod decode;
mod draft;
mod fault;
mod good_line;
mod laws;
mod lines;
mod names;
mod numerals;
mod position;
mod printing;
mod reading;
mod table;
mod version;

pub use fault::CertFault;
pub use laws::{certificate_is_told, lines_go_on, one_answer, spelled_is_in_range};
pub use printing::print;
pub use reading::read;
pub use rg_cert_data::{Case, Certificate, Node, Problem, Reason};
pub use rg_cert_meaning::{Form, RowName};
pub use rg_memory::NoMemory;
