//! The lines that refuse files and certificates, where no run writes them.
use crate::samples::is_line;
use rg_apt::TextFault;
use rg_cert::CertFault;
use rg_genet::GraphFault;
use rg_messages::{Fault, FileFault, fault_text, file_text};
use rg_netfile::NetFault;
use rg_words::WordFault;
use std::alloc::Global;

// Faults that no file has, and one of a file that no command has.
const FAULTS: [(u8, Fault, &str); 5] = [
    (1, Fault::Apt(TextFault::NoMemory), "file 1: no memory\n"),
    (1, Fault::Graph(GraphFault::NoMemory), "file 1: no memory\n"),
    (1, Fault::Words(WordFault::NoMemory), "file 1: no memory\n"),
    (2, Fault::Net(NetFault::NoMemory), "file 2: no memory\n"),
    (255, Fault::Missing, "file 255: missing\n"),
];

// Whether the fault of a file has this line.
fn is_refused(alloc: Global, file: u8, fault: Fault, wanted: &str) -> bool {
    is_line(file_text(alloc, FileFault { file, fault }), wanted)
}

#[test]
fn files(rt: HostRuntime) {
    for (file, fault, wanted) in FAULTS {
        assert!(rt; is_refused(rt.alloc(), file, fault, wanted), "{wanted}");
    }
}

#[test]
fn certificates(rt: HostRuntime) {
    let text = fault_text(rt.alloc(), CertFault::NoMemory);
    assert!(rt; is_line(text, "refused: no memory\n"));
}
