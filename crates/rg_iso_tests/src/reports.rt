//! Reports on systems, each worked by hand.
use crate::samples::{FORK, LOST_APART, STILL};
use rg_report::{examine, json_text, lines_text, report_on};
use rg_samples::{LOOP_AND_STEP, system};
use std::alloc::Global;

// Whether these are the two texts of the report on the system.
fn is_reported(alloc: Global, text: &str, lines: &str, json: &str) -> bool {
    match texts(alloc, text) {
        Some((as_lines, as_json)) => {
            as_lines.as_slice() == lines.as_bytes() && as_json.as_slice() == json.as_bytes()
        }
        None => false,
    }
}

// The report on the system of a text, as lines and as JSON.
fn texts(alloc: Global, text: &str) -> Option<(Vec<u8>, Vec<u8>)> {
    let lts = system(alloc, text)?;
    let found = examine(alloc, &lts).ok()?;
    let Ok(report) = report_on(alloc, &lts, &found) else {
        return None;
    };
    let lines = lines_text(alloc, &report).ok()?;
    let json = json_text(alloc, &report).ok()?;
    Some((lines, json))
}

// A text, its lines and its line of JSON.
const REPORTS: [(&str, &str, &str); 4] = [
    (
        LOOP_AND_STEP,
        "states 2\nlabels 2\narcs 2\nreachable yes\ndeterministic yes\npersistent no s0 b a s1\nreversible no s1\n",
        "{\"arcs\":2,\"deterministic\":true,\"labels\":2,\"persistent\":[\"s0\",\"b\",\"a\",\"s1\"],\"reachable\":true,\"reversible\":[\"s1\"],\"states\":2}\n",
    ),
    (
        STILL,
        "states 1\nlabels 0\narcs 0\nreachable yes\ndeterministic yes\npersistent yes\nreversible yes\n",
        "{\"arcs\":0,\"deterministic\":true,\"labels\":0,\"persistent\":true,\"reachable\":true,\"reversible\":true,\"states\":1}\n",
    ),
    (
        FORK,
        "states 4\nlabels 3\narcs 6\nreachable yes\ndeterministic no s0 a s1 s2\npersistent no s0 a b s2\nreversible no s1\n",
        "{\"arcs\":6,\"deterministic\":[\"s0\",\"a\",\"s1\",\"s2\"],\"labels\":3,\"persistent\":[\"s0\",\"a\",\"b\",\"s2\"],\"reachable\":true,\"reversible\":[\"s1\"],\"states\":4}\n",
    ),
    (
        LOST_APART,
        "states 3\nlabels 2\narcs 3\nreachable no s1\ndeterministic yes\npersistent no s1 a b s2\nreversible yes\n",
        "{\"arcs\":3,\"deterministic\":true,\"labels\":2,\"persistent\":[\"s1\",\"a\",\"b\",\"s2\"],\"reachable\":[\"s1\"],\"reversible\":true,\"states\":3}\n",
    ),
];

#[test]
fn reports(rt: HostRuntime) {
    for (text, lines, json) in REPORTS {
        assert!(rt; is_reported(rt.alloc(), text, lines, json), "{text}");
    }
}
