//! A system whose names are written, and texts that are expected.
use std::alloc::AllocError;

/// Three states and two labels.
pub(crate) const TOGGLE: &str =
    ".type LTS .states off[initial] on broken .labels press hit .arcs off press on on press off on hit broken";

/// Returns whether a text was made, and is this line.
pub(crate) fn is_line(text: Result<Vec<u8>, AllocError>, wanted: &str) -> bool {
    match text {
        Ok(text) => text.as_slice() == wanted.as_bytes(),
        Err(_) => false,
    }
}
