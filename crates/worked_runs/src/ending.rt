//! How a run ends, compared with how it has to end.
use crate::case::Case;
use crate::outside::Outside;
use crate::stop::Stop;
use std::alloc::{AllocError, Global};

// How many bytes of a text are shown.
const TOLD: usize = 160;

/// How a run has to end.
#[derive(Clone, Copy)]
pub struct Due<'a> {
    pub status: u8,
    pub out: &'a [u8],
    pub err: &'a [u8],
}

impl<'a> Due<'a> {
    /// Returns the end that the case names.
    pub fn of(case: &'a Case) -> Due<'a> {
        Due {
            status: case.status.unwrap_or(0),
            out: &case.out,
            err: &case.err,
        }
    }
}

/// Returns a description of a run that ended otherwise than it had to, or None if it ended so.
pub fn difference_from(
    alloc: Global,
    status: u8,
    outside: &Outside,
    due: Due<'_>,
) -> Result<Option<String>, Stop> {
    if status != due.status {
        let out = shown(alloc, outside.out())?;
        let err = shown(alloc, outside.err())?;
        return Ok(Some(format!(in alloc;
            "status {} due, {status} came with \"{out}\" and \"{err}\"",
            due.status
        )?));
    }
    if outside.out() != due.out {
        return Ok(Some(texts_differ(alloc, "out", due.out, outside.out())?));
    }
    if outside.err() != due.err {
        return Ok(Some(texts_differ(alloc, "err", due.err, outside.err())?));
    }
    Ok(None)
}

// The report on two texts that differ.
fn texts_differ(alloc: Global, name: &str, due: &[u8], came: &[u8]) -> Result<String, Stop> {
    let at = common_length(due, came);
    let due = shown(alloc, behind(due, at))?;
    let came = shown(alloc, behind(came, at))?;
    Ok(format!(in alloc; "{name} at {at}: \"{due}\" due, \"{came}\" came")?)
}

// How many first bytes are the same.
fn common_length(a: &[u8], b: &[u8]) -> usize {
    let mut count = 0usize;
    for (x, y) in a.iter().zip(b.iter()) {
        if x != y {
            return count;
        }
        count = count.saturating_add(1);
    }
    count
}

// The text after its first bytes.
fn behind(text: &[u8], at: usize) -> &[u8] {
    text.get(at..).unwrap_or(&[])
}

// The first bytes of a text, in one line.
fn shown(alloc: Global, text: &[u8]) -> Result<String, AllocError> {
    let first = text.get(..TOLD).unwrap_or(text);
    let escaped = first.escape_ascii();
    format!(in alloc; "{escaped}")
}
