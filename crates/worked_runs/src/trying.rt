//! A case as it is, and with each failure in turn that it asks for.
use crate::case::Case;
use crate::ending::{Due, difference_from};
use crate::faults::{each_read, each_write};
use crate::outside::Outside;
use crate::stop::Stop;
use rg_ports::NoGate;
use std::alloc::Global;
use std::thread::Threads;

/// Returns a description of the first run of the case that ends otherwise than it has to, or None if each ends so.
pub fn difference<R: Threads + Sync>(
    rt: &R,
    alloc: Global,
    case: &Case,
) -> Result<Option<String>, Stop> {
    let mut first = None;
    for words in &case.runs {
        if first.is_none() {
            first = difference_with(rt, alloc, case, words)?;
        }
    }
    if !case.differs {
        return Ok(first);
    }
    match first {
        Some(_) => Ok(None),
        None => Ok(Some(String::from_str(alloc, "a difference was due")?)),
    }
}

// The report on the run with these words, as it is and with each failure in turn that the case asks for.
fn difference_with<R: Threads + Sync>(
    rt: &R,
    alloc: Global,
    case: &Case,
    words: &[String],
) -> Result<Option<String>, Stop> {
    let mut outside = Outside::new(alloc, case, &case.fails, case.room)?;
    let status = outside.end(rt, alloc, words, &NoGate);
    let found = difference_from(alloc, status, &outside, Due::of(case))?;
    if found.is_some() {
        return Ok(found);
    }
    let found = each_read(rt, alloc, case, words)?;
    if found.is_some() {
        return Ok(found);
    }
    each_write(rt, alloc, case, words)
}
