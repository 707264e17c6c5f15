//! Runs in which a call of the outside fails.
use crate::case::{Case, Fails};
use crate::ending::{Due, difference_from};
use crate::outside::Outside;
use crate::stop::Stop;
use rg_ports::NoGate;
use std::alloc::Global;
use std::thread::Threads;

const READ_FAULT: u8 = 5;

const WRITE_FAULT: u8 = 6;

/// Returns a description of the first wrong run where a call of the shelf fails, each in turn, and then one that
/// isn't made.
pub fn each_read<R: Threads + Sync>(
    rt: &R,
    alloc: Global,
    case: &Case,
    words: &[String],
) -> Result<Option<String>, Stop> {
    let Some(calls) = case.calls else {
        return Ok(None);
    };
    for k in 1..calls.saturating_add(1) {
        let found = read_fails(rt, alloc, case, words, k)?;
        if let Some(found) = found {
            return Ok(Some(format!(in alloc; "call {k} of the shelf fails: {found}")?));
        }
    }
    let mut fails = Fails::none(alloc);
    fails.shelf.push(calls.saturating_add(1))?;
    match none_fails(rt, alloc, case, words, &fails)? {
        Some(found) => Ok(Some(format!(in alloc; "there are more calls of the shelf: {found}")?)),
        None => Ok(None),
    }
}

// The calls that would fail aren't made: the run ends as the case says.
fn none_fails<R: Threads + Sync>(
    rt: &R,
    alloc: Global,
    case: &Case,
    words: &[String],
    fails: &Fails,
) -> Result<Option<String>, Stop> {
    let mut outside = Outside::new(alloc, case, fails, case.room)?;
    let status = outside.end(rt, alloc, words, &NoGate);
    difference_from(alloc, status, &outside, Due::of(case))
}

// Call k of the shelf fails: nothing is written, and the same run again ends as without.
fn read_fails<R: Threads + Sync>(
    rt: &R,
    alloc: Global,
    case: &Case,
    words: &[String],
    k: u64,
) -> Result<Option<String>, Stop> {
    let mut fails = Fails::none(alloc);
    fails.shelf.push(k)?;
    let mut outside = Outside::new(alloc, case, &fails, case.room)?;
    let nothing = Due {
        status: READ_FAULT,
        out: &[],
        err: &[],
    };
    let status = outside.end(rt, alloc, words, &NoGate);
    let found = difference_from(alloc, status, &outside, nothing)?;
    if found.is_some() {
        return Ok(found);
    }
    let status = outside.end(rt, alloc, words, &NoGate);
    difference_from(alloc, status, &outside, Due::of(case))
}

/// Returns a description of the first wrong run where a call of the sink that is written to fails, each in turn and
/// then one that isn't made, and where each smaller room is full.
pub fn each_write<R: Threads + Sync>(
    rt: &R,
    alloc: Global,
    case: &Case,
    words: &[String],
) -> Result<Option<String>, Stop> {
    if !case.each_write {
        return Ok(None);
    }
    let text = written(case);
    let mut call = 0u64;
    for k in 0..text.len() {
        let found = write_fails(rt, alloc, case, words, k, None)?;
        if let Some(found) = found {
            return Ok(Some(format!(in alloc; "room for {k}: {found}")?));
        }
        if k % case.write.max(1) == 0 {
            call = call.saturating_add(1);
            let found = write_fails(rt, alloc, case, words, k, Some(call))?;
            if let Some(found) = found {
                return Ok(Some(format!(in alloc; "write {call} fails: {found}")?));
            }
        }
    }
    let mut fails = Fails::none(alloc);
    fails.out.push(call.saturating_add(1))?;
    fails.err.push(call.saturating_add(1))?;
    match none_fails(rt, alloc, case, words, &fails)? {
        Some(found) => Ok(Some(format!(in alloc; "there are more writes: {found}")?)),
        None => Ok(None),
    }
}

// What the case says is written to the sink.
fn written(case: &Case) -> &[u8] {
    if case.err.is_empty() {
        &case.out
    } else {
        &case.err
    }
}

// Only the first k bytes of the output are taken, since there is no more room, or since this call fails. In the
// second way the same run again writes the whole output after them.
fn write_fails<R: Threads + Sync>(
    rt: &R,
    alloc: Global,
    case: &Case,
    words: &[String],
    k: usize,
    call: Option<u64>,
) -> Result<Option<String>, Stop> {
    let mut fails = Fails::none(alloc);
    if let Some(call) = call {
        fails.out.push(call)?;
        fails.err.push(call)?;
    }
    let room = if call.is_some() { case.room } else { k };
    let mut outside = Outside::new(alloc, case, &fails, room)?;
    let taken = Due {
        status: WRITE_FAULT,
        out: case.out.get(..k).unwrap_or(&[]),
        err: case.err.get(..k).unwrap_or(&[]),
    };
    let status = outside.end(rt, alloc, words, &NoGate);
    let found = difference_from(alloc, status, &outside, taken)?;
    if found.is_some() || call.is_none() {
        return Ok(found);
    }
    again(rt, alloc, case, words, &mut outside, taken)
}

// The same run again.
fn again<R: Threads + Sync>(
    rt: &R,
    alloc: Global,
    case: &Case,
    words: &[String],
    outside: &mut Outside,
    taken: Due<'_>,
) -> Result<Option<String>, Stop> {
    let mut out = Vec::from_slice(alloc, taken.out)?;
    out.extend_from_slice(&case.out)?;
    let mut err = Vec::from_slice(alloc, taken.err)?;
    err.extend_from_slice(&case.err)?;
    let status = outside.end(rt, alloc, words, &NoGate);
    let both = Due {
        status: Due::of(case).status,
        out: &out,
        err: &err,
    };
    difference_from(alloc, status, outside, both)
}
