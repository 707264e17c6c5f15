//! Words that are refused, each with its first reason.
use crate::words::owned;
use rg_commands::{Usage, WordsStop, read_words};
use rg_theory::ClassFault;
use std::alloc::{AllocError, Global};

// Words, and why they are refused.
const REFUSED: [(&[&str], Usage); 71] = [
    (&[], Usage::NoCommand),
    (&[""], Usage::UnknownCommand),
    (&["--help"], Usage::UnknownCommand),
    (&["help"], Usage::UnknownCommand),
    (&["-h"], Usage::UnknownCommand),
    (&["--version"], Usage::UnknownCommand),
    (&["synthesise", "none", "f"], Usage::UnknownCommand),
    (&["Synthesize", "none", "f"], Usage::UnknownCommand),
    (&["--from=apt", "verify", "f", "c"], Usage::UnknownCommand),
    (&["synthesize"], Usage::Words),
    (&["synthesize", "--help"], Usage::Words),
    (&["synthesize", "none"], Usage::Words),
    (&["synthesize", "none", "-f"], Usage::Words),
    (&["synthesize", "none", "f", "g"], Usage::Words),
    (&["synthesize", "none", "f", "--from"], Usage::Words),
    (&["synthesize", "none", "f", "--jobs", "-1"], Usage::Words),
    (&["synthesize", "none", "f", "--fro", "apt"], Usage::Words),
    (
        &["synthesize", "none", "f", "--from", "apt", "--from", "apt"],
        Usage::Words,
    ),
    (
        &["synthesize", "x", "f", "--jobs=0", "--jobs=0"],
        Usage::Words,
    ),
    (&["verify", "f"], Usage::Words),
    (&["verify", "f", "c", "d"], Usage::Words),
    (&["verify", "f", "c", "--jobs=2"], Usage::Words),
    (&["check", "none", "f"], Usage::Words),
    (&["check", "none", "f", "n", "--version"], Usage::Words),
    (&["convert", "f"], Usage::Words),
    (&["convert", "apt", "-f"], Usage::Words),
    (
        &["synthesize", "x", "f", "--from", "y", "--jobs", "0"],
        Usage::ClassWord(ClassFault::UnknownWord(0)),
    ),
    (
        &["synthesize", "", "f"],
        Usage::ClassWord(ClassFault::UnknownWord(0)),
    ),
    (
        &["synthesize", "pure,0-bounded", "f"],
        Usage::ClassWord(ClassFault::BadNumber(1)),
    ),
    (
        &["check", "safe,plain,2-bounded", "f", "n", "--from=y"],
        Usage::ClassWord(ClassFault::Repeated(2)),
    ),
    (
        &["check", "none,pure", "f", "n"],
        Usage::ClassWord(ClassFault::UnknownWord(0)),
    ),
    (&["convert", "xml", "f", "--from", "x"], Usage::FormWord),
    (&["convert", "words", "f"], Usage::FormWord),
    (&["convert", "", "f"], Usage::FormWord),
    (
        &["synthesize", "none", "f", "--from", "y", "--jobs", "0"],
        Usage::FromWord,
    ),
    (&["verify", "f", "c", "--from", "Apt"], Usage::FromWord),
    (&["verify", "f", "c", "--from==apt"], Usage::FromWord),
    (
        &["check", "none", "f", "n", "--from=wordsx"],
        Usage::FromWord,
    ),
    (&["convert", "apt", "f", "--from="], Usage::FromWord),
    (&["synthesize", "none", "f", "--jobs", "0"], Usage::JobsWord),
    (
        &["synthesize", "none", "f", "--jobs", "17"],
        Usage::JobsWord,
    ),
    (
        &["synthesize", "none", "f", "--jobs", "+1"],
        Usage::JobsWord,
    ),
    (
        &["synthesize", "none", "f", "--jobs", "1x"],
        Usage::JobsWord,
    ),
    (&["synthesize", "none", "f", "--jobs="], Usage::JobsWord),
    (&["synthesize", "none", "f", "--jobs=-1"], Usage::JobsWord),
    (
        &["synthesize", "none", "f", "--jobs", "0000000001"],
        Usage::JobsWord,
    ),
    (
        &["synthesize", "none", "f", "--jobs", "999999999"],
        Usage::JobsWord,
    ),
    (
        &["synthesize", "none", "f", "--jobs", "4294967297"],
        Usage::JobsWord,
    ),
    (&["generate"], Usage::Words),
    (&["generate", "grid"], Usage::Words),
    (&["generate", "grid", "3", "--from", "apt"], Usage::Words),
    (&["generate", "grid", "3", "4"], Usage::Words),
    (&["generate", "--help"], Usage::Words),
    (&["selftest"], Usage::Words),
    (&["selftest", "--help"], Usage::Words),
    (&["selftest", "1", "--jobs=1"], Usage::Words),
    (&["selftest", "1", "2"], Usage::Words),
    (&["generate", "ring", "0"], Usage::KindWord),
    (&["generate", "Grid", "1"], Usage::KindWord),
    (&["generate", "", "1"], Usage::KindWord),
    (&["generate", "grid", "64"], Usage::NumberWord),
    (&["generate", "grid", "0"], Usage::NumberWord),
    (&["generate", "grid", "3x"], Usage::NumberWord),
    (&["generate", "grid", "+1"], Usage::NumberWord),
    (&["generate", "grid", ""], Usage::NumberWord),
    (&["generate", "doubling", "256"], Usage::NumberWord),
    (&["generate", "lock", "10"], Usage::NumberWord),
    (&["generate", "lock", "0000000001"], Usage::NumberWord),
    (&["selftest", "41"], Usage::NumberWord),
    (&["selftest", "0"], Usage::NumberWord),
    (&["selftest", "1x"], Usage::NumberWord),
];

// Words of `factor`, and why they are refused.
const FACTORS: [(&[&str], Usage); 13] = [
    (&["factor"], Usage::Words),
    (&["factor", "f", "g"], Usage::Words),
    (&["factor", "--class", "none"], Usage::Words),
    (&["factor", "f", "--class"], Usage::Words),
    (
        &["factor", "f", "--class", "none", "--class", "none"],
        Usage::Words,
    ),
    (
        &["factor", "f", "--class", "x", "--from", "y", "--jobs", "0"],
        Usage::ClassWord(ClassFault::UnknownWord(0)),
    ),
    (
        &["factor", "f", "--class="],
        Usage::ClassWord(ClassFault::UnknownWord(0)),
    ),
    (
        &["factor", "f", "--class=safe,safe"],
        Usage::ClassWord(ClassFault::Repeated(1)),
    ),
    (
        &["factor", "f", "--class", "none", "--from", "y", "--jobs=0"],
        Usage::FromWord,
    ),
    (&["factor", "f", "--from", "y", "--jobs=0"], Usage::FromWord),
    (&["factor", "f", "--from="], Usage::FromWord),
    (
        &["factor", "f", "--class", "none", "--jobs", "0"],
        Usage::JobsWord,
    ),
    (&["factor", "f", "--jobs", "17"], Usage::JobsWord),
];

// Words of `split`, and why they are refused.
const SPLITS: [(&[&str], Usage); 8] = [
    (&["split"], Usage::Words),
    (&["split", "f", "g"], Usage::Words),
    (&["split", "f", "--system", "--system"], Usage::Words),
    (&["split", "f", "--system=true"], Usage::Words),
    (&["split", "f", "--json"], Usage::Words),
    (&["split", "f", "--class=none"], Usage::Words),
    (&["split", "f", "--from=x", "--jobs=0"], Usage::FromWord),
    (&["split", "f", "--system", "--jobs=0"], Usage::JobsWord),
];

// Words of `isomorphic`, and why they are refused.
const COMPARISONS: [(&[&str], Usage); 7] = [
    (&["isomorphic", "f"], Usage::Words),
    (&["isomorphic", "f", "g", "h"], Usage::Words),
    (&["isomorphic", "f", "g", "--jobs", "2"], Usage::Words),
    (&["isomorphic", "f", "g", "--from2"], Usage::Words),
    (&["isomorphic", "f", "g", "--from=x"], Usage::FromWord),
    (&["isomorphic", "f", "g", "--from2", "net"], Usage::FromWord),
    (
        &["isomorphic", "f", "g", "--from", "x", "--from2", "y"],
        Usage::FromWord,
    ),
];

// Words of `examine`, and why they are refused.
const REPORTS: [(&[&str], Usage); 7] = [
    (&["examine"], Usage::Words),
    (&["examine", "f", "g"], Usage::Words),
    (&["examine", "f", "--json", "--json"], Usage::Words),
    (&["examine", "f", "--json=true"], Usage::Words),
    (&["examine", "f", "--jso"], Usage::Words),
    (&["examine", "f", "--from2=apt"], Usage::Words),
    (
        &["examine", "f", "--from", "wordsx", "--json"],
        Usage::FromWord,
    ),
];

// Whether the words are refused for this reason.
fn are_refused(alloc: Global, words: &[&str], wanted: Usage) -> Result<bool, AllocError> {
    let words = owned(alloc, words)?;
    Ok(read_words(alloc, &words).err() == Some(WordsStop::Refused(wanted)))
}

#[test]
fn first_reasons(rt: HostRuntime) -> Result<(), AllocError> {
    let alloc = rt.alloc();
    for (words, wanted) in REFUSED {
        assert!(rt; are_refused(alloc, words, wanted)?);
    }
    Ok(())
}

#[test]
fn first_reasons_of_one_system(rt: HostRuntime) -> Result<(), AllocError> {
    let alloc = rt.alloc();
    for (words, wanted) in FACTORS {
        assert!(rt; are_refused(alloc, words, wanted)?);
    }
    for (words, wanted) in SPLITS {
        assert!(rt; are_refused(alloc, words, wanted)?);
    }
    for (words, wanted) in REPORTS {
        assert!(rt; are_refused(alloc, words, wanted)?);
    }
    Ok(())
}

#[test]
fn first_reasons_of_two_systems(rt: HostRuntime) -> Result<(), AllocError> {
    let alloc = rt.alloc();
    for (words, wanted) in COMPARISONS {
        assert!(rt; are_refused(alloc, words, wanted)?);
    }
    Ok(())
}
