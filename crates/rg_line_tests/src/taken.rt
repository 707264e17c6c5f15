//! Words that are taken, each with its request.
use crate::words::owned;
use rg_commands::{ExamineOutput, Form, Request, SplitOutput, Target, Work, read_words};
use rg_families::Kind;
use rg_theory::{ALL_NETS, Class};
use std::alloc::{AllocError, Global};

const PURE: Class = Class {
    pure: true,
    ..ALL_NETS
};

const PURE_AND_TWO_BOUNDED: Class = Class {
    bound: Some(2),
    ..PURE
};

const NET: Request<&'static str> = Request::OfSystem(Work::Synthesize(ALL_NETS, 1), "f", Form::Apt);

const NET_OF_WORDS: Request<&'static str> = Request::OfSystem(
    Work::Synthesize(ALL_NETS, 1),
    "f",
    Form::Words,
);

const GRID_1: Request<&'static str> = Request::Generate(Kind::Grid, 1);

const GRID_63: Request<&'static str> = Request::Generate(Kind::Grid, 63);

// The words of `synthesize`, and what they ask for.
const NETS: [(&[&str], Request<&'static str>); 17] = [
    (&["synthesize", "none", "f"], NET),
    (&["synthesize", "none", "f", "--jobs", "01"], NET),
    (&["synthesize", "none", "f", "--jobs=000000001"], NET),
    (
        &["synthesize", "none", "f", "--jobs", "16"],
        Request::OfSystem(Work::Synthesize(ALL_NETS, 16), "f", Form::Apt),
    ),
    (
        &["synthesize", "none", "f", "--jobs=9"],
        Request::OfSystem(Work::Synthesize(ALL_NETS, 9), "f", Form::Apt),
    ),
    (&["synthesize", "none", "f", "--from=apt"], NET),
    (&["synthesize", "--from=words", "none", "f"], NET_OF_WORDS),
    (
        &["synthesize", "--from", "words", "none", "f"],
        NET_OF_WORDS,
    ),
    (&["synthesize", "none", "--from=words", "f"], NET_OF_WORDS),
    (
        &["synthesize", "none", "--from", "words", "f"],
        NET_OF_WORDS,
    ),
    (&["synthesize", "none", "f", "--from=words"], NET_OF_WORDS),
    (
        &["synthesize", "none", "f", "--from", "words"],
        NET_OF_WORDS,
    ),
    (
        &["synthesize", "none", "--", "-f"],
        Request::OfSystem(Work::Synthesize(ALL_NETS, 1), "-f", Form::Apt),
    ),
    (
        &["synthesize", "none", "-"],
        Request::OfSystem(Work::Synthesize(ALL_NETS, 1), "-", Form::Apt),
    ),
    (
        &["synthesize", "none", ""],
        Request::OfSystem(Work::Synthesize(ALL_NETS, 1), "", Form::Apt),
    ),
    (
        &["synthesize", "none", "help"],
        Request::OfSystem(Work::Synthesize(ALL_NETS, 1), "help", Form::Apt),
    ),
    (
        &[
            "synthesize",
            "--jobs",
            "2",
            "2-bounded,pure",
            "f",
            "--from=graph",
        ],
        Request::OfSystem(Work::Synthesize(PURE_AND_TWO_BOUNDED, 2), "f", Form::Graph),
    ),
];

// The words of the other commands, and what they ask for.
const OTHERS: [(&[&str], Request<&'static str>); 9] = [
    (
        &["verify", "f", "c"],
        Request::OfSystem(Work::Verify("c"), "f", Form::Apt),
    ),
    (
        &["verify", "--from", "graph", "-", "c"],
        Request::OfSystem(Work::Verify("c"), "-", Form::Graph),
    ),
    (
        &["check", "none", "f", "n"],
        Request::OfSystem(Work::Check(ALL_NETS, "n"), "f", Form::Apt),
    ),
    (
        &["check", "pure", "f", "n", "--from", "graph"],
        Request::OfSystem(Work::Check(PURE, "n"), "f", Form::Graph),
    ),
    (
        &["check", "pure", "--", "--from", "graph"],
        Request::OfSystem(Work::Check(PURE, "graph"), "--from", Form::Apt),
    ),
    (
        &["convert", "graph", "f"],
        Request::OfSystem(Work::Convert(Target::Graph), "f", Form::Apt),
    ),
    (
        &["convert", "apt", "f", "--from", "words"],
        Request::OfSystem(Work::Convert(Target::Apt), "f", Form::Words),
    ),
    (
        &["convert", "apt", "--", "--from=words"],
        Request::OfSystem(Work::Convert(Target::Apt), "--from=words", Form::Apt),
    ),
    (
        &["convert", "apt", "--", "--"],
        Request::OfSystem(Work::Convert(Target::Apt), "--", Form::Apt),
    ),
];

// The words of the commands that name no file, and what they ask for.
const WITHOUT_FILES: [(&[&str], Request<&'static str>); 10] = [
    (&["generate", "grid", "1"], GRID_1),
    (&["generate", "--", "grid", "1"], GRID_1),
    (&["generate", "grid", "063"], GRID_63),
    (&["generate", "grid", "63"], GRID_63),
    (
        &["generate", "doubling", "255"],
        Request::Generate(Kind::Doubling, 255),
    ),
    (&["generate", "lock", "9"], Request::Generate(Kind::Lock, 9)),
    (
        &["generate", "lock", "000000001"],
        Request::Generate(Kind::Lock, 1),
    ),
    (&["selftest", "1"], Request::SelfTest(1)),
    (&["selftest", "04"], Request::SelfTest(4)),
    (&["selftest", "40"], Request::SelfTest(40)),
];

// The words of `factor`, and what they ask for.
const FACTORS: [(&[&str], Request<&'static str>); 4] = [
    (
        &["factor", "f"],
        Request::OfSystem(Work::Factor(None, 1), "f", Form::Apt),
    ),
    (
        &["factor", "f", "--class", "none"],
        Request::OfSystem(Work::Factor(Some(ALL_NETS), 1), "f", Form::Apt),
    ),
    (
        &["factor", "--class=pure", "f", "--from=words", "--jobs", "4"],
        Request::OfSystem(Work::Factor(Some(PURE), 4), "f", Form::Words),
    ),
    (
        &["factor", "--", "--class=none"],
        Request::OfSystem(Work::Factor(None, 1), "--class=none", Form::Apt),
    ),
];

// The words of `split`, and what they ask for.
const SPLITS: [(&[&str], Request<&'static str>); 3] = [
    (
        &["split", "f"],
        Request::OfSystem(Work::Split(SplitOutput::Net, 1), "f", Form::Apt),
    ),
    (
        &["split", "--system", "f", "--from", "graph", "--jobs=2"],
        Request::OfSystem(Work::Split(SplitOutput::System, 2), "f", Form::Graph),
    ),
    (
        &["split", "--", "--system"],
        Request::OfSystem(Work::Split(SplitOutput::Net, 1), "--system", Form::Apt),
    ),
];

// The words of `isomorphic`, and what they ask for.
const COMPARISONS: [(&[&str], Request<&'static str>); 4] = [
    (
        &["isomorphic", "f", "g"],
        Request::OfSystem(Work::Isomorphic("g", Form::Apt), "f", Form::Apt),
    ),
    (
        &["isomorphic", "f", "g", "--from2", "words"],
        Request::OfSystem(Work::Isomorphic("g", Form::Words), "f", Form::Apt),
    ),
    (
        &["isomorphic", "--from", "graph", "f", "g"],
        Request::OfSystem(Work::Isomorphic("g", Form::Apt), "f", Form::Graph),
    ),
    (
        &["isomorphic", "f", "--from2=graph", "f", "--from=words"],
        Request::OfSystem(Work::Isomorphic("f", Form::Graph), "f", Form::Words),
    ),
];

// The words of `examine`, and what they ask for.
const REPORTS: [(&[&str], Request<&'static str>); 3] = [
    (
        &["examine", "f"],
        Request::OfSystem(Work::Examine(ExamineOutput::Lines), "f", Form::Apt),
    ),
    (
        &["examine", "--json", "f", "--from", "words"],
        Request::OfSystem(Work::Examine(ExamineOutput::Json), "f", Form::Words),
    ),
    (
        &["examine", "--", "--json"],
        Request::OfSystem(Work::Examine(ExamineOutput::Lines), "--json", Form::Apt),
    ),
];

// Whether the words ask for this.
fn ask_for(alloc: Global, words: &[&str], wanted: Request<&str>) -> Result<bool, AllocError> {
    let words = owned(alloc, words)?;
    Ok(read_words(alloc, &words) == Ok(wanted))
}

#[test]
fn nets(rt: HostRuntime) -> Result<(), AllocError> {
    let alloc = rt.alloc();
    for (words, wanted) in NETS {
        assert!(rt; ask_for(alloc, words, wanted)?);
    }
    Ok(())
}

#[test]
fn others(rt: HostRuntime) -> Result<(), AllocError> {
    let alloc = rt.alloc();
    for (words, wanted) in OTHERS {
        assert!(rt; ask_for(alloc, words, wanted)?);
    }
    Ok(())
}

#[test]
fn without_files(rt: HostRuntime) -> Result<(), AllocError> {
    let alloc = rt.alloc();
    for (words, wanted) in WITHOUT_FILES {
        assert!(rt; ask_for(alloc, words, wanted)?);
    }
    Ok(())
}

#[test]
fn factors_and_splits(rt: HostRuntime) -> Result<(), AllocError> {
    let alloc = rt.alloc();
    for (words, wanted) in FACTORS {
        assert!(rt; ask_for(alloc, words, wanted)?);
    }
    for (words, wanted) in SPLITS {
        assert!(rt; ask_for(alloc, words, wanted)?);
    }
    Ok(())
}

#[test]
fn comparisons_and_reports(rt: HostRuntime) -> Result<(), AllocError> {
    let alloc = rt.alloc();
    for (words, wanted) in COMPARISONS {
        assert!(rt; ask_for(alloc, words, wanted)?);
    }
    for (words, wanted) in REPORTS {
        assert!(rt; ask_for(alloc, words, wanted)?);
    }
    Ok(())
}
