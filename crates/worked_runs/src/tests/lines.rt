//! Lines of files of cases that are none.
use crate::case::Case;
use crate::reading::Reader;
use crate::stop::Stop;
use std::alloc::Global;

// Texts, each with the number of the line at which the reader stops, and what it says there.
const REFUSED: [(&str, u64, &str); 31] = [
    ("words\n", 1, "expected a case or a text"),
    ("| x\n", 1, "expected a case or a text"),
    ("\n# x\nx\n", 3, "expected a case or a text"),
    ("case\nuot\n", 2, "expected a line of a case"),
    (
        "case\nwords\n\ncase\n",
        4,
        "expected a status in the case before",
    ),
    ("case\nwords\n", 3, "expected a status in the case before"),
    (
        "case\nstatus 0\ntext x\n",
        3,
        "expected words in the case before",
    ),
    ("case\nstatus two\n", 2, "expected the number of a status"),
    ("case\nstatus 256\n", 2, "expected the number of a status"),
    ("case\nstatus\n", 2, "expected the number of a status"),
    ("case\nstatus 0\nstatus 0\n", 3, "expected one status"),
    ("text x\ntext x\n", 2, "expected a name that no text has"),
    ("text x\nuse x\n", 2, "expected the name of a text"),
    ("case\nout\nuse x\n", 3, "expected the name of a text"),
    ("text x\nrepeat 2 y\n", 2, "expected the name of a text"),
    (
        "case\nfile a\nfile b\nfile c\n",
        4,
        "expected two files at most",
    ),
    ("case\nword x\n", 2, "expected words before"),
    ("text x\nx 0g\n", 2, "expected bytes in base 16"),
    ("text x\nx 100\n", 2, "expected bytes in base 16"),
    ("text x\ntimes 3\n", 2, "expected a number and more"),
    ("text x\ntimes x y\n", 2, "expected a number"),
    ("text x\ncount 1 x y\n", 2, "expected a number"),
    ("text x\nlist 1 2\n", 2, "expected a number and more"),
    ("text x\ncut x\n", 2, "expected a number"),
    (
        "text x\ngenerate ring 4\n",
        2,
        "expected a kind and a number",
    ),
    (
        "text x\ngenerate grid 64\n",
        2,
        "expected a number of the kind",
    ),
    ("case\nread x\n", 2, "expected a number"),
    ("case\neach time\n", 2, "expected read or write"),
    ("case\neach read x\n", 2, "expected the number of a call"),
    ("case\nfail disk 3\n", 2, "expected shelf, out or err"),
    ("case\nfail out x\n", 2, "expected the number of a call"),
];

// Reads the lines of a text, and counts them as it goes; the last case of it, if it has one.
fn last_case(alloc: Global, text: &str, line: &mut u64) -> Result<Option<Case>, Stop> {
    let mut reader = Reader::new(alloc);
    for content in text.split('\n') {
        *line = line.saturating_add(1);
        if reader.ends_case(content) {
            reader.take_case()?;
        }
        reader.read(alloc, content)?;
    }
    reader.take_case()
}

/// Returns the case that the text has.
pub fn case_of(alloc: Global, text: &str) -> Result<Case, Stop> {
    match last_case(alloc, text, &mut 0)? {
        Some(case) => Ok(case),
        None => Err(Stop::Expected("expected a case")),
    }
}

#[test]
fn a_line_that_is_none_is_told(rt: HostRuntime) -> Result<(), Stop> {
    for (text, wanted_line, wanted) in REFUSED {
        let mut line = 0u64;
        match last_case(rt.alloc(), text, &mut line) {
            Ok(_) => assert!(rt; false, "{text}"),
            Err(stop) => assert!(rt; stop.text() == wanted, "{text}"),
        }
        assert!(rt; line == wanted_line, "{text}");
    }
    Ok(())
}
