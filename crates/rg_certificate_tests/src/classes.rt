//! Classes as words.
use rg_samples::SAFE;
use rg_theory::{ALL_NETS, Class, ClassFault};

const ALL: Class = Class {
    pure: true,
    plain: true,
    bound: Some(255),
    marking: None,
    nonbranching: true,
};

// Words, and the classes that they name.
const NAMED: [(&str, Class); 4] = [
    ("none", ALL_NETS),
    ("255-bounded,pure,output-nonbranching,plain", ALL),
    ("safe", SAFE),
    ("1-bounded", SAFE),
];

// Words, and the first of them that is refused.
const REFUSED: [(&str, ClassFault); 7] = [
    ("safe,1-bounded", ClassFault::Repeated(1)),
    ("pure,none", ClassFault::UnknownWord(1)),
    ("none,none", ClassFault::UnknownWord(0)),
    ("", ClassFault::UnknownWord(0)),
    ("-bounded", ClassFault::UnknownWord(0)),
    ("plain,256-bounded", ClassFault::BadNumber(1)),
    ("01-bounded", ClassFault::BadNumber(0)),
];

#[test]
fn classes_of_words(rt: HostRuntime) {
    for (text, class) in NAMED {
        assert!(rt; Class::read(text) == Ok(class), "{text}");
    }
}

#[test]
fn the_first_word_that_is_refused(rt: HostRuntime) {
    for (text, fault) in REFUSED {
        assert!(rt; Class::read(text) == Err(fault), "{text}");
    }
}
