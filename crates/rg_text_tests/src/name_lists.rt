//! Lists of names, also where names have one digest, and where all have one slot.
use rg_lts::NameList;
use std::alloc::{AllocError, Global};
use std::process::Abort;

// Names of states, and four that have one digest.
const NAMES: [&str; 7] = ["s0", "s1", "s10", "azaz", "azbU", "bUaz", "bUbU"];

// Names that aren't there.
const OTHERS: [&str; 4] = ["", "s2", "bUb", "c0az"];

// How many names are expected.
const EXPECTED: [usize; 4] = [0, 1, 4, 4_096];

// The list of the names.
fn names_in(alloc: Global, expected: usize) -> Result<NameList, AllocError> {
    let mut list = NameList::new(alloc, expected);
    for name in NAMES {
        list.add(alloc, name)?;
    }
    Ok(list)
}

// Whether the list has this name at this index, and finds it there.
fn has_name(list: &NameList, index: usize, name: &str) -> bool {
    index < list.len() && list.name(index) == name && list.number_of(name) == Some(index)
}

// The list has each name at its index, and no other.
fn has_names(rt: &impl Abort, list: &NameList) {
    for index in 0..NAMES.len() {
        assert!(rt; has_name(list, index, NAMES[index]), "{index}");
    }
    for name in OTHERS {
        assert!(rt; list.number_of(name) == None, "{name}");
    }
}

#[test]
fn finds_names(rt: HostRuntime) {
    for expected in EXPECTED {
        let Ok(list) = names_in(rt.alloc(), expected) else {
            panic!(rt; "the names weren't taken");
        };
        assert!(rt; list.len() == NAMES.len(), "{expected}");
        has_names(&rt, &list);
    }
}
