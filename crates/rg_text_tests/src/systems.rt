//! Systems that are built in memory.
use rg_lts::{BuildFault, LtsBuilder};
use std::alloc::Global;
use std::process::Abort;

// Arcs that are added in turn.
const ARCS: [(&str, &str, &str, Result<(), BuildFault>); 5] = [
    ("s2", "c", "s2", Err(BuildFault::UnknownState)),
    ("s0", "c", "s2", Err(BuildFault::UnknownLabel)),
    ("s0", "a", "s2", Err(BuildFault::UnknownState)),
    ("s1", "b", "s0", Ok(())),
    ("s1", "b", "s0", Ok(())),
];

// States that are named initial in turn.
const MARKS: [(&str, Result<(), BuildFault>); 4] = [
    ("s2", Err(BuildFault::UnknownState)),
    ("s1", Ok(())),
    ("s0", Err(BuildFault::TwoInitial)),
    ("s1", Ok(())),
];

// Two states and two labels.
fn builder_with_names(alloc: Global) -> Result<LtsBuilder, BuildFault> {
    let mut builder = LtsBuilder::new(alloc);
    builder.state("s0")?;
    builder.state("s1")?;
    builder.label("a")?;
    builder.label("b")?;
    Ok(builder)
}

// Each arc is added, or refused, as its row says.
fn adds_arcs(rt: &impl Abort, builder: &mut LtsBuilder) {
    for (from, label, to, wanted) in ARCS {
        assert!(rt;
            builder.arc(from, label, to) == wanted,
            "{from} {label} {to}"
        );
    }
}

// Each state is named initial, or refused, as its row says.
fn marks_states(rt: &impl Abort, builder: &mut LtsBuilder) {
    for (name, wanted) in MARKS {
        assert!(rt; builder.initial(name) == wanted, "{name}");
    }
}

// Whether the system that is built has the initial state that the rows name, and their one arc.
fn is_built(builder: LtsBuilder) -> bool {
    match builder.finish() {
        Ok(lts) => lts.initial() == 1 && lts.arcs().len() == 1,
        Err(_) => false,
    }
}

#[test]
fn builds_a_system(rt: HostRuntime) {
    let Ok(mut builder) = builder_with_names(rt.alloc()) else {
        panic!(rt; "the names weren't taken");
    };
    assert!(rt; builder.state_number("s1") == Some(1) && builder.label_number("c") == None);
    adds_arcs(&rt, &mut builder);
    marks_states(&rt, &mut builder);
    assert!(rt; is_built(builder));
}

// Whether the builder refuses names that are there, and takes another one.
fn takes_new_names(builder: &mut LtsBuilder) -> bool {
    builder.state("s0") == Err(BuildFault::TwiceState)
        && builder.label("a") == Err(BuildFault::TwiceLabel)
        && builder.state("s2") == Ok(2)
}

#[test]
fn refuses_names(rt: HostRuntime) {
    let Ok(mut builder) = builder_with_names(rt.alloc()) else {
        panic!(rt; "the names weren't taken");
    };
    assert!(rt; takes_new_names(&mut builder));
    assert!(rt; builder.finish().err() == Some(BuildFault::NoInitial));
}
