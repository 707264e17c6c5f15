//! The items of a net file.
use rg_net_grammar::{ItemFault, one_answer, read_items, tokens_go_on};
use std::test::Fail;

#[test]
fn items_of_a_text(rt: HostRuntime) -> Result<(), Fail> {
    let alloc = rt.alloc();
    let found = read_items(
        alloc,
        b".name \"x\" .flows a: {2*p, q} -> {} .type LPN .places p q[x=1] .transitions a[label=\"go\"] b .initial_marking {3*p} .initial_marking {}",
    )?;
    assert!(rt; found.typed && found.places.len() == 2 && found.transitions.len() == 2);
    assert!(rt; found.flows.len() == 1 && found.marking.len() == 1);
    assert!(rt; read_items(alloc, b".type LTS").err() == Some(ItemFault::WrongType(6)));
    one_answer();
    tokens_go_on();
    Ok(())
}
