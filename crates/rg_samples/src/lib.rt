//! Systems, nets, classes and a gate that tests share.
#![tactic(auto)]

mod classes;
mod counter;
mod reading;
mod systems;

pub use classes::{NONBRANCHING, PLAIN, PURE, PURE_AND_SAFE, SAFE, TWO_BOUNDED, TWO_MARKING};
pub use counter::Counter;
pub use reading::{net, system, system_of};
pub use systems::{
    ABA, CHOICE, CHOICE_NET, CYCLE, DEAD, IN_TURN, LOOP, LOOP_AND_STEP, STEP, THERE_AND_BACK,
};
