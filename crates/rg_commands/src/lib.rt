//! The words of the program's commands, read by `clap`.
#![tactic(auto)]

mod checking;
mod command;
mod comparing;
mod converting;
mod examining;
mod factoring;
mod forms;
mod generating;
mod laws;
mod matches;
mod reading;
mod request;
mod splitting;
mod synthesizing;
mod table;
mod testing;
mod usage;
mod values;
mod verifying;

pub use examining::ExamineOutput;
pub use forms::{Form, Target};
pub use laws::words_say_one_thing;
pub use reading::read_words;
pub use request::{Request, Work};
pub use splitting::SplitOutput;
pub use testing::MOST_SELF_TEST;
pub use usage::{Usage, WordsStop};
