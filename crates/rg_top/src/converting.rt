//! The answer to a request for a system in another form.
ghost use Rattle.std.specs.Prelude.{IfOk};
ghost use Rattle.rg_commands.specs.declared.forms.Target.TheVariants as target;
ghost use Rattle.rg_top.specs.Convert.{ConvertEnds};
ghost use Rattle.rg_top.specs.Requests.{end_of};

use crate::answer::Answer;
use rg_apt::print_lts;
use rg_commands::Target;
use rg_genet::{GraphLoss, print_graph};
use rg_lts::Lts;
use rg_memory::NoMemory;
use rg_messages::{label_loss_text, loss_has_name, state_loss_text};
use std::alloc::Global;

// The system in the form, or what the form can't hold of it.
pub(crate) fn conversion_answer(
    alloc: Global,
    lts: &Lts,
    target: Target,
) -> Result<Answer, NoMemory>
    ensures { IfOk result (λ a. ConvertEnds lts.now target (end_of a)) }
{
    match target {
        Target::Apt => Ok(Answer::Yes(print_lts(alloc, lts)?)),
        Target::Graph => graph_answer(alloc, lts),
    }
}

// The system as a state graph, or what is lost.
fn graph_answer(alloc: Global, lts: &Lts) -> Result<Answer, NoMemory>
    ensures { IfOk result (λ a. ConvertEnds lts.now target.Graph (end_of a)) }
{
    loss_has_name();
    match print_graph(alloc, lts) {
        Ok(text) => Ok(Answer::Yes(text)),
        Err(GraphLoss::Label(t)) => Ok(Answer::No(label_loss_text(alloc, lts, t)?)),
        Err(GraphLoss::State(s)) => Ok(Answer::No(state_loss_text(alloc, lts, s)?)),
        Err(GraphLoss::NoMemory) => Err(NoMemory),
    }
}
