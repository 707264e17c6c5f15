//! The faults of texts, each as words and as a place, if it has one.
ghost use Rattle.std.specs.Prelude.{◌≡◌};
ghost use Rattle.rg_messages.specs.Files.{wanted_words, text_fault_words, text_fault_place, graph_fault_words, graph_fault_line, word_fault_words, word_fault_line, net_fault_words, net_fault_place};

use rg_apt::TextFault;
use rg_genet::GraphFault;
use rg_lexer::Want;
use rg_netfile::NetFault;
use rg_words::WordFault;

// What the grammar wants.
fn want_text(want: Want) -> &'static [u8]
    ensures { result.now ≡ wanted_words want }
{
    match want {
        Want::Section => b"expected Section",
        Want::Name => b"expected Name",
        Want::Text => b"expected Text",
        Want::Key => b"expected Key",
        Want::CloseList => b"expected CloseList",
        Want::Value => b"expected Value",
        Want::Colon => b"expected Colon",
        Want::Set => b"expected Set",
        Want::Arrow => b"expected Arrow",
        Want::Member => b"expected Member",
        Want::CloseSet => b"expected CloseSet",
        Want::Number => b"expected Number",
    }
}

// The fault of a text in the format of APT, without its place.
pub(crate) fn text_words(fault: TextFault) -> &'static [u8]
    ensures { result.now ≡ text_fault_words fault }
{
    match fault {
        TextFault::BadByte(_) => b"bad byte",
        TextFault::OpenString(_) => b"open string",
        TextFault::OpenComment(_) => b"open comment",
        TextFault::LongName(_) => b"long name",
        TextFault::Expected(_, want) => want_text(want),
        TextFault::NoType => b"no type",
        TextFault::WrongType(_) => b"wrong type",
        TextFault::TwiceState(_) => b"state twice",
        TextFault::TwiceLabel(_) => b"label twice",
        TextFault::UnknownState(_) => b"unknown state",
        TextFault::UnknownLabel(_) => b"unknown label",
        TextFault::TwoInitial(_) => b"two initial states",
        TextFault::NoInitial => b"no initial state",
        TextFault::TooManyStates(_) => b"too many states",
        TextFault::TooManyLabels(_) => b"too many labels",
        TextFault::TooManyArcs(_) => b"too many arcs",
        TextFault::NoMemory => b"no memory",
    }
}

// The place of the fault of a text in the format of APT.
pub(crate) fn text_place(fault: TextFault) -> Option<u32>
    ensures { result ≡ text_fault_place fault }
{
    match fault {
        TextFault::NoType | TextFault::NoInitial | TextFault::NoMemory => None,
        TextFault::BadByte(at)
        | TextFault::OpenString(at)
        | TextFault::OpenComment(at)
        | TextFault::LongName(at)
        | TextFault::Expected(at, _)
        | TextFault::WrongType(at)
        | TextFault::TwiceState(at)
        | TextFault::TwiceLabel(at)
        | TextFault::UnknownState(at)
        | TextFault::UnknownLabel(at)
        | TextFault::TwoInitial(at)
        | TextFault::TooManyStates(at)
        | TextFault::TooManyLabels(at)
        | TextFault::TooManyArcs(at) => Some(at),
    }
}

// The fault of a state graph, without its line.
pub(crate) fn graph_words(fault: GraphFault) -> &'static [u8]
    ensures { result.now ≡ graph_fault_words fault }
{
    match fault {
        GraphFault::Expected(_) => b"expected form",
        GraphFault::NoMarking => b"no marking",
        GraphFault::UnknownState(_) => b"unknown state",
        GraphFault::NoEnd => b"no end",
        GraphFault::TooManyStates(_) => b"too many states",
        GraphFault::TooManyLabels(_) => b"too many labels",
        GraphFault::TooManyArcs(_) => b"too many arcs",
        GraphFault::LongName(_) => b"long name",
        GraphFault::NoMemory => b"no memory",
    }
}

// The line of the fault of a state graph.
pub(crate) fn graph_line(fault: GraphFault) -> Option<u32>
    ensures { result ≡ graph_fault_line fault }
{
    match fault {
        GraphFault::NoMarking | GraphFault::NoEnd | GraphFault::NoMemory => None,
        GraphFault::Expected(line)
        | GraphFault::UnknownState(line)
        | GraphFault::TooManyStates(line)
        | GraphFault::TooManyLabels(line)
        | GraphFault::TooManyArcs(line)
        | GraphFault::LongName(line) => Some(line),
    }
}

// The fault of a word list, without its line.
pub(crate) fn word_words(fault: WordFault) -> &'static [u8]
    ensures { result.now ≡ word_fault_words fault }
{
    match fault {
        WordFault::BadByte(_) => b"bad byte",
        WordFault::TooManyStates(_) => b"too many states",
        WordFault::TooManyLabels(_) => b"too many labels",
        WordFault::LongName(_) => b"long name",
        WordFault::NoMemory => b"no memory",
    }
}

// The line of the fault of a word list.
pub(crate) fn word_line(fault: WordFault) -> Option<u32>
    ensures { result ≡ word_fault_line fault }
{
    match fault {
        WordFault::NoMemory => None,
        WordFault::BadByte(line)
        | WordFault::TooManyStates(line)
        | WordFault::TooManyLabels(line)
        | WordFault::LongName(line) => Some(line),
    }
}

// The fault of a net, without its place.
pub(crate) fn net_words(fault: NetFault) -> &'static [u8]
    ensures { result.now ≡ net_fault_words fault }
{
    match fault {
        NetFault::BadByte(_) => b"bad byte",
        NetFault::OpenString(_) => b"open string",
        NetFault::OpenComment(_) => b"open comment",
        NetFault::LongName(_) => b"long name",
        NetFault::Expected(_, want) => want_text(want),
        NetFault::NoType => b"no type",
        NetFault::WrongType(_) => b"wrong type",
        NetFault::TwicePlace(_) => b"place twice",
        NetFault::TooManyPlaces(_) => b"too many places",
        NetFault::TwiceTransition(_) => b"transition twice",
        NetFault::TransitionsDiffer => b"transitions differ",
        NetFault::UnknownTransition(_) => b"unknown transition",
        NetFault::UnknownPlace(_) => b"unknown place",
        NetFault::NumberPasses(_) => b"number passes",
        NetFault::NoMemory => b"no memory",
    }
}

// The place of the fault of a net.
pub(crate) fn net_place(fault: NetFault) -> Option<u32>
    ensures { result ≡ net_fault_place fault }
{
    match fault {
        NetFault::NoType | NetFault::TransitionsDiffer | NetFault::NoMemory => None,
        NetFault::BadByte(at)
        | NetFault::OpenString(at)
        | NetFault::OpenComment(at)
        | NetFault::LongName(at)
        | NetFault::Expected(at, _)
        | NetFault::WrongType(at)
        | NetFault::TwicePlace(at)
        | NetFault::TooManyPlaces(at)
        | NetFault::TwiceTransition(at)
        | NetFault::UnknownTransition(at)
        | NetFault::UnknownPlace(at)
        | NetFault::NumberPasses(at) => Some(at),
    }
}
