//! The system that a state graph spells.
ghost use Rattle.std.specs.Prelude.{◌≡◌, ◌≢◌, ◌+◌, ◌≤◌, ◌++◌, ◌∷◌, [], ◌||◌, map, Contains, List, None, Some, false, true, length, IfOk, IfErr, OnOk};
ghost use Rattle.rg_text.specs.Byte.{IsName};
ghost use Rattle.rg_text.specs.Limits.{most_bytes};
ghost use Rattle.std.specs.List.{after_first, before_first};
ghost use Rattle.rg_text.specs.Faults.{AreNone, IsFirst};
ghost use Rattle.rg_line_formats.specs.Numbered.{Line};
ghost use Rattle.rg_genet.specs.Form.{is_named};
ghost use Rattle.rg_genet.specs.Contents.{Triple, triple, opens, heading_fault, closes, arc_fault, is_long, line_fault, marking_fault};
ghost use Rattle.rg_genet.specs.Reading.{HasTriples, AreFew, AreTooMany, IsLimitFault, IsMarkNamed, Shows, IsFinished, IsUnfinished, IsHeadFault, IsMarked, lines_from, marking_in, rest_faults};
ghost use Rattle.rg_genet.specs.Spells.{Spells, FirstFault};
ghost use Rattle.rg_lts.specs.declared.fault.BuildFault.TheVariants as build;
ghost use Rattle.rg_genet.specs.declared.fault.GraphFault.TheVariants as fault;
ghost use Rattle.rg_genet.specs.declared.fault.GraphFault.TheVariants.{NoMemory};

use crate::fault::GraphFault;
use crate::line::{Form, form_of, opens, passes, space_braces};
use rg_line_formats::{add_label, add_state, as_name, cut_line, words};
use rg_lts::{Arc, BuildFault, Lts, LtsBuilder};
use rg_text::MOST_NAME_BYTES;
use std::alloc::Global;

// What is left of a text, and the number of its first line.
#[derive(Clone, Copy)]
struct Rest<'a> {
    text: &'a [u8],
    number: u32,
}

// What the lines after `.state graph` declare.
#[derive(Drop)]
struct Graph {
    builder: LtsBuilder,
    has_arcs: bool,
    marking: Option<Marking>,
}

// The marked state, and the line that marks it.
#[derive(Drop)]
struct Marking {
    line: u32,
    name: String,
}

/// Returns the system that a state graph of at most 16,777,216 bytes spells, or the text's first fault. By
/// `one_answer` no other answer meets these clauses.
pub fn read_graph(alloc: Global, bytes: &[u8]) -> Result<Lts, GraphFault>
    requires { length bytes.now ≤ most_bytes }
    ensures ok { IfOk result (λ lts. Spells bytes.now lts) }
    ensures fault { IfErr result (λ e. e ≢ NoMemory → FirstFault bytes.now e) }
{
    let body = after_heading(alloc, bytes)?;
    let mut graph = Graph {
        builder: LtsBuilder::new(alloc),
        has_arcs: false,
        marking: None,
    };
    read_body(alloc, &mut graph, body)?;
    finish(graph)
}

// What follows the line `.state graph`.
fn after_heading(alloc: Global, bytes: &[u8]) -> Result<Rest<'_>, GraphFault>
    requires { length bytes.now ≤ most_bytes }
    ensures within { IfOk result (λ r. r.number + length r.text.now ≤ 1 + length bytes.entry.now) }
    ensures none { OnOk result (AreNone (map heading_fault (before_first opens (lines_from 1 bytes.entry.now)))) }
    ensures after { IfOk result (λ r. after_first opens (lines_from 1 bytes.entry.now) ≡ lines_from r.number r.text.now) }
    ensures fault { IfErr result (λ f. f ≢ NoMemory → IsHeadFault (lines_from 1 bytes.entry.now) f) }
{
    let mut left = Rest {
        text: bytes,
        number: 1,
    };
    loop {
        let (line, rest) = cut_line(left.text);
        let opened = is_opening(alloc, line, left.number)?;
        let Some(text) = rest else {
            return Err(GraphFault::NoEnd);
        };
        left = Rest {
            text,
            number: left.number + 1,
        };
        if opened {
            return Ok(left);
        }
    }
}

// Whether a line of the heading ends it.
fn is_opening(alloc: Global, line: &[u8], number: u32) -> Result<bool, GraphFault>
    ensures opens { IfOk result (λ o. o ≡ opens (number, line.now)) }
    ensures right { IfOk result (λ o. o ≡ false → heading_fault (number, line.now) ≡ None) }
    ensures fault { IfErr result (λ f. f ≢ NoMemory → (heading_fault (number, line.now) ≡ Some f) × (opens (number, line.now) ≡ false)) }
{
    let text = space_braces(alloc, line)?;
    let words = words(alloc, &text)?;
    if opens(&words) {
        Ok(true)
    } else if passes(&words) {
        Ok(false)
    } else {
        Err(GraphFault::Expected(number))
    }
}

// Reads the lines up to `.end`.
fn read_body(alloc: Global, graph: &mut Graph, body: Rest<'_>) -> Result<(), GraphFault>
    requires within { body.number + length body.text.now ≤ most_bytes + 1 }
    requires named { IsMarkNamed graph.old.marking }
    requires blank { Shows [] graph.old.builder graph.old.has_arcs graph.old.marking }
    ensures named { OnOk result (IsMarkNamed graph.new.marking) }
    ensures none { OnOk result (AreNone (rest_faults [] (lines_from body.entry.number body.entry.text.now))) }
    ensures shows { OnOk result (Shows (before_first closes (lines_from body.entry.number body.entry.text.now)) graph.new.builder graph.new.has_arcs graph.new.marking) }
    ensures fault { IfErr result (λ f. f ≢ NoMemory → IsFirst (rest_faults [] (lines_from body.entry.number body.entry.text.now)) f) }
{
    let mut left = body;
    loop {
        let (line, rest) = cut_line(left.text);
        if take_line(alloc, graph, line, left.number)? {
            return Ok(());
        }
        let Some(text) = rest else {
            return Err(GraphFault::NoEnd);
        };
        left = Rest {
            text,
            number: left.number + 1,
        };
    }
}

// Takes a line, and returns whether it is `.end`.
fn take_line(alloc: Global, graph: &mut Graph, line: &[u8], number: u32) -> Result<bool, GraphFault>
    requires { IsMarkNamed graph.old.marking }
    ensures named { OnOk result (IsMarkNamed graph.new.marking) }
    ensures ends { IfOk result (λ end. end ≡ closes (number, line.now)) }
    ensures ok { OnOk result ((before : List Line) → Shows before graph.old.builder graph.old.has_arcs graph.old.marking
        → Shows (before ++ (number, line.now) ∷ []) graph.new.builder graph.new.has_arcs graph.new.marking × (line_fault before (number, line.now) ≡ None)) }
    ensures fault { IfErr result (λ f. f ≢ NoMemory → (before : List Line) → Shows before graph.old.builder graph.old.has_arcs graph.old.marking
        → (line_fault before (number, line.now) ≡ Some f) × (closes (number, line.now) ≡ false)) }
{
    let text = space_braces(alloc, line)?;
    let words = words(alloc, &text)?;
    match form_of(&words) {
        Form::Blank => Ok(false),
        Form::ArcLine(from, label, to) => {
            add_triple(&mut graph.builder, from, label, to, number)?;
            graph.has_arcs = true;
            Ok(false)
        }
        Form::MarkingLine(name) => {
            mark(alloc, graph, name, number)?;
            Ok(false)
        }
        Form::Closing => Ok(true),
        Form::Other => Err(GraphFault::Expected(number)),
    }
}

// Adds an arc, and its names where they are new.
fn add_triple(
    builder: &mut LtsBuilder,
    from: &[u8],
    label: &[u8],
    to: &[u8],
    number: u32,
) -> Result<(), GraphFault>
    requires from { is_named from.now ≡ true }
    requires label { is_named label.now ≡ true }
    requires to { is_named to.now ≡ true }
    ensures ok { OnOk result ((before : List Triple) → HasTriples before builder.old
        → HasTriples (before ++ triple from.now label.now to.now ∷ []) builder.new
        × (arc_fault number (triple from.now label.now to.now) (before ++ triple from.now label.now to.now ∷ []) ≡ None)) }
    ensures fault { IfErr result (λ f. f ≢ NoMemory → (before : List Triple) → HasTriples before builder.old
        → arc_fault number (triple from.now label.now to.now) (before ++ triple from.now label.now to.now ∷ []) ≡ Some f) }
{
    if any_long(from, label, to) {
        return Err(GraphFault::LongName(number));
    }
    let from = as_name(from);
    let label = as_name(label);
    let to = as_name(to);
    match add_named(builder, from, label, to) {
        Ok(()) => Ok(()),
        Err(BuildFault::TooManyStates) => Err(GraphFault::TooManyStates(number)),
        Err(BuildFault::TooManyLabels) => Err(GraphFault::TooManyLabels(number)),
        Err(BuildFault::TooManyArcs) => Err(GraphFault::TooManyArcs(number)),
        Err(BuildFault::NoMemory) => Err(GraphFault::NoMemory),
        Err(_) => unreachable!(),
    }
}

// Whether one of the names has more than 255 bytes.
fn any_long(from: &[u8], label: &[u8], to: &[u8]) -> bool
    ensures { result ≡ (is_long from.now || (is_long label.now || is_long to.now)) }
{
    is_long(from) || (is_long(label) || is_long(to))
}

// Whether the name has more than 255 bytes.
fn is_long(name: &[u8]) -> bool
    ensures { result ≡ is_long name.now }
{
    name.len() > MOST_NAME_BYTES
}

// The same, with the builder's faults.
fn add_named(builder: &mut LtsBuilder, from: &str, label: &str, to: &str) -> Result<(), BuildFault>
    requires from { IsName from.now }
    requires label { IsName label.now }
    requires to { IsName to.now }
    ensures ok { OnOk result ((before : List Triple) → HasTriples before builder.old
        → HasTriples (before ++ triple from.now label.now to.now ∷ []) builder.new × AreFew (before ++ triple from.now label.now to.now ∷ [])) }
    ensures fault { IfErr result (λ e. e ≢ build.NoMemory → (before : List Triple) → HasTriples before builder.old
        → AreTooMany (before ++ triple from.now label.now to.now ∷ []) e) }
    ensures cause { IfErr result IsLimitFault }
{
    let from = add_state(builder, from)?;
    let to = add_state(builder, to)?;
    let label = add_label(builder, label)?;
    builder.arc_between(Arc { from, label, to })?;
    Ok(())
}

// Takes the marking.
fn mark(alloc: Global, graph: &mut Graph, name: &[u8], number: u32) -> Result<(), GraphFault>
    requires { is_named name.now ≡ true }
    ensures named { OnOk result (IsMarkNamed graph.new.marking) }
    ensures ok { OnOk result ((graph.old.marking ≡ None) × (is_long name.now ≡ false) × (marking_in graph.new.marking ≡ (number, name.now) ∷ [])) }
    ensures rest { OnOk result ((graph.new.builder ≡ graph.old.builder) × (graph.new.has_arcs ≡ graph.old.has_arcs)) }
    ensures fault { IfErr result (λ f. f ≢ NoMemory → marking_fault number name.now (marking_in graph.old.marking) ≡ Some f) }
{
    if graph.marking.is_some() {
        return Err(GraphFault::Expected(number));
    }
    if is_long(name) {
        return Err(GraphFault::LongName(number));
    }
    graph.marking = Some(Marking {
        line: number,
        name: String::from_str(alloc, as_name(name))?,
    });
    Ok(())
}

// Makes the state of this name the initial one, and adds it where there is no arc.
fn mark_state(
    builder: &mut LtsBuilder,
    name: &str,
    line: u32,
    has_arcs: bool,
) -> Result<(), GraphFault>
    requires name { IsName name.now }
    requires unmarked { builder.old.initial ≡ None }
    requires alone { has_arcs ≡ false → builder.old.state_names ≡ [] }
    ensures ok { OnOk result (IsMarked builder.old builder.new name.now) }
    ensures fault { IfErr result (λ f. f ≢ NoMemory → (f ≡ fault.UnknownState line) × (has_arcs ≡ true) × ¬ Contains builder.old.state_names name.now) }
{
    if !has_arcs {
        add_alone(builder, name)?;
    }
    match builder.initial(name) {
        Ok(()) => Ok(()),
        Err(BuildFault::UnknownState) => Err(GraphFault::UnknownState(line)),
        Err(_) => unreachable!(),
    }
}

// Adds the one state of a graph without arcs.
fn add_alone(builder: &mut LtsBuilder, name: &str) -> Result<(), GraphFault>
    requires name { IsName name.now }
    requires alone { builder.old.state_names ≡ [] }
    ensures ok { OnOk result (builder.new ≡ record builder.old { state_names = name.now ∷ [] }) }
    ensures cause { IfErr result (λ f. f ≡ fault.NoMemory) }
{
    match builder.state(name) {
        Ok(_) => Ok(()),
        Err(BuildFault::NoMemory) => Err(GraphFault::NoMemory),
        Err(_) => unreachable!(),
    }
}

// The system of what is declared.
fn finish(graph: Graph) -> Result<Lts, GraphFault>
    requires named { IsMarkNamed graph.marking }
    requires unmarked { graph.builder.initial ≡ None }
    requires alone { graph.has_arcs ≡ false → graph.builder.state_names ≡ [] }
    ensures ok { IfOk result (λ lts. IsFinished graph.builder graph.marking lts) }
    ensures fault { IfErr result (λ f. f ≢ NoMemory → IsUnfinished graph.builder graph.has_arcs graph.marking f) }
{
    let Graph {
        mut builder,
        has_arcs,
        marking,
    } = graph;
    let Some(marking) = marking else {
        return Err(GraphFault::NoMarking);
    };
    mark_state(&mut builder, marking.name.as_str(), marking.line, has_arcs)?;
    match builder.finish() {
        Ok(lts) => Ok(lts),
        Err(BuildFault::NoMemory) => Err(GraphFault::NoMemory),
        Err(_) => unreachable!(),
    }
}
