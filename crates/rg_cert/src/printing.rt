//! The text of a certificate.
ghost use Rattle.std.specs.Prelude.{◌≡◌, [], ◌∷◌, ◌++◌, ◌<◌, map, All, IfOk, OnOk, codes, decimal, if◌then◌else◌};
ghost use Rattle.std.specs.List.{flat_map, list_any};
ghost use Rattle.std.specs.Fmt.{signed_decimal};
ghost use Rattle.rg_text.specs.Line.{fed};
ghost use Rattle.rg_theory.specs.System.{states, labels};
ghost use Rattle.rg_branch_trees.specs.Trees.{TreeNode.split_node};
ghost use Rattle.rg_cert_data.specs.Trees.{named_row, node_of, nodes_of};
ghost use Rattle.rg_cert_data.specs.Certificates.{claim_of, HasWholeCases, IsCertificateOf, IsRowNameOf, IsFormOf, IsRowOf, IsNodeOf};
ghost use Rattle.rg_cert.specs.Text.{version_one, version_two, heading, splits_start, asks_two, state_name, label_name, row_fields, named_fields, form_fields, node_lines, spaced, cert_text};
ghost use Rattle.rg_cert.specs.Spells.{Spells};
ghost use Rattle.rg_cert.specs.Drafts.{head_fields, IsHeadOf, nodes_lines, IsCase};
ghost use Rattle.rg_cert.specs.View.{reason_head, reason_cases};

use itoa::Buffer;
use rg_cert_data::{Case, Certificate, Node, Reason};
use rg_cert_meaning::{Form, RowName};
use rg_lts::Lts;
use rg_memory::NoMemory;
use rg_theory::class_text;
use std::alloc::Global;

/// Returns the text of a certificate for a system: the lines `certificate 1`, `class` with the class, the reason with
/// the names of its states and labels, the trees of its cases, and `end`. The first line is `certificate 2` exactly
/// where the class asks a marking or a node splits on the start. The text spells what the certificate claims. Returns
/// `NoMemory` if the text doesn't fit into memory.
pub fn print(alloc: Global, cert: &Certificate, lts: &Lts) -> Result<Vec<u8>, NoMemory>
    requires { IsCertificateOf lts.now cert.now }
    ensures text { IfOk result (λ text. text.items ≡ cert_text (claim_of cert.now) lts.now) }
    ensures spelled { IfOk result (λ text. Spells text.items lts.now (claim_of cert.now)) }
{
    let class = class_text(alloc, cert.class)?;
    let mut text = Vec::new(alloc);
    push_heading(&mut text, asks_two(cert))?;
    text.extend_from_slice(b"class ")?;
    text.extend_from_slice(&class)?;
    text.push(b'\n')?;
    push_reason(&mut text, &cert.reason, lts)?;
    text.extend_from_slice(b"end\n")?;
    Ok(text)
}

// Whether the class asks a marking or a node splits on the start.
fn asks_two(cert: &Certificate) -> bool
    requires { HasWholeCases cert.now.reason }
    ensures { result ≡ asks_two (claim_of cert.now) }
{
    cert.class.marking.is_some() || reason_splits_start(&cert.reason)
}

// Whether a node of the reason splits on the start.
fn reason_splits_start(reason: &Reason) -> bool
    ensures { result ≡ list_any splits_start (flat_map (λ nodes. nodes) (reason_cases reason.now)) }
{
    match reason {
        Reason::Unreachable(_) | Reason::Fork(..) => false,
        Reason::Event(_, _, case) => nodes_split_start(&case.nodes),
        Reason::States(_, _, cases) => cases_split_start(cases),
    }
}

// Whether a node of the cases splits on the start.
fn cases_split_start(cases: &[Case]) -> bool
    ensures { result ≡ list_any splits_start (flat_map (λ nodes. nodes) (map nodes_of cases.now)) }
{
    for case in cases {
        if nodes_split_start(&case.nodes) {
            return true;
        }
    }
    false
}

// Whether one of the nodes splits on the start.
fn nodes_split_start(nodes: &[Node]) -> bool
    ensures { result ≡ list_any splits_start (map node_of nodes.now) }
{
    for node in nodes {
        if let Node::Split(Form::Start, _) = node {
            return true;
        }
    }
    false
}

// The first line.
fn push_heading(text: &mut Vec<u8>, two: bool) -> Result<(), NoMemory>
    ensures { OnOk result (text.new.items ≡ text.old.items ++ (spaced (heading (if two then version_two else version_one)) ++ 10 ∷ [])) }
{
    if two {
        text.extend_from_slice(b"certificate 2\n")?;
    } else {
        text.extend_from_slice(b"certificate 1\n")?;
    }
    Ok(())
}

// The lines of a reason.
fn push_reason(text: &mut Vec<u8>, reason: &Reason, lts: &Lts) -> Result<(), NoMemory>
    requires head { IsHeadOf lts.now (reason_head reason.now) }
    requires cases { All (IsCase lts.now version_two) (reason_cases reason.now) }
    ensures { OnOk result (text.new.items ≡ text.old.items ++ fed (map spaced (head_fields lts.now (reason_head reason.now) ∷ flat_map (nodes_lines lts.now) (reason_cases reason.now)))) }
{
    match reason {
        Reason::Unreachable(s) => {
            push_with_state(text, b"unreachable", lts, *s)?;
            text.push(b'\n')?;
            Ok(())
        }
        Reason::Fork(s, t, first, second) => {
            push_with_state(text, b"fork", lts, *s)?;
            push_label(text, lts, *t)?;
            push_state(text, lts, *first)?;
            push_state(text, lts, *second)?;
            text.push(b'\n')?;
            Ok(())
        }
        Reason::Event(s, t, case) => {
            push_with_state(text, b"event", lts, *s)?;
            push_label(text, lts, *t)?;
            text.push(b'\n')?;
            push_case(text, case, lts)
        }
        Reason::States(s, other, cases) => {
            push_with_state(text, b"states", lts, *s)?;
            push_state(text, lts, *other)?;
            text.push(b'\n')?;
            push_cases(text, cases, lts)
        }
    }
}

// The lines of cases.
fn push_cases(text: &mut Vec<u8>, cases: &[Case], lts: &Lts) -> Result<(), NoMemory>
    requires { All (IsCase lts.now version_two) (map nodes_of cases.now) }
    ensures { OnOk result (text.new.items ≡ text.old.items ++ fed (map spaced (flat_map (nodes_lines lts.now) (map nodes_of cases.now)))) }
{
    for case in cases {
        push_case(text, case, lts)?;
    }
    Ok(())
}

// The lines of a case.
fn push_case(text: &mut Vec<u8>, case: &Case, lts: &Lts) -> Result<(), NoMemory>
    requires { IsCase lts.now version_two (nodes_of case.now) }
    ensures { OnOk result (text.new.items ≡ text.old.items ++ fed (map spaced (nodes_lines lts.now (nodes_of case.now)))) }
{
    text.extend_from_slice(b"case\n")?;
    push_nodes(text, &case.nodes, lts)
}

// The lines of nodes.
fn push_nodes(text: &mut Vec<u8>, nodes: &[Node], lts: &Lts) -> Result<(), NoMemory>
    requires { All (IsNodeOf lts.now) (map node_of nodes.now) }
    ensures { OnOk result (text.new.items ≡ text.old.items ++ fed (map spaced (flat_map (node_lines lts.now) (map node_of nodes.now)))) }
{
    for node in nodes {
        push_node(text, node, lts)?;
    }
    Ok(())
}

// The lines of a node.
fn push_node(text: &mut Vec<u8>, node: &Node, lts: &Lts) -> Result<(), NoMemory>
    requires { IsNodeOf lts.now (node_of node.now) }
    ensures { OnOk result (text.new.items ≡ text.old.items ++ fed (map spaced (node_lines lts.now (node_of node.now)))) }
{
    match node {
        Node::Leaf(rows) => {
            text.extend_from_slice(b"leaf\n")?;
            push_rows(text, rows, lts)
        }
        Node::Split(form, at) => push_split(text, *form, *at, lts),
    }
}

// The line of a split.
fn push_split(text: &mut Vec<u8>, form: Form, at: i64, lts: &Lts) -> Result<(), NoMemory>
    requires { IsFormOf lts.now form }
    ensures { OnOk result (text.new.items ≡ text.old.items ++ fed (map spaced (node_lines lts.now (split_node form at)))) }
{
    let mut buffer = Buffer::new();
    push_form(text, form, lts)?;
    text.push(b' ')?;
    text.extend_from_slice(buffer.format(at).as_bytes())?;
    text.push(b'\n')?;
    Ok(())
}

// What a split speaks of.
fn push_form(text: &mut Vec<u8>, form: Form, lts: &Lts) -> Result<(), NoMemory>
    requires { IsFormOf lts.now form }
    ensures { OnOk result (text.new.items ≡ text.old.items ++ spaced (codes "split" ∷ form_fields lts.now form)) }
{
    match form {
        Form::Tokens(q) => push_with_state(text, b"split tokens", lts, q),
        Form::Effect(t) => push_with_label(text, b"split effect", lts, t),
        Form::Start => push_word(text, b"split start"),
    }
}

// The lines of rows.
fn push_rows(text: &mut Vec<u8>, rows: &[(RowName, i128)], lts: &Lts) -> Result<(), NoMemory>
    requires { All (IsRowOf lts.now) (map named_row rows.now) }
    ensures { OnOk result (text.new.items ≡ text.old.items ++ fed (map spaced (map (named_fields lts.now) (map named_row rows.now)))) }
{
    for row in rows {
        push_row(text, row.0, row.1, lts)?;
    }
    Ok(())
}

// The line of a row.
fn push_row(text: &mut Vec<u8>, name: RowName, multiplier: i128, lts: &Lts) -> Result<(), NoMemory>
    requires { IsRowNameOf lts.now name }
    ensures { OnOk result (text.new.items ≡ text.old.items ++ (spaced (signed_decimal multiplier ∷ row_fields lts.now name) ++ 10 ∷ [])) }
{
    let mut buffer = Buffer::new();
    text.extend_from_slice(buffer.format(multiplier).as_bytes())?;
    text.push(b' ')?;
    push_row_name(text, name, lts)?;
    text.push(b'\n')?;
    Ok(())
}

// The name of a row.
fn push_row_name(text: &mut Vec<u8>, name: RowName, lts: &Lts) -> Result<(), NoMemory>
    requires { IsRowNameOf lts.now name }
    ensures { OnOk result (text.new.items ≡ text.old.items ++ spaced (row_fields lts.now name)) }
{
    match name {
        RowName::Arc(arc) => {
            push_with_state(text, b"arc", lts, arc.from)?;
            push_label(text, lts, arc.label)?;
            push_state(text, lts, arc.to)
        }
        RowName::Tokens(q) => push_with_state(text, b"tokens", lts, q),
        RowName::Cap(q) => push_with_state(text, b"cap", lts, q),
        RowName::Up(t) => push_with_label(text, b"up", lts, t),
        RowName::Down(t) => push_with_label(text, b"down", lts, t),
        RowName::Makes(t) => push_with_label(text, b"makes", lts, t),
        RowName::Stop(q) => push_with_state(text, b"stop", lts, q),
        RowName::Block => push_word(text, b"block"),
        RowName::Empty => push_word(text, b"empty"),
        RowName::Full(q) => push_with_state(text, b"full", lts, q),
        RowName::Keep => push_word(text, b"keep"),
        RowName::Apart => push_word(text, b"apart"),
        RowName::Above(d) => push_above(text, d),
    }
}

// A word.
fn push_word(text: &mut Vec<u8>, word: &[u8]) -> Result<(), NoMemory>
    ensures { OnOk result (text.new.items ≡ text.old.items ++ word.now) }
{
    text.extend_from_slice(word)?;
    Ok(())
}

// The name of a row of a split.
fn push_above(text: &mut Vec<u8>, depth: u32) -> Result<(), NoMemory>
    ensures { OnOk result (text.new.items ≡ text.old.items ++ (codes "above" ++ 32 ∷ decimal depth)) }
{
    let mut buffer = Buffer::new();
    text.extend_from_slice(b"above ")?;
    text.extend_from_slice(buffer.format(depth).as_bytes())?;
    Ok(())
}

// A word, a space and the name of a state.
fn push_with_state(text: &mut Vec<u8>, word: &[u8], lts: &Lts, s: u32) -> Result<(), NoMemory>
    requires { s < states lts.now }
    ensures { OnOk result (text.new.items ≡ text.old.items ++ (word.now ++ 32 ∷ state_name lts.now s)) }
{
    text.extend_from_slice(word)?;
    push_state(text, lts, s)
}

// A word, a space and the name of a label.
fn push_with_label(text: &mut Vec<u8>, word: &[u8], lts: &Lts, t: u32) -> Result<(), NoMemory>
    requires { t < labels lts.now }
    ensures { OnOk result (text.new.items ≡ text.old.items ++ (word.now ++ 32 ∷ label_name lts.now t)) }
{
    text.extend_from_slice(word)?;
    push_label(text, lts, t)
}

// A space and the name of a state.
fn push_state(text: &mut Vec<u8>, lts: &Lts, s: u32) -> Result<(), NoMemory>
    requires { s < states lts.now }
    ensures { OnOk result (text.new.items ≡ text.old.items ++ 32 ∷ state_name lts.now s) }
{
    text.push(b' ')?;
    text.extend_from_slice(lts.state_name(s).as_bytes())?;
    Ok(())
}

// A space and the name of a label.
fn push_label(text: &mut Vec<u8>, lts: &Lts, t: u32) -> Result<(), NoMemory>
    requires { t < labels lts.now }
    ensures { OnOk result (text.new.items ≡ text.old.items ++ 32 ∷ label_name lts.now t) }
{
    text.push(b' ')?;
    text.extend_from_slice(lts.label_name(t).as_bytes())?;
    Ok(())
}
