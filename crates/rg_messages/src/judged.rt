//! The lines of `verify`.
ghost use Rattle.std.specs.Prelude.{◌≡◌, ◌++◌, IfOk, OnOk, codes, decimal};
ghost use Rattle.rg_messages.specs.JudgedTexts.{accepted_line, cert_fault_text, leaf_text, defect_text, refused_line, HasName};

use crate::pieces::{push_label, push_number, push_state};
use rg_cert::CertFault;
use rg_lts::Lts;
use rg_theory::{Class, class_text};
use rg_verify::{Defect, Variable};
use std::alloc::{AllocError, Global};

/// Returns the line that accepts a certificate of this class.
pub fn accepted_text(alloc: Global, class: Class) -> Result<Vec<u8>, AllocError>
    ensures { IfOk result (λ text. text.items ≡ accepted_line class) }
{
    let Ok(class) = class_text(alloc, class) else {
        return Err(AllocError);
    };
    let mut text = Vec::from_slice(alloc, b"accepted: no net of class ")?;
    text.extend_from_slice(&class)?;
    text.push(b'\n')?;
    Ok(text)
}

/// Returns the line that refuses a text that is that of no certificate.
pub fn fault_text(alloc: Global, fault: CertFault) -> Result<Vec<u8>, AllocError>
    ensures { IfOk result (λ text. text.items ≡ refused_line (cert_fault_text fault)) }
{
    match fault {
        CertFault::Expected(line) => line_text(alloc, line, b": expected form"),
        CertFault::UnknownName(line) => line_text(alloc, line, b": unknown name"),
        CertFault::NumberPasses(line) => line_text(alloc, line, b": number passes"),
        CertFault::TreeShort => Vec::from_slice(alloc, b"refused: tree short\n"),
        CertFault::TreeLong => Vec::from_slice(alloc, b"refused: tree long\n"),
        CertFault::NoMemory => Vec::from_slice(alloc, b"refused: no memory\n"),
    }
}

/// Returns the line that rejects a certificate of the system for a defect, with the case and node if it is the defect
/// of a node.
pub fn defect_text(
    alloc: Global,
    lts: &Lts,
    case: u32,
    node: u64,
    defect: Defect,
) -> Result<Vec<u8>, AllocError>
    requires { HasName lts.now defect }
    ensures { IfOk result (λ text. text.items ≡ refused_line (defect_text lts.now case node defect)) }
{
    match defect {
        Defect::NotSo => Vec::from_slice(alloc, b"refused: not so\n"),
        Defect::CaseMissing => Vec::from_slice(alloc, b"refused: case missing\n"),
        _ => {
            let words = leaf_text(alloc, lts, defect)?;
            node_text(alloc, case, node, &words)
        }
    }
}

// The text is that of no certificate, at a line.
fn line_text(alloc: Global, line: u32, words: &[u8]) -> Result<Vec<u8>, AllocError>
    ensures { IfOk result (λ text. text.items ≡ refused_line (codes "line " ++ decimal line ++ words.now)) }
{
    let mut text = Vec::new(alloc);
    push_number(&mut text, b"refused: line ", u64::from(line))?;
    text.extend_from_slice(words)?;
    text.push(b'\n')?;
    Ok(text)
}

// A node of the certificate doesn't hold.
fn node_text(alloc: Global, case: u32, node: u64, words: &[u8]) -> Result<Vec<u8>, AllocError>
    ensures { IfOk result (λ text. text.items ≡ refused_line (codes "case " ++ decimal case ++ codes " node " ++ decimal node ++ codes ": " ++ words.now)) }
{
    let mut text = Vec::new(alloc);
    push_number(&mut text, b"refused: case ", u64::from(case))?;
    push_number(&mut text, b" node ", node)?;
    text.extend_from_slice(b": ")?;
    text.extend_from_slice(words)?;
    text.push(b'\n')?;
    Ok(text)
}

// What is wrong with a node.
fn leaf_text(alloc: Global, lts: &Lts, defect: Defect) -> Result<Vec<u8>, AllocError>
    requires { HasName lts.now defect }
    ensures { IfOk result (λ text. text.items ≡ leaf_text lts.now defect) }
{
    let mut text = Vec::new(alloc);
    push_leaf(&mut text, lts, defect)?;
    Ok(text)
}

// Adds what is wrong with a node.
fn push_leaf(text: &mut Vec<u8>, lts: &Lts, defect: Defect) -> Result<(), AllocError>
    requires { HasName lts.now defect }
    ensures { OnOk result (text.new.items ≡ text.old.items ++ leaf_text lts.now defect) }
{
    match defect {
        Defect::WrongRow => text.extend_from_slice(b"wrong row")?,
        Defect::NotPositive => text.extend_from_slice(b"not positive")?,
        Defect::SumPasses => text.extend_from_slice(b"sum passes")?,
        Defect::WrongForm => text.extend_from_slice(b"wrong form")?,
        Defect::LeftOver(Variable::Tokens(q)) => {
            push_state(text, b"left over tokens ", lts, q)?;
        }
        Defect::LeftOver(Variable::Effect(t)) => {
            push_label(text, b"left over effect ", lts, t)?;
        }
        _ => text.extend_from_slice(b"no contradiction")?,
    }
    Ok(())
}
