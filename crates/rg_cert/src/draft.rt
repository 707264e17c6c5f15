//! What is read of a certificate so far.
ghost use Rattle.std.specs.Prelude.{◌≡◌, OnOk};
ghost use Rattle.rg_cert.specs.Drafts.{after_head, blank, leaf_closed, case_closed, with_split, IsGood, AddsRow, Adds};
ghost use Rattle.rg_cert.specs.View.{texts_in, line_form_in, version_in, position_in, HasFewDue, head_in, draft_in};
ghost use Rattle.rg_cert.specs.declared.table.LineForm.TheVariants as of_line;

use crate::decode::{effect_split, row_of, start_split, tokens_split};
use crate::position::Position;
use crate::table::{LineForm, RowForm};
use crate::version::Version;
use rg_cert_data::{Case, Node};
use rg_cert_meaning::{Form, RowName};
use rg_lts::Lts;
use rg_memory::NoMemory;
use std::alloc::Global;
use std::mem;

/// The line of a reason.
#[derive(Clone, Copy, Debug, PartialEq, Eq)]
pub(crate) enum Head {
    Unreachable(u32),
    Fork(u32, u32, u32, u32),
    Event(u32, u32),
    States(u32, u32),
}

impl Head {
    // The position of the next line, in a text of the version.
    pub(crate) fn after(self, version: Version) -> Position
        ensures position { position_in result ≡ after_head (version_in version) (head_in self) }
        ensures small { HasFewDue result 0 }
    {
        match self {
            Head::Unreachable(..) | Head::Fork(..) => Position::Last,
            Head::Event(..) => Position::OneCase(version),
            Head::States(..) => Position::Cases(version),
        }
    }
}

/// The cases that are read so far.
#[derive(Debug, Drop)]
pub(crate) struct Draft {
    /// The whole cases.
    pub(crate) cases: Vec<Case>,
    /// The nodes of the case that is read.
    pub(crate) nodes: Vec<Node>,
    /// The rows of its last leaf, where that is read.
    pub(crate) rows: Vec<(RowName, i128)>,
}

impl Draft {
    // Nothing yet.
    pub(crate) fn new(alloc: Global) -> Draft
        ensures { draft_in result ≡ blank }
    {
        Draft {
            cases: Vec::new(alloc),
            nodes: Vec::new(alloc),
            rows: Vec::new(alloc),
        }
    }

    // What a line of this form adds.
    pub(crate) fn take(
        &mut self,
        alloc: Global,
        position: Position,
        form: LineForm,
        texts: &[&[u8]],
        lts: &Lts,
    ) -> Result<(), NoMemory>
        requires { IsGood lts.now (line_form_in form) (texts_in texts.now) }
        ensures { OnOk result (Adds lts.now (position_in position) (line_form_in form) (texts_in texts.now) (draft_in self.old) (draft_in self.new)) }
    {
        match form {
            LineForm::Row(row) => self.take_row(row, texts, lts),
            LineForm::SplitTokens => {
                self.close_leaf(alloc, position)?;
                self.push_split(tokens_split(texts, lts))
            }
            LineForm::SplitEffect => {
                self.close_leaf(alloc, position)?;
                self.push_split(effect_split(texts, lts))
            }
            LineForm::SplitStart => {
                self.close_leaf(alloc, position)?;
                self.push_split(start_split(texts, lts))
            }
            LineForm::Leaf => self.close_leaf(alloc, position),
            LineForm::Case | LineForm::End => self.close_case(alloc, position),
            _ => Ok(()),
        }
    }

    // A row of the leaf that is read.
    fn take_row(&mut self, row: RowForm, texts: &[&[u8]], lts: &Lts) -> Result<(), NoMemory>
        requires { IsGood lts.now (line_form_in (of_line.Row row)) (texts_in texts.now) }
        ensures { OnOk result (AddsRow lts.now (texts_in texts.now) (draft_in self.old) (draft_in self.new)) }
    {
        self.rows.push(row_of(row, texts, lts))?;
        Ok(())
    }

    // One more node.
    fn push_split(&mut self, split: (Form, i64)) -> Result<(), NoMemory>
        ensures { OnOk result (draft_in self.new ≡ with_split (draft_in self.old) split.0 split.1) }
    {
        self.nodes.push(Node::Split(split.0, split.1))?;
        Ok(())
    }

    // The leaf that is read is whole, if one is read at the position.
    fn close_leaf(&mut self, alloc: Global, position: Position) -> Result<(), NoMemory>
        ensures { OnOk result (draft_in self.new ≡ leaf_closed (position_in position) (draft_in self.old)) }
    {
        match position {
            Position::Row(..) => {
                let rows = mem::replace(&mut self.rows, Vec::new(alloc));
                self.nodes.push(Node::Leaf(rows))?;
                Ok(())
            }
            _ => Ok(()),
        }
    }

    // The case that is read is whole, if the position is after a leaf.
    fn close_case(&mut self, alloc: Global, position: Position) -> Result<(), NoMemory>
        ensures { OnOk result (draft_in self.new ≡ case_closed (position_in position) (draft_in self.old)) }
    {
        match position {
            Position::Row(..) => {
                self.close_leaf(alloc, position)?;
                let nodes = mem::replace(&mut self.nodes, Vec::new(alloc));
                self.cases.push(Case { nodes })?;
                Ok(())
            }
            _ => Ok(()),
        }
    }
}
