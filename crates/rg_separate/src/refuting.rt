//! The tree of a case that is refuted.
ghost use Rattle.std.specs.Prelude.{◌≡◌, length, map, OnOk, IfOk, IsErrOf};
ghost use Rattle.rg_integers.specs.declared.term.Wide.{Wide};
ghost use Rattle.rg_fraction.specs.declared.fold_stop.FoldStop.TheVariants as stop;
ghost use Rattle.rg_cert_data.specs.Trees.{node_of as made_node_of};
ghost use Rattle.rg_cert_data.specs.Certificates.{IsNodeOf};
ghost use Rattle.rg_branch_trees.specs.Trees.{TreeNode.leaf_node};
ghost use Rattle.rg_branch.specs.View.{weight_of, node_of};
ghost use Rattle.rg_branch.specs.Answer.{IsSplitTree};
ghost use Rattle.rg_separate.specs.Casing.{IsCase, IsNamedSystem, forms_in, VisitStands, next_sides, IsMadeOf, LeafPasses};
ghost use Rattle.rg_separate.specs.Deciding.{CaseTells, CaseComesTo};

use crate::case::{CaseAnswer, wide_case};
use crate::shares::shares;
use crate::sides::{named_sides, named_triples};
use rg_branch::RawNode;
use rg_branch_trees::{Side, turn};
use rg_case_parts::CaseSetting;
use rg_cert_data::{Case, Node, Stage};
use rg_farkas::spread_in;
use rg_fraction::FoldStop;
use rg_rows::NamedCase;
use std::alloc::{AllocError, Global};

// The tree with which the branching has ended, node by node in preorder.
pub(crate) fn refutation_answer(
    alloc: Global,
    c: CaseSetting<'_>,
    named: &NamedCase<'_>,
    nodes: &[RawNode],
) -> Result<CaseAnswer, AllocError>
    requires case { IsCase c }
    requires system { IsNamedSystem c named.now }
    requires tree { IsSplitTree named.now.system (forms_in named.now) (map node_of nodes.now) }
    ensures tells { IfOk result (CaseTells c.entry.setting.lts.now c.entry.setting.class c.entry.problem c.entry.number) }
    ensures comes { IfOk result (CaseComesTo c.entry) }
{
    let mut above = Vec::new(alloc);
    let mut made = Vec::new(alloc);
    for node in nodes {
        match node_below(alloc, c, named, &above, node) {
            Ok(node) => made.push(node)?,
            Err(FoldStop::Wide(wide)) => {
                let above = named_triples(alloc, named.forms(), &above)?;
                return Ok(CaseAnswer::Wide(wide_case(alloc, Stage::Spread, c, above, wide)));
            }
            Err(FoldStop::NoMemory) => return Err(AllocError),
        }
        go_on(&mut above, node)?;
    }
    Ok(CaseAnswer::Refuted(Case { nodes: made }))
}

// Goes to the sides above the next node.
fn go_on(above: &mut Vec<Side<u32>>, node: &RawNode) -> Result<(), AllocError>
    ensures { OnOk result (above.new.items ≡ next_sides above.old.items (node_of node.now)) }
{
    match node {
        RawNode::Split(form, at) => above.push(Side {
            form: *form,
            at: *at,
            high: false,
        })?,
        RawNode::Leaf(_) => turn(above),
    }
    Ok(())
}

// The node below these splits: a split with its form by name, or the leaf of the weights.
fn node_below(
    alloc: Global,
    c: CaseSetting<'_>,
    named: &NamedCase<'_>,
    above: &[Side<u32>],
    node: &RawNode,
) -> Result<Node, FoldStop>
    requires case { IsCase c }
    requires system { IsNamedSystem c named.now }
    requires node { VisitStands named.now.system (forms_in named.now) (record { above = above.now; node = node_of node.now }) }
    ensures made { IfOk result (λ made. IsMadeOf c.entry named.now above.now (node_of node.now) (made_node_of made)) }
    ensures in_range { IfOk result (λ made. IsNodeOf c.entry.setting.lts.now (made_node_of made)) }
    ensures wide { (w : Wide) → IsErrOf result (stop.Wide w) → LeafPasses c.entry named.now above.now (node_of node.now) w }
{
    match node {
        RawNode::Split(form, at) => Ok(Node::Split(named.forms()[*form as usize].form, *at)),
        RawNode::Leaf(weights) => leaf(alloc, c, named, above, weights),
    }
}

// The leaf of the weights below these splits.
fn leaf(
    alloc: Global,
    c: CaseSetting<'_>,
    named: &NamedCase<'_>,
    above: &[Side<u32>],
    weights: &[(u32, i128)],
) -> Result<Node, FoldStop>
    requires case { IsCase c }
    requires system { IsNamedSystem c named.now }
    requires leaf { VisitStands named.now.system (forms_in named.now) (record { above = above.now; node = leaf_node (map weight_of weights.now) }) }
    ensures made { IfOk result (λ made. IsMadeOf c.entry named.now above.now (leaf_node (map weight_of weights.now)) (made_node_of made)) }
    ensures in_range { IfOk result (λ made. IsNodeOf c.entry.setting.lts.now (made_node_of made)) }
    ensures wide { (w : Wide) → IsErrOf result (stop.Wide w) → LeafPasses c.entry named.now above.now (leaf_node (map weight_of weights.now)) w }
{
    let shares = shares(alloc, named, above, weights)?;
    let above = named_sides(alloc, named.forms(), above)?;
    spread_in(alloc, c, &shares, &above)
}
