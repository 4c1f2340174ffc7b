//! The walk over the list of a filter's nodes: each is judged after its children.
ghost use Rattle.std.specs.Prelude.{◌≡◌, ◌≢◌, ◌+◌, ◌-◌, List};
ghost use Rattle.odata_syntax.specs.Places.{number_at, places_of, stop_at};
ghost use Rattle.odata_syntax.specs.PostOrder.{shape_over};
ghost use Rattle.odata_syntax.specs.TextTree.{HasText, IsTextRange};
ghost use Rattle.odata_syntax.specs.Tree.{Tree, it};
ghost use Rattle.odata_typing.specs.private.Judging.{AreLastTrees, IsNodeJudged, IsTreeJudged};
ghost use Rattle.odata_typing.specs.private.CheckContexts.{IsNodeReady, IsReady, IsRun, IsContext, name_of, run_tree};

use super::binary_node::{checked_infix, checked_operator};
use super::call_node::checked_call;
use super::check_context::{CheckContext, Judged};
use super::in_list::checked_in_list;
use super::judged_list::Walk;
use super::lambda_node::checked_lambda;
use super::laws_below::laws_below;
use super::literal_node::checked_literal;
use super::property_node::{checked_member, checked_name};
use super::unary_node::{Unary, checked_unary};
use odata_checked_filter::NodeKind;
use odata_signatures::{EdmType, ValueType};
use odata_syntax::{NO_NODE, Quantifier, SyntaxKind};

/// Judges the nodes from `from` up to `stop`, which are whole trees, and puts them at their indexes.
#[cycle(typing)]
pub(crate) fn checked_nodes(
    context: &CheckContext<'_>,
    from: usize,
    stop: usize,
    walk: &mut Walk,
) -> bool
    requires context { IsContext context.now }
    requires ready { IsReady context.now walk.old }
    requires run { IsRun context.now from stop }
    ensures { IsTreeJudged context.now (number_at (places_of context.now.nodes.now) (stop - 1))
        (stop_at (places_of context.now.nodes.now) (stop - 1)) (run_tree context.now from stop)
        walk.old walk.new result }
{
    laws_below();
    let mut index = from;
    while index < stop {
        let lambda = context.nodes[index].place.lambda;
        if lambda != NO_NODE && index != from {
            if !checked_lambda(context, index, lambda, walk) {
                return false;
            }
            index = lambda + 1;
        } else {
            if !checked_node(context, &context.node_at(index), walk) {
                return false;
            }
            index += 1;
        }
    }
    true
}

/// Judges a node whose children have been judged, and which is no lambda operator's with a body.
#[inline(always)]
fn checked_node(context: &CheckContext<'_>, judged: &Judged<'_>, walk: &mut Walk) -> bool
    requires ready { IsNodeReady context.now walk.old judged.now }
    requires text { HasText judged.now.node.now.kind → IsTextRange context.now.text.now judged.now.node.now.text }
    requires kind { (quantifier : Quantifier) → judged.now.node.now.kind ≢ SyntaxKind.Lambda quantifier }
    requires children { (trees : List Tree) × AreLastTrees context.now walk.old judged.now trees }
    ensures { (trees : List Tree) → AreLastTrees context.now walk.old judged.now trees
        → IsNodeJudged context.now judged.now (shape_over judged.now.node.now.kind (name_of context.now judged.now)
        judged.now.node.now.count trees) walk.old walk.new result }
{
    match judged.node.kind {
        SyntaxKind::Lit(kind) => checked_literal(context, judged, kind, walk),
        SyntaxKind::It => checked_it(context, judged, walk),
        SyntaxKind::Name => checked_name(context, judged, walk),
        SyntaxKind::Member => checked_member(context, judged, walk),
        SyntaxKind::Binary(operator) => checked_operator(context, judged, operator, walk),
        SyntaxKind::Neg => checked_unary(context, judged, Unary::Negation, walk),
        SyntaxKind::Not => checked_unary(context, judged, Unary::Not, walk),
        SyntaxKind::Count => checked_unary(context, judged, Unary::Count, walk),
        SyntaxKind::AnyItem => checked_unary(context, judged, Unary::AnyItem, walk),
        SyntaxKind::Has => checked_infix(context, judged, NodeKind::Has, walk),
        SyntaxKind::InPath => checked_infix(context, judged, NodeKind::InPath, walk),
        SyntaxKind::InList => checked_in_list(context, judged, walk),
        SyntaxKind::Call => checked_call(context, judged, walk),
        // `checked_nodes` takes lambda operators with a body by `checked_lambda`.
        SyntaxKind::Lambda(_) => unreachable!(),
    }
}

/// `$it`, of the filtered type.
fn checked_it(context: &CheckContext<'_>, judged: &Judged<'_>, walk: &mut Walk) -> bool
    requires ready { IsNodeReady context.now walk.old judged.now }
    requires leaf { judged.now.stop ≡ judged.now.number + 1 }
    ensures { IsNodeJudged context.now judged.now it walk.old walk.new result }
{
    laws_below();
    let edm_type = EdmType::Single(ValueType::Structured(context.filtered_type));
    walk.put_nameless(judged, NodeKind::It, &edm_type)
}
