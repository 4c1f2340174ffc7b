//! Nodes of the lambda operators with a variable and a body.
ghost use Rattle.std.specs.Prelude.{◌≡◌};
ghost use Rattle.odata_syntax.specs.TextTree.{IsTextRange};
ghost use Rattle.odata_syntax.specs.Tree.{Tree, lambda};
ghost use Rattle.odata_typing.specs.private.Judging.{IsNodeJudged};
ghost use Rattle.odata_typing.specs.private.LambdaNode.{IsLambdaReady, IsOverBody};
ghost use Rattle.odata_typing.specs.private.CheckContexts.{IsNodeReady, name_of, run_tree};

use super::check_context::{CheckContext, Judged};
use super::judged_list::Walk;
use super::laws_below::laws_below;
use super::node_walk::checked_nodes;
use super::variables::{Variables, variable_named};
use odata_checked_filter::NodeKind;
use odata_signatures::{BOOLEAN, EdmType, TypeFaultCode};
use odata_syntax::{Quantifier, SyntaxKind};

/// Judges the body of the lambda expression of an index, which begins with the node `from`, and then the expression.
/// The body is not judged where the expression has no type whatever its body is.
#[cycle(typing)]
#[inline(never)]
pub(crate) fn checked_lambda(
    context: &CheckContext<'_>,
    from: usize,
    index: usize,
    walk: &mut Walk,
) -> bool
    requires { (judged : Judged) × (quantifier : Quantifier) × (base : Tree)
        × IsLambdaReady context.now walk.old from index judged quantifier base }
    ensures { (judged : Judged) (quantifier : Quantifier) (base : Tree)
        → IsLambdaReady context.now walk.old from index judged quantifier base
        → IsNodeJudged context.now judged
        (lambda quantifier base (name_of context.now judged) (run_tree context.now from index))
        walk.old walk.new result }
{
    laws_below();
    let lambda = context.node_at(index);
    let span = lambda.node.span;
    let variable = context.text_in(lambda.node.text);
    let EdmType::Collection(member) = *walk.type_at(lambda.number + 1) else {
        return walk.refuse(span, TypeFaultCode::NotCollection);
    };
    match variable_named(context.variables, variable) {
        Ok(None) => {}
        Ok(Some(_)) => return walk.refuse(span, TypeFaultCode::VariableTaken),
        Err(_) => return false,
    }
    let variables = Variables::Bound(variable, EdmType::Single(member), context.variables);
    let within = CheckContext {
        alloc: context.alloc,
        schema: context.schema,
        filtered_type: context.filtered_type,
        variables: &variables,
        text: context.text,
        nodes: context.nodes,
    };
    checked_nodes(&within, from, index, walk) && close_lambda(context, &lambda, walk)
}

/// The node of an expression whose body has been judged. No other node is put.
fn close_lambda(context: &CheckContext<'_>, judged: &Judged<'_>, walk: &mut Walk) -> bool
    requires ready { IsNodeReady context.now walk.old judged.now }
    requires text { IsTextRange context.now.text.now judged.now.node.now.text }
    requires children { (base : Tree) × (body : Tree) × IsOverBody context.now walk.old judged.now base body }
    ensures { (quantifier : Quantifier) (base body : Tree)
        → judged.now.node.now.kind ≡ SyntaxKind.Lambda quantifier
        → IsOverBody context.now walk.old judged.now base body
        → IsNodeJudged context.now judged.now (lambda quantifier base (name_of context.now judged.now) body)
        walk.old walk.new result }
{
    laws_below();
    let SyntaxKind::Lambda(quantifier) = judged.node.kind else {
        return false;
    };
    let body = walk.stop_at(judged.number + 1);
    if walk.type_at(body).is_truth() {
        walk.put(judged, NodeKind::Lambda { quantifier }, &BOOLEAN)
    } else {
        walk.refuse(judged.node.span, TypeFaultCode::BodyNotBoolean)
    }
}
