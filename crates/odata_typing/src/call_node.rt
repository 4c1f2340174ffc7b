//! Nodes of calls.
ghost use Rattle.std.specs.Prelude.{◌≡◌, ◌≤◌, ℕ, List, map, take};
ghost use Rattle.std.specs.Str.{str_to_ascii_lowercase};
ghost use Rattle.odata_syntax.specs.TextTree.{IsTextRange};
ghost use Rattle.odata_syntax.specs.Tree.{Tree, call, trees_of_list};
ghost use Rattle.odata_signatures.specs.Functions.{IsNamed};
ghost use Rattle.odata_signatures.specs.FirstUntypable.{code_of_call};
ghost use Rattle.odata_checked_filter.specs.Stands.{IsCallNode};
ghost use Rattle.odata_typing.specs.private.Judging.{AreChildren, IsNodeJudged};
ghost use Rattle.odata_typing.specs.private.Rows.{AreInRow};
ghost use Rattle.odata_typing.specs.private.CheckContexts.{IsNodeReady, name_of};

use super::check_context::{CheckContext, Judged};
use super::judged_list::Walk;
use super::laws_below::laws_below;
use odata_checked_filter::{CheckedNode, NodeKind};
use odata_signatures::{CallFault, EdmType, Function, TypeFaultCode, judged_call};

/// No function takes more arguments.
const MOST_ARGUMENTS: usize = 3;

/// The node of a call over its arguments.
#[inline(never)]
pub(crate) fn checked_call(context: &CheckContext<'_>, judged: &Judged<'_>, walk: &mut Walk) -> bool
    requires ready { IsNodeReady context.now walk.old judged.now }
    requires text { IsTextRange context.now.text.now judged.now.node.now.text }
    requires arguments { (arguments : List Tree) × AreChildren context.now walk.old judged.now arguments }
    ensures { (arguments : List Tree) → AreChildren context.now walk.old judged.now arguments
        → IsNodeJudged context.now judged.now
        (call (str_to_ascii_lowercase (name_of context.now judged.now)) (trees_of_list arguments))
        walk.old walk.new result }
{
    laws_below();
    // One more than any function takes is as bad as many more.
    let mut types = [EdmType::Null; MOST_ARGUMENTS + 1];
    let count = first_types(walk, judged.number + 1, judged.stop, &mut types);
    match judged_call(context.text_in(judged.node.text), &types[..count]) {
        Ok(call) => { walk.put_nameless(judged, kind_of(call.function), &call.edm_type) }
        Err(fault) => walk.refuse(judged.node.span, code_of(fault)),
    }
}

/// The types of the trees from an index up to `stop`, up to the capacity.
fn first_types(walk: &Walk, from: usize, stop: usize, types: &mut [EdmType; 4]) -> usize
    requires { (row : List CheckedNode) × AreInRow walk.now.list.nodes row from stop }
    ensures few { result ≤ 4 }
    ensures first { (row : List CheckedNode) → AreInRow walk.now.list.nodes row from stop
        → take result types.new ≡ take 4 (map (λ found. found.edm_type) row) }
{
    let mut count = 0;
    let mut place = from;
    while place < stop && count < 4 {
        types[count] = *walk.type_at(place);
        count += 1;
        place = walk.stop_at(place);
    }
    count
}

/// What the node of a call is.
fn kind_of(function: Function) -> NodeKind
    ensures { (asked : List ℕ) → IsNamed function asked → IsCallNode asked result }
{
    match function {
        Function::Now => NodeKind::Now,
        _ => NodeKind::Call { function },
    }
}

fn code_of(fault: CallFault) -> TypeFaultCode
    ensures { result ≡ code_of_call fault }
{
    match fault {
        CallFault::UnknownFunction => TypeFaultCode::UnknownFunction,
        CallFault::ArgumentCount => TypeFaultCode::ArgumentCount,
        CallFault::ArgumentType => TypeFaultCode::ArgumentType,
    }
}
