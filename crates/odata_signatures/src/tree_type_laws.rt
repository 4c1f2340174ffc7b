ghost use Rattle.odata_signatures.specs.EnumerationSpelling.{SpelledByPieces};
ghost use Rattle.odata_signatures.specs.Laws.{FewNodes, FirstBelow, FirstItself, ItemFilterTyped, MixedFilterUntyped};
ghost use Rattle.odata_signatures.specs.Laws.{OneLiteralValue, OneNameAndText, OneRefusal, OneType, OneUntypableStart};
ghost use Rattle.odata_signatures.specs.Laws.{QuotingIsText, RefusedIsUntyped, TypedIsClear, UnreadReason};

use super::laws::calls_have_one_type;
use odata_syntax::{
    children_apart, faults_have_no_tree, one_fault, one_tree, spans_hold, spans_take_bytes,
};
use odata_text::{one_reading, tokens_are_spelled};

/// A law: a tree has at most one type. The contract says it, and the body has nothing to do but to cite what it rests
/// on.
pub fn trees_have_one_type()
    ensures { OneType }
{
    calls_have_one_type();
}

/// A law: a literal stands for one value at most.
pub fn literals_have_one_value()
    ensures { OneLiteralValue }
{
    edm_values::texts_have_one_value();
    edm_enumerations::texts_have_one_value();
}

/// A law: the spelling of an enumeration literal is of one name and one text at most.
pub fn enumeration_literals_have_one_name()
    ensures { OneNameAndText }
{}

/// A law: the canonical spelling of an enumeration literal has the pieces of its text. They stand without their outer
/// spaces and with a comma between each two, whatever the text is.
pub fn enumeration_literals_are_spelled_by_pieces()
    ensures { SpelledByPieces }
{}

/// A law: a tree that has a type has no untypable node.
pub fn typed_trees_are_clear()
    ensures { TypedIsClear }
{
    calls_have_one_type();
}

/// A law: the first fault among a node's judged children is the first of its tree. Where these have types, the node
/// itself is at fault.
pub fn children_come_first()
    ensures below { FirstBelow }
    ensures itself { FirstItself }
{
    calls_have_one_type();
}

/// A law: at most one untypable node of an expression starts at an offset. So the first one is the only one there.
pub fn untypable_nodes_start_apart()
    ensures { OneUntypableStart }
{
    calls_have_one_type();
    children_apart();
    spans_hold();
    spans_take_bytes();
}

/// A law: a text is refused for one reason at most, and then it is not a filter.
pub fn texts_have_one_refusal()
    ensures one { OneRefusal }
    ensures untyped { RefusedIsUntyped }
{
    one_reading();
    tokens_are_spelled();
    one_tree();
    one_fault();
    faults_have_no_tree();
    calls_have_one_type();
    untypable_nodes_start_apart();
}

/// A law: a tree that quotes a text has type `Edm.String`, if it has one.
pub fn quoting_trees_are_texts()
    ensures { QuotingIsText }
{}

/// A law: where operands go by their types alone, the fault of an operator is `OperandTypes`. That is where none of them
/// is an enumeration literal without its type, and it is the reason why the operator has no type.
pub fn unread_operands_have_one_reason()
    ensures { UnreadReason }
{}

/// A law: the tree of a text has no more nodes than a text may have tokens.
pub fn texts_have_few_nodes()
    ensures { FewNodes }
{}

/// A law: `Active and ID eq 1 and Name eq 'a'` has type Boolean. That is of an item with the properties Active, ID and
/// Name.
pub fn a_filter_of_items_is_boolean()
    ensures { ItemFilterTyped }
{}

/// A law: of such an item `ID eq 'a'` has no type.
pub fn a_number_is_no_text()
    ensures { MixedFilterUntyped }
{}
