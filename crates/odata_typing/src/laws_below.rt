ghost use Rattle.odata_typing.specs.private.LawsBelow.{LawsBelow};

use odata_checked_filter::nodes_stand_where_they_are_put;
use odata_signatures::{
    children_come_first, quoting_trees_are_texts, trees_have_one_type, typed_trees_are_clear,
    unread_operands_go_by_types,
};
use odata_syntax::{children_apart, spans_hold, spans_take_bytes};

/// The laws on which the walk over a tree rests, in one.
pub(crate) fn laws_below()
    ensures { LawsBelow }
{
    trees_have_one_type();
    typed_trees_are_clear();
    children_come_first();
    nodes_stand_where_they_are_put();
    unread_operands_go_by_types();
    quoting_trees_are_texts();
    spans_take_bytes();
    spans_hold();
    children_apart();
}
