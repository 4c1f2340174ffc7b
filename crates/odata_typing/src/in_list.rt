//! Nodes of `in` before a list.
ghost use Rattle.std.specs.Prelude.{◌≡◌, ◌<◌, ◌+◌, ◌↔◌, ◌∷◌, IsTrue, List, [], Some, length, slice_get};
ghost use Rattle.odata_syntax.specs.Tree.{Tree, in_list, trees_of_list};
ghost use Rattle.csdl_schema.specs.SchemaModel.{slots_of};
ghost use Rattle.odata_signatures.specs.Side.{quoting};
ghost use Rattle.odata_signatures.specs.TypeThere.{IsTypeThere};
ghost use Rattle.odata_signatures.specs.TypeView.{expr_type};
ghost use Rattle.odata_checked_filter.specs.ListChanges.{IsKeptOutside};
ghost use Rattle.odata_typing.specs.private.Judging.{AreChildren, IsNodeJudged};
ghost use Rattle.odata_typing.specs.private.Rows.{AreInRow, AreTypesThere, quoted_in, row_sides};
ghost use Rattle.odata_typing.specs.private.CheckContexts.{IsNodeReady};

use super::binary_node::is_enumeration;
use super::check_context::{CheckContext, Judged};
use super::judged_list::Walk;
use super::laws_below::laws_below;
use super::resolved_text::{ResolvedText, resolved_number};
use csdl_schema::Schema;
use odata_checked_filter::{CheckedNode, NodeKind};
use odata_signatures::{BOOLEAN, EdmType, TypeFaultCode, are_comparable};

/// Whether items may stand after the operand.
#[derive(Clone, Copy)]
enum ItemsFit {
    /// Each may.
    All,
    /// One may not, by its type.
    Refused,
    /// One is read and stands for no number.
    Unknown,
    OutOfMemory,
}

ghost use Rattle.odata_typing.specs.private.Items.{AreItemsFit, AreItemsPut, AreListFit, IsItemPut, IsUnreadLeft, worse_fit};
ghost use Rattle.odata_typing.specs.private.Walks.{list_put};

/// The node between its operand and its items.
#[inline(never)]
pub(crate) fn checked_in_list(
    context: &CheckContext<'_>,
    judged: &Judged<'_>,
    walk: &mut Walk,
) -> bool
    requires ready { IsNodeReady context.now walk.old judged.now }
    requires children { (l : Tree) × (items : List Tree) × AreChildren context.now walk.old judged.now (l ∷ items) }
    ensures { (l : Tree) (items : List Tree) → AreChildren context.now walk.old judged.now (l ∷ items)
        → IsNodeJudged context.now judged.now (in_list l (trees_of_list items)) walk.old walk.new result }
{
    laws_below();
    let left = judged.number + 1;
    let items = walk.stop_at(left);
    let left_type = *walk.type_at(left);
    if is_enumeration(&left_type) {
        let fit = put_items(context.schema, &left_type, items, judged.stop, walk);
        put_list(judged, fit, walk)
    } else {
        let fit = fit_of(context.schema, &left_type, items, judged.stop, walk);
        put_list(judged, fit, walk)
    }
}

/// The node where its items fit.
fn put_list(judged: &Judged<'_>, fit: ItemsFit, walk: &mut Walk) -> bool
    requires { judged.now.number < length walk.old.list.nodes }
    ensures goes_on { IsTrue result ↔ (fit ≡ ItemsFit.All) }
    ensures put { walk.new ≡ list_put walk.old judged.now fit }
{
    match fit {
        ItemsFit::All => walk.put_nameless(judged, NodeKind::InList, &BOOLEAN),
        ItemsFit::Refused => walk.refuse(judged.node.span, TypeFaultCode::OperandTypes),
        ItemsFit::Unknown => walk.refuse(judged.node.span, TypeFaultCode::UnknownEnum),
        ItemsFit::OutOfMemory => false,
    }
}

/// Whether the items from an index up to `stop` may stand after an operand of no enumeration, by their types.
fn fit_of(schema: &Schema, left: &EdmType, items: usize, stop: usize, walk: &Walk) -> ItemsFit
    requires left { IsTypeThere schema.now left.now }
    requires unread { IsUnreadLeft (expr_type schema.now left.now) }
    requires items { (row : List CheckedNode) × AreInRow walk.now.list.nodes row items stop
        × AreTypesThere schema.now row }
    ensures { (row : List CheckedNode) → AreInRow walk.now.list.nodes row items stop → AreListFit (slots_of schema.now)
        (expr_type schema.now left.now) (row_sides schema.now walk.now.list items row) result }
{
    if left.is_collection() {
        return ItemsFit::Refused;
    }
    let mut item = items;
    while item < stop {
        if !are_comparable(schema, left, walk.type_at(item)) {
            return ItemsFit::Refused;
        }
        item = walk.stop_at(item);
    }
    ItemsFit::All
}

/// Whether they may stand after an operand of an enumeration. Each one that is read has its number then.
fn put_items(
    schema: &Schema,
    left: &EdmType,
    items: usize,
    stop: usize,
    walk: &mut Walk,
) -> ItemsFit
    requires left { IsTypeThere schema.now left.now }
    requires items { (row : List CheckedNode) × AreInRow walk.old.list.nodes row items stop
        × AreTypesThere schema.now row }
    ensures fit { (row : List CheckedNode) → AreInRow walk.old.list.nodes row items stop → AreItemsFit
        (slots_of schema.now) (expr_type schema.now left.now) (row_sides schema.now walk.old.list items row) result }
    ensures put { (row : List CheckedNode) → AreInRow walk.old.list.nodes row items stop → AreItemsPut
        (slots_of schema.now) schema.now (expr_type schema.now left.now) walk.old.list items row walk.new.list result }
    ensures walk { walk.new ≡ record walk.old { list = walk.new.list } }
    ensures count { length walk.new.list.nodes ≡ length walk.old.list.nodes }
{
    let mut fit = ItemsFit::All;
    let mut item = items;
    while item < stop {
        let next = walk.stop_at(item);
        fit = worse(fit, put_item(schema, left, item, walk));
        item = next;
    }
    fit
}

/// Whether one item may stand there, which has its number then if it is read.
fn put_item(schema: &Schema, left: &EdmType, item: usize, walk: &mut Walk) -> ItemsFit
    requires left { IsTypeThere schema.now left.now }
    requires item { (found : CheckedNode) × (slice_get walk.old.list.nodes item ≡ Some found)
        × IsTypeThere schema.now found.edm_type }
    ensures put { (found : CheckedNode) → slice_get walk.old.list.nodes item ≡ Some found → IsItemPut
        (slots_of schema.now) (expr_type schema.now left.now)
        (quoting (quoted_in walk.old.list item found) (expr_type schema.now found.edm_type)) walk.old.list item found
        walk.new.list result }
    ensures fit { (found : CheckedNode) → slice_get walk.old.list.nodes item ≡ Some found → AreItemsFit
        (slots_of schema.now) (expr_type schema.now left.now)
        (quoting (quoted_in walk.old.list item found) (expr_type schema.now found.edm_type) ∷ []) result }
    ensures kept { IsKeptOutside item (item + 1) walk.old.list walk.new.list }
    ensures walk { walk.new ≡ record walk.old { list = walk.new.list } }
{
    match resolved_number(schema, left, walk.quoted_at(item)) {
        ResolvedText::Number(number) => {
            if walk.put_number(item, number) {
                ItemsFit::All
            } else {
                ItemsFit::OutOfMemory
            }
        }
        ResolvedText::Unknown => ItemsFit::Unknown,
        ResolvedText::Unread => {
            if are_comparable(schema, left, walk.type_at(item)) {
                ItemsFit::All
            } else {
                ItemsFit::Refused
            }
        }
    }
}

/// What two parts of a list together are.
fn worse(first: ItemsFit, rest: ItemsFit) -> ItemsFit
    ensures { result ≡ worse_fit first rest }
{
    match first {
        ItemsFit::All => rest,
        ItemsFit::Refused => match rest {
            ItemsFit::All => ItemsFit::Refused,
            _ => rest,
        },
        ItemsFit::Unknown | ItemsFit::OutOfMemory => first,
    }
}
