//! The ranges of literals, names and steps of paths.
ghost use Rattle.std.specs.Prelude.{◌≡◌, IsFalse};
ghost use Rattle.odata_checked_filter.specs.declared.checked_node.NodeKind.TheVariants.{It};
ghost use Rattle.odata_ranges.specs.Ranges.{IsRangeAt};
ghost use Rattle.odata_ranges.specs.Reach.{IsBounded};
ghost use Rattle.odata_ranges.specs.declared.node_form.NodeForm.{NodeForm};
ghost use Rattle.odata_ranges.specs.private.NodeForm.{AreKnownAfter, HasForm, IsOwnRange};
ghost use Rattle.odata_ranges.specs.private.Values.{HoldsValues};
ghost use Rattle.odata_signatures.specs.declared.edm_type.EdmType.{EdmType};

use super::arithmetic_ranges::either;
use super::bounds::{range_of_type, range_of_value};
use super::named_properties::{owner_of, takes_null};
use super::node_lookups::{range_in, value_at};
use super::range::Range;
use odata_checked_filter::{Checked, CheckedNode, NodeKind};
use odata_meaning::typed_trees_end_once;
use odata_signatures::{
    EdmType, ValueType, calls_have_one_type, literals_have_one_value, trees_have_one_type,
};

/// The range of the values of a type that a row may hold.
pub(crate) fn of_value(edm_type: EdmType, may_be_null: bool) -> Range
    ensures bounded { IsBounded result }
    ensures within { HoldsValues edm_type may_be_null result }
    ensures faults { IsFalse result.may_fault }
{
    match edm_type {
        EdmType::Null => Range::plain(may_be_null),
        EdmType::Single(value_type) => of_single(value_type, may_be_null),
        EdmType::Collection(_) => Range::plain(may_be_null),
    }
}

fn of_single(value_type: ValueType, may_be_null: bool) -> Range
    ensures bounded { IsBounded result }
    ensures within { HoldsValues (EdmType.Single value_type) may_be_null result }
    ensures faults { IsFalse result.may_fault }
{
    match value_type {
        ValueType::Prim(prim) => range_of_type(prim, may_be_null),
        ValueType::Enum(_) => Range::plain(may_be_null),
        ValueType::Structured(_) => Range::plain(may_be_null),
    }
}

/// The range of a node without children.
pub(crate) fn of_leaf(checked: &Checked<'_>, place: usize, node: CheckedNode) -> Range
    requires { HasForm checked.now place node NodeForm.Leaf }
    ensures right { IsRangeAt checked.now place result }
    ensures faults { IsFalse result.may_fault }
    ensures entity { node.kind ≡ It → IsFalse result.may_be_null }
{
    typed_trees_end_once();
    literals_have_one_value();
    calls_have_one_type();
    match node.kind {
        NodeKind::Literal { value, .. } => range_of_value(value_at(checked, value)),
        NodeKind::Property { slot } => {
            let owner = checked.filtered_type();
            let takes = takes_null(checked.schema().property(owner, slot));
            of_value(node.edm_type, takes)
        }
        NodeKind::Variable { .. } => of_value(node.edm_type, true),
        _ => Range::plain(false),
    }
}

/// The range of a step to the property in a slot: null where what stands before the slash is.
pub(crate) fn of_step(
    checked: &Checked<'_>,
    ranges: &[Range],
    place: usize,
    node: CheckedNode,
    slot: usize,
) -> Range
    requires form { HasForm checked.now place node (NodeForm.Step slot) }
    requires known { AreKnownAfter checked.now place ranges.now }
    ensures { IsOwnRange checked.now ranges.now place node result }
{
    typed_trees_end_once();
    trees_have_one_type();
    let base = range_in(ranges, place + 1);
    let owner = owner_of(checked, place);
    let takes = takes_null(checked.schema().property(owner, slot));
    let may_be_null = either(base.may_be_null, takes);
    of_value(node.edm_type, may_be_null)
}
