//! `in` before a path.
ghost use Rattle.std.specs.Prelude.{◌≡◌, ◌+◌, ◌∷◌, [], IsSomeAnd, OnOk, false, slice_get};
ghost use Rattle.odata_signatures.specs.declared.edm_type.EdmType.{EdmType};
ghost use Rattle.odata_signatures.specs.declared.edm_type.ValueType.{ValueType};
ghost use Rattle.sql_tree.specs.declared.sql_node.SqlNode.{SqlNode};
ghost use Rattle.sql_tree.specs.declared.sql_node.SqlType.{SqlType};
ghost use Rattle.odata_checked_filter.specs.declared.checked_node.NodeKind.{NodeKind};
ghost use Rattle.sql_forms.specs.declared.terms.Form.{Form};
ghost use Rattle.sql_forms.specs.Forms.{IsInForm};
ghost use Rattle.sql_outcomes.specs.private.ValueForms.{Itself, OrTruth};
ghost use Rattle.sql_draft.specs.Growth.{GrowsBy};
ghost use Rattle.sql_outcomes.specs.private.ItemValues.{AreMembersBeside};
ghost use Rattle.sql_forms.specs.private.Lists.{HasMemberHas, MemberHas};
ghost use Rattle.sql_forms.specs.private.Lists.{IsAtPath, IsMemberOperand};
ghost use Rattle.sql_outcomes.specs.private.ItemValues.{IsCollectionAt};
ghost use Rattle.sql_outcomes.specs.Members.{IsStopAt};
ghost use Rattle.sql_draft.specs.Kinds.{kind_of_single};
ghost use Rattle.sql_draft.specs.OperandHas.{IsInside};
ghost use Rattle.sql_outcomes.specs.private.OperandValues.{IsTested};
ghost use Rattle.sql_draft.specs.Paths.{IsPathTo};
ghost use Rattle.sql_draft.specs.Translated.{IsKindAt, IsTranslated, question_of};
ghost use Rattle.sql_outcomes.specs.private.NodesThere.{IsBooleanAt, IsFaultless};
ghost use Rattle.sql_draft.specs.World.{OfPlace, Puts};

use super::code::put_code;
use super::comparison_forms::put_kept_comparison;
use super::lambda::put_unless_missing;
use super::list_forms::{is_value, lifted_left};
use super::operand_forms::put_operand;
use odata_functions::comparisons_are_decided;
use odata_meaning::typed_trees_end_once_on_entities;
use odata_ranges::Range;
use odata_signatures::trees_have_one_type;
use odata_syntax::ComparisonOperator;
use sql_draft::{
    Draft, Kind, Operand, Source, SqlContext, put_member_path, put_path, type_of_field,
};
use sql_tree::{Digit, SqlNode, SqlType};
use std::alloc::AllocError;

/// A member of the collection at an index, at such a path.
fn member_of(context: &SqlContext<'_, '_>, collection: usize, path: usize) -> Operand
    requires translated { IsTranslated context.now }
    requires collection { IsCollectionAt context.now.checked.now collection }
    ensures { IsMemberOperand context.now.checked.now collection path result }
{
    Operand {
        source: source_of_member(context, collection, path),
        kind: kind_of_member(context, collection),
        range: Range::plain(true),
    }
}

/// Where the value of a member stands that is at such a path.
fn source_of_member(context: &SqlContext<'_, '_>, collection: usize, path: usize) -> Source
    requires { IsCollectionAt context.now.checked.now collection }
    ensures { IsSomeAnd (slice_get context.now.checked.now.list.nodes collection) (λ node. (type : ValueType)
        × (node.edm_type ≡ EdmType.Collection type) × IsAtPath path (kind_of_single type) result) }
{
    match context.member_type(collection) {
        Some(value_type) => Source::Field { path, value_type },
        None => Source::Place { path },
    }
}

/// What kind of values the members have.
fn kind_of_member(context: &SqlContext<'_, '_>, collection: usize) -> Kind
    requires { IsCollectionAt context.now.checked.now collection }
    ensures { IsSomeAnd (slice_get context.now.checked.now.list.nodes collection) (λ node. (type : ValueType)
        × (node.edm_type ≡ EdmType.Collection type) × (result ≡ kind_of_single type)) }
{
    match context.member_type(collection) {
        Some(value_type) => Kind::Value(type_of_field(value_type)),
        None => Kind::Structured,
    }
}

/// Puts whether some member of the collection at an index is equal to the left side; false over null.
#[cycle(put)]
#[inline(never)]
fn put_has_member(
    context: &SqlContext<'_, '_>,
    draft: &mut Draft,
    left: &Operand,
    collection: usize,
    path: usize,
) -> Result<(), AllocError>
    requires translated { IsTranslated context.now }
    requires tested { IsTested context.now.checked.now context.now.ranges.now left.now }
    requires members { AreMembersBeside context.now.checked.now left.now.kind collection }
    requires leads { IsPathTo (question_of context.now) draft.old collection path }
    ensures { OnOk result (Puts (question_of context.now) draft.old draft.new
        (HasMemberHas context.now.checked.now left.now collection) (OrTruth Itself)) }
{
    let level = draft.depth;
    let member_path = put_member_path(draft, level)?;
    let member = member_of(context, collection, member_path);
    draft.put(SqlNode::Exists { path, level })?;
    draft.deepen(1)?;
    put_kept_comparison(context, draft, ComparisonOperator::Eq, left, &member)?;
    draft.depth -= 1;
    Ok(())
}

/// The same, of a left side that is no fault and is computed once.
#[cycle(put)]
#[inline(never)]
fn put_over_members(
    context: &SqlContext<'_, '_>,
    draft: &mut Draft,
    left: &Operand,
    collection: usize,
    path: usize,
) -> Result<(), AllocError>
    requires translated { IsTranslated context.now }
    requires tested { IsTested context.now.checked.now context.now.ranges.now left.now }
    requires members { AreMembersBeside context.now.checked.now left.now.kind collection }
    requires leads { IsPathTo (question_of context.now) draft.old collection path }
    requires inside { IsInside context.now.checked.now left.now.source }
    requires faultless { left.now.range.may_fault ≡ false }
    ensures { OnOk result (Puts (question_of context.now) draft.old draft.new
        (MemberHas context.now.checked.now left.now collection) Itself) }
{
    if !is_value(left) {
        return put_has_member(context, draft, left, collection, path);
    }
    let lifted = lifted_left(context, draft, left)?;
    lifted.open(draft)?;
    put_has_member(context, draft, &lifted.first(), collection, path)?;
    lifted.close(context, draft)
}

/// Puts the value of `in` before a path that evaluates to no fault.
#[cycle(put)]
#[inline(never)]
pub(crate) fn put_in_path(
    context: &SqlContext<'_, '_>,
    draft: &mut Draft,
    place: usize,
) -> Result<(), AllocError>
    requires translated { IsTranslated context.now }
    requires kind { IsKindAt context.now.checked.now place NodeKind.InPath }
    requires faultless { IsFaultless context.now.ranges.now place }
    ensures { OnOk result (Puts (question_of context.now) draft.old draft.new
        (OfPlace context.now.checked.now place) (IsInForm Form.Truth)) }
{
    typed_trees_end_once_on_entities();
    trees_have_one_type();
    comparisons_are_decided();
    let collection = context.second(place);
    let path = put_path(context, draft, collection)?;
    put_unless_missing(draft, context.range(collection).may_be_null, path)?;
    put_over_members(
        context,
        draft,
        &Operand::at(context, place + 1),
        collection,
        path,
    )
}

/// Puts a condition that is true exactly where some member is equal to the left side.
#[cycle(put)]
#[inline(never)]
pub(crate) fn put_kept_in_path(
    context: &SqlContext<'_, '_>,
    draft: &mut Draft,
    place: usize,
) -> Result<(), AllocError>
    requires translated { IsTranslated context.now }
    requires kind { IsKindAt context.now.checked.now place NodeKind.InPath }
    requires faultless { IsFaultless context.now.ranges.now place }
    ensures { OnOk result (Puts (question_of context.now) draft.old draft.new
        (OfPlace context.now.checked.now place) (IsInForm Form.Keeps)) }
{
    typed_trees_end_once_on_entities();
    trees_have_one_type();
    comparisons_are_decided();
    let collection = context.second(place);
    let path = put_path(context, draft, collection)?;
    put_over_members(
        context,
        draft,
        &Operand::at(context, place + 1),
        collection,
        path,
    )
}

/// Puts the code of `in` before a path whose left side may be a fault.
#[cycle(put)]
#[inline(never)]
pub(crate) fn put_in_path_code(
    context: &SqlContext<'_, '_>,
    draft: &mut Draft,
    place: usize,
) -> Result<(), AllocError>
    requires translated { IsTranslated context.now }
    requires kind { IsKindAt context.now.checked.now place NodeKind.InPath }
    ensures { OnOk result (Puts (question_of context.now) draft.old draft.new
        (OfPlace context.now.checked.now place) (IsInForm Form.Code)) }
{
    typed_trees_end_once_on_entities();
    trees_have_one_type();
    comparisons_are_decided();
    let collection = context.second(place);
    let path = put_path(context, draft, collection)?;
    let left = Operand::at(context, place + 1);
    if left.is_truth() {
        return put_truth_in_path_code(context, draft, place, collection, path);
    }
    if !is_value(&left) {
        draft.put(SqlNode::TruthCode)?;
        put_unless_missing(draft, context.range(collection).may_be_null, path)?;
        return put_has_member(context, draft, &left, collection, path);
    }
    let lifted = lifted_left(context, draft, &left)?;
    lifted.open(draft)?;
    lifted.put_faults(draft, None)?;
    draft.put(SqlNode::TruthCode)?;
    put_unless_missing(draft, context.range(collection).may_be_null, path)?;
    put_has_member(context, draft, &lifted.first(), collection, path)?;
    lifted.close(context, draft)
}

/// The same, of a truth value on the left: a fault is its code, else the member's code is to be equal to it.
#[cycle(put)]
#[inline(never)]
fn put_truth_in_path_code(
    context: &SqlContext<'_, '_>,
    draft: &mut Draft,
    place: usize,
    collection: usize,
    path: usize,
) -> Result<(), AllocError>
    requires translated { IsTranslated context.now }
    requires kind { IsKindAt context.now.checked.now place NodeKind.InPath }
    requires truth { IsBooleanAt context.now.checked.now (place + 1) }
    requires second { IsStopAt context.now.checked.now (place + 1) collection }
    requires leads { IsPathTo (question_of context.now) draft.old collection path }
    ensures { OnOk result (Puts (question_of context.now) draft.old draft.new
        (OfPlace context.now.checked.now place) (IsInForm Form.Code)) }
{
    typed_trees_end_once_on_entities();
    trees_have_one_type();
    comparisons_are_decided();
    let level = draft.depth;
    draft.put(SqlNode::Let { level, count: 1 })?;
    draft.deepen(1)?;
    draft.put(SqlNode::Case)?;
    put_code_comparison(draft, ComparisonOperator::Ge)?;
    draft.put(SqlNode::Bound { level })?;
    draft.put_number(Digit::Three)?;
    draft.put(SqlNode::Bound { level })?;
    draft.put(SqlNode::TruthCode)?;
    put_unless_missing(draft, context.range(collection).may_be_null, path)?;
    let member_path = put_member_path(draft, level + 1)?;
    let member = member_of(context, collection, member_path);
    draft.put(SqlNode::Exists {
        path,
        level: level + 1,
    })?;
    draft.deepen(1)?;
    put_code_comparison(draft, ComparisonOperator::Eq)?;
    draft.put(SqlNode::TruthCode)?;
    put_operand(context, draft, &member, SqlType::Truth)?;
    draft.put(SqlNode::Bound { level })?;
    draft.depth -= 2;
    put_code(context, draft, place + 1)
}

fn put_code_comparison(draft: &mut Draft, operator: ComparisonOperator) -> Result<(), AllocError>
    ensures { OnOk result (GrowsBy draft.old draft.new
        (SqlNode.Compare operator SqlType.Whole ∷ []) [] []) }
{
    draft.put(SqlNode::Compare {
        operator,
        value_type: SqlType::Whole,
    })
}
