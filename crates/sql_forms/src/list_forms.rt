//! `in` before a list.
ghost use Rattle.std.specs.Prelude.{◌≡◌, ◌<◌, ◌≤◌, ◌+◌, ◌++◌, ◌∷◌, ◌↔◌, [], ℕ, IfOk, IsTrue, OnOk, false, length};
ghost use Rattle.std.specs.List.{AllByRecursion};
ghost use Rattle.sql_tree.specs.declared.sql_node.SqlType.{SqlType};
ghost use Rattle.odata_checked_filter.specs.declared.checked_node.NodeKind.{NodeKind};
ghost use Rattle.sql_draft.specs.declared.sql_operand.Operand.{Operand};
ghost use Rattle.sql_draft.specs.declared.sql_context.Kind.{Kind};
ghost use Rattle.sql_forms.specs.declared.terms.Form.{Form};
ghost use Rattle.sql_outcomes.specs.private.FaultySides.{IsFaulty};
ghost use Rattle.sql_forms.specs.Forms.{IsInForm};
ghost use Rattle.sql_outcomes.specs.private.ValueForms.{Itself};
ghost use Rattle.sql_draft.specs.Kinds.{AreCompared};
ghost use Rattle.sql_forms.specs.private.Lifts.{IsLifted};
ghost use Rattle.sql_forms.specs.private.Lists.{AmongHas, AreConstants};
ghost use Rattle.sql_outcomes.specs.private.ItemValues.{AreBeside};
ghost use Rattle.sql_outcomes.specs.Items.{AreItemsOf};
ghost use Rattle.sql_forms.specs.private.Lists.{AsCode, EqualCodesOrNull, kept_form};
ghost use Rattle.sql_outcomes.specs.private.ItemValues.{EqualsHas};
ghost use Rattle.sql_draft.specs.OperandHas.{IsInside, IsSideAt};
ghost use Rattle.sql_draft.specs.Translated.{IsKindAt, IsTranslated, question_of};
ghost use Rattle.sql_outcomes.specs.private.NodesThere.{IsBooleanAt, IsFaultless};
ghost use Rattle.sql_draft.specs.World.{OfPlace, Puts};

use super::code::{put_code, put_compared_code};
use super::comparison_forms::{compared_type, put_comparison, put_kept_comparison};
use super::lift::{Lifted, bind_operands};
use super::operand_forms::put_compared;
use odata_checked_filter::NodeKind;
use odata_functions::comparisons_are_decided;
use odata_meaning::typed_trees_end_once_on_entities;
use odata_ranges::Range;
use odata_signatures::{quoted_texts_have_one_number, trees_have_one_type};
use odata_syntax::ComparisonOperator;
use sql_draft::{Draft, Kind, Operand, Source, SqlContext};
use sql_meaning::tables_are_connectives;
use sql_tree::{Digit, LookUp, SqlNode, SqlType};
use std::alloc::AllocError;

/// The items of the list at an index.
fn items_of(
    context: &SqlContext<'_, '_>,
    draft: &Draft,
    place: usize,
) -> Result<Vec<Operand>, AllocError>
    requires translated { IsTranslated context.now }
    requires list { IsKindAt context.now.checked.now place NodeKind.InList }
    ensures items { IfOk result (λ items. AreItemsOf context.now.checked.now context.now.ranges.now place items.items) }
    ensures few { IfOk result (λ items. length items.items ≤ length context.now.checked.now.list.nodes) }
{
    let mut items = Vec::new(draft.alloc);
    let stop = context.node(place).stop;
    let mut at = context.second(place);
    while at < stop {
        push_side(context, &mut items, at)?;
        at = context.node(at).stop;
    }
    Ok(items)
}

/// Pushes the item at an index.
fn push_side(
    context: &SqlContext<'_, '_>,
    items: &mut Vec<Operand>,
    place: usize,
) -> Result<(), AllocError>
    requires there { place < length context.now.checked.now.list.nodes }
    requires ranged { place < length context.now.ranges.now }
    ensures { OnOk result ((side : Operand) × IsSideAt context.now.checked.now context.now.ranges.now place side
        × (items.new.items ≡ items.old.items ++ (side ∷ []))) }
{
    match context.number_at(place) {
        Some(value) => {
            items.push(Operand {
                source: Source::Number { value },
                kind: Kind::Value(SqlType::Member),
                range: Range::plain(false),
            })?;
            Ok(())
        }
        None => {
            items.push(Operand {
                source: Source::Node { place },
                kind: context.kind(place),
                range: context.range(place),
            })?;
            Ok(())
        }
    }
}

/// Whether all items are values that the filter itself has, none of them null, and the left side is one of SQL's.
fn is_of_constants(context: &SqlContext<'_, '_>, left: &Operand, items: &[Operand]) -> bool
    requires translated { IsTranslated context.now }
    requires items { (place : ℕ) × IsKindAt context.now.checked.now place NodeKind.InList
        × AreItemsOf context.now.checked.now context.now.ranges.now place items.now }
    ensures { IsTrue result → AreConstants context.now.checked.now left.now items.now }
{
    let mut all = is_value(left) && !left.is_truth();
    for item in items.iter() {
        all = all
            && !item.is_null()
            && match item.source {
                Source::Number { .. } => true,
                Source::Node { place } => match context.node(place).kind {
                    NodeKind::Literal { .. } => true,
                    _ => false,
                },
                _ => false,
            };
    }
    all && !items.is_empty()
}

/// Puts SQL's own list, null where the left side is null.
#[cycle(put)]
fn put_among(
    context: &SqlContext<'_, '_>,
    draft: &mut Draft,
    left: &Operand,
    items: &[Operand],
) -> Result<(), AllocError>
    requires translated { IsTranslated context.now }
    requires constants { AreConstants context.now.checked.now left.now items.now }
    requires beside { AreBeside context.now.checked.now context.now.ranges.now left.now items.now }
    ensures { OnOk result (Puts (question_of context.now) draft.old draft.new
        (AmongHas context.now.checked.now left.now items.now) Itself) }
{
    draft.put(SqlNode::Among {
        count: items.len(),
        value_type: compared_type(left),
    })?;
    put_compared(context, draft, left)?;
    for place in 0..items.len() {
        put_compared(context, draft, &items[place])?;
    }
    Ok(())
}

/// Puts whether the left side is equal to one of the items, as a balanced tree.
#[cycle(put)]
fn put_equal_to_one(
    context: &SqlContext<'_, '_>,
    draft: &mut Draft,
    kept: bool,
    left: &Operand,
    items: &[Operand],
) -> Result<(), AllocError>
    requires translated { IsTranslated context.now }
    requires beside { AreBeside context.now.checked.now context.now.ranges.now left.now items.now }
    ensures { OnOk result (Puts (question_of context.now) draft.old draft.new
        (EqualsHas context.now.checked.now left.now items.now) (IsInForm (kept_form kept))) }
{
    if items.is_empty() {
        return draft.put(SqlNode::Truth { value: false });
    }
    if items.len() == 1 {
        return if kept {
            put_kept_comparison(context, draft, ComparisonOperator::Eq, left, &items[0])
        } else {
            put_comparison(context, draft, ComparisonOperator::Eq, left, &items[0])
        };
    }
    let (front, rest) = items.split_at(items.len() / 2);
    draft.put(SqlNode::Or)?;
    put_equal_to_one(context, draft, kept, left, front)?;
    put_equal_to_one(context, draft, kept, left, rest)
}

/// Puts the value of `in` before a list that evaluates to no fault.
#[cycle(put)]
#[inline(never)]
pub(crate) fn put_list(
    context: &SqlContext<'_, '_>,
    draft: &mut Draft,
    place: usize,
) -> Result<(), AllocError>
    requires translated { IsTranslated context.now }
    requires list { IsKindAt context.now.checked.now place NodeKind.InList }
    requires faultless { IsFaultless context.now.ranges.now place }
    ensures { OnOk result (Puts (question_of context.now) draft.old draft.new
        (OfPlace context.now.checked.now place) (IsInForm Form.Truth)) }
{
    typed_trees_end_once_on_entities();
    trees_have_one_type();
    quoted_texts_have_one_number();
    comparisons_are_decided();
    let items = items_of(context, draft, place)?;
    let left = Operand::at(context, place + 1);
    if is_of_constants(context, &left, items.as_slice()) {
        if left.range.may_be_null {
            draft.put(SqlNode::IsTrue)?;
        }
        return put_among(context, draft, &left, items.as_slice());
    }
    put_over_left(context, draft, false, &left, items.as_slice())
}

/// Puts a condition that is true exactly where the list has the left side.
#[cycle(put)]
#[inline(never)]
pub(crate) fn put_kept_list(
    context: &SqlContext<'_, '_>,
    draft: &mut Draft,
    place: usize,
) -> Result<(), AllocError>
    requires translated { IsTranslated context.now }
    requires list { IsKindAt context.now.checked.now place NodeKind.InList }
    requires faultless { IsFaultless context.now.ranges.now place }
    ensures { OnOk result (Puts (question_of context.now) draft.old draft.new
        (OfPlace context.now.checked.now place) (IsInForm Form.Keeps)) }
{
    typed_trees_end_once_on_entities();
    trees_have_one_type();
    quoted_texts_have_one_number();
    comparisons_are_decided();
    let items = items_of(context, draft, place)?;
    let left = Operand::at(context, place + 1);
    if is_of_constants(context, &left, items.as_slice()) {
        return put_among(context, draft, &left, items.as_slice());
    }
    put_over_left(context, draft, true, &left, items.as_slice())
}

/// Puts whether the left side, which is computed once, is equal to one of the items.
#[cycle(put)]
#[inline(never)]
fn put_over_left(
    context: &SqlContext<'_, '_>,
    draft: &mut Draft,
    kept: bool,
    left: &Operand,
    items: &[Operand],
) -> Result<(), AllocError>
    requires translated { IsTranslated context.now }
    requires beside { AreBeside context.now.checked.now context.now.ranges.now left.now items.now }
    requires inside { IsInside context.now.checked.now left.now.source }
    requires faultless { left.now.range.may_fault ≡ false }
    ensures { OnOk result (Puts (question_of context.now) draft.old draft.new
        (EqualsHas context.now.checked.now left.now items.now) (IsInForm (kept_form kept))) }
{
    if !is_value(left) {
        return put_equal_to_one(context, draft, kept, left, items);
    }
    let lifted = lifted_left(context, draft, left)?;
    lifted.open(draft)?;
    put_equal_to_one(context, draft, kept, &lifted.first(), items)?;
    lifted.close(context, draft)
}

/// Whether an operand is one of SQL's values; a null and a structured value are none, and evaluate to no fault.
pub(crate) fn is_value(operand: &Operand) -> bool
    ensures { IsTrue result ↔ ((type : SqlType) × (operand.now.kind ≡ Kind.Value type)) }
{
    match operand.kind {
        Kind::Value(_) => true,
        _ => false,
    }
}

/// The left side, a value that is bound unless writing it more than once costs nothing.
pub(crate) fn lifted_left(
    context: &SqlContext<'_, '_>,
    draft: &Draft,
    left: &Operand,
) -> Result<Lifted, AllocError>
    requires inside { IsInside context.now.checked.now left.now.source }
    requires value { (type : SqlType) × (left.now.kind ≡ Kind.Value type) }
    ensures { IfOk result (IsLifted (left.now ∷ []) draft.now.depth) }
{
    bind_operands(context, draft, &[*left], true)
}

/// Puts the code of `in` before a list that may evaluate to a fault.
#[cycle(put)]
#[inline(never)]
pub(crate) fn put_list_code(
    context: &SqlContext<'_, '_>,
    draft: &mut Draft,
    place: usize,
) -> Result<(), AllocError>
    requires translated { IsTranslated context.now }
    requires list { IsKindAt context.now.checked.now place NodeKind.InList }
    ensures { OnOk result (Puts (question_of context.now) draft.old draft.new
        (OfPlace context.now.checked.now place) (IsInForm Form.Code)) }
{
    typed_trees_end_once_on_entities();
    trees_have_one_type();
    quoted_texts_have_one_number();
    comparisons_are_decided();
    let items = items_of(context, draft, place)?;
    let left = Operand::at(context, place + 1);
    if left.is_truth() {
        return put_truth_list_code(context, draft, place, items.as_slice());
    }
    if !is_value(&left) {
        return put_codes(context, draft, &left, items.as_slice());
    }
    let lifted = lifted_left(context, draft, &left)?;
    lifted.open(draft)?;
    lifted.put_faults(draft, None)?;
    put_codes(context, draft, &lifted.first(), items.as_slice())?;
    lifted.close(context, draft)
}

/// Puts the code of whether the left side is equal to one of the items, of which there may be none.
#[cycle(put)]
fn put_codes(
    context: &SqlContext<'_, '_>,
    draft: &mut Draft,
    left: &Operand,
    items: &[Operand],
) -> Result<(), AllocError>
    requires translated { IsTranslated context.now }
    requires left { IsFaulty context.now.checked.now context.now.ranges.now left.now }
    requires items { AllByRecursion (IsFaulty context.now.checked.now context.now.ranges.now) items.now }
    requires compared { AllByRecursion (λ item. AreCompared left.now.kind item.kind) items.now }
    ensures { OnOk result (Puts (question_of context.now) draft.old draft.new
        (EqualCodesOrNull context.now.checked.now left.now items.now) AsCode) }
{
    if items.is_empty() {
        return draft.put_number(Digit::Zero);
    }
    put_equal_codes(context, draft, left, items)
}

/// The same, of a truth value on the left, which is bound by its code.
#[cycle(put)]
#[inline(never)]
fn put_truth_list_code(
    context: &SqlContext<'_, '_>,
    draft: &mut Draft,
    place: usize,
    items: &[Operand],
) -> Result<(), AllocError>
    requires translated { IsTranslated context.now }
    requires list { IsKindAt context.now.checked.now place NodeKind.InList
        × AreItemsOf context.now.checked.now context.now.ranges.now place items.now }
    requires truth { IsBooleanAt context.now.checked.now (place + 1) }
    ensures { OnOk result (Puts (question_of context.now) draft.old draft.new
        (OfPlace context.now.checked.now place) (IsInForm Form.Code)) }
{
    typed_trees_end_once_on_entities();
    trees_have_one_type();
    quoted_texts_have_one_number();
    comparisons_are_decided();
    if items.is_empty() {
        draft.put(SqlNode::LookUp {
            table: LookUp::Never,
        })?;
        return put_code(context, draft, place + 1);
    }
    let level = draft.depth;
    draft.put(SqlNode::Let { level, count: 1 })?;
    draft.deepen(1)?;
    let bound = Operand {
        source: Source::Bound { level },
        kind: Kind::Value(SqlType::Truth),
        range: context.range(place + 1),
    };
    put_equal_codes(context, draft, &bound, items)?;
    draft.depth -= 1;
    put_code(context, draft, place + 1)
}

/// Puts the code of whether the left side is equal to one of the items, the first one deciding.
#[cycle(put)]
fn put_equal_codes(
    context: &SqlContext<'_, '_>,
    draft: &mut Draft,
    left: &Operand,
    items: &[Operand],
) -> Result<(), AllocError>
    requires translated { IsTranslated context.now }
    requires left { IsFaulty context.now.checked.now context.now.ranges.now left.now }
    requires items { AllByRecursion (IsFaulty context.now.checked.now context.now.ranges.now) items.now }
    requires compared { AllByRecursion (λ item. AreCompared left.now.kind item.kind) items.now }
    requires some { 0 < length items.now }
    ensures { OnOk result (Puts (question_of context.now) draft.old draft.new
        (EqualCodesOrNull context.now.checked.now left.now items.now) AsCode) }
{
    tables_are_connectives();
    if items.len() == 1 {
        return put_compared_code(context, draft, ComparisonOperator::Eq, left, &items[0]);
    }
    let (front, rest) = items.split_at(items.len() / 2);
    draft.put(SqlNode::LookUp { table: LookUp::Or })?;
    put_equal_codes(context, draft, left, front)?;
    put_equal_codes(context, draft, left, rest)
}
