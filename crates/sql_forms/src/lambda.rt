//! `any` and `all` over the members of a collection.
ghost use Rattle.std.specs.Prelude.{◌≡◌, ◌+◌, OnOk};
ghost use Rattle.edm_values.specs.Val.{whole};
ghost use Rattle.odata_filter_operations.specs.Outcome.{gives};
ghost use Rattle.odata_checked_filter.specs.declared.checked_node.NodeKind.{NodeKind};
ghost use Rattle.sql_forms.specs.declared.terms.Form.{Form};
ghost use Rattle.sql_forms.specs.Forms.{IsInForm};
ghost use Rattle.sql_outcomes.specs.private.ValueForms.{Itself};
ghost use Rattle.sql_draft.specs.Growth.{Grows};
ghost use Rattle.sql_outcomes.specs.Members.{OverHas};
ghost use Rattle.sql_forms.specs.private.Bodies.{PutsBody, body_form, coded_undecided};
ghost use Rattle.sql_outcomes.specs.private.ItemValues.{missing_front};
ghost use Rattle.sql_draft.specs.Paths.{IsPathTo};
ghost use Rattle.sql_draft.specs.Translated.{IsKindAt, IsTranslated, IsTruthAt, question_of};
ghost use Rattle.sql_outcomes.specs.private.NodesThere.{IsFaultless};
ghost use Rattle.sql_tree.specs.Digits.{number_of};
ghost use Rattle.sql_draft.specs.World.{OfPlace, Puts};

use super::code::put_code;
use super::keeps::put_keeps;
use edm_entities::what_fits_has_its_type;
use odata_meaning::typed_trees_end_once_on_entities;
use odata_ranges::entities_are_kept;
use odata_signatures::trees_have_one_type;
use odata_syntax::Quantifier;
use sql_draft::{Draft, SqlContext, put_path};
use sql_tree::{Digit, SqlNode, SqlType};
use std::alloc::AllocError;

/// Puts a body at the member of the next level, for which the next range variable stands: as a condition that is true
/// exactly where the body is, or by its code.
#[cycle(put)]
fn put_body(
    context: &SqlContext<'_, '_>,
    draft: &mut Draft,
    body: usize,
    by_code: bool,
) -> Result<(), AllocError>
    requires translated { IsTranslated context.now }
    requires truth { IsTruthAt context.now.checked.now body }
    ensures { OnOk result (PutsBody (question_of context.now) draft.old draft.new
        (OfPlace context.now.checked.now body) (IsInForm (body_form by_code))) }
{
    let level = draft.depth;
    draft.members.push(level)?;
    draft.deepen(1)?;
    put_by(context, draft, body, by_code)?;
    draft.depth -= 1;
    let _level = draft.members.pop();
    Ok(())
}

#[cycle(put)]
fn put_by(
    context: &SqlContext<'_, '_>,
    draft: &mut Draft,
    place: usize,
    by_code: bool,
) -> Result<(), AllocError>
    requires translated { IsTranslated context.now }
    requires truth { IsTruthAt context.now.checked.now place }
    ensures { OnOk result (Puts (question_of context.now) draft.old draft.new
        (OfPlace context.now.checked.now place) (IsInForm (body_form by_code))) }
{
    if by_code {
        put_code(context, draft, place)
    } else {
        put_keeps(context, draft, place)
    }
}

/// Puts whether the members of a collection meet `any` or `all`, the body of which evaluates to no fault. Null has
/// none.
#[cycle(put)]
fn put_members(
    context: &SqlContext<'_, '_>,
    draft: &mut Draft,
    place: usize,
    quantifier: Quantifier,
    path: usize,
) -> Result<(), AllocError>
    requires translated { IsTranslated context.now }
    requires kind { IsKindAt context.now.checked.now place (NodeKind.Lambda quantifier) }
    requires faultless { IsFaultless context.now.ranges.now place }
    requires leads { IsPathTo (question_of context.now) draft.old (place + 1) path }
    ensures { OnOk result (Puts (question_of context.now) draft.old draft.new
        (OverHas context.now.checked.now quantifier place) Itself) }
{
    typed_trees_end_once_on_entities();
    trees_have_one_type();
    let level = draft.depth;
    let body = context.second(place);
    match quantifier {
        Quantifier::Any => {
            draft.put(SqlNode::Exists { path, level })?;
            put_body(context, draft, body, false)
        }
        Quantifier::All => {
            draft.put(SqlNode::Not)?;
            draft.put(SqlNode::Exists { path, level })?;
            draft.put(SqlNode::Not)?;
            draft.put(SqlNode::IsTrue)?;
            put_body(context, draft, body, false)
        }
    }
}

/// Puts that what follows is null where the collection at a path is, if it may be.
pub(crate) fn put_unless_missing(
    draft: &mut Draft,
    may_be_null: bool,
    path: usize,
) -> Result<(), AllocError>
    ensures { OnOk result (Grows draft.old draft.new (missing_front may_be_null path)) }
{
    if may_be_null {
        draft.put(SqlNode::Case)?;
        draft.put(SqlNode::IsMissing { path })?;
        draft.put(SqlNode::Null {
            value_type: SqlType::Truth,
        })?;
    }
    Ok(())
}

/// Puts the value of a lambda operator that evaluates to no fault.
#[cycle(put)]
#[inline(never)]
pub(crate) fn put_lambda(
    context: &SqlContext<'_, '_>,
    draft: &mut Draft,
    place: usize,
    quantifier: Quantifier,
) -> Result<(), AllocError>
    requires translated { IsTranslated context.now }
    requires kind { IsKindAt context.now.checked.now place (NodeKind.Lambda quantifier) }
    requires faultless { IsFaultless context.now.ranges.now place }
    ensures { OnOk result (Puts (question_of context.now) draft.old draft.new
        (OfPlace context.now.checked.now place) (IsInForm Form.Truth)) }
{
    typed_trees_end_once_on_entities();
    trees_have_one_type();
    entities_are_kept();
    what_fits_has_its_type();
    let path = put_path(context, draft, place + 1)?;
    put_unless_missing(draft, context.range(place + 1).may_be_null, path)?;
    put_members(context, draft, place, quantifier, path)
}

/// Puts a condition that is true exactly where a lambda operator is, which evaluates to no fault.
#[cycle(put)]
#[inline(never)]
pub(crate) fn put_kept_lambda(
    context: &SqlContext<'_, '_>,
    draft: &mut Draft,
    place: usize,
    quantifier: Quantifier,
) -> Result<(), AllocError>
    requires translated { IsTranslated context.now }
    requires kind { IsKindAt context.now.checked.now place (NodeKind.Lambda quantifier) }
    requires faultless { IsFaultless context.now.ranges.now place }
    ensures { OnOk result (Puts (question_of context.now) draft.old draft.new
        (OfPlace context.now.checked.now place) (IsInForm Form.Keeps)) }
{
    typed_trees_end_once_on_entities();
    trees_have_one_type();
    entities_are_kept();
    what_fits_has_its_type();
    let path = put_path(context, draft, place + 1)?;
    if quantifier == Quantifier::All && context.range(place + 1).may_be_null {
        draft.put(SqlNode::And)?;
        draft.put(SqlNode::Not)?;
        draft.put(SqlNode::IsMissing { path })?;
        return put_members(context, draft, place, quantifier, path);
    }
    put_members(context, draft, place, quantifier, path)
}

/// Puts the code of a lambda operator whose body may evaluate to a fault: that of the first member that decides.
#[cycle(put)]
#[inline(never)]
pub(crate) fn put_lambda_code(
    context: &SqlContext<'_, '_>,
    draft: &mut Draft,
    place: usize,
    quantifier: Quantifier,
) -> Result<(), AllocError>
    requires translated { IsTranslated context.now }
    requires kind { IsKindAt context.now.checked.now place (NodeKind.Lambda quantifier) }
    ensures { OnOk result (Puts (question_of context.now) draft.old draft.new
        (OfPlace context.now.checked.now place) (IsInForm Form.Code)) }
{
    typed_trees_end_once_on_entities();
    trees_have_one_type();
    entities_are_kept();
    what_fits_has_its_type();
    let path = put_path(context, draft, place + 1)?;
    if context.range(place + 1).may_be_null {
        draft.put(SqlNode::Case)?;
        draft.put(SqlNode::IsMissing { path })?;
        draft.put_number(Digit::Two)?;
        return put_decided_member(context, draft, place, quantifier, path);
    }
    put_decided_member(context, draft, place, quantifier, path)
}

/// The code of `any` or `all` where it is undecided.
fn undecided_code(quantifier: Quantifier) -> Digit
    ensures { gives (whole (number_of result)) ≡ coded_undecided quantifier }
{
    match quantifier {
        Quantifier::Any => Digit::Zero,
        Quantifier::All => Digit::One,
    }
}

/// Puts the code of the first member that decides, and else what is undecided. Null has no members.
#[cycle(put)]
fn put_decided_member(
    context: &SqlContext<'_, '_>,
    draft: &mut Draft,
    place: usize,
    quantifier: Quantifier,
    path: usize,
) -> Result<(), AllocError>
    requires translated { IsTranslated context.now }
    requires kind { IsKindAt context.now.checked.now place (NodeKind.Lambda quantifier) }
    requires leads { IsPathTo (question_of context.now) draft.old (place + 1) path }
    ensures { OnOk result (Puts (question_of context.now) draft.old draft.new
        (OverHas context.now.checked.now quantifier place) (IsInForm Form.Code)) }
{
    typed_trees_end_once_on_entities();
    trees_have_one_type();
    let level = draft.depth;
    let body = context.second(place);
    draft.put(SqlNode::Coalesce)?;
    draft.put(SqlNode::Bits)?;
    draft.put(SqlNode::Least { path, level })?;
    draft.put(SqlNode::Decided { quantifier, level })?;
    put_body(context, draft, body, true)?;
    draft.put_number(Digit::Seven)?;
    draft.put_number(undecided_code(quantifier))
}
