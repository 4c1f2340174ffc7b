//! Conditions that are true exactly where a node is true, or false: what `WHERE` takes, and what an index helps.
ghost use Rattle.std.specs.Prelude.{◌≡◌, ◌<◌, ◌≤◌, ◌∷◌, [], ℕ, OnOk, Some, length, slice_get};
ghost use Rattle.std.specs.List.{AllByRecursion};
ghost use Rattle.odata_syntax.specs.declared.binary_operator.ComparisonOperator.{ComparisonOperator};
ghost use Rattle.sql_tree.specs.declared.sql_node.SqlNode.{SqlNode};
ghost use Rattle.sql_tree.specs.declared.sql_node.SqlType.{SqlType};
ghost use Rattle.sql_forms.specs.declared.terms.Form.{Form};
ghost use Rattle.sql_outcomes.specs.private.ChainTerms.{ChainHas};
ghost use Rattle.sql_forms.specs.private.Joins.{IsJoin};
ghost use Rattle.sql_forms.specs.Forms.{IsInForm};
ghost use Rattle.sql_forms.specs.private.AskedForms.{IsAskedCode, asked_digit};
ghost use Rattle.sql_draft.specs.Growth.{GrowsBy};
ghost use Rattle.sql_draft.specs.Translated.{IsTranslated, IsTruthAt, question_of};
ghost use Rattle.sql_outcomes.specs.private.NodesThere.{IsFaultless};
ghost use Rattle.sql_draft.specs.World.{OfPlace, Puts};

use super::call_forms::is_kind;
use super::code::{code_join, put_code};
use super::comparison_forms::{put_denied_comparison, put_kept_comparison};
use super::in_path::put_kept_in_path;
use super::lambda::put_kept_lambda;
use super::list_forms::put_kept_list;
use super::terms::{Form, connective_at, put_form, put_joined, terms_of};
use super::truth::{compared_at, put_truth};
use odata_checked_filter::NodeKind;
use odata_meaning::typed_trees_end_once_on_entities;
use odata_signatures::trees_have_one_type;
use odata_syntax::{ComparisonOperator, LogicalOperator};
use sql_draft::{Draft, Kind, SqlContext};
use sql_meaning::tables_are_connectives;
use sql_tree::{Digit, SqlNode, SqlType};
use std::alloc::AllocError;

/// Puts a condition that is true exactly where the node at an index is true.
#[cycle(put)]
pub fn put_keeps(
    context: &SqlContext<'_, '_>,
    draft: &mut Draft,
    place: usize,
) -> Result<(), AllocError>
    requires translated { IsTranslated context.now }
    requires truth { IsTruthAt context.now.checked.now place }
    ensures { OnOk result (Puts (question_of context.now) draft.old draft.new
        (OfPlace context.now.checked.now place) (IsInForm Form.Keeps)) }
{
    typed_trees_end_once_on_entities();
    trees_have_one_type();
    if is_kind(context.kind(place), Kind::Null) {
        return draft.put(SqlNode::Truth { value: false });
    }
    if let NodeKind::Not = context.node(place).kind {
        return put_denies(context, draft, place + 1);
    }
    if let Some(connective) = connective_at(context, place) {
        let terms = terms_of(draft.alloc, context, connective, place)?;
        return match connective {
            LogicalOperator::And => {
                put_joined(context, draft, Form::Keeps, &SqlNode::And, terms.as_slice())
            }
            LogicalOperator::Or => put_decided(
                context,
                draft,
                connective,
                Form::Keeps,
                terms.as_slice(),
            ),
        };
    }
    if context.may_fault(place) {
        return put_has_code(context, draft, Form::Keeps, place);
    }
    if let Some((operator, left, right)) = compared_at(context, place) {
        return put_kept_comparison(context, draft, operator, &left, &right);
    }
    match context.node(place).kind {
        NodeKind::InList => put_kept_list(context, draft, place),
        NodeKind::InPath => put_kept_in_path(context, draft, place),
        NodeKind::Lambda { quantifier } => put_kept_lambda(context, draft, place, quantifier),
        _ => put_truth(context, draft, place),
    }
}

/// Puts a condition that is true exactly where the node at an index is false.
#[cycle(put)]
pub(crate) fn put_denies(
    context: &SqlContext<'_, '_>,
    draft: &mut Draft,
    place: usize,
) -> Result<(), AllocError>
    requires translated { IsTranslated context.now }
    requires truth { IsTruthAt context.now.checked.now place }
    ensures { OnOk result (Puts (question_of context.now) draft.old draft.new
        (OfPlace context.now.checked.now place) (IsInForm Form.Denies)) }
{
    typed_trees_end_once_on_entities();
    trees_have_one_type();
    if is_kind(context.kind(place), Kind::Null) {
        return draft.put(SqlNode::Truth { value: false });
    }
    if let NodeKind::Not = context.node(place).kind {
        return put_keeps(context, draft, place + 1);
    }
    if let Some(connective) = connective_at(context, place) {
        let terms = terms_of(draft.alloc, context, connective, place)?;
        return match connective {
            LogicalOperator::Or => {
                put_joined(
                    context,
                    draft,
                    Form::Denies,
                    &SqlNode::And,
                    terms.as_slice(),
                )
            }
            LogicalOperator::And => {
                put_decided(context, draft, connective, Form::Denies, terms.as_slice())
            }
        };
    }
    if context.may_fault(place) {
        return put_has_code(context, draft, Form::Denies, place);
    }
    if let Some((operator, left, right)) = compared_at(context, place) {
        return put_denied_comparison(context, draft, operator, &left, &right);
    }
    draft.put(SqlNode::Not)?;
    put_truth(context, draft, place)
}

/// The code that a form asks for.
fn asked_code(form: Form) -> Digit
    ensures { result ≡ asked_digit form }
{
    match form {
        Form::Denies => Digit::Zero,
        Form::Truth | Form::Code | Form::Keeps => Digit::One,
    }
}

/// Puts whether the code of the node at an index is the one that the form asks for.
#[cycle(put)]
#[inline(never)]
fn put_has_code(
    context: &SqlContext<'_, '_>,
    draft: &mut Draft,
    form: Form,
    place: usize,
) -> Result<(), AllocError>
    requires translated { IsTranslated context.now }
    requires truth { IsTruthAt context.now.checked.now place }
    requires asked { IsAskedCode form }
    ensures { OnOk result (Puts (question_of context.now) draft.old draft.new
        (OfPlace context.now.checked.now place) (IsInForm form)) }
{
    typed_trees_end_once_on_entities();
    put_is_code(draft)?;
    put_code(context, draft, place)?;
    draft.put_number(asked_code(form))
}

fn put_is_code(draft: &mut Draft) -> Result<(), AllocError>
    ensures { OnOk result (GrowsBy draft.old draft.new
        (SqlNode.Compare ComparisonOperator.Eq SqlType.Whole ∷ []) [] []) }
{
    draft.put(SqlNode::Compare {
        operator: ComparisonOperator::Eq,
        value_type: SqlType::Whole,
    })
}

/// How many terms of a chain stand before the first that may be a fault.
fn faultless_terms(context: &SqlContext<'_, '_>, terms: &[usize]) -> usize
    requires ranged { AllByRecursion (λ term. term < length context.now.ranges.now) terms.now }
    ensures within { result ≤ length terms.now }
    ensures are { (k term : ℕ) → k < result → slice_get terms.now k ≡ Some term
        → IsFaultless context.now.ranges.now term }
{
    let mut count = 0;
    while count < terms.len() && !context.may_fault(terms[count]) {
        count += 1;
    }
    count
}

/// Puts whether a chain is decided by one of its terms: `or` by a true one, `and` by a false one. Up to the first term
/// that may be a fault each is asked by itself, from there on their code is.
#[cycle(put)]
fn put_decided(
    context: &SqlContext<'_, '_>,
    draft: &mut Draft,
    connective: LogicalOperator,
    form: Form,
    terms: &[usize],
) -> Result<(), AllocError>
    requires translated { IsTranslated context.now }
    requires some { 0 < length terms.now }
    requires truths { AllByRecursion (IsTruthAt context.now.checked.now) terms.now }
    requires joins { IsJoin form SqlNode.Or connective }
    requires asked { IsAskedCode form }
    ensures { OnOk result (Puts (question_of context.now) draft.old draft.new
        (ChainHas context.now.checked.now connective terms.now) (IsInForm form)) }
{
    tables_are_connectives();
    let (front, rest) = terms.split_at(faultless_terms(context, terms));
    if rest.is_empty() {
        return put_joined(context, draft, form, &SqlNode::Or, front);
    }
    if front.is_empty() {
        return put_undecided(context, draft, connective, form, rest);
    }
    draft.put(SqlNode::Or)?;
    put_joined(context, draft, form, &SqlNode::Or, front)?;
    put_undecided(context, draft, connective, form, rest)
}

/// The same by the code of the whole chain, or of its one term in the form itself.
#[cycle(put)]
fn put_undecided(
    context: &SqlContext<'_, '_>,
    draft: &mut Draft,
    connective: LogicalOperator,
    form: Form,
    terms: &[usize],
) -> Result<(), AllocError>
    requires translated { IsTranslated context.now }
    requires some { 0 < length terms.now }
    requires truths { AllByRecursion (IsTruthAt context.now.checked.now) terms.now }
    requires joins { IsJoin form SqlNode.Or connective }
    requires asked { IsAskedCode form }
    ensures { OnOk result (Puts (question_of context.now) draft.old draft.new
        (ChainHas context.now.checked.now connective terms.now) (IsInForm form)) }
{
    if terms.len() == 1 {
        return put_form(context, draft, form, terms[0]);
    }
    put_is_code(draft)?;
    put_joined(context, draft, Form::Code, &code_join(connective), terms)?;
    draft.put_number(asked_code(form))
}
