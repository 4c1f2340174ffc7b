//! Chains of `and` and of `or`, which are written as balanced trees, so that long ones do not nest deeply.
ghost use Rattle.std.specs.Prelude.{◌≡◌, ◌<◌, IfNone, IfOk, IfSome, IsTrue, OnOk, length};
ghost use Rattle.std.specs.List.{AllByRecursion};
ghost use Rattle.odata_syntax.specs.declared.binary_operator.LogicalOperator.{LogicalOperator};
ghost use Rattle.sql_forms.specs.declared.terms.Form.{Form};
ghost use Rattle.sql_outcomes.specs.private.ChainTerms.{ChainHas, IsChain, IsConnective};
ghost use Rattle.sql_forms.specs.private.Joins.{IsJoin, IsOfValues};
ghost use Rattle.sql_forms.specs.Forms.{IsInForm};
ghost use Rattle.sql_draft.specs.Translated.{IsTranslated, IsTruthAt, question_of};
ghost use Rattle.sql_outcomes.specs.private.NodesThere.{IsFaultless};
ghost use Rattle.sql_draft.specs.World.{OfPlace, Puts};

use super::code::put_code;
use super::keeps::{put_denies, put_keeps};
use super::truth::put_truth;
use odata_checked_filter::NodeKind;
use odata_meaning::typed_trees_end_once_on_entities;
use odata_signatures::trees_have_one_type;
use odata_syntax::{BinaryOperator, LogicalOperator};
use sql_draft::{Draft, SqlContext};
use sql_meaning::tables_are_connectives;
use sql_tree::SqlNode;
use std::alloc::{AllocError, Global};

/// What is put of a node of truth values.
#[derive(Clone, Copy)]
pub enum Form {
    /// Its value, of a node that evaluates to no fault.
    Truth,
    Code,
    /// A condition that is true exactly where the node is.
    Keeps,
    /// A condition that is true exactly where the node is false.
    Denies,
}

/// The connective of the node at an index, if it is one.
pub(crate) fn connective_at(context: &SqlContext<'_, '_>, place: usize) -> Option<LogicalOperator>
    requires { place < length context.now.checked.now.list.nodes }
    ensures some { IfSome result (IsConnective context.now.checked.now place) }
    ensures none { IfNone result ((connective : LogicalOperator)
        → ¬ IsConnective context.now.checked.now place connective) }
{
    match context.node(place).kind {
        NodeKind::Binary { operator } => match operator {
            BinaryOperator::Logical(connective) => Some(connective),
            _ => None,
        },
        _ => None,
    }
}

/// Whether the node at an index is that connective.
fn is_connective(context: &SqlContext<'_, '_>, place: usize, connective: LogicalOperator) -> bool
    requires { place < length context.now.checked.now.list.nodes }
    ensures is { IsTrue result → IsConnective context.now.checked.now place connective }
    ensures other { ¬ IsTrue result → ¬ IsConnective context.now.checked.now place connective }
{
    match connective_at(context, place) {
        Some(found) => found == connective,
        None => false,
    }
}

/// The terms of the chain of a connective that the node at an index is the top of, from the left.
pub(crate) fn terms_of(
    alloc: Global,
    context: &SqlContext<'_, '_>,
    connective: LogicalOperator,
    place: usize,
) -> Result<Vec<usize>, AllocError>
    requires translated { IsTranslated context.now }
    requires there { place < length context.now.checked.now.list.nodes }
    requires top { IsConnective context.now.checked.now place connective }
    ensures { IfOk result (λ terms. IsChain (question_of context.now) connective place terms.items) }
{
    typed_trees_end_once_on_entities();
    trees_have_one_type();
    let mut terms = Vec::new(alloc);
    let mut at = place;
    while is_connective(context, at, connective) {
        terms.push(context.second(at))?;
        at += 1;
    }
    terms.push(at)?;
    terms.reverse();
    Ok(terms)
}

/// Puts a node of truth values in a form.
#[cycle(put)]
pub(crate) fn put_form(
    context: &SqlContext<'_, '_>,
    draft: &mut Draft,
    form: Form,
    place: usize,
) -> Result<(), AllocError>
    requires translated { IsTranslated context.now }
    requires truth { IsTruthAt context.now.checked.now place }
    requires faultless { form ≡ Form.Truth → IsFaultless context.now.ranges.now place }
    ensures { OnOk result (Puts (question_of context.now) draft.old draft.new
        (OfPlace context.now.checked.now place) (IsInForm form)) }
{
    match form {
        Form::Truth => put_truth(context, draft, place),
        Form::Code => put_code(context, draft, place),
        Form::Keeps => put_keeps(context, draft, place),
        Form::Denies => put_denies(context, draft, place),
    }
}

/// Puts terms in a form, joined by a node, as a balanced tree.
#[cycle(put)]
pub(crate) fn put_joined(
    context: &SqlContext<'_, '_>,
    draft: &mut Draft,
    form: Form,
    join: &SqlNode,
    terms: &[usize],
) -> Result<(), AllocError>
    requires translated { IsTranslated context.now }
    requires some { 0 < length terms.now }
    requires truths { AllByRecursion (IsTruthAt context.now.checked.now) terms.now }
    requires faultless { IsOfValues form join.now → AllByRecursion (IsFaultless context.now.ranges.now) terms.now }
    requires joins { (connective : LogicalOperator) × IsJoin form join.now connective }
    ensures { (connective : LogicalOperator) → IsJoin form join.now connective
        → OnOk result (Puts (question_of context.now)
        draft.old draft.new (ChainHas context.now.checked.now connective terms.now) (IsInForm form)) }
{
    tables_are_connectives();
    if terms.len() == 1 {
        return put_form(context, draft, form, terms[0]);
    }
    let (front, rest) = terms.split_at(terms.len() / 2);
    draft.put(*join)?;
    put_joined(context, draft, form, join, front)?;
    put_joined(context, draft, form, join, rest)
}
