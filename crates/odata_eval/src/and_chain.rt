//! The walk of a whole filter. Most are chains of `and` over Boolean properties and comparisons of a property with a
//! literal or of arithmetic over such numbers, called plain terms here: such a chain is asked from its leftmost term
//! on, and left at once where a term is false. This alone takes some 135 of 1,470 instructions off a short row whose
//! second term is false. The plain terms before the first other one are asked of a context that is not kept in memory,
//! which takes off another 57 of 1,216.
ghost use Rattle.std.specs.Prelude.{◌<◌, ℕ, IfSome, IsTrue, Ok, Some};
ghost use Rattle.filter_context.specs.private.Place.{HasOperator, PartStands, TruthStands};
ghost use Rattle.odata_eval.specs.private.RemainingTerms.{IsRemaining, ReportsTerms};
ghost use Rattle.odata_eval.specs.private.WalkAnswer.{AnswersTruth};

use super::eval_context::EvalContext;
use super::kept_arithmetic::arithmetic_compared_at;
use super::kept_terms::{compared_with_literal, kept_truth_at};
use super::logical::decides;
use super::truth_walk::term_at;
use super::walk_operand::{is_class_at, right_of};
use filter_context::WalkClass;
use odata_checked_filter::NodeKind;
use odata_filter_operations::EvalFault;
use odata_syntax::{BinaryOperator, LogicalOperator};

/// The terms of a chain of `and` that are left to ask, where those before them are true.
#[derive(Clone, Copy)]
pub(crate) struct RemainingTerms {
    /// The index of the next one.
    pub term: usize,
    /// How many `and`s stand above the one that joins it; at the leftmost term, above the term.
    pub ands: usize,
}

/// What comes of the plain terms of a chain.
#[derive(Clone, Copy)]
pub(crate) enum PlainTerms {
    /// The whole chain evaluates to this.
    Decide(bool),
    /// They are true, and these terms are left.
    Leave(RemainingTerms),
}

/// What comes of the plain terms before the first other one. All of this is inlined, so that the context has no
/// address.
#[inline(always)]
pub(crate) fn ask_plain_terms(context: &EvalContext<'_, '_, '_>) -> PlainTerms
    requires stands { TruthStands context.now 0 }
    ensures { ReportsTerms context.now result }
{
    let ands = ands_end(context);
    let mut at = ands;
    let mut term = at;
    loop {
        let Some(truth) = plain_term_at(context, term) else {
            return PlainTerms::Leave(RemainingTerms { term, ands: at });
        };
        if !truth {
            return PlainTerms::Decide(false);
        }
        if at == 0 {
            return PlainTerms::Decide(true);
        }
        at -= 1;
        term = right_of(context, at);
    }
}

/// The truth value of a plain term, where that is not null.
#[inline(always)]
fn plain_term_at(context: &EvalContext<'_, '_, '_>, place: usize) -> Option<bool>
    requires stands { TruthStands context.now place }
    ensures { IfSome result (λ truth. AnswersTruth context.now place (Ok (Some truth))) }
{
    let NodeKind::Binary { operator } = context.node(place).kind else {
        return kept_truth_at(context, place);
    };
    let BinaryOperator::Comparison(comparison) = operator else {
        return None;
    };
    let _nodes = context.nodes();
    if let Some(truth) = compared_with_literal(context, place, comparison) {
        return Some(truth);
    }
    if is_class_at(context, place + 1, WalkClass::Numeric) {
        arithmetic_compared_at(context, place, comparison)
    } else {
        None
    }
}

/// What the chain evaluates to by the terms that are left. Those after a false one are left out together.
#[inline(always)]
pub(crate) fn truth_of_remaining(
    context: &EvalContext<'_, '_, '_>,
    remaining: RemainingTerms,
) -> Result<Option<bool>, EvalFault>
    requires stands { TruthStands context.now 0 }
    requires remaining { IsRemaining context.now remaining }
    ensures { AnswersTruth context.now 0 result }
{
    let mut left = term_at(context, remaining.term)?;
    if decides(LogicalOperator::And, left) {
        return Ok(left);
    }
    let mut at = remaining.ands;
    while 0 < at {
        at -= 1;
        let right_place = right_of(context, at);
        match kept_truth_at(context, right_place) {
            Some(true) => {}
            Some(false) => return Ok(Some(false)),
            None => {
                let right = term_at(context, right_place)?;
                match right {
                    Some(true) => {}
                    Some(false) => return Ok(Some(false)),
                    None => left = None,
                }
            }
        }
    }
    Ok(left)
}

/// The index of the first node that is no `and`.
#[inline(always)]
fn ands_end(context: &EvalContext<'_, '_, '_>) -> usize
    requires stands { TruthStands context.now 0 }
    ensures stands { TruthStands context.now result }
    ensures ands { (k : ℕ) → k < result → HasOperator context.now.list k (BinaryOperator.Logical LogicalOperator.And) }
{
    let _nodes = context.nodes();
    let mut place = 0;
    while is_and(context, place) {
        place += 1;
    }
    place
}

/// Whether an `and` stands there.
#[inline(always)]
fn is_and(context: &EvalContext<'_, '_, '_>, place: usize) -> bool
    requires stands { PartStands context.now place }
    ensures { IsTrue result → HasOperator context.now.list place (BinaryOperator.Logical LogicalOperator.And) }
{
    matches!(
        context.node(place).kind,
        NodeKind::Binary {
            operator: BinaryOperator::Logical(LogicalOperator::And)
        }
    )
}
