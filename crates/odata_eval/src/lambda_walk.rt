//! The walk where a lambda operator stands: its body is asked of each member, by a context with one variable more.
ghost use Rattle.std.specs.Prelude.{◌≡◌, ◌+◌, ◌↔◌, IsTrue, None, Ok};
ghost use Rattle.std.specs.List.{AllByRecursion};
ghost use Rattle.edm_values.specs.Val.{boolean};
ghost use Rattle.odata_checked_filter.specs.declared.checked_node.NodeKind.{NodeKind as Kind};
ghost use Rattle.odata_filter_operations.specs.QuantifierGives.{IsUndecided, undecided_val};
ghost use Rattle.odata_filter_operations.specs.TruthGives.{truth_val};
ghost use Rattle.odata_eval.specs.private.Lambda.{BodyIsThere, Suits};
ghost use Rattle.filter_context.specs.private.Place.{HasKind, PartStands};
ghost use Rattle.odata_eval.specs.private.Spending.{CountedDatum, CountedMembers, SpendsMembers, SpendsRest, datum_stop, stopped_by};
ghost use Rattle.odata_eval.specs.private.WalkAnswer.{AnswersDatum};

use super::budget::Counting;
use super::eval_context::EvalContext;
use super::stop::EvalStop;
use super::truth_walk::side_at;
use super::walk_operand::right_of;
use edm_values::{Datum, Value};
use filter_context::RangeVariable;
use odata_filter_operations::datum_of_truth;
use odata_signatures::trees_have_one_type;
use odata_syntax::Quantifier;

/// Whether the body's value at one member leaves the operator undecided.
#[inline(always)]
fn is_undecided(quantifier: Quantifier, truth: Option<bool>) -> bool
    ensures { IsTrue result ↔ IsUndecided quantifier (truth_val truth) }
{
    match quantifier {
        Quantifier::Any => !matches!(truth, Some(true)),
        Quantifier::All => matches!(truth, Some(true)),
    }
}

/// What the operator evaluates to where no member decides.
fn undecided(quantifier: Quantifier) -> bool
    ensures { boolean result ≡ undecided_val quantifier }
{
    matches!(quantifier, Quantifier::All)
}

/// The body of a lambda operator: which one it is of, and where it stands.
#[derive(Clone, Copy)]
struct Body {
    quantifier: Quantifier,
    place: usize,
}

/// What a lambda operator evaluates to, whose base has been answered. Over null it is null.
#[cycle(evaluate)]
#[inline(never)]
pub(crate) fn lambda_at<'e, B: Counting>(
    context: &EvalContext<'e, '_, '_>,
    place: usize,
    quantifier: Quantifier,
    base: Datum<'e>,
    budget: &mut B,
) -> Result<Datum<'e>, EvalStop>
    requires stands { PartStands context.now place }
    requires here { HasKind context.now.list place (Kind.Lambda quantifier) }
    requires first { AnswersDatum context.now (place + 1) (Ok base) }
    ensures answers { CountedDatum context.now place result }
    ensures spent { SpendsRest context.now place (B.left budget.old) None (B.left budget.new) (datum_stop result) }
{
    context.ends_once();
    trees_have_one_type();
    let members = match base {
        Datum::List(members) => members,
        _ => return Ok(Datum::Null),
    };
    let variable = context.variable_bound(place);
    let body = Body {
        quantifier,
        place: right_of(context, place),
    };
    match members_at(&*context, body, &variable, members, budget) {
        Ok(truth) => Ok(datum_of_truth(truth)),
        Err(stop) => Err(stop),
    }
}

/// What it evaluates to over members. Members after the one that decides, or has a fault, are left out.
#[cycle(evaluate)]
fn members_at<'f, B: Counting>(
    context: &'f EvalContext<'f, '_, '_>,
    body: Body,
    variable: &'f RangeVariable<'f>,
    members: &'f [Value],
    budget: &mut B,
) -> Result<Option<bool>, EvalStop>
    requires body { BodyIsThere context.now variable.now body.place }
    requires suit { AllByRecursion (Suits context.now variable.now) members.now }
    ensures answers { CountedMembers context.now body.place body.quantifier variable.now members.now result }
    ensures spent { SpendsMembers context.now body.place body.quantifier variable.now members.now
        (B.left budget.old) (B.left budget.new) (stopped_by result) }
{
    let mut bound = context.copy();
    for at in 0..members.len() {
        if !budget.take(1) {
            return Err(EvalStop::TooCostly);
        }
        bound.bind(context, variable, &members[at]);
        bound.ends_once();
        match side_at(&bound, body.place, budget) {
            Ok(truth) => {
                if !is_undecided(body.quantifier, truth) {
                    return Ok(Some(!undecided(body.quantifier)));
                }
            }
            Err(stop) => return Err(stop),
        }
    }
    Ok(Some(undecided(body.quantifier)))
}
