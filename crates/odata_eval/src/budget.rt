//! What a walk may still ask for: bodies of lambda operators, values compared after `in` within them, and KiB of texts.
ghost use Rattle.std.specs.Prelude.{◌≡◌, ◌≢◌, IsFalse};
ghost use Rattle.odata_filter_operations.specs.Collections.{AreCompared, AreComparedIn};
ghost use Rattle.odata_meaning.specs.Costs.{item_cost};
ghost use Rattle.filter_context.specs.private.ContextModel.{environment_of};
ghost use Rattle.odata_eval.specs.private.Spending.{IsTaken, datum_as_stop, members_due, number_as_stop, path_due};

use super::eval_context::EvalContext;
use super::stop::EvalStop;
use edm_values::{Datum, Value};
use odata_filter_operations::{EvalFault, comparison_cost, datum_of};

/// What is left of a bound, or that there is none.
#[derive(Clone, Copy)]
pub(crate) enum Budget {
    Unbounded,
    Left(u64),
}

/// What a walk counts by.
pub(crate) trait Counting: Copy {
    ghost use Rattle.odata_eval.specs.declared.budget.Budget.{Budget};

    // what is left of its bound
    ghost left: { Self → Budget };

    /// Whether it may have a bound.
    fn is_counting() -> bool
        ensures { IsFalse result → (s : Self) → left s ≡ Budget.Unbounded };

    /// Takes so many, if so many are left.
    fn take(&mut self, count: usize) -> bool
        ensures { IsTaken result (left self.old) (left self.new) count };
}

/// Nothing is counted: a walk by this is compiled without a budget.
#[derive(Clone, Copy)]
pub(crate) struct Unbounded;

impl Counting for Unbounded {
    ghost use Rattle.odata_eval.specs.declared.budget.Budget.{Budget};

    ghost left = { λ s. Budget.Unbounded };

    #[inline(always)]
    fn is_counting() -> bool {
        false
    }

    #[inline(always)]
    fn take(&mut self, _count: usize) -> bool {
        true
    }
}

impl Counting for Budget {
    ghost left = { λ s. s };

    fn is_counting() -> bool {
        true
    }

    fn take(&mut self, count: usize) -> bool {
        match *self {
            Budget::Unbounded => true,
            Budget::Left(left) => {
                let asked = count as u64;
                if left < asked {
                    return false;
                }
                *self = Budget::Left(left - asked);
                true
            }
        }
    }
}

/// Takes one for a value that is compared after `in` within a body, if one is left.
pub(crate) fn take_item<B: Counting>(context: &EvalContext<'_, '_, '_>, budget: &mut B) -> bool
    ensures { IsTaken result (B.left budget.old) (B.left budget.new) (item_cost (environment_of context.now)) }
{
    if context.is_within_body() {
        budget.take(1)
    } else {
        true
    }
}

/// Takes what comparing a value with so many members of a collection costs, if that is left: within a body one for each,
/// and what the texts cost.
pub(crate) fn take_compared<B: Counting>(
    context: &EvalContext<'_, '_, '_>,
    left: &Datum<'_>,
    path: &Datum<'_>,
    count: usize,
    budget: &mut B,
) -> bool
    requires { AreComparedIn left.now path.now count }
    ensures { IsTaken result (B.left budget.old) (B.left budget.new)
        (path_due (item_cost (environment_of context.now)) left.now path.now count) }
{
    if !B::is_counting() {
        return true;
    }
    match path {
        Datum::List(members) => take_members(context, left, members, count, budget),
        _ => true,
    }
}

/// Takes what comparing a value with the first so many members costs, if that is left.
fn take_members<B: Counting>(
    context: &EvalContext<'_, '_, '_>,
    left: &Datum<'_>,
    members: &[Value],
    count: usize,
    budget: &mut B,
) -> bool
    requires { AreCompared left.now members.now count }
    ensures { IsTaken result (B.left budget.old) (B.left budget.new)
        (members_due (item_cost (environment_of context.now)) left.now members.now count) }
{
    for at in 0..count {
        if !take_item(context, budget) {
            return false;
        }
        if !budget.take(comparison_cost(left, &datum_of(&members[at]))) {
            return false;
        }
    }
    true
}

/// The fault that stopped a walk without a bound.
pub(crate) fn fault_of(stop: EvalStop) -> EvalFault
    requires { stop ≢ EvalStop.TooCostly }
    ensures { stop ≡ EvalStop.Fault result }
{
    match stop {
        EvalStop::Fault(fault) => fault,
        // No walk without a bound stops for its cost.
        EvalStop::TooCostly => unreachable!(),
    }
}

/// A number for which nothing was counted, its fault as a stop.
pub(crate) fn number_stop(answer: Result<Option<i64>, EvalFault>) -> Result<Option<i64>, EvalStop>
    ensures { result ≡ number_as_stop answer }
{
    match answer {
        Ok(number) => Ok(number),
        Err(fault) => Err(EvalStop::Fault(fault)),
    }
}

/// An answer for which nothing was counted, its fault as a stop.
pub(crate) fn as_stop<'e>(answer: Result<Datum<'e>, EvalFault>) -> Result<Datum<'e>, EvalStop>
    ensures { result ≡ datum_as_stop answer.entry }
{
    match answer {
        Ok(value) => Ok(value),
        Err(fault) => Err(EvalStop::Fault(fault)),
    }
}
