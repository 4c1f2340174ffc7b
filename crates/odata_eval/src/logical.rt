//! Logical operators, the left truth value first: it may decide.
ghost use Rattle.std.specs.Prelude.{◌≡◌, ◌↔◌, IsTrue};
ghost use Rattle.odata_filter_operations.specs.TruthGives.{joined, truth_val};
ghost use Rattle.odata_meaning.specs.private.Decided.{IsDecided};

use odata_functions::{and3, or3};
use odata_syntax::LogicalOperator;

/// Whether the left truth value alone decides.
pub(crate) fn decides(operator: LogicalOperator, left: Option<bool>) -> bool
    ensures { IsTrue result ↔ IsDecided operator (truth_val left) }
{
    match operator {
        LogicalOperator::And => matches!(left, Some(false)),
        LogicalOperator::Or => matches!(left, Some(true)),
    }
}

/// What the operator makes of two truth values, the left one of which does not decide. A left one that is no null
/// leaves the right one as it is.
pub(crate) fn join(
    operator: LogicalOperator,
    left: Option<bool>,
    right: Option<bool>,
) -> Option<bool>
    requires { ¬ IsDecided operator (truth_val left) }
    ensures { result ≡ joined operator left right }
{
    if left.is_some() {
        return right;
    }
    match operator {
        LogicalOperator::And => and3(None, right),
        LogicalOperator::Or => or3(None, right),
    }
}
