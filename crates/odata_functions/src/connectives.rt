//! Logic on truth values, None being null.
ghost use Rattle.std.specs.Prelude.{◌≡◌};
ghost use Rattle.odata_functions.specs.Connectives.{and3, or3, not3};

/// Returns whether both are true; null where that depends on a null.
pub fn and3(left: Option<bool>, right: Option<bool>) -> Option<bool>
    ensures { result ≡ and3 left right }
{
    match (left, right) {
        (Some(false), _) | (_, Some(false)) => Some(false),
        (Some(true), Some(true)) => Some(true),
        _ => None,
    }
}

/// Returns whether one of them is true; null where that depends on a null.
pub fn or3(left: Option<bool>, right: Option<bool>) -> Option<bool>
    ensures { result ≡ or3 left right }
{
    match (left, right) {
        (Some(true), _) | (_, Some(true)) => Some(true),
        (Some(false), Some(false)) => Some(false),
        _ => None,
    }
}

/// Returns the opposite; null of null.
pub fn not3(operand: Option<bool>) -> Option<bool>
    ensures { result ≡ not3 operand }
{
    operand.map(|truth| !truth)
}
