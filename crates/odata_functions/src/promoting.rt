//! The type in which numbers are computed, None being the type of null.
ghost use Rattle.std.specs.Prelude.{◌≡◌, IfSome};
ghost use Rattle.edm_values.specs.NumberTypes.{IsNumberType};
ghost use Rattle.odata_functions.specs.Promotion.{promotion, negation_type};

use edm_values::Prim;

/// Returns the type in which an operator with these operand types computes.
pub fn promotion(left: Option<Prim>, right: Option<Prim>) -> Option<Prim>
    requires left { IfSome left IsNumberType }
    requires right { IfSome right IsNumberType }
    ensures { result ≡ promotion left right }
{
    match (left, right) {
        (None, None) => None,
        (Some(Prim::Int64), _) | (_, Some(Prim::Int64)) => Some(Prim::Int64),
        (Some(Prim::Int32), _) | (_, Some(Prim::Int32)) => Some(Prim::Int32),
        _ => Some(Prim::Int16),
    }
}

/// Returns the type in which an operand of this type is negated.
pub fn negation_type(operand: Option<Prim>) -> Option<Prim>
    requires { IfSome operand IsNumberType }
    ensures { result ≡ negation_type operand }
{
    match operand {
        Some(_) => promotion(operand, Some(Prim::Int16)),
        None => None,
    }
}
