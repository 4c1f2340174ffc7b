//! How tightly the forms bind, the loosest first (OData URL Conventions 4.01, section 5.1.1.17, operator precedence).
ghost use Rattle.std.specs.Prelude.{◌≡◌};
ghost use Rattle.odata_syntax.specs.Grammar.{operator_level};

use crate::{ArithmeticOperator, BinaryOperator, ComparisonOperator, LogicalOperator};

/// A whole expression.
pub const OR: u8 = 1;

/// `and`.
pub const AND: u8 = 2;

/// `eq` and `ne`.
pub const EQ: u8 = 3;

/// `gt`, `ge`, `lt` and `le`.
pub const RELATIONAL: u8 = 4;

/// `add` and `sub`.
pub const ADDITIVE: u8 = 5;

/// `mul`, `div` and `mod`.
pub const MULTIPLICATIVE: u8 = 6;

/// `-` and `not`.
pub const UNARY: u8 = 7;

/// `has` and `in`.
pub const PRIMARY: u8 = 8;

/// An operand without operators.
pub const BASE: u8 = 9;

/// A path.
pub const PATH: u8 = 10;

/// A path that may go on.
pub const OPEN_PATH: u8 = 11;

/// Returns how tightly an operator binds, from 1 for `or` to 6.
#[inline(always)]
pub fn operator_level(operator: BinaryOperator) -> u8
    ensures { result ≡ operator_level operator }
{
    match operator {
        BinaryOperator::Logical(logical) => match logical {
            LogicalOperator::Or => OR,
            LogicalOperator::And => AND,
        },
        BinaryOperator::Comparison(comparison) => match comparison {
            ComparisonOperator::Eq | ComparisonOperator::Ne => EQ,
            ComparisonOperator::Gt
            | ComparisonOperator::Ge
            | ComparisonOperator::Lt
            | ComparisonOperator::Le => RELATIONAL,
        },
        BinaryOperator::Arithmetic(arithmetic) => match arithmetic {
            ArithmeticOperator::Add | ArithmeticOperator::Sub => ADDITIVE,
            ArithmeticOperator::Mul | ArithmeticOperator::Div | ArithmeticOperator::Mod =>
                MULTIPLICATIVE,
        },
    }
}
