ghost use Rattle.std.specs.Prelude.{◌≡◌};
ghost use Rattle.odata_syntax.specs.Lexeme.{operator_word};
ghost use Rattle.odata_syntax.specs.private.Printer.{spaced};

use crate::{ArithmeticOperator, BinaryOperator, ComparisonOperator, LogicalOperator};

/// Returns the word of an operator, in lower case.
pub fn operator_word(operator: BinaryOperator) -> &'static str
    ensures { result.now ≡ operator_word operator }
{
    match operator {
        BinaryOperator::Logical(logical) => match logical {
            LogicalOperator::Or => "or",
            LogicalOperator::And => "and",
        },
        BinaryOperator::Comparison(comparison) => match comparison {
            ComparisonOperator::Eq => "eq",
            ComparisonOperator::Ne => "ne",
            ComparisonOperator::Gt => "gt",
            ComparisonOperator::Ge => "ge",
            ComparisonOperator::Lt => "lt",
            ComparisonOperator::Le => "le",
        },
        BinaryOperator::Arithmetic(arithmetic) => match arithmetic {
            ArithmeticOperator::Add => "add",
            ArithmeticOperator::Sub => "sub",
            ArithmeticOperator::Mul => "mul",
            ArithmeticOperator::Div => "div",
            ArithmeticOperator::Mod => "mod",
        },
    }
}

/// The word of an operator between spaces.
pub(crate) fn spaced_word(operator: BinaryOperator) -> &'static str
    ensures { result.now ≡ spaced (operator_word operator) }
{
    match operator {
        BinaryOperator::Logical(logical) => match logical {
            LogicalOperator::Or => " or ",
            LogicalOperator::And => " and ",
        },
        BinaryOperator::Comparison(comparison) => match comparison {
            ComparisonOperator::Eq => " eq ",
            ComparisonOperator::Ne => " ne ",
            ComparisonOperator::Gt => " gt ",
            ComparisonOperator::Ge => " ge ",
            ComparisonOperator::Lt => " lt ",
            ComparisonOperator::Le => " le ",
        },
        BinaryOperator::Arithmetic(arithmetic) => match arithmetic {
            ArithmeticOperator::Add => " add ",
            ArithmeticOperator::Sub => " sub ",
            ArithmeticOperator::Mul => " mul ",
            ArithmeticOperator::Div => " div ",
            ArithmeticOperator::Mod => " mod ",
        },
    }
}
