/// An operator between two operands, by what it takes. `has` and `in` are none of these: what may stand after them
/// differs (OData URL Conventions 4.01, sections 5.1.1.1 and 5.1.1.2).
#[derive(Clone, Copy, Debug, PartialEq, Eq)]
pub enum BinaryOperator {
    /// Of truth values.
    Logical(LogicalOperator),
    /// Of values that have an equality or an order.
    Comparison(ComparisonOperator),
    /// Of numbers.
    Arithmetic(ArithmeticOperator),
}

/// A logical operator with two operands (sections 5.1.1.1.7 and 5.1.1.1.8).
#[derive(Clone, Copy, Debug, PartialEq, Eq)]
pub enum LogicalOperator {
    And,
    Or,
}

/// A comparison operator (sections 5.1.1.1.1 to 5.1.1.1.6).
#[derive(Clone, Copy, Debug, PartialEq, Eq)]
pub enum ComparisonOperator {
    Eq,
    Ne,
    Gt,
    Ge,
    Lt,
    Le,
}

/// An arithmetic operator with two operands (section 5.1.1.2).
#[derive(Clone, Copy, Debug, PartialEq, Eq)]
pub enum ArithmeticOperator {
    Add,
    Sub,
    Mul,
    Div,
    Mod,
}
