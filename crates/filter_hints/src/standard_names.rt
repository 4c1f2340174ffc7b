//! Names of the standard (OData URL Conventions 4.01, section 5.1.1).

/// Functions of the standard that no filter here may call.
const UNSUPPORTED_FUNCTIONS: &[&str] = &[
    "case",
    "cast",
    "ceiling",
    "floor",
    "fractionalseconds",
    "geo.distance",
    "geo.intersects",
    "geo.length",
    "hassubsequence",
    "hassubset",
    "isof",
    "matchesPattern",
    "maxdatetime",
    "mindatetime",
    "round",
    "time",
    "totalseconds",
];

/// Functions that a filter may call.
pub const FUNCTIONS: &[&str] = &[
    "concat",
    "contains",
    "date",
    "day",
    "endswith",
    "hour",
    "indexof",
    "length",
    "minute",
    "month",
    "now",
    "second",
    "startswith",
    "substring",
    "tolower",
    "totaloffsetminutes",
    "toupper",
    "trim",
    "year",
];

/// Operators between two operands.
const INFIX_OPERATORS: &[&str] = &[
    "add", "and", "div", "eq", "ge", "gt", "has", "in", "le", "lt", "mod", "mul", "ne", "or", "sub",
];

fn is_one_of(name: &str, names: &[&str]) -> bool {
    names.iter().any(|other| other.eq_ignore_ascii_case(name))
}

/// Whether a function of the standard is left out.
pub fn is_unsupported_function(name: &str) -> bool {
    is_one_of(name, UNSUPPORTED_FUNCTIONS)
}

/// Whether a filter may call a function of that name.
pub fn is_function(name: &str) -> bool {
    is_one_of(name, FUNCTIONS)
}

/// Whether the word is an operator between two operands.
pub fn is_infix_operator(word: &str) -> bool {
    is_one_of(word, INFIX_OPERATORS)
}
