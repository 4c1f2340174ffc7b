//! The functions that a filter may call, and the table of what they take and give.
ghost use Rattle.std.specs.Prelude.{◌≡◌, IfSome, IfNone};
ghost use Rattle.std.specs.Str.{str_to_ascii_lowercase};

use super::argument_kind::ArgumentKind;
use edm_values::Prim;

/// A function by its canonical name (OData URL Conventions 4.01, sections 5.1.1.5 to 5.1.1.8).
#[derive(Clone, Copy, Debug, PartialEq, Eq)]
pub enum Function {
    Contains,
    StartsWith,
    EndsWith,
    Concat,
    Length,
    IndexOf,
    Substring,
    Trim,
    ToLower,
    ToUpper,
    Year,
    Month,
    Day,
    Hour,
    Minute,
    Second,
    TotalOffsetMinutes,
    Date,
    Now,
}

/// A row of the table.
#[derive(Clone, Copy, Debug)]
pub struct Signature {
    /// The function's name in ASCII lower case.
    pub name: &'static str,
    /// What it takes, in order.
    pub arguments: &'static [ArgumentKind],
    /// How many of these have to be given, from the first on.
    pub least: usize,
    /// The type of what it gives.
    pub gives: Prim,
}

/// Each function once.
const FUNCTIONS: [Function; 19] = [
    Function::Contains,
    Function::StartsWith,
    Function::EndsWith,
    Function::Concat,
    Function::Length,
    Function::IndexOf,
    Function::Substring,
    Function::Trim,
    Function::ToLower,
    Function::ToUpper,
    Function::Year,
    Function::Month,
    Function::Day,
    Function::Hour,
    Function::Minute,
    Function::Second,
    Function::TotalOffsetMinutes,
    Function::Date,
    Function::Now,
];

const TEXT: &[ArgumentKind] = &[ArgumentKind::Text];

const TWO_TEXTS: &[ArgumentKind] = &[ArgumentKind::Text, ArgumentKind::Text];

const TEXT_AND_NUMBERS: &[ArgumentKind] = &[
    ArgumentKind::Text,
    ArgumentKind::Number,
    ArgumentKind::Number,
];

const DATE_OR_MOMENT: &[ArgumentKind] = &[ArgumentKind::DateOrMoment];

const MOMENT: &[ArgumentKind] = &[ArgumentKind::Moment];

ghost use Rattle.odata_signatures.specs.Functions.{IsNamed, IsRow, row_of};

impl Function {
    /// Returns its row of the table.
    pub fn signature(self) -> Signature
        ensures { IsRow result (row_of self) }
    {
        match self {
            Function::Contains => row("contains", TWO_TEXTS, 2, Prim::Bool),
            Function::StartsWith => row("startswith", TWO_TEXTS, 2, Prim::Bool),
            Function::EndsWith => row("endswith", TWO_TEXTS, 2, Prim::Bool),
            Function::Concat => row("concat", TWO_TEXTS, 2, Prim::String),
            Function::Length => row("length", TEXT, 1, Prim::Int32),
            Function::IndexOf => row("indexof", TWO_TEXTS, 2, Prim::Int32),
            Function::Substring => row("substring", TEXT_AND_NUMBERS, 2, Prim::String),
            Function::Trim => row("trim", TEXT, 1, Prim::String),
            Function::ToLower => row("tolower", TEXT, 1, Prim::String),
            Function::ToUpper => row("toupper", TEXT, 1, Prim::String),
            Function::Year => row("year", DATE_OR_MOMENT, 1, Prim::Int32),
            Function::Month => row("month", DATE_OR_MOMENT, 1, Prim::Int32),
            Function::Day => row("day", DATE_OR_MOMENT, 1, Prim::Int32),
            Function::Hour => row("hour", MOMENT, 1, Prim::Int32),
            Function::Minute => row("minute", MOMENT, 1, Prim::Int32),
            Function::Second => row("second", MOMENT, 1, Prim::Int32),
            Function::TotalOffsetMinutes => row("totaloffsetminutes", MOMENT, 1, Prim::Int32),
            Function::Date => row("date", MOMENT, 1, Prim::Date),
            Function::Now => row("now", &[], 0, Prim::DateTimeOffset),
        }
    }

    /// Returns its name in ASCII lower case.
    pub fn name(self) -> &'static str
        ensures { IsNamed self result.now }
    {
        self.signature().name
    }
}

fn row(
    name: &'static str,
    arguments: &'static [ArgumentKind],
    least: usize,
    gives: Prim,
) -> Signature
    ensures name { result.name.now ≡ name.now }
    ensures arguments { result.arguments.now ≡ arguments.now }
    ensures least { result.least ≡ least }
    ensures gives { result.gives ≡ gives }
{
    Signature {
        name,
        arguments,
        least,
        gives,
    }
}

/// Returns the function of that name, in any ASCII case.
#[tactic(auto, using(crate::proofs::functions::Names::named_lower, crate::proofs::functions::Names::lower_named))]
pub(crate) fn function_named(name: &str) -> Option<Function>
    ensures some { IfSome result (λ function. IsNamed function (str_to_ascii_lowercase name.now)) }
    ensures none { IfNone result ((function : Function) → ¬ IsNamed function (str_to_ascii_lowercase name.now)) }
{
    for function in FUNCTIONS {
        if function.name().eq_ignore_ascii_case(name) {
            return Some(function);
        }
    }
    None
}
