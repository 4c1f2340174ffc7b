//! Faults by numbers and names, for callers that have no enums.
ghost use Rattle.std.specs.Prelude.{◌≡◌, ℕ, map};
ghost use Rattle.std.specs.Option.{option_map};
ghost use Rattle.fault_numbers.specs.FaultNumbers.{evaluation_number, name_at, names_of, path_reported, query_number};
ghost use Rattle.fault_numbers.specs.FaultNumbers.{row_number, schema_number, span_reported, syntax_number, text_number};
ghost use Rattle.fault_numbers.specs.FaultNumbers.{type_number};

use csdl_declarations::SchemaFault;
use edm_entities::RowFault;
use odata_filter_operations::EvalFault;
use odata_queries::QueryFault;
use odata_signatures::{Refusal, TypeFaultCode};
use odata_syntax::SyntaxFault;
use odata_text::{Span, TextFault};

/// The kinds of things that have numbered faults.
#[derive(Clone, Copy, Debug, PartialEq, Eq)]
pub enum FaultKind {
    Schema,
    Query,
    Text,
    Syntax,
    Typing,
    Row,
    Evaluation,
}

/// A fault that has a number among those of its enum.
pub trait Numbered {
    // Its number.
    ghost number_of: { Self → ℕ };

    /// Returns the number, from 1 in the order of the enum. It stays what it is: what comes later has a further one.
    fn number(&self) -> u8
        ensures { result ≡ number_of self.now };
}

impl Numbered for SchemaFault {
    ghost number_of = { schema_number };

    fn number(&self) -> u8 {
        match self {
            SchemaFault::NotJson => 1,
            SchemaFault::NotObject => 2,
            SchemaFault::Version => 3,
            SchemaFault::BadType { .. } => 4,
            SchemaFault::BadProperty { .. } => 5,
            SchemaFault::UnknownBase { .. } => 6,
            SchemaFault::BaseCycle { .. } => 7,
            SchemaFault::PropertyTwice { .. } => 8,
            SchemaFault::BadEnumMember { .. } => 9,
            SchemaFault::TooLarge => 10,
            SchemaFault::Memory => 11,
        }
    }
}

impl Numbered for QueryFault {
    ghost number_of = { query_number };

    fn number(&self) -> u8 {
        match self {
            QueryFault::BadEscape { .. } => 1,
            QueryFault::NotUtf8 { .. } => 2,
            QueryFault::Repeated { .. } => 3,
            QueryFault::OtherOption { .. } => 4,
            QueryFault::Memory => 5,
        }
    }
}

impl Numbered for TextFault {
    ghost number_of = { text_number };

    fn number(&self) -> u8 {
        match self {
            TextFault::BadCharacter { .. } => 1,
            TextFault::UnclosedString { .. } => 2,
            TextFault::LeftOutLiteral { .. } => 3,
            TextFault::RunOn { .. } => 4,
            TextFault::TooLong { .. } => 5,
            TextFault::Memory => 6,
        }
    }
}

impl Numbered for SyntaxFault {
    ghost number_of = { syntax_number };

    fn number(&self) -> u8 {
        match self {
            SyntaxFault::Unexpected { .. } => 1,
            SyntaxFault::TooDeep { .. } => 2,
            SyntaxFault::Memory => 3,
        }
    }
}

impl Numbered for TypeFaultCode {
    ghost number_of = { type_number };

    fn number(&self) -> u8 {
        match self {
            TypeFaultCode::UnknownProperty => 1,
            TypeFaultCode::UnknownFunction => 2,
            TypeFaultCode::ArgumentCount => 3,
            TypeFaultCode::ArgumentType => 4,
            TypeFaultCode::OperandTypes => 5,
            TypeFaultCode::NotCollection => 6,
            TypeFaultCode::VariableTaken => 7,
            TypeFaultCode::BodyNotBoolean => 8,
            TypeFaultCode::LiteralRange => 9,
            TypeFaultCode::UnknownEnum => 10,
            TypeFaultCode::TypeLeftOut => 11,
            TypeFaultCode::NotBoolean => 12,
        }
    }
}

impl Numbered for RowFault {
    ghost number_of = { row_number };

    fn number(&self) -> u8 {
        match self {
            RowFault::NotObject => 1,
            RowFault::Missing { .. } => 2,
            RowFault::WrongKind { .. } => 3,
            RowFault::NullNotAllowed { .. } => 4,
            RowFault::OutOfRange { .. } => 5,
            RowFault::BadText { .. } => 6,
            RowFault::Memory => 7,
            RowFault::NotExpanded { .. } => 8,
        }
    }
}

impl Numbered for EvalFault {
    ghost number_of = { evaluation_number };

    fn number(&self) -> u8 {
        match self {
            EvalFault::Overflow => 1,
            EvalFault::DivideByZero => 2,
            EvalFault::Memory => 3,
        }
    }
}

const SCHEMA_NAMES: &[&str] = &[
    "NotJson",
    "NotObject",
    "Version",
    "BadType",
    "BadProperty",
    "UnknownBase",
    "BaseCycle",
    "PropertyTwice",
    "BadEnumMember",
    "TooLarge",
];

const QUERY_NAMES: &[&str] = &["BadEscape", "NotUtf8", "Repeated", "OtherOption"];

const TEXT_NAMES: &[&str] = &[
    "BadCharacter",
    "UnclosedString",
    "LeftOutLiteral",
    "RunOn",
    "TooLong",
];

const SYNTAX_NAMES: &[&str] = &["Unexpected", "TooDeep"];

const TYPING_NAMES: &[&str] = &[
    "UnknownProperty",
    "UnknownFunction",
    "ArgumentCount",
    "ArgumentType",
    "OperandTypes",
    "NotCollection",
    "VariableTaken",
    "BodyNotBoolean",
    "LiteralRange",
    "UnknownEnum",
    "TypeLeftOut",
    "NotBoolean",
];

const ROW_NAMES: &[&str] = &[
    "NotObject",
    "Missing",
    "WrongKind",
    "NullNotAllowed",
    "OutOfRange",
    "BadText",
    "",
    "NotExpanded",
];

const EVALUATION_NAMES: &[&str] = &["Overflow", "DivideByZero"];

/// The names of the faults of a kind, in the order of their numbers; an empty one when out of memory, where others
/// follow.
fn names(kind: FaultKind) -> &'static [&'static str]
    ensures { map (λ name. name.now) result.now ≡ names_of kind }
{
    match kind {
        FaultKind::Schema => SCHEMA_NAMES,
        FaultKind::Query => QUERY_NAMES,
        FaultKind::Text => TEXT_NAMES,
        FaultKind::Syntax => SYNTAX_NAMES,
        FaultKind::Typing => TYPING_NAMES,
        FaultKind::Row => ROW_NAMES,
        FaultKind::Evaluation => EVALUATION_NAMES,
    }
}

/// Returns the name of the fault of that number, as the fault is displayed. `None` if there is none of the number, or
/// it is running out of memory.
pub fn fault_name(kind: FaultKind, number: u8) -> Option<&'static str>
    ensures { option_map (λ name. name.now) result ≡ name_at (names_of kind) number }
{
    if number == 0 {
        return None;
    }
    match names(kind).get(usize::from(number) - 1) {
        Some(name) => if name.is_empty() { None } else { Some(*name) },
        None => None,
    }
}

/// Returns where in its text a filter is refused. `None` when out of memory.
pub fn refusal_span(refusal: &Refusal) -> Option<Span>
    ensures { result ≡ span_reported refusal.now }
{
    match refusal {
        Refusal::Text(fault) => match fault {
            TextFault::BadCharacter { span } => Some(*span),
            TextFault::UnclosedString { span } => Some(*span),
            TextFault::LeftOutLiteral { span } => Some(*span),
            TextFault::RunOn { span } => Some(*span),
            TextFault::TooLong { span } => Some(*span),
            TextFault::Memory => None,
        },
        Refusal::Syntax(fault) => match fault {
            SyntaxFault::Unexpected { span } => Some(*span),
            SyntaxFault::TooDeep { span } => Some(*span),
            SyntaxFault::Memory => None,
        },
        Refusal::Typing(fault) => Some(fault.span),
        Refusal::Memory => None,
    }
}

/// Returns the path to the value at fault, as `Parts/0/Qty`. `None` for a row that is not an object, and when out of
/// memory.
pub fn row_fault_path(fault: &RowFault) -> Option<&str>
    ensures { option_map (λ path. path.now) result ≡ path_reported fault.now }
{
    match fault {
        RowFault::Missing { path } => Some(path.as_str()),
        RowFault::WrongKind { path } => Some(path.as_str()),
        RowFault::NullNotAllowed { path } => Some(path.as_str()),
        RowFault::OutOfRange { path } => Some(path.as_str()),
        RowFault::BadText { path } => Some(path.as_str()),
        RowFault::NotExpanded { path } => Some(path.as_str()),
        RowFault::NotObject | RowFault::Memory => None,
    }
}
