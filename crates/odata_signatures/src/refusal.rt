use odata_syntax::SyntaxFault;
use odata_text::{Span, TextFault};
use thiserror::Error;

/// Why a node has no type. It is displayed by its name.
#[derive(Clone, Copy, Debug, PartialEq, Eq, Error)]
pub enum TypeFaultCode {
    /// A name that is not a property of its type.
    #[error("UnknownProperty")]
    UnknownProperty,
    /// A call of no known function.
    #[error("UnknownFunction")]
    UnknownFunction,
    /// A call with a number of arguments that its function does not take.
    #[error("ArgumentCount")]
    ArgumentCount,
    /// An argument of a type that its function does not take.
    #[error("ArgumentType")]
    ArgumentType,
    /// Operands of types that their operator does not take.
    #[error("OperandTypes")]
    OperandTypes,
    /// An operand that is not a collection, where one is required.
    #[error("NotCollection")]
    NotCollection,
    /// A lambda operator whose variable is in scope already.
    #[error("VariableTaken")]
    VariableTaken,
    /// A lambda operator whose body is neither Boolean nor null.
    #[error("BodyNotBoolean")]
    BodyNotBoolean,
    /// A literal without a value, as a number beyond `Edm.Int64`.
    #[error("LiteralRange")]
    LiteralRange,
    /// An enumeration literal without a value.
    #[error("UnknownEnum")]
    UnknownEnum,
    /// A property of a type that this profile leaves out, or a navigation property that leads to no entity type.
    #[error("TypeLeftOut")]
    TypeLeftOut,
    /// A whole filter that is neither Boolean nor null.
    #[error("NotBoolean")]
    NotBoolean,
}

/// The first node that has no type, by its span, and why. For `NotBoolean` the span is the whole text.
///
/// It is displayed as `OperandTypes 0..9`.
#[derive(Clone, Copy, Debug, PartialEq, Eq, Error)]
#[error("{code} {span}")]
pub struct TypeFault {
    pub code: TypeFaultCode,
    pub span: Span,
}

/// Why a text is refused as a filter. It is displayed as the fault of the text is.
#[derive(Clone, Copy, Debug, PartialEq, Eq, Error)]
pub enum Refusal {
    #[error(transparent)]
    Text(TextFault),
    #[error(transparent)]
    Syntax(SyntaxFault),
    #[error(transparent)]
    Typing(TypeFault),
    #[error("memory")]
    Memory,
}
