/// A primitive type that a property or an expression may have (CSDL JSON 4.01, section 3.3).
#[derive(Clone, Copy, Debug, PartialEq, Eq)]
pub enum PrimitiveType {
    Bool,
    Byte,
    SByte,
    Int16,
    Int32,
    Int64,
    String,
    Date,
    DateTimeOffset,
    Guid,
}

impl PrimitiveType {
    ghost use Rattle.std.specs.Prelude.{◌↔◌, IsTrue};
    ghost use Rattle.edm_values.specs.NumberTypes.{IsNumberType, IsNumberOf, IsIntLiteralType};

    /// Returns whether the values of this type are whole numbers.
    pub fn is_number(self) -> bool
        ensures { IsTrue result ↔ IsNumberType self }
    {
        match self {
            PrimitiveType::Byte
            | PrimitiveType::SByte
            | PrimitiveType::Int16
            | PrimitiveType::Int32
            | PrimitiveType::Int64 => true,
            PrimitiveType::Bool
            | PrimitiveType::String
            | PrimitiveType::Date
            | PrimitiveType::DateTimeOffset
            | PrimitiveType::Guid => false,
        }
    }

    /// Returns whether a whole number lies in the range of this type. None lies in a type that is not of numbers.
    pub fn holds_number(self, n: i64) -> bool
        ensures { IsTrue result ↔ IsNumberOf self n }
    {
        match self {
            PrimitiveType::Byte => u8::try_from(n).is_ok(),
            PrimitiveType::SByte => i8::try_from(n).is_ok(),
            PrimitiveType::Int16 => i16::try_from(n).is_ok(),
            PrimitiveType::Int32 => i32::try_from(n).is_ok(),
            PrimitiveType::Int64 => true,
            PrimitiveType::Bool
            | PrimitiveType::String
            | PrimitiveType::Date
            | PrimitiveType::DateTimeOffset
            | PrimitiveType::Guid => false,
        }
    }

    /// Returns the type of a whole number as a literal: `Edm.Int32` if it lies in that, else `Edm.Int64`.
    pub fn of_int_literal(n: i64) -> PrimitiveType
        ensures { IsIntLiteralType n result }
    {
        if PrimitiveType::Int32.holds_number(n) {
            PrimitiveType::Int32
        } else {
            PrimitiveType::Int64
        }
    }
}
