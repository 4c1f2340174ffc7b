use std::alloc::{AllocError, AllocFailed};
use thiserror::Error;

/// Why a document is not a schema. `owner` is the name of a type with its namespace. A fault is displayed as its name
/// and the names that it reports, as `BadProperty Shop.Order Total`; running out of memory is `memory`.
#[derive(Debug, Drop, Error)]
pub enum SchemaFault {
    /// The bytes are not a JSON text.
    #[error("NotJson")]
    NotJson,
    /// The document is not a JSON object.
    #[error("NotObject")]
    NotObject,
    /// `$Version` is neither `4.0` nor `4.01` (CSDL JSON 4.01, section 2).
    #[error("Version")]
    Version,
    /// A namespace whose value is not an object or whose alias is not a text of its own (section 4), or a type of
    /// another shape than its kind's (sections 6 and 9 to 11) or whose name is not an identifier.
    #[error("BadType {name}")]
    BadType { name: String },
    /// A member of a type that is not a property (section 7).
    #[error("BadProperty {owner} {name}")]
    BadProperty { owner: String, name: String },
    /// A base type that is missing, or of another kind (sections 6.1 and 9.1).
    #[error("UnknownBase {owner}")]
    UnknownBase { owner: String },
    /// A type whose chain of bases does not end.
    #[error("BaseCycle {owner}")]
    BaseCycle { owner: String },
    /// A property that two types of a chain of bases declare.
    #[error("PropertyTwice {owner} {name}")]
    PropertyTwice { owner: String, name: String },
    /// A member of an enumeration whose name is not an identifier, or whose value is not a number of the underlying
    /// type (section 10.3).
    #[error("BadEnumMember {owner} {name}")]
    BadEnumMember { owner: String, name: String },
    /// A document of more than 1,048,576 bytes or 4,096 types, or a type of more than 64 bases, or of more than
    /// 1,024 properties, inherited ones counted.
    #[error("TooLarge")]
    TooLarge,
    /// An allocation failed.
    #[error("memory")]
    Memory,
}

impl From<AllocError> for SchemaFault {
    ghost use Rattle.std.specs.Prelude.{◌≡◌};
    ghost use Rattle.csdl_declarations.specs.declared.schema_fault.SchemaFault.TheVariants.{Memory};

    ghost from_gives = { λ _ e. e ≡ Memory };

    fn from(_refused: AllocError) -> SchemaFault {
        SchemaFault::Memory
    }
}

impl<T: Drop> From<AllocFailed<T>> for SchemaFault {
    ghost use Rattle.std.specs.Prelude.{◌≡◌};
    ghost use Rattle.csdl_declarations.specs.declared.schema_fault.SchemaFault.TheVariants.{Memory};

    ghost from_gives = { λ _ e. e ≡ Memory };

    fn from(_refused: AllocFailed<T>) -> SchemaFault {
        SchemaFault::Memory
    }
}
