use thiserror::Error;

/// Why a row is not an entity of its type. A path leads from the row to the faulty value: names of properties and
/// zero-based indexes of items, separated by `/`, as `Parts/0/Qty`. A fault is displayed as its name and the path, as
/// `Missing Active`; running out of memory is `memory`.
#[derive(Debug, Drop, Error)]
pub enum RowFault {
    /// The row is not a JSON object.
    #[error("NotObject")]
    NotObject,
    /// A property is absent.
    #[error("Missing {path}")]
    Missing { path: String },
    /// The JSON is of another kind than the type requires; a number with a fraction or an exponent, as
    /// `1.0` and `1e0`, is not a whole number.
    #[error("WrongKind {path}")]
    WrongKind { path: String },
    /// JSON null where the property takes none.
    #[error("NullNotAllowed {path}")]
    NullNotAllowed { path: String },
    /// A whole number outside the type.
    #[error("OutOfRange {path}")]
    OutOfRange { path: String },
    /// A text that is not a value of the type.
    #[error("BadText {path}")]
    BadText { path: String },
    /// An allocation failed.
    #[error("memory")]
    Memory,
    /// A navigation property that is expanded is absent.
    #[error("NotExpanded {path}")]
    NotExpanded { path: String },
}
