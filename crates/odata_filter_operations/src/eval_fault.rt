use thiserror::Error;

/// Why a filter has no value on an entity. It is displayed by its name.
#[derive(Clone, Copy, Debug, PartialEq, Eq, Error)]
pub enum EvalFault {
    /// A result outside the type of its operator.
    #[error("Overflow")]
    Overflow,
    /// A division by zero.
    #[error("DivideByZero")]
    DivideByZero,
    /// An allocation failed. Only filters that make texts take memory.
    #[error("memory")]
    Memory,
}
