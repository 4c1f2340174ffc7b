use thiserror::Error;

/// Why a query's filter is not found: the first fault, from the left.
#[derive(Clone, Copy, Debug, PartialEq, Eq, Error)]
pub enum FindFault {
    /// A `%` without two hexadecimal digits after it, at this byte of the query.
    #[error("BadEscape {place}")]
    BadEscape { place: usize },
    /// The name of this option, or the filter's value, is not UTF-8 once it is decoded. Options count from 0, empty
    /// ones too.
    #[error("NotUtf8 {option}")]
    NotUtf8 { option: usize },
    /// This option is a second filter.
    #[error("Repeated {option}")]
    Repeated { option: usize },
    /// Some reader finds a filter in this option that is not plainly there.
    #[error("Disguised {option}")]
    Disguised { option: usize },
    /// An allocation for the text failed.
    #[error("memory")]
    Memory,
}
