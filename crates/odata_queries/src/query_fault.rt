use thiserror::Error;

/// Why a query has no filter to give: its first fault.
#[derive(Clone, Copy, Debug, PartialEq, Eq, Error)]
pub enum QueryFault {
    /// A `%` without two hexadecimal digits after it, at this byte of the query.
    #[error("BadEscape {place}")]
    BadEscape { place: usize },
    /// The name or the value of this option is not UTF-8 once it is decoded. Options count from 0, empty ones too.
    #[error("NotUtf8 {option}")]
    NotUtf8 { option: usize },
    /// This option is a second filter.
    #[error("Repeated {option}")]
    Repeated { option: usize },
    /// This option is a system query option other than the filter.
    #[error("OtherOption {option}")]
    OtherOption { option: usize },
    /// An allocation for the text failed.
    #[error("memory")]
    Memory,
}
