ghost use Rattle.std.specs.Prelude.{◌≡◌};
ghost use Rattle.odata_text.specs.declared.text_fault.TextFault.TheVariants.{Memory};

use super::span::Span;
use std::alloc::AllocFailed;
use thiserror::Error;

/// Why a text has no tokens: its first fault from the left, with its offset in bytes.
#[derive(Clone, Copy, Debug, PartialEq, Eq, Error)]
pub enum TextFault {
    /// A character with which no token begins.
    #[error("BadCharacter {span}")]
    BadCharacter { span: Span },
    /// A `'` that no other one closes, up to the end of the text.
    #[error("UnclosedString {span}")]
    UnclosedString { span: Span },
    /// A literal of the standard that is not part of this profile.
    #[error("LeftOutLiteral {span}")]
    LeftOutLiteral { span: Span },
    /// A number, date, moment or Guid directly followed by identifier characters, up to the last of these.
    #[error("RunOn {span}")]
    RunOn { span: Span },
    /// The whole text, or the first token more than there may be.
    #[error("TooLong {span}")]
    TooLong { span: Span },
    /// An allocation for the tokens failed.
    #[error("memory")]
    Memory,
}

impl<T: Drop> From<AllocFailed<T>> for TextFault {
    ghost from_gives = { λ _ fault. fault ≡ Memory };

    fn from(_failed: AllocFailed<T>) -> TextFault {
        TextFault::Memory
    }
}
