use odata_text::Span;
use std::alloc::{AllocError, AllocFailed};
use thiserror::Error;

/// Why tokens are no expression. It is reported with its span, as `Unexpected 7..7`.
#[derive(Clone, Copy, Debug, PartialEq, Eq, Error)]
pub enum SyntaxFault {
    /// A token that cannot stand here, or the empty span after the text where one more is needed.
    #[error("Unexpected {span}")]
    Unexpected { span: Span },
    /// A `(` that the grammar allows and that would be the 65th open one.
    #[error("TooDeep {span}")]
    TooDeep { span: Span },
    /// An allocation for the tree failed.
    #[error("memory")]
    Memory,
}

impl From<AllocError> for SyntaxFault {
    ghost use Rattle.std.specs.Prelude.{◌≡◌};
    ghost use Rattle.odata_syntax.specs.declared.syntax_fault.SyntaxFault.TheVariants.{Memory};

    ghost from_gives = { λ _ e. e ≡ Memory };

    fn from(_error: AllocError) -> SyntaxFault {
        SyntaxFault::Memory
    }
}

impl<T: Drop> From<AllocFailed<T>> for SyntaxFault {
    ghost use Rattle.std.specs.Prelude.{◌≡◌};
    ghost use Rattle.odata_syntax.specs.declared.syntax_fault.SyntaxFault.TheVariants.{Memory};

    ghost from_gives = { λ _ e. e ≡ Memory };

    fn from(_error: AllocFailed<T>) -> SyntaxFault {
        SyntaxFault::Memory
    }
}
