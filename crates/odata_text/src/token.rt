use super::span::Span;

/// The kind of a token.
#[derive(Clone, Copy, Debug, PartialEq, Eq)]
pub enum TokenKind {
    Word,
    Dollar,
    Int,
    Date,
    Moment,
    Guid,
    Str,
    EnumLit,
    Open,
    Close,
    Comma,
    Slash,
    Colon,
    Minus,
}

/// A piece of the text. `text` is the slice at `span`.
#[derive(Clone, Copy, Debug)]
pub struct Token<'t> {
    pub span: Span,
    pub kind: TokenKind,
    pub text: &'t str,
}
