use super::token::TokenKind;

/// A literal of the standard that this profile leaves out.
#[derive(Clone, Copy, Debug, PartialEq, Eq)]
pub enum LeftOutKind {
    Number,
    TimeOfDay,
    Quoted,
}

/// What a piece of the text is: a token, or a literal that is left out.
#[derive(Clone, Copy, Debug, PartialEq, Eq)]
pub enum Form {
    Token(TokenKind),
    LeftOut(LeftOutKind),
}
