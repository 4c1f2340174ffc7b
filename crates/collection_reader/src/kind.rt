//! Kinds of bytes.
ghost use Rattle.std.specs.Prelude.{◌≡◌};
ghost use Rattle.collection_reader.specs.private.Kinds.{kind_of};

/// What a byte is outside a text of JSON.
#[derive(Clone, Copy, Debug, PartialEq, Eq)]
pub(crate) enum Kind {
    Quote,
    Backslash,
    /// A brace or a bracket that opens.
    Brace,
    Bracket,
    /// One that closes.
    BraceEnd,
    BracketEnd,
    Comma,
    Colon,
    /// A space or a tab.
    Blank,
    /// A line feed or a carriage return.
    Feed,
    Other,
}

/// The kind of a byte.
#[inline(always)]
pub(crate) fn kind_of(byte: u8) -> Kind
    ensures { result ≡ kind_of byte }
{
    match byte {
        b'"' => Kind::Quote,
        b'\\' => Kind::Backslash,
        b'{' => Kind::Brace,
        b'[' => Kind::Bracket,
        b'}' => Kind::BraceEnd,
        b']' => Kind::BracketEnd,
        b',' => Kind::Comma,
        b':' => Kind::Colon,
        b' ' | b'\t' => Kind::Blank,
        b'\n' | b'\r' => Kind::Feed,
        _ => Kind::Other,
    }
}
