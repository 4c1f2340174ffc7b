ghost use Rattle.std.specs.Prelude.{◌≡◌, IsCharBoundary, chars};
ghost use Rattle.odata_text.specs.Identifier.{IsIdentifier, begins_identifier, continues_identifier};
ghost use Rattle.odata_text.specs.Identifier.{identifier_run, is_following, is_identifier, is_leading};
ghost use Rattle.odata_text.specs.private.Lengths.{IsReach};

use unicode::properties::GeneralCategory;

/// The categories L and Nl.
fn is_leading(category: GeneralCategory) -> bool
    ensures { result ≡ is_leading category }
{
    match category {
        GeneralCategory::UppercaseLetter
        | GeneralCategory::LowercaseLetter
        | GeneralCategory::TitlecaseLetter
        | GeneralCategory::ModifierLetter
        | GeneralCategory::OtherLetter
        | GeneralCategory::LetterNumber => true,
        _ => false,
    }
}

/// The categories Nd, Mn, Mc, Pc and Cf.
fn is_following(category: GeneralCategory) -> bool
    ensures { result ≡ is_following category }
{
    match category {
        GeneralCategory::DecimalNumber
        | GeneralCategory::NonspacingMark
        | GeneralCategory::SpacingMark
        | GeneralCategory::ConnectorPunctuation
        | GeneralCategory::Format => true,
        _ => false,
    }
}

#[tactic(auto, unfolding(crate::specs::Identifier::begins_identifier))]
fn begins_identifier(character: char) -> bool
    ensures { result ≡ begins_identifier character }
{
    character == '_' || is_leading(GeneralCategory::for_char(character))
}

#[tactic(auto, unfolding(crate::specs::Identifier::continues_identifier))]
fn continues_identifier(character: char) -> bool
    ensures { result ≡ continues_identifier character }
{
    begins_identifier(character) || is_following(GeneralCategory::for_char(character))
}

/// How many bytes the run of identifier characters at the front takes.
pub fn identifier_run(rest: &str) -> usize
    ensures value { result ≡ identifier_run rest.now }
    ensures boundary { IsCharBoundary rest.now result }
{
    let mut length = 0;
    for character in rest.chars() {
        if !continues_identifier(character) {
            return length;
        }
        length += character.len_utf8();
    }
    length
}

/// How many bytes the longest identifier at the front takes, 0 if there is none.
pub fn identifier_length(rest: &str) -> usize
    ensures reach { IsReach IsIdentifier result rest.now }
    ensures boundary { IsCharBoundary rest.now result }
{
    match rest.chars().next() {
        Some(first) if begins_identifier(first) => identifier_run(rest),
        _ => 0,
    }
}

/// Returns whether the text is an identifier. Its first character is `_` or one of the general categories L and Nl; the
/// others may also be of Nd, Mn, Mc, Pc and Cf (OData ABNF 4.01, section 6).
///
/// An identifier may be of any length here. Takes no memory.
pub fn is_identifier(text: &str) -> bool
    ensures { result ≡ is_identifier (chars text.now) }
{
    let length = identifier_length(text);
    length > 0 && length == text.len()
}
