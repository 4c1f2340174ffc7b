//! Questions, and what those before them gave.
use std::str;

/// A question: a word, and what it gives. What is not UTF-8 is an empty text.
#[derive(Clone, Copy)]
pub(crate) struct Question<'w> {
    pub word: &'w str,
    /// The first of what is given, in bytes and as a text.
    pub bytes: &'w [u8],
    pub text: &'w str,
    pub second: &'w str,
    pub third: &'w str,
}

/// The document, the type and the filter that were given last.
#[derive(Clone, Copy, Default)]
pub(crate) struct Held<'w> {
    pub document: &'w [u8],
    pub named: &'w str,
    pub filter: &'w str,
}

/// Takes a netstring from the front.
fn take_netstring<'w>(wire: &mut &'w [u8]) -> Option<&'w [u8]> {
    let (digits, rest) = wire.split_at_checked(wire.iter().position(|byte| *byte == b':')?)?;
    let length = str::from_utf8(digits).ok()?.parse::<usize>().ok()?;
    let (text, rest) = rest.get(1..)?.split_at_checked(length)?;
    *wire = rest.strip_prefix(b",")?;
    Some(text)
}

fn text_of(bytes: &[u8]) -> &str {
    str::from_utf8(bytes).unwrap_or("")
}

/// Takes a question from the front.
pub(crate) fn take_question<'w>(wire: &mut &'w [u8]) -> Option<Question<'w>> {
    let word = take_netstring(wire)?;
    let bytes = take_netstring(wire)?;
    let second = take_netstring(wire)?;
    let third = take_netstring(wire)?;
    Some(Question {
        word: text_of(word),
        bytes,
        text: text_of(bytes),
        second: text_of(second),
        third: text_of(third),
    })
}

/// Keeps what the questions after this one are of.
pub(crate) fn hold<'w>(held: &mut Held<'w>, question: &Question<'w>) {
    match question.word {
        "schema" => held.document = question.bytes,
        "type" => held.named = question.text,
        "filter" => held.filter = question.text,
        _ => {}
    }
}

/// The number that a text is, 0 where it is none.
pub(crate) fn number_of(text: &str) -> usize {
    text.parse::<usize>().unwrap_or(0)
}
