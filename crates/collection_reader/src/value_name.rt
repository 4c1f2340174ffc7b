//! The name of a collection's array, as it is spelled in a document.
ghost use Rattle.std.specs.Prelude.{◌≡◌, ◌+◌, ◌<◌, ◌^◌, length, get_or};
ghost use Rattle.collection_reader.specs.private.ValueName.{after_letter, after_quote, ends_there, names_value};

/// The byte at an offset; 0 past the end.
#[inline(always)]
fn byte_at(bytes: &[u8], offset: usize) -> u8
    ensures { result ≡ get_or bytes.now offset 0 }
{
    if offset < bytes.len() {
        bytes[offset]
    } else {
        0
    }
}

/// A letter, and the two hexadecimal digits by which an escape names it.
#[derive(Clone, Copy)]
pub(crate) struct Letter {
    letter: u8,
    high: u8,
    low: u8,
}

/// The offset after a letter that stands there, by itself or as an escape; 0 if it does not, or if none was given.
fn after_letter(bytes: &[u8], offset: usize, letter: Letter) -> usize
    requires short { length bytes.now + 6 < 2 ^ 64 }
    ensures { result ≡ after_letter bytes.now offset letter }
{
    if offset == 0 || bytes.len() <= offset {
        return 0;
    }
    if byte_at(bytes, offset) == letter.letter {
        return offset + 1;
    }
    let is_escape = byte_at(bytes, offset) == b'\\'
        && byte_at(bytes, offset + 1) == b'u'
        && byte_at(bytes, offset + 2) == b'0'
        && byte_at(bytes, offset + 3) == b'0'
        && byte_at(bytes, offset + 4) == letter.high
        && (byte_at(bytes, offset + 5) | 32) == letter.low;
    if is_escape { offset + 6 } else { 0 }
}

/// The offset after a quote; 0 past the end.
fn after_quote(bytes: &[u8], quote: usize) -> usize
    requires short { length bytes.now + 6 < 2 ^ 64 }
    ensures { result ≡ after_quote bytes.now quote }
{
    if quote < bytes.len() { quote + 1 } else { 0 }
}

/// Whether a text that begins at an offset is `value`. What follows the text is not looked at.
pub(crate) fn names_value(bytes: &[u8], quote: usize) -> bool
    requires short { length bytes.now + 6 < 2 ^ 64 }
    ensures { result ≡ names_value bytes.now quote }
{
    let first = after_quote(bytes, quote);
    let v = after_letter(
        bytes,
        first,
        Letter {
            letter: b'v',
            high: b'7',
            low: b'6',
        },
    );
    let a = after_letter(
        bytes,
        v,
        Letter {
            letter: b'a',
            high: b'6',
            low: b'1',
        },
    );
    let l = after_letter(
        bytes,
        a,
        Letter {
            letter: b'l',
            high: b'6',
            low: b'c',
        },
    );
    let u = after_letter(
        bytes,
        l,
        Letter {
            letter: b'u',
            high: b'7',
            low: b'5',
        },
    );
    let e = after_letter(
        bytes,
        u,
        Letter {
            letter: b'e',
            high: b'6',
            low: b'5',
        },
    );
    ends_there(bytes, e)
}

/// Whether a quote stands at an offset that is not 0.
fn ends_there(bytes: &[u8], offset: usize) -> bool
    ensures { result ≡ ends_there bytes.now offset }
{
    if offset == 0 {
        return false;
    }
    byte_at(bytes, offset) == b'"'
}
