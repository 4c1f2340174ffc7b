//! The white space at both ends of a text, found by its bytes: each character of Unicode's by one test.
ghost use Rattle.std.specs.Prelude.{◌<◌, [], ◌∷◌, IsTrue};
ghost use Rattle.std.specs.Str.{IsTrimEnd, IsTrimStart};
ghost use Rattle.odata_functions.specs.private.Blanks.{BeginsBlank, EndsBlank, IsBlankEnd, IsBlankStart, SpellsBlank};

/// The text without the white space at its start.
pub(crate) fn without_start(text: &str) -> &str
    ensures { IsTrimStart text.now result.now }
{
    text[blank_start(text)..].trim_start()
}

/// The text without the white space at its end.
pub(crate) fn without_end(text: &str) -> &str
    ensures { IsTrimEnd text.now result.now }
{
    text[..blank_end(text)].trim_end()
}

/// How many bytes of white space a text begins with.
fn blank_start(text: &str) -> usize
    ensures { IsBlankStart text.now result }
{
    let bytes = text.as_bytes();
    let mut at = 0;
    let mut width = start_width(bytes);
    while 0 < width {
        at += width;
        width = start_width(&bytes[at..]);
    }
    at
}

/// The byte from which on a text is white space.
fn blank_end(text: &str) -> usize
    ensures { IsBlankEnd text.now result }
{
    let bytes = text.as_bytes();
    let mut at = bytes.len();
    let mut width = end_width(bytes);
    while 0 < width {
        at -= width;
        width = end_width(&bytes[..at]);
    }
    at
}

/// How many bytes the white space has that these bytes begin with; 0 where there is none.
#[inline(always)]
fn start_width(bytes: &[u8]) -> usize
    ensures { 0 < result → BeginsBlank bytes.now result }
{
    let len = bytes.len();
    if len < 1 {
        return 0;
    }
    if is_blank(bytes[0]) {
        return 1;
    }
    if len < 2 {
        return 0;
    }
    if is_blank_pair(bytes[0], bytes[1]) {
        return 2;
    }
    if len < 3 {
        return 0;
    }
    if is_blank_triple(bytes[0], bytes[1], bytes[2]) {
        return 3;
    }
    0
}

/// The same of their end.
#[inline(always)]
fn end_width(bytes: &[u8]) -> usize
    ensures { 0 < result → EndsBlank bytes.now result }
{
    let len = bytes.len();
    if len < 1 {
        return 0;
    }
    if is_blank(bytes[len - 1]) {
        return 1;
    }
    if len < 2 {
        return 0;
    }
    if is_blank_pair(bytes[len - 2], bytes[len - 1]) {
        return 2;
    }
    if len < 3 {
        return 0;
    }
    if is_blank_triple(bytes[len - 3], bytes[len - 2], bytes[len - 1]) {
        return 3;
    }
    0
}

/// Whether a byte is white space.
#[inline(always)]
fn is_blank(byte: u8) -> bool
    ensures { IsTrue result → SpellsBlank (byte ∷ []) }
{
    match byte {
        9 => true,
        10 => true,
        11 => true,
        12 => true,
        13 => true,
        32 => true,
        _ => false,
    }
}

/// Whether two bytes are one.
#[inline(always)]
fn is_blank_pair(first: u8, second: u8) -> bool
    ensures { IsTrue result → SpellsBlank (first ∷ second ∷ []) }
{
    match u32::from(first) * 256 + u32::from(second) {
        0xC285 => true,
        0xC2A0 => true,
        _ => false,
    }
}

/// Whether three bytes are.
#[inline(always)]
fn is_blank_triple(first: u8, second: u8, third: u8) -> bool
    ensures { IsTrue result → SpellsBlank (first ∷ second ∷ third ∷ []) }
{
    match u32::from(first) * 65_536 + u32::from(second) * 256 + u32::from(third) {
        0xE1_9A80 => true,
        0xE2_8080 => true,
        0xE2_8081 => true,
        0xE2_8082 => true,
        0xE2_8083 => true,
        0xE2_8084 => true,
        0xE2_8085 => true,
        0xE2_8086 => true,
        0xE2_8087 => true,
        0xE2_8088 => true,
        0xE2_8089 => true,
        0xE2_808A => true,
        0xE2_80A8 => true,
        0xE2_80A9 => true,
        0xE2_80AF => true,
        0xE2_819F => true,
        0xE3_8080 => true,
        _ => false,
    }
}
