ghost use Rattle.std.specs.Prelude.{◌≡◌};
ghost use Rattle.odata_text.specs.private.Lengths.{IsReach};
ghost use Rattle.odata_text.specs.private.Patterns.{PassesTests, passes};

/// What may stand at one offset of a pattern.
#[derive(Clone, Copy, Debug, PartialEq, Eq)]
pub enum ByteTest {
    Digit,
    HexDigit,
    Hyphen,
    Colon,
    Dot,
    Sign,
    TimeMark,
    OffsetMark,
    ExponentMark,
}

fn passes(test: ByteTest, byte: u8) -> bool
    ensures { result ≡ passes test byte }
{
    match test {
        ByteTest::Digit => byte.is_ascii_digit(),
        ByteTest::HexDigit => byte.is_ascii_hexdigit(),
        ByteTest::Hyphen => byte == b'-',
        ByteTest::Colon => byte == b':',
        ByteTest::Dot => byte == b'.',
        ByteTest::Sign => byte == b'+' || byte == b'-',
        ByteTest::TimeMark => byte == b'T' || byte == b't',
        ByteTest::OffsetMark => byte == b'Z' || byte == b'z',
        ByteTest::ExponentMark => byte == b'e' || byte == b'E',
    }
}

/// The length of the pattern, if the bytes at the front fit it one by one, else 0.
pub fn pattern_length(pattern: &[ByteTest], rest: &[u8]) -> usize
    ensures { IsReach (PassesTests pattern.now) result rest.now }
{
    if rest.len() < pattern.len() {
        return 0;
    }
    for (i, test) in pattern.iter().enumerate() {
        if !passes(*test, rest[i]) {
            return 0;
        }
    }
    pattern.len()
}
