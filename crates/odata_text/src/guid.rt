ghost use Rattle.edm_values.specs.GuidLiteral.{IsGuidSpelling};
ghost use Rattle.odata_text.specs.private.Lengths.{IsReach};

use super::byte_test::ByteTest::{self, HexDigit, Hyphen};
use super::byte_test::pattern_length;

/// 8-4-4-4-12 digits.
const GUID: [ByteTest; 36] = [
    HexDigit, HexDigit, HexDigit, HexDigit, HexDigit, HexDigit, HexDigit, HexDigit, Hyphen,
    HexDigit, HexDigit, HexDigit, HexDigit, Hyphen, HexDigit, HexDigit, HexDigit, HexDigit, Hyphen,
    HexDigit, HexDigit, HexDigit, HexDigit, Hyphen, HexDigit, HexDigit, HexDigit, HexDigit,
    HexDigit, HexDigit, HexDigit, HexDigit, HexDigit, HexDigit, HexDigit, HexDigit,
];

/// How many bytes the Guid at the front takes, 0 if there is none.
pub fn guid_length(rest: &[u8]) -> usize
    ensures { IsReach IsGuidSpelling result rest.now }
{
    pattern_length(&GUID, rest)
}
