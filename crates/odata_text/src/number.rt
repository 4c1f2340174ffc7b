ghost use Rattle.std.specs.Prelude.{◌≡◌, ◌≤◌, length};
ghost use Rattle.std.specs.Char.{is_ascii_digit};
ghost use Rattle.std.specs.List.{prefix_len};
ghost use Rattle.edm_values.specs.IntLiteral.{IsIntSpelling};
ghost use Rattle.odata_text.specs.private.Lengths.{IsReach};

use super::byte_test::{ByteTest, pattern_length};
use super::pattern::{both_length, longer};

/// How many bytes the digits at the front take.
pub fn digit_run(rest: &[u8]) -> usize
    ensures value { result ≡ prefix_len is_ascii_digit rest.now }
    ensures within { result ≤ length rest.now }
{
    rest.iter().take_while(|byte| byte.is_ascii_digit()).count()
}

/// How many bytes the whole number at the front takes, 0 if there is none.
pub fn int_length(rest: &[u8]) -> usize
    ensures { IsReach IsIntSpelling result rest.now }
{
    let plain = digit_run(rest);
    let sign = pattern_length(&[ByteTest::Sign], rest);
    let behind = digit_run(&rest[sign..]);
    let signed = both_length(sign, behind);
    longer(plain, signed)
}
