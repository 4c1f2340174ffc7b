ghost use Rattle.std.specs.Prelude.{◌≡◌, ◌≤◌, length};
ghost use Rattle.std.specs.Char.{is_ascii_digit};
ghost use Rattle.std.specs.List.{prefix_len};
ghost use Rattle.odata_text.specs.LeftOut.{IsDecimalSpelling, IsDecimals, IsExponent, IsFraction};
ghost use Rattle.odata_text.specs.private.Lengths.{IsReach};

use super::byte_test::{ByteTest, pattern_length};
use super::number::{digit_run, int_length};
use super::pattern::{both_length, longer};

/// How many bytes the dot and the digits at the front take, 0 if there are none.
pub fn fraction_length(rest: &[u8]) -> usize
    ensures { IsReach IsFraction result rest.now }
{
    let dot = pattern_length(&[ByteTest::Dot], rest);
    let digits = digit_run(&rest[dot..]);
    both_length(dot, digits)
}

/// How many bytes the exponent at the front takes, 0 if there is none.
fn exponent_length(rest: &[u8]) -> usize
    ensures { IsReach IsExponent result rest.now }
{
    let mark = pattern_length(&[ByteTest::ExponentMark], rest);
    let power = int_length(&rest[mark..]);
    both_length(mark, power)
}

/// How many bytes the fraction, the exponent or both take at the front, 0 if there is neither.
fn decimals_length(rest: &[u8]) -> usize
    ensures { IsReach IsDecimals result rest.now }
{
    let fraction = fraction_length(rest);
    let behind = exponent_length(&rest[fraction..]);
    let both = both_length(fraction, behind);
    longer(fraction, longer(exponent_length(rest), both))
}

/// How many bytes the number with a fraction or an exponent at the front takes, 0 if there is none.
pub fn decimal_length(rest: &[u8]) -> usize
    ensures { IsReach IsDecimalSpelling result rest.now }
{
    let whole = int_length(rest);
    let decimals = decimals_length(&rest[whole..]);
    both_length(whole, decimals)
}
