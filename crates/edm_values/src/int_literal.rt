ghost use Rattle.std.specs.Prelude.{◌≡◌, ◌<◌, ◌≤◌, ◌^◌, ℤ, pos, ◌++◌, length, string_bytes};
ghost use Rattle.std.specs.Prelude.{IfNone, IfSome, OnOk, OnErr};
ghost use Rattle.std.specs.Str.Parse.{AllDigits, digits_value};
ghost use Rattle.edm_values.specs.IntLiteral.{IntNumber, IntValue, int_spelling};

use itoa::Buffer;
use std::alloc::AllocError;

/// The number of so many digits lies within `Edm.Int64`.
const SHORT: usize = 18;

/// Reads an Int literal: a sign or none, then decimal digits. `None` where the text is spelled otherwise, and where its
/// number lies outside `Edm.Int64`.
pub fn read_int(text: &str) -> Option<i64>
    ensures value { IfSome result (IntValue text.now) }
    ensures only { (n : ℤ) → IntValue text.now n → result ≡ Some n }
{
    if let Some(number) = short_number(text.as_bytes()) {
        return Some(number as i64);
    }
    text.parse().ok()
}

/// The number of one to eighteen digits. `None` where the bytes are more, none, or not all digits.
fn short_number(bytes: &[u8]) -> Option<u64>
    ensures { IfSome result (λ n. (n < 10 ^ 18) × IntNumber bytes.now (pos n)) }
{
    if bytes.is_empty() || bytes.len() > SHORT {
        return None;
    }
    read_digits(bytes)
}

/// The number that the digits stand for. `None` where not all bytes are digits.
#[inline(always)]
fn read_digits(digits: &[u8]) -> Option<u64>
    requires { length digits.now ≤ 18 }
    ensures value { IfSome result (λ n. AllDigits 10 digits.now
        × (n ≡ digits_value 10 digits.now) × (n < 10 ^ 18)) }
    ensures none { IfNone result (¬ (AllDigits 10 digits.now)) }
{
    let mut number = 0;
    for digit in digits {
        if !digit.is_ascii_digit() {
            return None;
        }
        number = 10 * number + u64::from(*digit - b'0');
    }
    Some(number)
}

/// Appends the canonical spelling of a whole number: no plus sign, no leading zeros. Its digits are made on the stack.
pub fn write_int(out: &mut String, n: i64) -> Result<(), AllocError>
    ensures ok { OnOk result (string_bytes out.new ≡ string_bytes out.old ++ int_spelling n) }
    ensures err { OnErr result (string_bytes out.new ≡ string_bytes out.old) }
{
    let mut digits = Buffer::new();
    out.push_str(digits.format(n))
}
