ghost use Rattle.std.specs.Prelude.{◌≡◌, ◌+◌, ◌/◌, ◌%◌, ◌<◌, ℕ, IfSome, IfNone, OnOk, ◌++◌, string_bytes};
ghost use Rattle.edm_values.specs.DateLiteral.{two_digits};

use std::alloc::AllocError;

/// The number below 100 that two digits write.
pub(crate) fn read_two(tens: u8, units: u8) -> Option<u8>
    ensures value { IfSome result (λ n. (n < 100) × (tens ≡ 48 + n / 10) × (units ≡ 48 + n % 10)) }
    ensures none { IfNone result ((n : ℕ) → n < 100 → tens ≡ 48 + n / 10
        → ¬ (units ≡ 48 + n % 10)) }
{
    if tens.is_ascii_digit() && units.is_ascii_digit() {
        return Some((tens - b'0') * 10 + (units - b'0'));
    }
    None
}

/// Appends a number below 100 as two digits.
pub(crate) fn push_two(text: &mut String, n: u8) -> Result<(), AllocError>
    requires { n < 100 }
    ensures { OnOk result (string_bytes text.new ≡ string_bytes text.old ++ two_digits n) }
{
    text.push(char::from(b'0' + n / 10))?;
    text.push(char::from(b'0' + n % 10))
}
