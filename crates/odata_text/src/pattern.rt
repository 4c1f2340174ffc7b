ghost use Rattle.std.specs.Prelude.{◌≡◌, ◌+◌, ◌<◌, ◌^◌, max};
ghost use Rattle.odata_text.specs.private.Lengths.{IsReach, both_length};
ghost use Rattle.odata_text.specs.Spelling.{IsByte};

/// 1 if the byte stands at the front, else 0.
pub fn byte_length(byte: u8, rest: &[u8]) -> usize
    ensures { IsReach (IsByte byte) result rest.now }
{
    match rest.first() {
        Some(first) if *first == byte => 1,
        _ => 0,
    }
}

/// How many bytes two pieces take, one after the other, 0 if either is missing.
pub fn both_length(first: usize, second: usize) -> usize
    requires { first + second < 2 ^ 64 }
    ensures { result ≡ both_length first second }
{
    if first == 0 || second == 0 {
        return 0;
    }
    first + second
}

/// The longer of two pieces at one offset.
pub fn longer(first: usize, second: usize) -> usize
    ensures { result ≡ max first second }
{
    if first < second { second } else { first }
}
