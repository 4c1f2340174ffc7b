ghost use Rattle.std.specs.Prelude.{◌≡◌, ◌<◌, ◌∷◌, ◌++◌, length, take};
ghost use Rattle.line_filter.specs.Lines.{lines_of};

use memchr::memchr;

/// The first line and what follows it and its LF.
pub fn first_line(bytes: &[u8]) -> (&[u8], &[u8])
    requires { 0 < length bytes.now }
    ensures lines { lines_of bytes.now ≡ result.0.now ∷ lines_of result.1.now }
    ensures front { take (length result.0.now) bytes.now ≡ result.0.now }
    ensures whole { 0 < length result.1.now → bytes.now ≡ result.0.now ++ 10 ∷ result.1.now }
    ensures shorter { length result.1.now < length bytes.now }
{
    match memchr(b'\n', bytes) {
        Some(end) => (&bytes[..end], &bytes[end + 1..]),
        None => (bytes, &bytes[bytes.len()..]),
    }
}
