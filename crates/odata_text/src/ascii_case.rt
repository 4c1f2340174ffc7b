ghost use Rattle.std.specs.Prelude.{◌≡◌};
ghost use Rattle.std.specs.Str.{str_eq_ignore_ascii_case};

/// Whether the bytes are the name in any case of its letters.
pub fn is_named(bytes: &[u8], name: &[u8]) -> bool
    ensures { result ≡ str_eq_ignore_ascii_case bytes.now name.now }
{
    bytes.eq_ignore_ascii_case(name)
}
