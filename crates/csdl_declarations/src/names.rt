//! The names of a document's members.
ghost use Rattle.std.specs.Prelude.{◌≡◌};
ghost use Rattle.csdl_declarations.specs.Members.{is_read_over};

/// Whether a member of that name is control information or an annotation, which declare nothing.
pub(crate) fn is_read_over(name: &str) -> bool
    ensures { result ≡ is_read_over name.now }
{
    let bytes = name.as_bytes();
    match bytes.first() {
        Some(b'$') => true,
        _ => bytes.contains(&b'@'),
    }
}
