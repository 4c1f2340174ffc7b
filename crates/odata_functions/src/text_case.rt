//! Tests of a text in lower case, for which no text is made.
ghost use Rattle.std.specs.Prelude.{◌↔◌, IsTrue, map};
ghost use Rattle.std.specs.Char.{to_ascii_lowercase};
ghost use Rattle.std.specs.Str.{chars};
ghost use Rattle.odata_functions.specs.Texts.{HasStart};
ghost use Rattle.odata_functions.specs.LowerCase.{in_lower_case};

/// Returns whether the text in lower case begins with the part. Lower case is that of ASCII letters (sections
/// 5.1.1.5.6 and 5.1.1.7.2).
pub fn lower_starts_with(text: &str, part: &str) -> bool
    ensures { IsTrue result ↔ HasStart (chars (in_lower_case text.now)) (chars part.now) }
{
    has_lower_front(text.as_bytes(), part.as_bytes())
}

/// Whether these bytes are the first ones of the others in lower case.
fn has_lower_front(bytes: &[u8], front: &[u8]) -> bool
    ensures { IsTrue result ↔ HasStart (map to_ascii_lowercase bytes.now) front.now }
{
    if bytes.len() < front.len() {
        return false;
    }
    for at in 0..front.len() {
        if bytes[at].to_ascii_lowercase() != front[at] {
            return false;
        }
    }
    true
}
