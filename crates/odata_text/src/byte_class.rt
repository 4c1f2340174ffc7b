ghost use Rattle.std.specs.Prelude.{◌≡◌};
ghost use Rattle.odata_text.specs.ByteClass.{class_of};

/// What a single byte of a filter's text is between tokens.
#[derive(Clone, Copy, Debug, PartialEq, Eq)]
pub enum ByteClass {
    Quote,
    Space,
    Other,
}

#[tactic(auto, unfolding(crate::specs::ByteClass::class_of))]
pub fn class_of(byte: u8) -> ByteClass
    ensures { result ≡ class_of byte }
{
    match byte {
        b'\'' => ByteClass::Quote,
        b' ' | b'\t' => ByteClass::Space,
        _ => ByteClass::Other,
    }
}
