ghost use Rattle.std.specs.Prelude.{◌≡◌, ◌++◌, OnErr, OnOk, string_bytes};
ghost use Rattle.std.specs.Char.{is_ascii_uppercase};
ghost use Rattle.std.specs.List.{list_any};
ghost use Rattle.std.specs.Str.{str_to_ascii_lowercase};
ghost use Rattle.odata_text.specs.LiteralSpelling.{IsLiteralSpelling};
ghost use Rattle.odata_syntax.specs.NormalForm.{literal_token};
ghost use Rattle.odata_syntax.specs.LiteralText.{IsAppended};

use crate::LiteralKind;
use crate::printer::enumeration_text::write_enumeration;
use edm_values::{read_guid, read_int, read_moment, write_guid, write_int, write_moment};
use std::alloc::AllocError;

/// Appends the canonical spelling of a literal. After an error the text is unchanged.
pub fn write_literal(out: &mut String, kind: LiteralKind, text: &str) -> Result<(), AllocError>
    ensures ok { OnOk result (IsAppended (IsLiteralSpelling (literal_token kind) text.now)
        (string_bytes out.old) (string_bytes out.new)) }
    ensures err { OnErr result (string_bytes out.new ≡ string_bytes out.old) }
{
    match kind {
        LiteralKind::Null | LiteralKind::Bool => push_lowercase(out, text),
        LiteralKind::Int => match read_int(text) {
            Some(number) => write_int(out, number),
            None => out.push_str(text),
        },
        LiteralKind::Moment => match read_moment(text) {
            Some(moment) => write_moment(out, &moment),
            None => out.push_str(text),
        },
        LiteralKind::Guid => match read_guid(text) {
            Some(guid) => write_guid(out, guid),
            None => out.push_str(text),
        },
        LiteralKind::EnumLit => write_enumeration(out, text),
        LiteralKind::Date | LiteralKind::Str => out.push_str(text),
    }
}

/// Whether the text has an ASCII capital letter.
fn has_capital(text: &str) -> bool
    ensures { result ≡ list_any is_ascii_uppercase text.now }
{
    text.as_bytes().iter().any(|byte| byte.is_ascii_uppercase())
}

/// Appends a text in ASCII lower case. One that has no capital letter is appended as it stands.
fn push_lowercase(out: &mut String, text: &str) -> Result<(), AllocError>
    ensures ok { OnOk result (string_bytes out.new ≡ string_bytes out.old ++ str_to_ascii_lowercase text.now) }
    ensures err { OnErr result (string_bytes out.new ≡ string_bytes out.old) }
{
    if !has_capital(text) {
        return out.push_str(text);
    }
    let lower = text.to_ascii_lowercase(*out.allocator())?;
    out.push_str(&lower)
}
