ghost use Rattle.std.specs.Prelude.{◌≡◌, ℕ, List, ◌++◌, IfSome, OnOk, OnErr, string_bytes};
ghost use Rattle.edm_values.specs.GuidLiteral.{GuidValue, guid_spelling};

use std::alloc::AllocError;
use uuid::Uuid;

const LEN: usize = 36;

/// Reads a Guid literal. It has 32 hexadecimal digits in either case, in groups of 8, 4, 4, 4 and 12 with hyphens
/// between them. `None` where the text is spelled otherwise.
pub fn read_guid(text: &str) -> Option<Uuid>
    ensures value { IfSome result (GuidValue text.now) }
    ensures only { (guid : List ℕ) → GuidValue text.now guid → result ≡ Some guid }
{
    if text.len() != LEN {
        return None;
    }
    Uuid::parse_str(text).ok()
}

/// Appends the canonical spelling of a Guid, in lower case. After an error the text is unchanged.
pub fn write_guid(out: &mut String, guid: Uuid) -> Result<(), AllocError>
    ensures ok { OnOk result (string_bytes out.new ≡ string_bytes out.old ++ guid_spelling guid) }
    ensures err { OnErr result (string_bytes out.new ≡ string_bytes out.old) }
{
    let mut buffer = [0; LEN];
    out.push_str(guid.hyphenated().encode_lower(&mut buffer))
}
