ghost use Rattle.std.specs.Prelude.{◌≡◌};
ghost use Rattle.odata_text.specs.private.Lengths.{IsReach, quoted_after};
ghost use Rattle.edm_values.specs.StringLiteral.{IsStringSpelling};

/// How far a quoted text has come: a quote closes it, unless the next byte is a quote too.
#[derive(Clone, Copy, Debug, PartialEq, Eq)]
enum Quoted {
    Before,
    Open,
    Closed,
    Over,
}

fn quoted_after(quoted: Quoted, byte: u8) -> Quoted
    ensures { result ≡ quoted_after quoted byte }
{
    match (quoted, byte == b'\'') {
        (Quoted::Open, true) => Quoted::Closed,
        (Quoted::Open, false) => Quoted::Open,
        (Quoted::Before | Quoted::Closed, true) => Quoted::Open,
        _ => Quoted::Over,
    }
}

/// How many bytes the longest text in quotes at the front takes, 0 if there is none.
pub fn string_length(rest: &[u8]) -> usize
    ensures { IsReach IsStringSpelling result rest.now }
{
    let mut quoted = Quoted::Before;
    let mut length = 0;
    for (i, byte) in rest.iter().enumerate() {
        quoted = quoted_after(quoted, *byte);
        match quoted {
            Quoted::Closed => length = i + 1,
            Quoted::Over => return length,
            Quoted::Before | Quoted::Open => {}
        }
    }
    length
}
