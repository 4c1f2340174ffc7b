ghost use Rattle.std.specs.Prelude.{◌≡◌, ◌≢◌, ℕ, true, List, [], ◌∷◌, ◌++◌, IfOk, OnErr, OnOk, replicate, string_bytes};
ghost use Rattle.odata_text.specs.LiteralSpelling.{enumeration_spelling, trimmed_pieces};

use std::alloc::{AllocError, Global};

/// Appends an enumeration literal without the spaces round its pieces. One that has no space is appended as it stands.
pub fn write_enumeration(out: &mut String, text: &str) -> Result<(), AllocError>
    ensures ok { OnOk result (string_bytes out.new ≡ string_bytes out.old ++ enumeration_spelling text.now) }
    ensures err { OnErr result (string_bytes out.new ≡ string_bytes out.old) }
{
    if !text.as_bytes().contains(&b' ') {
        return out.push_str(text);
    }
    let spelling = spelling_of(*out.allocator(), text)?;
    out.push_str(spelling.as_str())
}

fn spelling_of(alloc: Global, text: &str) -> Result<String, AllocError>
    ensures { IfOk result (λ spelling. string_bytes spelling ≡ enumeration_spelling text.now) }
{
    let mut spelling = String::new(alloc);
    push_enumeration(&mut spelling, text)?;
    Ok(spelling)
}

/// The word and its first quote, and the pieces after it.
fn push_enumeration(out: &mut String, text: &str) -> Result<(), AllocError>
    ensures { OnOk result (string_bytes out.new ≡ string_bytes out.old ++ enumeration_spelling text.now) }
{
    match text.split_once('\'') {
        Some((word, quoted)) => {
            out.push_str(word)?;
            out.push('\'')?;
            push_pieces(out, quoted)
        }
        None => out.push_str(text),
    }
}

/// The pieces after the first quote.
fn push_pieces(out: &mut String, quoted: &str) -> Result<(), AllocError>
    ensures { OnOk result (string_bytes out.new ≡ string_bytes out.old ++ trimmed_pieces true quoted.now) }
{
    let mut rest = quoted;
    while let Some((piece, behind)) = rest.split_once(',') {
        out.push_str(without_trailing_spaces(without_leading_spaces(piece)))?;
        out.push(',')?;
        rest = behind;
    }
    let last = without_leading_spaces(rest);
    match last.strip_suffix('\'') {
        Some(piece) => {
            out.push_str(without_trailing_spaces(piece))?;
            out.push('\'')
        }
        None => out.push_str(last),
    }
}

fn without_leading_spaces(text: &str) -> &str
    ensures spaces { (n : ℕ) × (text.now ≡ replicate n 32 ++ result.now) }
    ensures first { (rest : List ℕ) → result.now ≢ 32 ∷ rest }
{
    let mut rest = text;
    while let Some(behind) = rest.strip_prefix(' ') {
        rest = behind;
    }
    rest
}

fn without_trailing_spaces(text: &str) -> &str
    ensures spaces { (n : ℕ) × (text.now ≡ result.now ++ replicate n 32) }
    ensures last { (front : List ℕ) → result.now ≢ front ++ 32 ∷ [] }
{
    let mut rest = text;
    while let Some(front) = rest.strip_suffix(' ') {
        rest = front;
    }
    rest
}
