ghost use Rattle.std.specs.Prelude.{◌≡◌, ℕ, List, IfOk, IfErr, IfSome, IfNone, OnOk, OnErr, ◌∷◌, ◌++◌, [], string_bytes};
ghost use Rattle.edm_values.specs.StringLiteral.{quote, with_doubled_quotes, string_spelling, StringValue, IsStringFault};
ghost use Rattle.edm_values.specs.private.StringLiteral.{IsInnerFault};

use std::alloc::{AllocError, Global};
use thiserror::Error;

/// Why a text is not read as a String literal.
#[derive(Debug, Drop, Error)]
pub enum LitFault {
    /// It is not spelled as one.
    #[error("Form")]
    Form,
    /// There was no memory for the value.
    #[error("memory")]
    Memory,
}

impl From<AllocError> for LitFault {
    ghost use Rattle.std.specs.Prelude.{◌≡◌};
    ghost use Rattle.edm_values.specs.declared.string_literal.LitFault.TheVariants.{Memory};

    ghost from_gives = { λ _ fault. fault ≡ Memory };

    fn from(_: AllocError) -> LitFault {
        LitFault::Memory
    }
}

/// Reads a String literal: the text between its quotes, with doubled quotes made single.
pub fn read_string(alloc: Global, text: &str) -> Result<String, LitFault>
    ensures value { IfOk result (λ value. StringValue text.now (string_bytes value)) }
    ensures fault { IfErr result (IsStringFault text.now) }
{
    match between_quotes(text) {
        Some(inner) => merge_doubled_quotes(alloc, inner),
        None => Err(LitFault::Form),
    }
}

fn between_quotes(text: &str) -> Option<&str>
    ensures some { IfSome result (λ inner. text.now ≡ quote ∷ inner.now ++ quote ∷ []) }
    ensures none { IfNone result ((inner : List ℕ) → ¬ (text.now ≡ quote ∷ inner ++ quote ∷ [])) }
{
    text.strip_prefix('\'')?.strip_suffix('\'')
}

fn merge_doubled_quotes(alloc: Global, inner: &str) -> Result<String, LitFault>
    ensures value { IfOk result (λ value. inner.now ≡ with_doubled_quotes (string_bytes value)) }
    ensures fault { IfErr result (IsInnerFault inner.now) }
{
    let mut value = String::new(alloc);
    let mut rest = inner;
    while let Some((piece, behind)) = rest.split_once('\'') {
        let Some(behind) = behind.strip_prefix('\'') else {
            return Err(LitFault::Form);
        };
        value.push_str(piece)?;
        value.push('\'')?;
        rest = behind;
    }
    value.push_str(rest)?;
    Ok(value)
}

/// Appends the spelling of a text: between single quotes, with its own quotes doubled. After an error the text is
/// unchanged.
pub fn write_string(out: &mut String, text: &str) -> Result<(), AllocError>
    ensures ok { OnOk result (string_bytes out.new ≡ string_bytes out.old ++ string_spelling text.now) }
    ensures err { OnErr result (string_bytes out.new ≡ string_bytes out.old) }
{
    let spelling = spelling_of(*out.allocator(), text)?;
    out.push_str(spelling.as_str())
}

fn spelling_of(alloc: Global, text: &str) -> Result<String, AllocError>
    ensures { IfOk result (λ spelling. string_bytes spelling ≡ string_spelling text.now) }
{
    let mut spelling = String::from_str(alloc, "'")?;
    let mut rest = text;
    while let Some((piece, behind)) = rest.split_once('\'') {
        spelling.push_str(piece)?;
        spelling.push_str("''")?;
        rest = behind;
    }
    spelling.push_str(rest)?;
    spelling.push('\'')?;
    Ok(spelling)
}
