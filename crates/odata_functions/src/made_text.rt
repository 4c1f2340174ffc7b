//! Texts that are made of others. These calls alone take memory.
ghost use Rattle.std.specs.Prelude.{◌≡◌, ◌++◌, IfOk, map, string_bytes};
ghost use Rattle.std.specs.Char.{to_ascii_lowercase, to_ascii_uppercase};
ghost use Rattle.std.specs.Str.{chars};

use std::alloc::{AllocError, Global};

/// Returns the two texts joined (section 5.1.1.5.1).
pub fn concat(alloc: Global, left: &str, right: &str) -> Result<String, AllocError>
    ensures { IfOk result (λ made. chars (string_bytes made) ≡ chars left.now ++ chars right.now) }
{
    let mut made = String::with_capacity(alloc, left.len() + right.len())?;
    made.push_str(left)?;
    made.push_str(right)?;
    Ok(made)
}

/// Returns the text with its ASCII letters in lower case (section 5.1.1.7.2). Other letters stay.
pub fn to_lower(alloc: Global, text: &str) -> Result<String, AllocError>
    ensures { IfOk result (λ made. chars (string_bytes made) ≡ map to_ascii_lowercase (chars text.now)) }
{
    text.to_ascii_lowercase(alloc)
}

/// Returns the text with its ASCII letters in upper case (section 5.1.1.7.3). Other letters stay.
pub fn to_upper(alloc: Global, text: &str) -> Result<String, AllocError>
    ensures { IfOk result (λ made. chars (string_bytes made) ≡ map to_ascii_uppercase (chars text.now)) }
{
    text.to_ascii_uppercase(alloc)
}
