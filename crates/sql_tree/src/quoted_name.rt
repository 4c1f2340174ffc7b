//! Names of columns between quotes (ISO/IEC 9075-2, section 5.2).
ghost use Rattle.std.specs.Prelude.{◌≡◌, ◌++◌, IfOk, OnOk, OnErr, string_bytes};
ghost use Rattle.sql_tree.specs.QuotedName.{quoted_name};

use std::alloc::{AllocError, Global};

/// Writes a name between quotes, the quotes within it doubled.
pub(crate) fn write_name(out: &mut String, name: &str) -> Result<(), AllocError>
    ensures ok { OnOk result (string_bytes out.new ≡ string_bytes out.old ++ quoted_name name.now) }
    ensures err { OnErr result (string_bytes out.new ≡ string_bytes out.old) }
{
    let text = quoted_text(*out.allocator(), name)?;
    out.push_str(text.as_str())
}

fn quoted_text(alloc: Global, name: &str) -> Result<String, AllocError>
    ensures { IfOk result (λ text. string_bytes text ≡ quoted_name name.now) }
{
    let mut text = String::from_str(alloc, "\"")?;
    let mut rest = name;
    while let Some((piece, behind)) = rest.split_once('"') {
        text.push_str(piece)?;
        text.push_str("\"\"")?;
        rest = behind;
    }
    text.push_str(rest)?;
    text.push('"')?;
    Ok(text)
}
