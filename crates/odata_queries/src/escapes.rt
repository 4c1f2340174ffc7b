ghost use Rattle.std.specs.Prelude.{◌≡◌, IfOk};
ghost use Rattle.percent_encoding.specs.Percent.{percent_decode};
ghost use Rattle.odata_queries.specs.Disguise.{decoded_once, is_long_escape, shortened};

use super::query_part::is_digit_at;
use percent_encoding::percent_decode;
use std::alloc::{AllocError, Global};

/// Whether `%u00` and two hexadecimal digits stand first.
fn is_long_escape(text: &[u8]) -> bool
    ensures { result ≡ is_long_escape text.now }
{
    text.starts_with(b"%u00") && is_digit_at(text, 4) && is_digit_at(text, 5)
}

/// The text with a `%` in place of the `%u00` of each such escape.
fn shortened(alloc: Global, text: &[u8]) -> Result<Vec<u8>, AllocError>
    ensures { IfOk result (λ bytes. bytes.items ≡ shortened 0 text.now) }
{
    let mut bytes = Vec::new(alloc);
    let mut skipped: usize = 0;
    for place in 0..text.len() {
        if skipped == 0 {
            bytes.push(text[place])?;
            skipped = if is_long_escape(&text[place..]) { 3 } else { 0 };
        } else {
            skipped -= 1;
        }
    }
    Ok(bytes)
}

/// The bytes of a text whose escapes are decoded.
pub fn decoded(alloc: Global, text: &[u8]) -> Result<Vec<u8>, AllocError>
    ensures { IfOk result (λ bytes. bytes.items ≡ percent_decode text.now) }
{
    let mut bytes = Vec::new(alloc);
    percent_decode(text).append_to(&mut bytes)?;
    Ok(bytes)
}

/// The bytes of a text whose escapes are decoded, those with `%u00` too if they are `long`.
pub fn decoded_once(alloc: Global, text: &[u8], long: bool) -> Result<Vec<u8>, AllocError>
    ensures { IfOk result (λ bytes. bytes.items ≡ decoded_once long text.now) }
{
    if long {
        let short = shortened(alloc, text)?;
        return decoded(alloc, short.as_slice());
    }
    decoded(alloc, text)
}
