ghost use Rattle.std.specs.Prelude.{◌≡◌, ◌+◌, ◌-◌, ◌<◌, ◌≤◌, ◌^◌, ◌==◌, IfOk, if◌then◌else◌};
ghost use Rattle.odata_queries.specs.Disguise.{depth_after, has_misplaced, is_misplaced, outside};

use std::alloc::{AllocError, Global};

/// How many parentheses are not closed after one more byte.
fn depth_with(depth: usize, byte: u8) -> usize
    requires { depth < 2 ^ 63 }
    ensures value { result ≡ (if byte == 40 then depth + 1 else if byte == 41 then depth - 1 else depth) }
    ensures within { result ≤ depth + 1 }
{
    if byte == b'(' {
        depth + 1
    } else if byte == b')' {
        depth.saturating_sub(1)
    } else {
        depth
    }
}

/// How many `(` of a text are not closed; a `)` that closes none is passed over.
pub fn depth_after(text: &[u8]) -> usize
    ensures { result ≡ depth_after 0 text.now }
{
    let mut depth = 0;
    for byte in text {
        depth = depth_with(depth, *byte);
    }
    depth
}

/// The bytes of a text outside its parentheses.
pub fn outside_parentheses(alloc: Global, text: &[u8]) -> Result<Vec<u8>, AllocError>
    ensures { IfOk result (λ bytes. bytes.items ≡ outside 0 text.now) }
{
    let mut bytes = Vec::new(alloc);
    let mut depth = 0;
    for byte in text {
        if depth == 0 && *byte != b'(' && *byte != b')' {
            bytes.push(*byte)?;
        }
        depth = depth_with(depth, *byte);
    }
    Ok(bytes)
}

/// Whether the byte is misplaced, where so many parentheses are open and this byte stands before.
fn is_misplaced(depth: usize, before: u8, byte: u8) -> bool
    ensures { result ≡ is_misplaced depth before byte }
{
    depth == 0
        && byte == b'('
        && (before == b'=' || before == b',' || before == b'/' || before == b';')
        || depth == 1 && before == b'(' && byte == b';'
}

/// Whether a `(` that stands in no other follows no name, or a `;` stands right after it.
pub fn has_misplaced(text: &[u8]) -> bool
    ensures { result ≡ has_misplaced 0 0 text.now }
{
    let mut misplaced = false;
    let mut depth = 0;
    let mut before = 0;
    for byte in text {
        misplaced = misplaced || is_misplaced(depth, before, *byte);
        depth = depth_with(depth, *byte);
        before = *byte;
    }
    misplaced
}
