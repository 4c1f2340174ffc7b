//! Where bytes end among brackets, braces and texts.
ghost use Rattle.std.specs.Prelude.{◌≡◌};
ghost use Rattle.collection_reader.specs.private.Nesting.{after_escape, after_kind, in_text, outside_texts};

use crate::kind::Kind;

/// Whether bytes end in a text.
#[derive(Clone, Copy, Debug, PartialEq, Eq)]
pub(crate) enum Mode {
    Outside,
    Text,
    /// In a text, after a backslash that escapes what follows.
    Escape,
}

/// How many brackets and braces are open after bytes, and whether they end in a text.
#[derive(Clone, Copy, Debug, PartialEq, Eq)]
pub(crate) struct Nest {
    pub(crate) depth: u8,
    pub(crate) mode: Mode,
}

/// Where bytes end with one more byte of that kind. `None` where that is no JSON: more than `most` are open, none is
/// that closes, or a text has a line feed or a carriage return.
#[inline(always)]
pub(crate) fn after_kind(most: u8, nest: Nest, kind: Kind) -> Option<Nest>
    ensures { result ≡ after_kind most nest kind }
{
    match nest.mode {
        Mode::Outside => outside_texts(most, nest.depth, kind),
        Mode::Text => in_text(nest.depth, kind),
        Mode::Escape => after_escape(nest.depth, kind),
    }
}

/// The same outside texts.
#[inline(always)]
fn outside_texts(most: u8, depth: u8, kind: Kind) -> Option<Nest>
    ensures { result ≡ outside_texts most depth kind }
{
    let mode = Mode::Outside;
    match kind {
        Kind::Quote => Some(Nest {
            depth,
            mode: Mode::Text,
        }),
        Kind::Brace | Kind::Bracket => {
            if most <= depth {
                return None;
            }
            Some(Nest {
                depth: depth + 1,
                mode,
            })
        }
        Kind::BraceEnd | Kind::BracketEnd => {
            if depth == 0 {
                return None;
            }
            Some(Nest {
                depth: depth - 1,
                mode,
            })
        }
        _ => Some(Nest { depth, mode }),
    }
}

/// The same in a text.
#[inline(always)]
fn in_text(depth: u8, kind: Kind) -> Option<Nest>
    ensures { result ≡ in_text depth kind }
{
    match kind {
        Kind::Quote => Some(Nest {
            depth,
            mode: Mode::Outside,
        }),
        Kind::Backslash => Some(Nest {
            depth,
            mode: Mode::Escape,
        }),
        Kind::Feed => None,
        _ => Some(Nest {
            depth,
            mode: Mode::Text,
        }),
    }
}

/// The same after a backslash in a text.
#[inline(always)]
fn after_escape(depth: u8, kind: Kind) -> Option<Nest>
    ensures { result ≡ after_escape depth kind }
{
    match kind {
        Kind::Feed => None,
        _ => Some(Nest {
            depth,
            mode: Mode::Text,
        }),
    }
}
