//! A member's name as it stands in a text.
ghost use Rattle.std.specs.Prelude.{◌≡◌, length, string_bytes, IfSome};
ghost use Rattle.json.specs.Written.{PlainBetween};
ghost use Rattle.json_room.specs.Keys.{name_with_colon, quoted_name};

use super::plain_bytes::plain_end;
use std::alloc::Global;
use std::marker::Model;

/// A name with its quotes, compared with a text at an offset, mostly with its colon at once. Only a name that is
/// written as it is makes one.
#[derive(Drop)]
pub(crate) struct Key {
    name: String,
    quoted: String,
    with_colon: String,
}

impl Model for Key {
    ghost use Rattle.std.specs.Prelude.{ℕ, List, string_bytes};
    ghost use Rattle.std.specs.Coded.{coded_list, coded_ℕ};
    ghost use Rattle.json_room.specs.private.Keys.{IsKey};

    ghost Value = { List ℕ };

    ghost coded = { coded_list coded_ℕ };

    ghost view = { λ k. string_bytes k.name };

    ghost invariant = { IsKey };
}

impl Key {
    /// Creates the key of a name. Returns none where the name has quotes, backslashes or control characters, or an
    /// allocation failed.
    pub(crate) fn new(alloc: Global, name: &str) -> Option<Key>
        ensures { IfSome result (λ key. key ≡ name.now) }
    {
        if plain_end(name.as_bytes(), 0) != name.len() {
            return None;
        }
        let Ok(copy) = String::from_str(alloc, name) else {
            return None;
        };
        let Some(quoted) = quoted_name(alloc, name) else {
            return None;
        };
        match name_with_colon(alloc, name) {
            Some(with_colon) => Some(Key {
                name: copy,
                quoted,
                with_colon,
            }),
            None => None,
        }
    }

    /// The name with its quotes.
    #[inline(always)]
    pub(crate) fn quoted(&self) -> &[u8]
        ensures quoted { result.now ≡ quoted_name self.now }
        ensures plain { PlainBetween self.now 0 (length self.now) }
    {
        self.quoted.as_bytes()
    }

    /// The name with its quotes and the colon after it.
    #[inline(always)]
    pub(crate) fn with_colon(&self) -> &[u8]
        ensures named { result.now ≡ name_with_colon self.now }
        ensures plain { PlainBetween self.now 0 (length self.now) }
    {
        self.with_colon.as_bytes()
    }
}

fn quoted_name(alloc: Global, name: &str) -> Option<String>
    ensures { IfSome result (λ quoted. string_bytes quoted ≡ quoted_name name.now) }
{
    let mut quoted = String::new(alloc);
    if quoted.push_str("\"").is_err() {
        return None;
    }
    if quoted.push_str(name).is_err() {
        return None;
    }
    if quoted.push_str("\"").is_err() {
        return None;
    }
    Some(quoted)
}

fn name_with_colon(alloc: Global, name: &str) -> Option<String>
    ensures { IfSome result (λ named. string_bytes named ≡ name_with_colon name.now) }
{
    let Some(mut named) = quoted_name(alloc, name) else {
        return None;
    };
    if named.push_str(":").is_err() {
        return None;
    }
    Some(named)
}
