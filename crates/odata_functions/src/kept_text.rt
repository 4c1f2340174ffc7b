//! Parts of a text that is borrowed or owned. The part of a borrowed text is borrowed; an owned text becomes its part
//! in place.
ghost use Rattle.std.specs.Prelude.{◌≡◌, drop, string_bytes};
ghost use Rattle.std.specs.Cow.{cow_str_bytes};
ghost use Rattle.std.specs.Str.{IsCharBoundary, chars};
ghost use Rattle.odata_functions.specs.Texts.{IsTrimmed, front_of, part_from, rest_from};

use crate::text_parts::{from_zero, offset_of, trim};
use std::alloc::Global;
use std::borrow::CowStr;

/// Returns the text from an index on (section 5.1.1.5.7). An index before the text counts as its start, and after its
/// end there is nothing.
pub fn rest_of_text(text: CowStr<'_, Global>, start: i64) -> CowStr<'_, Global>
    ensures { chars (cow_str_bytes result) ≡ rest_from start (chars (cow_str_bytes text.entry)) }
{
    match text {
        CowStr::Borrowed(borrowed) => CowStr::Borrowed(
            &borrowed[offset_of(borrowed, from_zero(start))..],
        ),
        CowStr::Owned(owned) => {
            let offset = offset_of(owned.as_str(), from_zero(start));
            CowStr::Owned(without_front(owned, offset))
        }
    }
}

/// Returns at most so many characters of the text from an index on, none for a number below zero.
pub fn part_of_text(text: CowStr<'_, Global>, start: i64, most: i64) -> CowStr<'_, Global>
    ensures { chars (cow_str_bytes result) ≡ part_from start most (chars (cow_str_bytes text.entry)) }
{
    front_of_text(rest_of_text(text, start), most)
}

fn front_of_text(text: CowStr<'_, Global>, most: i64) -> CowStr<'_, Global>
    ensures { chars (cow_str_bytes result) ≡ front_of most (chars (cow_str_bytes text.entry)) }
{
    match text {
        CowStr::Borrowed(borrowed) => CowStr::Borrowed(
            &borrowed[..offset_of(borrowed, from_zero(most))],
        ),
        CowStr::Owned(mut owned) => {
            let offset = offset_of(owned.as_str(), from_zero(most));
            owned.truncate(offset);
            CowStr::Owned(owned)
        }
    }
}

/// Returns the same as `trim`, of a borrowed or an owned text.
pub fn trim_text(text: CowStr<'_, Global>) -> CowStr<'_, Global>
    ensures { IsTrimmed (chars (cow_str_bytes text.entry)) (chars (cow_str_bytes result)) }
{
    match text {
        CowStr::Borrowed(borrowed) => CowStr::Borrowed(trim(borrowed)),
        CowStr::Owned(owned) => {
            let text = owned.as_str();
            let before = text.len() - text.trim_start().len();
            let mut rest = without_front(owned, before);
            let len = rest.as_str().trim_end().len();
            rest.truncate(len);
            CowStr::Owned(rest)
        }
    }
}

/// The text from a byte on, in the buffer of the whole.
fn without_front(text: String, offset: usize) -> String
    requires { IsCharBoundary (string_bytes text) offset }
    ensures { string_bytes result ≡ drop offset (string_bytes text) }
{
    let len = text.as_str().len() - offset;
    let mut bytes = text.into_bytes();
    bytes.rotate_left(offset);
    bytes.truncate(len);
    match String::from_utf8(bytes) {
        Ok(rest) => rest,
        // The bytes from the start of a character on are text, and std has no cut that takes no memory.
        Err(_) => unreachable!(),
    }
}
