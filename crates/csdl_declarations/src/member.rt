//! Members of the document's objects, and what they are by themselves.
ghost use Rattle.std.specs.Prelude.{◌≡◌, IfOk, OnOk, length, option_map};
ghost use Rattle.serde_json.specs.Find.{get};
ghost use Rattle.serde_json.specs.View.{view, members_view};
ghost use Rattle.csdl_declarations.specs.Members.{declared_in, declared_among, text_at, is_text, is_text_if_given, is_truth_if_given, is_true_at};
ghost use Rattle.csdl_declarations.specs.private.DocumentView.{members_of, AreNamesInOrder};

use super::names::is_read_over;
use serde_json::{Map, Value};
use std::alloc::{AllocError, Global};

/// A member of a JSON object.
#[derive(Clone, Copy)]
pub(crate) struct Member<'d> {
    pub(crate) name: &'d str,
    pub(crate) value: &'d Value,
}

/// The members that declare something, in the byte order of their names; none of a value that is not an object.
pub(crate) fn declared_members<'d>(
    alloc: Global,
    value: &'d Value,
) -> Result<Vec<Member<'d>>, AllocError>
    ensures members { IfOk result (λ ms. members_of ms.items ≡ declared_in (view value.now)) }
    ensures ordered { OnOk result (AreNamesInOrder (declared_in (view value.now))) }
{
    match value.as_object() {
        Some(members) => declared_among(alloc, members),
        None => Ok(Vec::new(alloc)),
    }
}

fn declared_among<'d>(
    alloc: Global,
    members: &'d Map<String, Value>,
) -> Result<Vec<Member<'d>>, AllocError>
    ensures members { IfOk result (λ ms. members_of ms.items ≡ declared_among (members_view members.now.entries)) }
    ensures ordered { OnOk result (AreNamesInOrder (declared_among (members_view members.now.entries))) }
{
    let mut found = Vec::with_capacity(alloc, count_declared(members))?;
    for (key, value) in members.iter() {
        let name = key.as_str();
        if !is_read_over(name) {
            found.push(Member { name, value })?;
        }
    }
    Ok(found)
}

/// How many members declare something.
pub(crate) fn count_declared(members: &Map<String, Value>) -> usize
    ensures { result ≡ length (declared_among (members_view members.now.entries)) }
{
    let mut count = 0;
    for (key, _) in members.iter() {
        if !is_read_over(key.as_str()) {
            count += 1;
        }
    }
    count
}

/// The text of that member, if it is there and a text.
pub(crate) fn text_at<'d>(value: &'d Value, name: &str) -> Option<&'d str>
    ensures { option_map (λ s. s.now) result ≡ text_at name.now (view value.now) }
{
    match value.get(name) {
        Some(member) => member.as_str(),
        None => None,
    }
}

pub(crate) fn is_text(found: Option<&str>, wanted: &str) -> bool
    ensures { result ≡ is_text wanted.now (option_map (λ s. s.now) found.entry) }
{
    match found {
        Some(text) => text == wanted,
        None => false,
    }
}

/// Whether that member is left out or a text.
pub(crate) fn is_text_if_given(value: &Value, name: &str) -> bool
    ensures { result ≡ is_text_if_given (get name.now (view value.now)) }
{
    match value.get(name) {
        Some(member) => member.is_string(),
        None => true,
    }
}

/// Whether that member is left out or a truth value.
pub(crate) fn is_truth_if_given(value: &Value, name: &str) -> bool
    ensures { result ≡ is_truth_if_given (get name.now (view value.now)) }
{
    match value.get(name) {
        Some(member) => member.as_bool().is_some(),
        None => true,
    }
}

/// The truth value of that member, false where there is none.
pub(crate) fn is_true_at(value: &Value, name: &str) -> bool
    ensures { result ≡ is_true_at name.now (view value.now) }
{
    match value.get(name) {
        Some(member) => match member.as_bool() {
            Some(truth) => truth,
            None => false,
        },
        None => false,
    }
}
