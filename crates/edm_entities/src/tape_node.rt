//! JSON values on a tape, a flat list of nodes over a text.
ghost use Rattle.std.specs.Prelude.{◌≡◌, ◌<◌, ◌≤◌, ◌↔◌, is_some, length, option_map, replicate, OnSome, None, Some, IfOk, IfSome, IsSome, IsTrue};
ghost use Rattle.json.specs.Find.{BeginsWith, InItems, InMembers};
ghost use Rattle.json.specs.Json as json;
ghost use Rattle.serde_json.specs.Data.{no_members, number};
ghost use Rattle.serde_json.specs.Find.{as_array, as_null, as_object};
ghost use Rattle.serde_json.specs.Read.{number_of};
ghost use Rattle.csdl_schema.specs.SchemaModel.{properties_at};
ghost use Rattle.edm_entities.specs.private.JsonNodes.{IsNextItem};
ghost use Rattle.edm_entities.specs.private.Scalars.{IsJsonNumber, IsScalar};
ghost use Rattle.edm_entities.specs.private.TapeNodes.{AreMembersReadWithin, AreReadWithin, IsReadWithin};
ghost use Rattle.edm_entities.specs.private.TapeNodes.{HasNodes, IsNextOf, data_on, items_on, members_on};

use super::scalar::{JsonNumber, Scalar, json_number};
use csdl_schema::{Schema, TypeId};
use json::{Element, Items, Members, Tape};
use json_room::number_of_text;
use std::alloc::{AllocError, Global};
use std::marker::Model;

/// A value on a tape, which `serde_json` reads.
#[derive(Drop)]
pub(crate) struct TapeNode<'t, 'a> {
    element: Element<'t, 'a>,
}

// A clause sees the tokens from the value on.
impl<'t, 'a> Model for TapeNode<'t, 'a> {
    ghost use Rattle.std.specs.Prelude.{List};
    ghost use Rattle.json.specs.Token.{Token, tokens_code};
    ghost use Rattle.edm_entities.specs.private.TapeNodes.{IsReadOn};

    ghost Value = { List Token };

    ghost coded = { tokens_code };

    ghost view = { λ node. node.element };

    ghost invariant = { λ node. IsReadOn node.element };
}

impl<'t, 'a> TapeNode<'t, 'a> {
    /// The value of a whole tape; none where `serde_json` does not read it, since it nests deeper than that or a number
    /// has no value.
    pub(crate) fn of_tape(tape: &'t Tape<'a>, depth: usize) -> Option<TapeNode<'t, 'a>>
        requires { depth ≤ json.max_depth }
        ensures node { IfSome result (λ node. node ≡ tape.now) }
        ensures read { IfSome result (λ node. (value : json.Json) → BeginsWith node value → IsReadWithin depth value) }
        ensures unread { result ≡ None → (value : json.Json) → BeginsWith tape.now value → ¬ (IsReadWithin depth value) }
    {
        let element = tape.root();
        if is_read(&element, depth) {
            Some(TapeNode { element })
        } else {
            None
        }
    }

    pub(crate) fn is_null(&self) -> bool
        ensures { result ≡ is_some (as_null (data_on self.now)) }
    {
        self.element.is_null()
    }

    pub(crate) fn scalar(&self) -> Scalar<'_>
        ensures { IsScalar result (data_on self.now) }
    {
        match self.element.as_str() {
            Some(text) => Scalar::Text(text),
            None => match self.element.as_number() {
                Some(text) => Scalar::Number(number_on_tape(text)),
                None => match self.element.as_bool() {
                    Some(truth) => Scalar::Truth(truth),
                    None => Scalar::Other,
                },
            },
        }
    }

    /// The items of an array; none of another value.
    pub(crate) fn items(&self) -> Option<TapeItems<'t, 'a>>
        ensures { option_map items_on result ≡ as_array (data_on self.now) }
    {
        match self.element.items() {
            Some(items) => Some(TapeItems {
                items,
                count: count_of(&self.element),
            }),
            None => None,
        }
    }
}

impl<'t, 'a> TapeNode<'t, 'a> {
    /// The members of an object; none of another value.
    fn members(&self) -> Option<TapeMembers<'t, 'a>>
        ensures none { result ≡ None → as_object (data_on self.now) ≡ None }
        ensures members { IfSome result (λ members. as_object (data_on self.now) ≡ Some (members_on no_members members)) }
    {
        match self.element.members() {
            Some(members) => Some(TapeMembers { members }),
            None => None,
        }
    }
}

/// How many items an array has.
fn count_of(array: &Element<'_, '_>) -> usize {
    let mut count = 0usize;
    if let Some(mut items) = array.items() {
        'items: while items.next().is_some() {
            count = count.saturating_add(1);
        }
    }
    count
}

/// The number that a token writes, which has a value.
fn number_on_tape(text: &str) -> JsonNumber
    requires { IsSome (number_of text.now) }
    ensures { IfSome (number_of text.now) (λ value. IsJsonNumber result (number value)) }
{
    match number_of_text(text) {
        Some(number) => json_number(&number),
        None => JsonNumber::Fraction,
    }
}

/// The items of an array that were not taken yet.
#[derive(Drop)]
pub(crate) struct TapeItems<'t, 'a> {
    items: Items<'t, 'a>,
    /// How many items the array has. It has no clause: a list grows where it was made too short.
    count: usize,
}

// A clause sees the tokens from the next item on.
impl<'t, 'a> Model for TapeItems<'t, 'a> {
    ghost use Rattle.std.specs.Prelude.{List};
    ghost use Rattle.json.specs.Token.{Token, tokens_code};
    ghost use Rattle.edm_entities.specs.private.TapeNodes.{AreItemsOn};

    ghost Value = { List Token };

    ghost coded = { tokens_code };

    ghost view = { λ items. items.items };

    ghost invariant = { λ items. AreItemsOn items.items };
}

impl<'t, 'a> TapeItems<'t, 'a> {
    pub(crate) fn count(&self) -> usize {
        self.count
    }

    /// Takes the next item.
    pub(crate) fn next(&mut self) -> Option<TapeNode<'t, 'a>>
        ensures next { IsNextItem (items_on self.old) (option_map data_on result) (items_on self.new) }
        ensures shorter { OnSome result (length self.new < length self.old) }
    {
        let Some(element) = self.items.next() else {
            return None;
        };
        Some(TapeNode { element })
    }
}

/// The members of an object that were not taken yet.
#[derive(Drop)]
struct TapeMembers<'t, 'a> {
    members: Members<'t, 'a>,
}

// A clause sees the tokens from the next member on.
impl<'t, 'a> Model for TapeMembers<'t, 'a> {
    ghost use Rattle.std.specs.Prelude.{List};
    ghost use Rattle.json.specs.Token.{Token, tokens_code};
    ghost use Rattle.edm_entities.specs.private.TapeNodes.{AreMembersOn};

    ghost Value = { List Token };

    ghost coded = { tokens_code };

    ghost view = { λ members. members.members };

    ghost invariant = { λ members. AreMembersOn members.members };
}

impl<'t, 'a> TapeMembers<'t, 'a> {
    /// Takes the next member: its name and its value.
    fn next(&mut self) -> Option<(&'a str, TapeNode<'t, 'a>)>
        ensures next { IsNextOf self.old (option_map (λ member. (member.0.now, data_on member.1)) result) self.new }
        ensures shorter { OnSome result (length self.new < length self.old) }
    {
        let Some((name, element)) = self.members.next() else {
            return None;
        };
        Some((name, TapeNode { element }))
    }
}

/// The members of an object, each at the slot of its name in a type, and of members of one name the last; none of
/// another value.
pub(crate) fn nodes_by_slot<'t, 'a>(
    alloc: Global,
    schema: &Schema,
    type_id: TypeId,
    node: &TapeNode<'t, 'a>,
) -> Result<Option<Vec<Option<TapeNode<'t, 'a>>>>, AllocError>
    ensures object { IfOk result (λ found. is_some found ≡ is_some (as_object (data_on node.now))) }
    ensures nodes { IfOk result (λ found. IfSome found
        (λ nodes. HasNodes (properties_at schema.now type_id) (data_on node.now) 0 nodes.items)) }
{
    let Some(mut members) = node.members() else {
        return Ok(None);
    };
    let mut nodes = no_nodes(alloc, schema.slots(type_id))?;
    'members: while let Some((name, member)) = members.next() {
        if let Some(slot) = schema.slot(type_id, name) {
            nodes[slot] = Some(member);
        }
    }
    Ok(Some(nodes))
}

/// So many slots without a node.
fn no_nodes<T: Drop>(alloc: Global, count: usize) -> Result<Vec<Option<T>>, AllocError>
    ensures { IfOk result (λ nodes. nodes.items ≡ replicate count None) }
{
    let mut nodes = Vec::with_capacity(alloc, count)?;
    for _ in 0..count {
        nodes.push(None)?;
    }
    Ok(nodes)
}

/// Whether `serde_json` reads the value that begins there: it nests no deeper than that, and each number has a value.
#[cycle(read)]
fn is_read(element: &Element<'_, '_>, depth: usize) -> bool
    ensures { (value : json.Json) → BeginsWith element.now value → IsTrue result ↔ IsReadWithin depth value }
{
    if let Some(text) = element.as_number() {
        return number_of_text(text).is_some();
    }
    if let Some(items) = element.items() {
        return depth > 0 && are_read(items, depth - 1);
    }
    match element.members() {
        Some(members) => depth > 0 && are_members_read(members, depth - 1),
        None => true,
    }
}

/// The same of each item of an array.
#[cycle(read)]
fn are_read(items: Items<'_, '_>, depth: usize) -> bool
    ensures { (values : json.Items) → InItems items.entry values → IsTrue result ↔ AreReadWithin depth values }
{
    let mut left = items;
    'items: while let Some(item) = left.next() {
        if !is_read(&item, depth) {
            return false;
        }
    }
    true
}

/// The same of the value of each member of an object.
#[cycle(read)]
fn are_members_read(members: Members<'_, '_>, depth: usize) -> bool
    ensures { (found : json.Members) → InMembers members.entry found
        → IsTrue result ↔ AreMembersReadWithin depth found }
{
    let mut left = members;
    'members: while let Some((_, value)) = left.next() {
        if !is_read(&value, depth) {
            return false;
        }
    }
    true
}
