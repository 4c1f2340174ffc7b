//! JSON values as the walk goes over them, in a tree or on a tape.
ghost use Rattle.std.specs.Prelude.{◌≡◌, ◌≢◌, ◌<◌, ◌+◌, ℕ, List, is_some, length, map, slice_get, option_map, IfOk, IfSome, Some};
ghost use Rattle.serde_json.specs.Data.{Data};
ghost use Rattle.serde_json.specs.Find.{as_array, as_null, as_object, get};
ghost use Rattle.csdl_schema.specs.SchemaModel.{PropertyModel, properties_at};
ghost use Rattle.edm_entities.specs.private.JsonNodes.{HasMembersOf, IsNextItem, data_of, items_left};
ghost use Rattle.edm_entities.specs.private.Scalars.{IsScalar};

use super::member_walk::{MemberWalk, members_of};
use super::scalar::{Scalar, scalar_of};
use super::tape_node::{TapeItems, TapeNode, nodes_by_slot};
use csdl_schema::{Schema, TypeId};
use serde_json::Value;
use std::alloc::{AllocError, Global};
use std::mem;

/// A JSON value in a tree, or on a tape.
#[derive(Drop)]
pub(crate) enum JsonNode<'j, 'a> {
    Tree(&'j Value),
    Tape(TapeNode<'j, 'a>),
}

/// An object in a tree, and the walk over its members.
#[derive(Drop)]
pub(crate) struct TreeMembers<'j> {
    json: &'j Value,
    walk: MemberWalk<'j>,
}

/// The members of an object that were not asked for yet: of a tree in the order of their names; of a tape by the slots
/// of a type.
#[derive(Drop)]
pub(crate) enum NodeMembers<'j, 'a> {
    Tree(TreeMembers<'j>),
    Tape(Vec<Option<TapeNode<'j, 'a>>>),
}

/// The items of an array that were not taken yet.
#[derive(Drop)]
pub(crate) enum NodeItems<'j, 'a> {
    Tree(&'j [Value]),
    Tape(TapeItems<'j, 'a>),
}

impl<'j, 'a> JsonNode<'j, 'a> {
    pub(crate) fn is_null(&self) -> bool
        ensures { result ≡ is_some (as_null (data_of self.now)) }
    {
        match self {
            JsonNode::Tree(json) => json.is_null(),
            JsonNode::Tape(node) => node.is_null(),
        }
    }

    pub(crate) fn scalar(&self) -> Scalar<'_>
        ensures { IsScalar result (data_of self.now) }
    {
        match self {
            JsonNode::Tree(json) => scalar_of(*json),
            JsonNode::Tape(node) => node.scalar(),
        }
    }

    /// The items of an array; none of another value.
    pub(crate) fn items(&self) -> Option<NodeItems<'j, 'a>>
        ensures { option_map items_left result ≡ as_array (data_of self.now) }
    {
        match self {
            JsonNode::Tree(json) => match json.as_array() {
                Some(items) => Some(NodeItems::Tree(items.as_slice())),
                None => None,
            },
            JsonNode::Tape(node) => match node.items() {
                Some(items) => Some(NodeItems::Tape(items)),
                None => None,
            },
        }
    }

    /// The members of an object, to be asked for by the slots of a type in their order; none of another value.
    pub(crate) fn members(
        &self,
        alloc: Global,
        schema: &Schema,
        type_id: TypeId,
    ) -> Result<Option<NodeMembers<'j, 'a>>, AllocError>
        ensures object { IfOk result (λ found. is_some found ≡ is_some (as_object (data_of self.now))) }
        ensures members { IfOk result (λ found. IfSome found
            (HasMembersOf (properties_at schema.now type_id) (data_of self.now) 0)) }
    {
        match self {
            JsonNode::Tree(json) => match members_of(*json) {
                Some(walk) => Ok(Some(NodeMembers::Tree(TreeMembers { json: *json, walk }))),
                None => Ok(None),
            },
            JsonNode::Tape(node) => match nodes_by_slot(alloc, schema, type_id, node)? {
                Some(nodes) => Ok(Some(NodeMembers::Tape(nodes))),
                None => Ok(None),
            },
        }
    }
}

impl<'j, 'a> NodeItems<'j, 'a> {
    /// How many items the array has. It has no clause: a list grows where it was made too short.
    pub(crate) fn count(&self) -> usize {
        match self {
            NodeItems::Tree(items) => items.len(),
            NodeItems::Tape(items) => items.count(),
        }
    }

    /// Takes the next item.
    pub(crate) fn next(&mut self) -> Option<JsonNode<'j, 'a>>
        ensures { IsNextItem (items_left self.old) (option_map data_of result) (items_left self.new) }
    {
        match self {
            NodeItems::Tree(items) => {
                let left = *items;
                if left.is_empty() {
                    return None;
                }
                *items = &left[1..];
                Some(JsonNode::Tree(&left[0]))
            }
            NodeItems::Tape(items) => match items.next() {
                Some(node) => Some(JsonNode::Tape(node)),
                None => None,
            },
        }
    }
}

impl<'j, 'a> NodeMembers<'j, 'a> {
    /// Takes the object's member of a slot's name. Each slot is asked for once, in their order.
    pub(crate) fn find(&mut self, slot: usize, name: &str) -> Option<JsonNode<'j, 'a>>
        ensures { (properties : List PropertyModel) (json : Data) → HasMembersOf properties json slot self.old
            → slice_get (map (λ p. p.name) properties) slot ≡ Some name.now
            → (option_map data_of result ≡ get name.now json) × HasMembersOf properties json (slot + 1) self.new }
    {
        match self {
            NodeMembers::Tree(members) => match members.walk.find(members.json, name) {
                Some(found) => Some(JsonNode::Tree(found)),
                None => None,
            },
            NodeMembers::Tape(nodes) => match take_at(nodes, slot) {
                Some(node) => Some(JsonNode::Tape(node)),
                None => None,
            },
        }
    }
}

/// Takes what is stored for a slot.
fn take_at<'j, 'a>(
    nodes: &mut Vec<Option<TapeNode<'j, 'a>>>,
    slot: usize,
) -> Option<TapeNode<'j, 'a>>
    ensures length { length nodes.new.items ≡ length nodes.old.items }
    ensures stays { (k : ℕ) → k ≢ slot → slice_get nodes.new.items k ≡ slice_get nodes.old.items k }
    ensures taken { slot < length nodes.old.items → slice_get nodes.old.items slot ≡ Some result }
{
    if slot < nodes.len() {
        mem::replace(&mut nodes[slot], None)
    } else {
        None
    }
}
