//! The members of an object in the order of their names, in which the slots of a type stand too.
ghost use Rattle.std.specs.Prelude.{◌≡◌, is_some, Some, IfSome, option_map};
ghost use Rattle.serde_json.specs.Data.{Data};
ghost use Rattle.serde_json.specs.Find.{as_object, get};
ghost use Rattle.serde_json.specs.View.{view};
ghost use Rattle.edm_entities.specs.private.MemberWalk.{IsWalkOf};

use serde_json::Value;
use std::collections::btree_map::Iter;

/// The current member, and those after it.
#[derive(Drop)]
pub(crate) struct MemberWalk<'j> {
    pub(crate) at_hand: Option<(&'j String, &'j Value)>,
    pub(crate) rest: Iter<'j, String, Value>,
}

/// A walk over the members of an object from the first on; none of a value that is not an object.
pub(crate) fn members_of(json: &Value) -> Option<MemberWalk<'_>>
    ensures object { is_some result ≡ is_some (as_object (view json.now)) }
    ensures walk { IfSome result (IsWalkOf (view json.now)) }
{
    match json.as_object() {
        Some(members) => {
            let mut rest = members.iter();
            let at_hand = rest.next();
            Some(MemberWalk { at_hand, rest })
        }
        None => None,
    }
}

impl<'j> MemberWalk<'j> {
    /// The value of the current member, if that has the name; the walk goes past it then.
    fn take(&mut self, name: &str) -> Option<&'j Value>
        ensures walk { (json : Data) → IsWalkOf json self.old → IsWalkOf json self.new }
        ensures found { (json : Data) → IsWalkOf json self.old
            → IfSome result (λ value. get name.now json ≡ Some (view value.now)) }
    {
        match self.at_hand {
            Some((key, value)) => if key.as_str() == name {
                self.at_hand = self.rest.next();
                Some(value)
            } else {
                None
            },
            None => None,
        }
    }

    /// Goes past the members whose names come before that one.
    fn pass_before(&mut self, name: &str)
        ensures { (json : Data) → IsWalkOf json self.old → IsWalkOf json self.new }
    {
        while let Some((key, _)) = self.at_hand {
            if key.as_str() >= name {
                return;
            }
            self.at_hand = self.rest.next();
        }
    }

    /// The value of the object's member of that name. It is quick where names are asked for in their order.
    pub(crate) fn find(&mut self, json: &'j Value, name: &str) -> Option<&'j Value>
        ensures walk { IsWalkOf (view json.now) self.old → IsWalkOf (view json.now) self.new }
        ensures found { IsWalkOf (view json.now) self.old
            → option_map (λ value. view value.now) result ≡ get name.now (view json.now) }
    {
        if let Some(value) = self.take(name) {
            return Some(value);
        }
        self.pass_before(name);
        match self.take(name) {
            Some(value) => Some(value),
            None => json.get(name),
        }
    }
}
