//! Properties at slots one after another, as a schema passes them by reference.
ghost use Rattle.std.specs.Prelude.{◌≡◌, ◌<◌, length, slice_get, Some};

use super::property::Property;
use indexmap::map::Slice;
use std::marker::Model;

/// Properties at consecutive slots, each with its name, borrowed from a schema.
#[derive(Drop)]
pub struct PropertyPiece<'s> {
    entries: Slice<'s, String, Property>,
}

impl<'s> Model for PropertyPiece<'s> {
    ghost use Rattle.std.specs.Prelude.{ℕ, List, map};
    ghost use Rattle.csdl_schema.specs.declared.property.Property.{Property};
    ghost use Rattle.csdl_schema.specs.private.Placed.{entry_view};

    ghost Value = { List (List ℕ × Property) };

    ghost view = { λ p. map entry_view p.entries };
}

impl<'s> PropertyPiece<'s> {
    ghost use Rattle.std.specs.Prelude.{map};
    ghost use Rattle.csdl_schema.specs.private.Placed.{entry_view};

    pub(crate) fn from_entries(entries: Slice<'s, String, Property>) -> PropertyPiece<'s>
        ensures { result ≡ map entry_view entries.entry }
    {
        PropertyPiece { entries }
    }

    /// Returns how many properties there are.
    pub fn len(&self) -> usize
        ensures { result ≡ length self.now }
    {
        self.entries.len()
    }

    /// Returns the name and the property at an index.
    pub fn entry(&self, index: usize) -> (&'s str, &'s Property)
        requires { index < length self.now }
        ensures { slice_get self.now index ≡ Some (result.0.now, result.1.now) }
    {
        let names = self.entries.keys().as_slice();
        let properties = self.entries.values().as_slice();
        (names[index].as_str(), &properties[index])
    }
}
