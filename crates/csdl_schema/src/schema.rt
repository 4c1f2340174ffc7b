ghost use Rattle.std.specs.Prelude.{ℤ, ◌≡◌, ◌<◌, ◌↔◌, drop, is_some, length, map, position, slice_get, Some, IsTrue, IfSome, MatchOption, option_map};
ghost use Rattle.csdl_schema.specs.SchemaModel.{enumeration_at, enumeration_named, index_named, is_enumeration, is_named, is_structured, name_of_kind, properties_at, slot_named, AreSlotsInOrder, HasDistinctNames, HoldsType, IsEntityAt, IsEnumerationByName, IsOneByName};
ghost use Rattle.edm_enumerations.specs.EnumerationModel.{member_of};
ghost use Rattle.csdl_schema.specs.PropertyView.{AreFirstOf, IsReadAs};
ghost use Rattle.csdl_schema.specs.EnumerationText.{has_flags, members_in, IsValueIn, IsOfUnderlying};

use super::chain::Chain;
use super::ids::{EnumId, TypeId};
use super::named_type::NamedType;
use super::property::Property;
use super::property_piece::PropertyPiece;
use super::slots::{count_slots, entries_from, entry_at, find_slot};
use super::type_at::{
    enumeration_at, enumeration_name, is_entity_at, is_enumeration_at, is_structured_at,
    structured_name,
};
use super::type_index::place_named;
use super::unread_types::DeclaredName;
use indexmap::IndexMap;
use std::marker::Model;

/// The types of a document, by name and by index.
#[derive(Drop)]
pub struct Schema {
    pub(crate) types: Vec<NamedType>,
    pub(crate) chains: Vec<Chain>,
    pub(crate) index_by_name: IndexMap<String, usize>,
    /// Names of the types of properties, which no clause speaks of.
    pub(crate) declared_names: Vec<DeclaredName>,
}

impl Model for Schema {
    ghost use Rattle.csdl_schema.specs.SchemaModel.{SchemaModel};

    ghost Value = { SchemaModel };

    ghost use Rattle.csdl_schema.specs.private.SchemaView.{schema_model, IsKeptSchema};

    ghost view = { schema_model };

    ghost invariant = { IsKeptSchema };
}

/// A type and its bases are at most so many.
const MOST_TYPES: usize = 65;

/// The type of a property that the type at an index declares itself, as the document names it.
fn name_at<'n>(names: &'n [DeclaredName], owner: usize, property: &str) -> Option<&'n str> {
    for name in names {
        if name.owner == owner && name.property.as_str() == property {
            return Some(name.type_name.as_str());
        }
    }
    None
}

impl Schema {
    /// Returns the index of an entity or complex type, by its name with its namespace or its alias.
    pub fn type_named(&self, name: &str) -> Option<TypeId>
        ensures { result ≡ index_named self.now name.now }
    {
        match place_named(&self.index_by_name, name) {
            Some(index) => {
                if is_structured_at(&self.types, index) {
                    Some(TypeId::from_index(index))
                } else {
                    None
                }
            }
            None => None,
        }
    }

    /// Returns the index of an enumeration, by its name with its namespace or its alias.
    pub fn enum_named(&self, name: &str) -> Option<EnumId>
        ensures { result ≡ enumeration_named self.now name.now }
    {
        match place_named(&self.index_by_name, name) {
            Some(index) => {
                if is_enumeration_at(&self.types, index) {
                    Some(EnumId::from_index(index))
                } else {
                    None
                }
            }
            None => None,
        }
    }

    /// Returns how many types the document declares, enumerations and type definitions among them.
    pub fn type_count(&self) -> usize
        ensures { result ≡ length self.now.types }
    {
        self.types.len()
    }

    /// Returns the entity or complex type at an index. `None` where a type of another kind stands there, and after the
    /// last one.
    pub fn type_at(&self, index: usize) -> Option<TypeId>
        ensures { MatchOption result (¬ HoldsType self.now index) (λ id. (id ≡ index) × HoldsType self.now index) }
    {
        let id = TypeId::from_index(index);
        if self.holds(id) { Some(id) } else { None }
    }

    /// Returns whether the document declares a type of that name, of any kind. The name has its namespace or its alias.
    pub fn declares(&self, name: &str) -> bool
        ensures { result ≡ is_some (position (λ t. is_named t name.now) self.now.types) }
    {
        place_named(&self.index_by_name, name).is_some()
    }

    /// Returns the type of a property of the type or of a base of it, as the document names it.
    ///
    /// `None` is returned where values of that type are read as a primitive one. It has no clause: sentences are tested.
    pub fn declared_type(&self, id: TypeId, property: &str) -> Option<&str> {
        let mut owner = id.index();
        for _ in 0..MOST_TYPES {
            if let Some(name) = name_at(&self.declared_names, owner, property) {
                return Some(name);
            }
            owner = self.types.get(owner)?.base()?;
        }
        None
    }

    /// Returns whether this schema has an entity or complex type at that index.
    pub fn holds(&self, id: TypeId) -> bool
        ensures { IsTrue result ↔ HoldsType self.now id }
    {
        is_structured_at(&self.types, id.index())
    }

    /// Returns whether the type is there and is an entity type.
    pub fn is_entity(&self, id: TypeId) -> bool
        ensures { IsTrue result ↔ IsEntityAt self.now id }
    {
        is_entity_at(&self.types, id.index())
    }

    /// Returns the type's name with its namespace; `None` where the schema has no such type.
    pub fn type_name(&self, id: TypeId) -> Option<&str>
        ensures name { option_map (λ name. name.now) result ≡ name_of_kind is_structured self.now id }
        ensures only { IsOneByName is_structured self.now id }
    {
        structured_name(&self.types, id.index())
    }

    /// Returns the enumeration's name with its namespace; `None` where the schema has no such enumeration.
    pub fn enum_name(&self, id: EnumId) -> Option<&str>
        ensures name { option_map (λ name. name.now) result ≡ name_of_kind is_enumeration self.now id }
        ensures only { IsOneByName is_enumeration self.now id }
    {
        enumeration_name(&self.types, id.index())
    }

    /// Returns the number that the text of a literal, between its quotes, stands for in an enumeration. It is `None`
    /// too where the schema has no such enumeration.
    pub fn enum_value(&self, id: EnumId, text: &str) -> Option<i64>
        ensures value { IfSome result (IsValueIn (enumeration_at self.now id) text.now) }
        ensures only { (n : ℤ) → IsValueIn (enumeration_at self.now id) text.now n → result ≡ Some n }
        ensures within { IfSome result (IsOfUnderlying (enumeration_at self.now id)) }
        ensures by_name { IsEnumerationByName self.now id }
    {
        match enumeration_at(&self.types, id.index()) {
            Some(enumeration) => enumeration.value_of(text),
            None => None,
        }
    }

    /// Returns how many members the enumeration has; 0 where the schema has no such enumeration.
    pub fn enum_members(&self, id: EnumId) -> usize
        ensures { result ≡ length (members_in (enumeration_at self.now id)) }
    {
        match enumeration_at(&self.types, id.index()) {
            Some(enumeration) => enumeration.len(),
            None => 0,
        }
    }

    /// Returns the member of an enumeration at an index: its name and its number. `None` after the last one, and where
    /// the schema has no such enumeration.
    pub fn enum_member(&self, id: EnumId, place: usize) -> Option<(&str, i64)>
        ensures { option_map (λ m. member_of m.0.now m.1) result
            ≡ slice_get (members_in (enumeration_at self.now id)) place }
    {
        match enumeration_at(&self.types, id.index()) {
            Some(enumeration) => enumeration.member_at(place),
            None => None,
        }
    }

    /// Whether a value of the enumeration may combine several members (CSDL JSON 4.01, section 10.2).
    /// `false` where the schema has no such enumeration.
    pub fn enum_is_flags(&self, id: EnumId) -> bool
        ensures { result ≡ has_flags (enumeration_at self.now id) }
    {
        match enumeration_at(&self.types, id.index()) {
            Some(enumeration) => enumeration.is_flags(),
            None => false,
        }
    }

    /// Returns how many slots the type has, its base's first; 0 where the schema has no such type.
    pub fn slots(&self, id: TypeId) -> usize
        ensures count { result ≡ length (properties_at self.now id) }
        ensures ordered { AreSlotsInOrder self.now id }
        ensures distinct { HasDistinctNames (properties_at self.now id) }
    {
        count_slots(&self.types, &self.chains, id.index())
    }

    /// Returns the slot of the property of that name.
    pub fn slot(&self, id: TypeId, name: &str) -> Option<usize>
        ensures { result ≡ slot_named (properties_at self.now id) name.now }
    {
        find_slot(&self.types, &self.chains, id.index(), name)
    }

    /// Returns the name of the property at a slot.
    pub fn slot_name(&self, id: TypeId, slot: usize) -> &str
        requires { slot < length (properties_at self.now id) }
        ensures { slice_get (map (λ p. p.name) (properties_at self.now id)) slot ≡ Some result.now }
    {
        let (name, _) = entry_at(&self.types, &self.chains, id.index(), slot);
        name.as_str()
    }

    /// Returns the property at a slot.
    pub fn property(&self, id: TypeId, slot: usize) -> &Property
        requires { slot < length (properties_at self.now id) }
        ensures { IfSome (slice_get (properties_at self.now id) slot) (λ p. IsReadAs self.now p result.now) }
    {
        let (_, property) = entry_at(&self.types, &self.chains, id.index(), slot);
        property
    }

    /// Returns the properties at the slots from one on, as far as one type of the chain declares them. Past the last
    /// slot there are none. Piece after piece from slot 0 they are those of the whole type, and nothing is copied.
    pub fn properties_from(&self, id: TypeId, slot: usize) -> PropertyPiece<'_>
        ensures first { AreFirstOf self.now (drop slot (properties_at self.now id)) result }
        ensures some { slot < length (properties_at self.now id) → 0 < length result }
    {
        PropertyPiece::from_entries(entries_from(&self.types, &self.chains, id.index(), slot))
    }
}
