ghost use Rattle.std.specs.Prelude.{◌≡◌, length, map};
ghost use Rattle.csdl_schema.specs.private.Placed.{entry_view, is_placed_entity, is_placed_enumeration, is_placed_structured, owns_by, placed_base, placed_own};
ghost use Rattle.csdl_schema.specs.private.PlacedView.{placed_view};

use super::property::Property;
use edm_enumerations::Enumeration;
use edm_values::Prim;
use indexmap::IndexMap;
use indexmap::map::Slice;

/// An entity or complex type: the index of its base, and its own properties in the byte order of names.
#[derive(Drop)]
pub(crate) struct StructuredType {
    pub(crate) is_entity: bool,
    pub(crate) base: Option<usize>,
    pub(crate) properties: IndexMap<String, Property>,
}

#[derive(Drop)]
pub(crate) enum NamedBody {
    Structured(StructuredType),
    Enumeration(Enumeration),
    Definition(Option<Prim>),
}

/// A type of a schema, with its names by namespace and by alias.
#[derive(Drop)]
pub(crate) struct NamedType {
    pub(crate) name: String,
    pub(crate) alias_name: Option<String>,
    pub(crate) body: NamedBody,
}

impl NamedType {
    pub(crate) fn is_structured(&self) -> bool
        ensures { result ≡ is_placed_structured (placed_view self.now).body }
    {
        match &self.body {
            NamedBody::Structured(_) => true,
            NamedBody::Enumeration(_) => false,
            NamedBody::Definition(_) => false,
        }
    }

    pub(crate) fn is_entity(&self) -> bool
        ensures { result ≡ is_placed_entity (placed_view self.now).body }
    {
        match &self.body {
            NamedBody::Structured(structured) => structured.is_entity,
            NamedBody::Enumeration(_) => false,
            NamedBody::Definition(_) => false,
        }
    }

    pub(crate) fn is_enumeration(&self) -> bool
        ensures { result ≡ is_placed_enumeration (placed_view self.now).body }
    {
        match &self.body {
            NamedBody::Structured(_) => false,
            NamedBody::Enumeration(_) => true,
            NamedBody::Definition(_) => false,
        }
    }

    /// The index of its base.
    pub(crate) fn base(&self) -> Option<usize>
        ensures { result ≡ placed_base (placed_view self.now).body }
    {
        match &self.body {
            NamedBody::Structured(structured) => structured.base,
            NamedBody::Enumeration(_) => None,
            NamedBody::Definition(_) => None,
        }
    }

    /// The properties that it has itself, each with its name.
    pub(crate) fn own_entries(&self) -> Slice<'_, String, Property>
        ensures { map entry_view result ≡ placed_own (placed_view self.now).body }
    {
        let NamedBody::Structured(structured) = &self.body else {
            return Slice::new();
        };
        structured.properties.as_slice()
    }

    /// How many properties it has itself.
    pub(crate) fn own_count(&self) -> usize
        ensures { result ≡ length (placed_own (placed_view self.now).body) }
    {
        match &self.body {
            NamedBody::Structured(structured) => structured.properties.len(),
            NamedBody::Enumeration(_) => 0,
            NamedBody::Definition(_) => 0,
        }
    }

    /// Whether it has a property of that name itself.
    pub(crate) fn owns(&self, name: &str) -> bool
        ensures { result ≡ owns_by name.now (placed_own (placed_view self.now).body) }
    {
        match &self.body {
            NamedBody::Structured(structured) => structured.properties.contains_key(name),
            NamedBody::Enumeration(_) => false,
            NamedBody::Definition(_) => false,
        }
    }
}
