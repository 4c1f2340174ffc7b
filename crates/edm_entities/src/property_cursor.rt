//! The current piece of a type's properties, so that a type is looked up once for each piece and not for each slot.
ghost use Rattle.std.specs.Prelude.{◌≡◌, ◌+◌, ◌<◌, ◌≤◌, ◌↔◌, length, map, slice_get, Some, IfSome, IsTrue};
ghost use Rattle.csdl_schema.specs.PropertyView.{IsReadAs};
ghost use Rattle.csdl_schema.specs.SchemaModel.{properties_at};
ghost use Rattle.edm_entities.specs.private.PropertyCursor.{IsCursor};

use csdl_schema::{Property, PropertyPiece, Schema, TypeId};

/// The piece of a type's properties that was borrowed last, and the slot of the first of them.
#[derive(Drop)]
pub(crate) struct PropertyCursor<'s> {
    pub(crate) first: usize,
    pub(crate) piece: PropertyPiece<'s>,
}

/// The first piece of a type.
pub(crate) fn first_piece(schema: &Schema, type_id: TypeId) -> PropertyCursor<'_>
    ensures { IsCursor schema.now type_id result }
{
    PropertyCursor {
        first: 0,
        piece: schema.properties_from(type_id, 0),
    }
}

impl<'s> PropertyCursor<'s> {
    #[inline(always)]
    fn has(&self, slot: usize) -> bool
        ensures { IsTrue result ↔ ((self.now.first ≤ slot) × (slot < self.now.first + length self.now.piece)) }
    {
        self.first <= slot && slot - self.first < self.piece.len()
    }

    /// The name and the property at a slot; the piece that has it is borrowed first, where it is not the current one.
    #[inline(always)]
    pub(crate) fn at(
        &mut self,
        schema: &'s Schema,
        type_id: TypeId,
        slot: usize,
    ) -> (&'s str, &'s Property)
        requires cursor { IsCursor schema.now type_id self.old }
        requires within { slot < length (properties_at schema.now type_id) }
        ensures cursor { IsCursor schema.now type_id self.new }
        ensures name { slice_get (map (λ p. p.name) (properties_at schema.now type_id)) slot ≡ Some result.0.now }
        ensures property { IfSome (slice_get (properties_at schema.now type_id) slot)
            (λ p. IsReadAs schema.now p result.1.now) }
    {
        if self.has(slot) {
            return self.piece.entry(slot - self.first);
        }
        self.first = slot;
        self.piece = schema.properties_from(type_id, slot);
        self.piece.entry(0)
    }
}
