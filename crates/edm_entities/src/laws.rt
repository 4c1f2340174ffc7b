//! Laws of what fits, as contracts of functions that do nothing.
ghost use Rattle.std.specs.Prelude.{◌≡◌, ℕ, List, Some, length, slice_get};
ghost use Rattle.serde_json.specs.Data.{Data};
ghost use Rattle.edm_values.specs.GuidLiteral.{GuidValue};
ghost use Rattle.edm_values.specs.MomentLiteral.{MomentValue};
ghost use Rattle.edm_values.specs.MomentParts.{IsMoment, MomentParts};
ghost use Rattle.edm_values.specs.Val.{Val, fields};
ghost use Rattle.csdl_schema.specs.ExprType.{ExprType, single, structured};
ghost use Rattle.csdl_schema.specs.PathSet.{PathSet};
ghost use Rattle.csdl_schema.specs.SchemaModel.{Slots, PropertyModel, expanded, properties_at};
ghost use Rattle.edm_entities.specs.Example.{item_properties, item_row, inactive_row, item_field};
ghost use Rattle.edm_entities.specs.Fits.{Fits};
ghost use Rattle.edm_entities.specs.FitsPrimitive.{Flaw};
ghost use Rattle.edm_entities.specs.HasType.{HasType};
ghost use Rattle.edm_entities.specs.Row.{Row, IsEntity};
ghost use Rattle.edm_entities.specs.SlotValue.{IsSeenAs, IsSlotValue};
ghost use Rattle.edm_entities.specs.RowFaults.{Path, IsFirstFault, IsRowFault};
ghost use Rattle.edm_entities.specs.declared.row_fault.RowFault.{RowFault};

/// A JSON tree stands for one value at most.
pub fn one_value_fits()
    ensures { (slots : Slots) (type_name : List ℕ) (json : Data) (v w : Val)
        → Fits slots type_name json v → Fits slots type_name json w → v ≡ w }
{
    edm_values::texts_have_one_value();
    edm_enumerations::texts_have_one_value();
}

/// A value that fits has its type, whatever is expanded in it.
pub fn what_fits_has_its_type()
    ensures { (slots : Slots) (expansion : PathSet) (type_name : List ℕ) (json : Data) (v : Val)
        → Fits (expanded slots expansion) type_name json v → HasType slots (single (structured type_name)) v }
{}

/// The value that a literal spells lies within its type. A moment has a year 1 to 9999 and an offset of less than a
/// day, a Guid sixteen bytes.
pub fn spelled_values_lie_within()
    ensures moments { (text : List ℕ) (m : MomentParts) → MomentValue text m → IsMoment m.civil m.offset_minutes }
    ensures guids { (text bytes : List ℕ) → GuidValue text bytes → length bytes ≡ 16 }
{}

/// A JSON tree with a fault stands for no value.
pub fn what_has_a_fault_fits_nothing()
    ensures { (slots : Slots) (type_name : List ℕ) (json : Data) (fault : RowFault)
        → IsRowFault slots type_name json fault → (v : Val) → ¬ (Fits slots type_name json v) }
{}

/// An entity holds a value of the property's type at each slot of a property that expressions see. Its record has that
/// value under the property's name.
pub fn a_slot_holds_its_property()
    ensures { (row : Row) (entity : IsEntity row) (slot : ℕ) (p : PropertyModel) (type : ExprType)
        → slice_get (properties_at row.schema row.type_id) slot ≡ Some p
        → IsSeenAs p.type_of type
        → IsSlotValue row entity.holds_slots.slots.items slot p.name type }
{}

/// An object has one first fault at most.
pub fn one_fault_is_first()
    ensures { (slots : Slots) (type_name : List ℕ) (json : Data) (path path' : Path) (flaw flaw' : Flaw)
        → IsFirstFault slots type_name json path flaw → IsFirstFault slots type_name json path' flaw'
        → (path ≡ path') × (flaw ≡ flaw') }
{}

/// `{"Active":true,"ID":1,"Name":"a"}` stands for its three values. Without `Active` it stands for none.
pub fn example_rows()
    ensures fits { (slots : Slots) (type_name : List ℕ) → slots.properties type_name ≡ item_properties
        → Fits slots type_name item_row (fields item_field) }
    ensures fits_nothing { (slots : Slots) (type_name : List ℕ) → slots.properties type_name ≡ item_properties
        → (v : Val) → ¬ (Fits slots type_name inactive_row v) }
{}
