ghost use Rattle.std.specs.Prelude.{◌≡◌, ◌↔◌, ◌<◌, ◌+◌, ℤ, IfNone, IfSome, IsTrue, Some, IsSomeAnd, length, slice_get};
ghost use Rattle.edm_values.specs.declared.value.Value.{Value};
ghost use Rattle.odata_signatures.specs.declared.edm_type.EdmType.{EdmType};
ghost use Rattle.sql_tree.specs.declared.sql_node.FieldType.{FieldType};
ghost use Rattle.sql_draft.specs.declared.sql_context.Kind.{Kind};
ghost use Rattle.sql_draft.specs.Kinds.{kind_of_single, kind_of_type, single_of};
ghost use Rattle.sql_draft.specs.Translated.{IsOfTypeAt};
ghost use Rattle.sql_meaning.specs.SqlTypeHolds.{type_of_field, type_of_primitive};
ghost use Rattle.sql_draft.specs.OperandHas.{IsReadAt, IsUnread};

use edm_values::{Moment, Prim, Value};
use odata_checked_filter::{Checked, CheckedNode, NodeKind};
use odata_ranges::Range;
use odata_signatures::{EdmType, ValueType};
use odata_syntax::LiteralKind;
use sql_tree::{FieldType, SqlType, Storage};

/// What does not change while a filter is translated.
#[derive(Clone, Copy)]
pub struct SqlContext<'f, 's> {
    /// The checked filter.
    pub checked: &'f Checked<'s>,
    /// The range of each of its nodes.
    pub ranges: &'f [Range],
    /// Where the rows keep properties.
    pub storage: Storage<'f>,
    /// What `now()` stands for.
    pub moment: &'f Moment,
}

/// What kind of values a node has.
#[derive(Clone, Copy, PartialEq, Eq)]
pub enum Kind {
    /// Null alone.
    Null,
    Value(SqlType),
    /// An entity or a complex value.
    Structured,
}

impl<'f, 's> SqlContext<'f, 's> {
    /// The node at an index.
    pub fn node(&self, place: usize) -> CheckedNode
        requires { place < length self.now.checked.now.list.nodes }
        ensures { slice_get self.now.checked.now.list.nodes place ≡ Some result }
    {
        self.checked.nodes()[place]
    }

    /// The range of the node at an index.
    pub fn range(&self, place: usize) -> Range
        requires { place < length self.now.ranges.now }
        ensures { slice_get self.now.ranges.now place ≡ Some result }
    {
        self.ranges[place]
    }

    /// Whether the node at an index may evaluate to a fault.
    pub fn may_fault(&self, place: usize) -> bool
        requires { place < length self.now.ranges.now }
        ensures { IsSomeAnd (slice_get self.now.ranges.now place) (λ range. result ≡ range.may_fault) }
    {
        self.range(place).may_fault
    }

    /// What kind of values the node at an index has.
    pub fn kind(&self, place: usize) -> Kind
        requires { place < length self.now.checked.now.list.nodes }
        ensures { IsSomeAnd (slice_get self.now.checked.now.list.nodes place)
            (λ node. result ≡ kind_of_type node.edm_type) }
    {
        kind_of(self.node(place).edm_type)
    }

    /// The type in JSON of the value of the node at an index. None of null, an entity, a complex value or a collection.
    pub fn value_type(&self, place: usize) -> Option<FieldType>
        requires { place < length self.now.checked.now.list.nodes }
        ensures some { IfSome result (λ type. IsOfTypeAt self.now.checked.now place (EdmType.Single (single_of type))) }
        ensures none { IfNone result ((type : FieldType) →
            ¬ IsOfTypeAt self.now.checked.now place (EdmType.Single (single_of type))) }
    {
        match self.node(place).edm_type {
            EdmType::Single(value_type) => field_type(value_type),
            _ => None,
        }
    }

    /// The same of a member of the collection at an index.
    pub fn member_type(&self, place: usize) -> Option<FieldType>
        requires { place < length self.now.checked.now.list.nodes }
        ensures some { IfSome result (λ type. IsOfTypeAt self.now.checked.now place
            (EdmType.Collection (single_of type))) }
        ensures none { IfNone result ((type : FieldType) →
            ¬ IsOfTypeAt self.now.checked.now place (EdmType.Collection (single_of type))) }
    {
        match self.node(place).edm_type {
            EdmType::Collection(value_type) => field_type(value_type),
            _ => None,
        }
    }

    /// Where among the filter's values the number is that the text at an index is read as, if it is.
    pub fn number_at(&self, place: usize) -> Option<usize>
        requires { place < length self.now.checked.now.list.nodes }
        ensures some { IfSome result (IsReadAt self.now.checked.now place) }
        ensures none { IfNone result (IsUnread self.now.checked.now place) }
    {
        match self.node(place).kind {
            NodeKind::Literal { kind, value } => match kind {
                LiteralKind::Str => match self.checked.values().get(value) {
                    Some(held) => { if is_number(held) { Some(value) } else { None } }
                    None => None,
                },
                _ => None,
            },
            _ => None,
        }
    }

    /// The index of a node's second child.
    pub fn second(&self, place: usize) -> usize
        requires { place + 1 < length self.now.checked.now.list.nodes }
        ensures { IsSomeAnd (slice_get self.now.checked.now.list.nodes (place + 1)) (λ node. node.stop ≡ result) }
    {
        let nodes = self.checked.nodes();
        nodes[place + 1].stop
    }
}

/// Whether it is the number of an enumeration.
fn is_number(value: &Value) -> bool
    ensures { IsTrue result ↔ ((n : ℤ) × (value.now ≡ Value.Enum n)) }
{
    match value {
        Value::Enum(_) => true,
        _ => false,
    }
}

/// What kind of values a type has.
pub fn kind_of(edm_type: EdmType) -> Kind
    ensures { result ≡ kind_of_type edm_type }
{
    match edm_type {
        EdmType::Null => Kind::Null,
        EdmType::Single(value_type) => kind_of_value(value_type),
        EdmType::Collection(_) => Kind::Structured,
    }
}

/// The same of the type of one value.
fn kind_of_value(value_type: ValueType) -> Kind
    ensures { result ≡ kind_of_single value_type }
{
    match field_type(value_type) {
        Some(field_type) => Kind::Value(type_of_field(field_type)),
        None => Kind::Structured,
    }
}

/// The type in JSON of such a value; none of an entity or a complex value.
fn field_type(value_type: ValueType) -> Option<FieldType>
    ensures some { IfSome result (λ type. value_type ≡ single_of type) }
    ensures none { IfNone result (kind_of_single value_type ≡ Kind.Structured) }
{
    match value_type {
        ValueType::Prim(prim) => Some(FieldType::Prim(prim)),
        ValueType::Enum(id) => Some(FieldType::Enum(id)),
        ValueType::Structured(_) => None,
    }
}

/// The type of SQL of a value in JSON.
pub fn type_of_field(field_type: FieldType) -> SqlType
    ensures { result ≡ type_of_field field_type }
{
    match field_type {
        FieldType::Prim(prim) => sql_type(prim),
        FieldType::Enum(_) => SqlType::Member,
    }
}

fn sql_type(prim: Prim) -> SqlType
    ensures { result ≡ type_of_primitive prim }
{
    match prim {
        Prim::Bool => SqlType::Truth,
        Prim::String => SqlType::Text,
        Prim::Date => SqlType::Date,
        Prim::DateTimeOffset => SqlType::Moment,
        Prim::Guid => SqlType::Guid,
        Prim::Byte | Prim::SByte | Prim::Int16 | Prim::Int32 | Prim::Int64 => SqlType::Whole,
    }
}
