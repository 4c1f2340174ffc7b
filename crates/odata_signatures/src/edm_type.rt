ghost use Rattle.std.specs.Prelude.{◌≡◌, ◌↔◌, Option, IsTrue, IfSome, IfNone};
ghost use Rattle.edm_values.specs.NumberTypes.{IsNumberType};
ghost use Rattle.edm_values.specs.declared.primitive.PrimitiveType.{PrimitiveType};
ghost use Rattle.csdl_schema.specs.SchemaModel.{SchemaModel};
ghost use Rattle.odata_signatures.specs.CollectionTyped.{IsCollection};
ghost use Rattle.odata_signatures.specs.ExprTypes.{boolean_type, IsBooleanOrNull, IsNumberOrNull, number_or_null};
ghost use Rattle.odata_signatures.specs.TypeView.{expr_type};
ghost use Rattle.odata_signatures.specs.TypeThere.{IsTypeThere};

use csdl_schema::{EnumId, TypeId};
use edm_values::Prim;

/// The type of one value.
#[derive(Clone, Copy, Debug, PartialEq, Eq)]
pub enum ValueType {
    Prim(Prim),
    Enum(EnumId),
    Structured(TypeId),
}

/// The type of an expression. It is that of the literal `null` and of arithmetic on it alone, of one value, or of a
/// collection of such values.
#[derive(Clone, Copy, Debug, PartialEq, Eq)]
pub enum EdmType {
    Null,
    Single(ValueType),
    Collection(ValueType),
}

/// The type of `true` and `false`, and of the results of logical operators and comparisons.
pub const BOOLEAN: EdmType = EdmType::Single(ValueType::Prim(Prim::Bool));

ghost use Rattle.odata_signatures.specs.EdmType.{type_of_many};
ghost use Rattle.odata_signatures.specs.declared.edm_type.EdmType.{EdmType};

impl EdmType {
    /// Returns whether a filter, or an operand of a logical operator, may have the type.
    pub fn is_truth(&self) -> bool
        ensures { (schema : SchemaModel) → IsTrue result ↔ IsBooleanOrNull (expr_type schema self.now) }
    {
        match self {
            EdmType::Null => true,
            EdmType::Single(_) => self.is_boolean(),
            EdmType::Collection(_) => false,
        }
    }

    fn is_boolean(&self) -> bool
        ensures { (schema : SchemaModel) → IsTrue result ↔ (expr_type schema self.now ≡ boolean_type) }
    {
        *self == BOOLEAN
    }

    /// Returns whether it is the type of a collection.
    pub fn is_collection(&self) -> bool
        ensures { (schema : SchemaModel) → IsTrue result ↔ IsCollection (expr_type schema self.now) }
    {
        match self {
            EdmType::Null => false,
            EdmType::Single(_) => false,
            EdmType::Collection(_) => true,
        }
    }

    /// Returns the type of each member of a collection of this type. `None` where it is the type of none.
    pub fn member(&self) -> Option<ValueType>
        ensures some { IfSome result (λ member. self.now ≡ EdmType.Collection member) }
        ensures none { (schema : SchemaModel) → IfNone result (¬ IsCollection (expr_type schema self.now)) }
    {
        match self {
            EdmType::Null => None,
            EdmType::Single(_) => None,
            EdmType::Collection(member) => Some(*member),
        }
    }

    /// What kind of number an operand of arithmetic of this type is, None for null; no answer where it is no such
    /// operand.
    pub(crate) fn number_operand(&self) -> Option<Option<Prim>>
        ensures some { (schema : SchemaModel) → IfSome result (IsNumberOrNull (expr_type schema self.now)) }
        ensures number { IfSome result (λ number. IfSome number IsNumberType) }
        ensures none { (schema : SchemaModel) → IfNone result
            ((number : Option PrimitiveType) → ¬ IsNumberOrNull (expr_type schema self.now) number) }
    {
        match self {
            EdmType::Null => Some(None),
            EdmType::Single(ValueType::Prim(prim)) => if prim.is_number() {
                Some(Some(*prim))
            } else {
                None
            },
            EdmType::Single(ValueType::Enum(_)) => None,
            EdmType::Single(ValueType::Structured(_)) => None,
            EdmType::Collection(_) => None,
        }
    }

    /// The type of that kind of number, `Null` for None.
    pub(crate) fn of_number(number: Option<Prim>) -> EdmType
        ensures role { (schema : SchemaModel) → expr_type schema result ≡ number_or_null number }
        ensures there { (schema : SchemaModel) → IsTypeThere schema result }
    {
        match number {
            Some(prim) => EdmType::Single(ValueType::Prim(prim)),
            None => EdmType::Null,
        }
    }

    /// Returns the type of one such value, or of a collection of them.
    pub fn of_values(value_type: ValueType, many: bool) -> EdmType
        ensures { result ≡ type_of_many value_type many }
    {
        if many {
            EdmType::Collection(value_type)
        } else {
            EdmType::Single(value_type)
        }
    }
}
