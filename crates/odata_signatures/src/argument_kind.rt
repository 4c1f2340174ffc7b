ghost use Rattle.std.specs.Prelude.{◌↔◌, IsTrue, map};
ghost use Rattle.csdl_schema.specs.SchemaModel.{SchemaModel};
ghost use Rattle.odata_signatures.specs.TypeView.{expr_type};

use super::edm_type::{EdmType, ValueType};
use edm_values::Prim;

/// The kind of an argument of a function, besides null.
#[derive(Clone, Copy, Debug, PartialEq, Eq)]
pub enum ArgumentKind {
    /// `Edm.String`.
    Text,
    /// One of the number types.
    Number,
    /// `Edm.Date` or `Edm.DateTimeOffset`.
    DateOrMoment,
    /// `Edm.DateTimeOffset`.
    Moment,
}

ghost use Rattle.odata_signatures.specs.ArgumentTypes.{AreArgumentTypes, IsArgumentPrimitive, IsArgumentType};

/// Whether arguments of these types, given from the first on, are of these kinds.
pub(crate) fn are_argument_types(kinds: &[ArgumentKind], types: &[EdmType]) -> bool
    ensures { (schema : SchemaModel) → IsTrue result ↔
        AreArgumentTypes kinds.now (map (expr_type schema) types.now) }
{
    match types {
        [] => true,
        [edm_type, types @ ..] => match kinds {
            [] => false,
            [kind, kinds @ ..] => is_argument_type(*kind, edm_type)
                && are_argument_types(kinds, types),
        },
    }
}

/// Whether an argument of that type is of that kind.
fn is_argument_type(kind: ArgumentKind, edm_type: &EdmType) -> bool
    ensures { (schema : SchemaModel) → IsTrue result ↔ IsArgumentType kind (expr_type schema edm_type.now) }
{
    match edm_type {
        EdmType::Null => true,
        EdmType::Single(ValueType::Prim(prim)) => is_argument_primitive(kind, *prim),
        EdmType::Single(ValueType::Enum(_)) => false,
        EdmType::Single(ValueType::Structured(_)) => false,
        EdmType::Collection(_) => false,
    }
}

fn is_argument_primitive(kind: ArgumentKind, prim: Prim) -> bool
    ensures { IsTrue result ↔ IsArgumentPrimitive kind prim }
{
    match kind {
        ArgumentKind::Text => prim == Prim::String,
        ArgumentKind::Number => prim.is_number(),
        ArgumentKind::DateOrMoment => prim == Prim::Date || prim == Prim::DateTimeOffset,
        ArgumentKind::Moment => prim == Prim::DateTimeOffset,
    }
}
