//! Which type a call has.
ghost use Rattle.std.specs.Prelude.{IfErr, IfOk, map};
ghost use Rattle.std.specs.Str.{str_to_ascii_lowercase};
ghost use Rattle.csdl_schema.specs.ExprType.{ExprType};
ghost use Rattle.csdl_schema.specs.SchemaModel.{SchemaModel};
ghost use Rattle.odata_signatures.specs.Functions.{IsNamed};
ghost use Rattle.odata_signatures.specs.TypeThere.{IsTypeThere};
ghost use Rattle.odata_signatures.specs.TypeView.{expr_type};

use super::argument_kind::are_argument_types;
use super::edm_type::{EdmType, ValueType};
use super::function::{Function, function_named};

/// Why a call has no type though its arguments have.
#[derive(Clone, Copy, Debug, PartialEq, Eq)]
pub enum CallFault {
    UnknownFunction,
    ArgumentCount,
    ArgumentType,
}

/// The function that is called, and the type of what it gives.
#[derive(Clone, Copy, Debug, PartialEq, Eq)]
pub struct TypedCall {
    pub function: Function,
    pub edm_type: EdmType,
}

ghost use Rattle.odata_signatures.specs.CallTyped.{CallReason, CallTyped, FunctionTyped};

/// Returns the call of that name, in any ASCII case, with arguments of these types. Otherwise it returns the first
/// reason why it has no type.
pub fn judged_call(name: &str, types: &[EdmType]) -> Result<TypedCall, CallFault>
    ensures named { IfOk result (λ call. IsNamed call.function (str_to_ascii_lowercase name.now)) }
    ensures typed { (schema : SchemaModel) → IfOk result (λ call. FunctionTyped call.function
        (map (expr_type schema) types.now) (expr_type schema call.edm_type)) }
    ensures there { (schema : SchemaModel) → IfOk result (λ call. IsTypeThere schema call.edm_type) }
    ensures none { (schema : SchemaModel) → IfErr result (λ fault.
        (type : ExprType) → ¬ CallTyped (str_to_ascii_lowercase name.now) (map (expr_type schema) types.now) type) }
    ensures reason { (schema : SchemaModel) → IfErr result
        (CallReason (str_to_ascii_lowercase name.now) (map (expr_type schema) types.now)) }
{
    let Some(function) = function_named(name) else {
        return Err(CallFault::UnknownFunction);
    };
    let signature = function.signature();
    let count = types.len();
    if count < signature.least || signature.arguments.len() < count {
        return Err(CallFault::ArgumentCount);
    }
    if are_argument_types(signature.arguments, types) {
        let edm_type = EdmType::Single(ValueType::Prim(signature.gives));
        Ok(TypedCall { function, edm_type })
    } else {
        Err(CallFault::ArgumentType)
    }
}
