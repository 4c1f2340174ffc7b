//! The range variables in scope.
ghost use Rattle.std.specs.Prelude.{◌≡◌, length, IfOk, IfSome};
ghost use Rattle.csdl_schema.specs.SchemaModel.{SchemaModel};
ghost use Rattle.odata_typing.specs.private.Variables.{AreThere, IsNamedBy, scope_in};
ghost use Rattle.odata_checked_filter.specs.Stands.{variable_names};
ghost use Rattle.odata_signatures.specs.TypeThere.{IsTypeThere};

use odata_signatures::EdmType;
use std::alloc::AllocError;

/// Range variables, each with the type of its value, the innermost first.
#[derive(Clone, Copy)]
pub(crate) enum Variables<'v> {
    Empty,
    Bound(&'v str, EdmType, &'v Variables<'v>),
}

/// A range variable that a name stands for: how many variables are around it, and the type of its value.
#[derive(Clone, Copy)]
pub(crate) struct NamedVariable {
    pub(crate) level: usize,
    pub(crate) edm_type: EdmType,
}

/// The innermost variable of that name. An error where there are more variables than a `usize` counts, which no memory
/// holds.
pub(crate) fn variable_named(
    variables: &Variables<'_>,
    asked: &str,
) -> Result<Option<NamedVariable>, AllocError>
    ensures named { (schema : SchemaModel) → IfOk result (IsNamedBy schema (scope_in schema variables.now) asked.now) }
    ensures there { (schema : SchemaModel) → AreThere schema variables.now
        → IfOk result (λ found. IfSome found (λ variable. IsTypeThere schema variable.edm_type)) }
{
    match variables {
        Variables::Empty => Ok(None),
        Variables::Bound(name, edm_type, outer) => {
            if asked == *name {
                match count(outer) {
                    Some(level) => Ok(Some(NamedVariable {
                        level,
                        edm_type: *edm_type,
                    })),
                    None => Err(AllocError),
                }
            } else {
                variable_named(outer, asked)
            }
        }
    }
}

/// The same, at once where no variable is in scope.
#[inline(always)]
pub(crate) fn variable_in_scope(
    variables: &Variables<'_>,
    asked: &str,
) -> Result<Option<NamedVariable>, AllocError>
    ensures named { (schema : SchemaModel) → IfOk result (IsNamedBy schema (scope_in schema variables.now) asked.now) }
    ensures there { (schema : SchemaModel) → AreThere schema variables.now
        → IfOk result (λ found. IfSome found (λ variable. IsTypeThere schema variable.edm_type)) }
{
    let Variables::Bound(..) = variables else {
        return Ok(None);
    };
    variable_named(variables, asked)
}

/// How many variables there are. `None` for more than a `usize` counts, which no memory holds.
fn count(variables: &Variables<'_>) -> Option<usize>
    ensures { (schema : SchemaModel)
        → IfSome result (λ n. n ≡ length (variable_names (scope_in schema variables.now))) }
{
    match variables {
        Variables::Empty => Some(0),
        Variables::Bound(_, _, outer) => match count(outer) {
            Some(n) => n.checked_add(1),
            None => None,
        },
    }
}
