//! The types that a document declares.
ghost use Rattle.std.specs.Prelude.{◌≡◌, IfOk, count_by, is_some};
ghost use Rattle.serde_json.specs.View.{view};
ghost use Rattle.csdl_declarations.specs.TypeKind.{type_kind_in};
ghost use Rattle.csdl_declarations.specs.DeclaredType.{AreInOrder, declared_types};
ghost use Rattle.csdl_declarations.specs.DeclaredTypeView.{types_view};
ghost use Rattle.csdl_declarations.specs.Faults.{declaration_faults};
ghost use Rattle.csdl_declarations.specs.FaultView.{Reads};
ghost use Rattle.csdl_declarations.specs.private.DocumentView.{declarations_of};

use super::declaration::{Declaration, declarations};
use super::declared_type::DeclaredType;
use super::member::declared_members;
use super::namespaces::{check_namespaces, is_version};
use super::read_types::{in_name_order, read_types};
use super::schema_fault::SchemaFault;
use super::type_kind::kind_of;
use serde_json::Value;
use std::alloc::Global;

const MAX_TYPES: usize = 4096;

/// Reads the types that a CSDL JSON document declares, in the byte order of their whole names.
///
/// A refusal reports the first fault: `NotObject`, `Version`, `BadType` of a namespace, `TooLarge` for more than
/// 4,096 types, then, in the order of names, `BadType`, `BadProperty` and `BadEnumMember`.
pub fn declared_types<'d>(
    alloc: Global,
    document: &'d Value,
) -> Result<Vec<DeclaredType<'d>>, SchemaFault>
    ensures read { Reads result (declaration_faults (view document.now))
        (λ ts. types_view ts.items ≡ declared_types (view document.now)) }
    ensures ordered { IfOk result (λ ts. AreInOrder (types_view ts.items)) }
{
    if !document.is_object() {
        return Err(SchemaFault::NotObject);
    }
    if !is_version(document) {
        return Err(SchemaFault::Version);
    }
    let schemas = declared_members(alloc, document)?;
    check_namespaces(alloc, document, &schemas)?;
    let declarations = declarations(alloc, &schemas)?;
    if count_types(&declarations) > MAX_TYPES {
        return Err(SchemaFault::TooLarge);
    }
    let ordered = in_name_order(alloc, &declarations)?;
    Ok(read_types(alloc, ordered)?)
}

/// How many of the declarations say that they are of one of the four kinds.
fn count_types(declarations: &[Declaration<'_>]) -> usize
    ensures { result ≡ count_by (λ t. is_some (type_kind_in t.body)) (declarations_of declarations.now) }
{
    let mut count = 0;
    for declaration in declarations {
        if kind_of(declaration.body).is_some() {
            count += 1;
        }
    }
    count
}
