//! Types in the byte order of their names, each read by itself (CSDL JSON 4.01, sections 6 and 9 to 11).
ghost use Rattle.std.specs.Prelude.{◌≡◌, map, IfOk, IfErr, string_bytes};
ghost use Rattle.std.specs.List.{AllByRecursion, flat_map};
ghost use Rattle.serde_json.specs.View.{view};
ghost use Rattle.csdl_declarations.specs.Declarations.{full_name, in_name_order};
ghost use Rattle.csdl_declarations.specs.DeclaredType.{IsBodyInOrder, declared_body, declared_type, structured_body, definition, underlying_text};
ghost use Rattle.csdl_declarations.specs.DeclaredTypeView.{body_view, type_view, types_view};
ghost use Rattle.csdl_declarations.specs.Faults.{body_faults, definition_faults, structured_faults, type_faults};
ghost use Rattle.csdl_declarations.specs.FaultView.{Reads};
ghost use Rattle.csdl_declarations.specs.private.DocumentView.{declaration_view, declarations_of, types_of, AreNamed};

use super::declaration::Declaration;
use super::declared_type::{DeclaredType, TypeBody};
use super::member::{declared_members, is_text_if_given, text_at};
use super::read_enumeration::read_enumeration;
use super::read_properties::read_properties;
use super::refusals::bad_type;
use super::schema_fault::SchemaFault;
use super::type_kind::{TypeKind, kind_of};
use odata_text::is_identifier;
use serde_json::Value;
use std::alloc::Global;
use std::collections::BTreeMap;

/// The declarations in the byte order of whole names; of equal names the first stands.
pub(crate) fn in_name_order<'t, 'd>(
    alloc: Global,
    declarations: &'t [Declaration<'d>],
) -> Result<BTreeMap<String, &'t Declaration<'d>>, SchemaFault>
    ensures refused { IfErr result (λ e. e ≡ SchemaFault.Memory) }
    ensures named { IfOk result (λ m. AreNamed m.entries) }
    ensures types { IfOk result (λ m. types_of m.entries ≡ in_name_order (declarations_of declarations.now)) }
{
    let mut ordered = BTreeMap::new(alloc);
    let mut index = declarations.len();
    while index > 0 {
        index -= 1;
        let declaration = &declarations[index];
        let name = declaration.full_name(alloc)?;
        ordered.insert(name, declaration)?;
    }
    Ok(ordered)
}

/// An entity or complex type, or the first fault in its shape or among its members.
fn read_structured<'d>(
    alloc: Global,
    owner: &str,
    is_entity: bool,
    value: &'d Value,
) -> Result<TypeBody<'d>, SchemaFault>
    ensures read { Reads result (structured_faults owner.now (view value.now))
        (λ body. body_view body ≡ structured_body is_entity (view value.now)) }
    ensures ordered { IfOk result (λ body. IsBodyInOrder (body_view body)) }
{
    if !is_text_if_given(value, "$BaseType") {
        return Err(bad_type(alloc, owner));
    }
    let members = declared_members(alloc, value)?;
    let properties = read_properties(alloc, owner, &members)?;
    Ok(TypeBody::Structured {
        is_entity,
        base: text_at(value, "$BaseType"),
        properties,
    })
}

fn read_definition<'d>(
    alloc: Global,
    owner: &str,
    value: &'d Value,
) -> Result<TypeBody<'d>, SchemaFault>
    ensures { Reads result (definition_faults owner.now (view value.now))
        (λ body. body_view body ≡ definition (underlying_text (view value.now))) }
{
    match text_at(value, "$UnderlyingType") {
        Some(underlying) => Ok(TypeBody::Definition { underlying }),
        None => Err(bad_type(alloc, owner)),
    }
}

/// A type by its kind, or its first fault; `BadType` where it has none.
fn read_body<'d>(alloc: Global, owner: &str, value: &'d Value) -> Result<TypeBody<'d>, SchemaFault>
    ensures read { Reads result (body_faults owner.now (view value.now))
        (λ body. body_view body ≡ declared_body (view value.now)) }
    ensures ordered { IfOk result (λ body. IsBodyInOrder (body_view body)) }
{
    match kind_of(value) {
        Some(TypeKind::Entity) => read_structured(alloc, owner, true, value),
        Some(TypeKind::Complex) => read_structured(alloc, owner, false, value),
        Some(TypeKind::Enumeration) => {
            let enumeration = read_enumeration(alloc, owner, value)?;
            Ok(TypeBody::Enumeration(enumeration))
        }
        Some(TypeKind::Definition) => read_definition(alloc, owner, value),
        None => Err(bad_type(alloc, owner)),
    }
}

/// A type with its names, or the first fault in its shape or among its members.
fn read_type<'d>(
    alloc: Global,
    name: String,
    declaration: &Declaration<'d>,
) -> Result<DeclaredType<'d>, SchemaFault>
    requires { string_bytes name ≡ full_name (declaration_view declaration.now) }
    ensures read { Reads result (type_faults (declaration_view declaration.now))
        (λ t. type_view t ≡ declared_type (declaration_view declaration.now)) }
    ensures ordered { IfOk result (λ t. IsBodyInOrder (type_view t).body) }
{
    if !is_identifier(declaration.name) {
        return Err(bad_type(alloc, name.as_str()));
    }
    let body = read_body(alloc, name.as_str(), declaration.body)?;
    Ok(DeclaredType {
        name,
        alias_name: declaration.full_alias_name(alloc)?,
        body,
    })
}

/// Each type by itself, in the order of names.
pub(crate) fn read_types<'d>(
    alloc: Global,
    ordered: BTreeMap<String, &Declaration<'d>>,
) -> Result<Vec<DeclaredType<'d>>, SchemaFault>
    requires { AreNamed ordered.entries }
    ensures read { Reads result (flat_map type_faults (types_of ordered.entry.entries))
        (λ ts. types_view ts.items ≡ map declared_type (types_of ordered.entry.entries)) }
    ensures ordered { IfOk result (λ ts. AllByRecursion (λ t. IsBodyInOrder t.body) (types_view ts.items)) }
{
    let mut types = Vec::with_capacity(alloc, ordered.len())?;
    for (name, declaration) in ordered {
        types.push(read_type(alloc, name, declaration)?)?;
    }
    Ok(types)
}
