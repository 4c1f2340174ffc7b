//! The types of properties as the document names them, but for values of primitive types that are read.
ghost use Rattle.std.specs.Prelude.{◌≡◌, IfErr};

use super::primitive_name::primitive_named;
use csdl_declarations::{DeclaredType, PropertyDeclaration, SchemaFault, TypeBody};
use std::alloc::Global;

/// A property of the type at an index, with the name of its own type.
#[derive(Drop)]
pub(crate) struct DeclaredName {
    pub(crate) owner: usize,
    pub(crate) property: String,
    pub(crate) type_name: String,
}

/// Whether the property may be one that is not read.
fn may_be_unread(property: &PropertyDeclaration<'_>) -> bool {
    property.navigates || primitive_named(property.type_name).is_none()
}

/// Puts the names of the types of these properties.
fn put_names(
    alloc: Global,
    owner: usize,
    properties: &[PropertyDeclaration<'_>],
    names: &mut Vec<DeclaredName>,
) -> Result<(), SchemaFault>
    ensures { IfErr result (λ e. e ≡ SchemaFault.Memory) }
{
    for property in properties {
        if may_be_unread(property) {
            let name = DeclaredName {
                owner,
                property: property.name.to_owned(alloc)?,
                type_name: property.type_name.to_owned(alloc)?,
            };
            names.push(name)?;
        }
    }
    Ok(())
}

/// The names of the types of properties, in the order of the declared types.
pub(crate) fn declared_names(
    alloc: Global,
    declared: &[DeclaredType<'_>],
) -> Result<Vec<DeclaredName>, SchemaFault>
    ensures { IfErr result (λ e. e ≡ SchemaFault.Memory) }
{
    let mut names = Vec::new(alloc);
    for owner in 0..declared.len() {
        match &declared[owner].body {
            TypeBody::Structured { properties, .. } => {
                put_names(alloc, owner, properties.as_slice(), &mut names)?;
            }
            _ => {}
        }
    }
    Ok(names)
}
