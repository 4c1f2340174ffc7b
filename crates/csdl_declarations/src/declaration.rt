//! The types that a document's schemas declare (CSDL JSON 4.01, sections 4 and 6).
ghost use Rattle.std.specs.Prelude.{◌≡◌, ◌++◌, ◌∷◌, IfOk, OnOk, option_map, string_bytes};
ghost use Rattle.std.specs.List.{flat_map};
ghost use Rattle.csdl_declarations.specs.Declarations.{types_among, types_in, full_name, full_alias_name};
ghost use Rattle.csdl_declarations.specs.private.DocumentView.{member_view, members_of, declaration_view, declarations_of};

use super::member::{Member, declared_members, text_at};
use super::type_kind::is_other_kind;
use serde_json::Value;
use std::alloc::{AllocError, Global};

/// A type as a schema of the document declares it, well formed or not.
#[derive(Clone, Copy)]
pub(crate) struct Declaration<'d> {
    pub(crate) namespace: &'d str,
    pub(crate) alias: Option<&'d str>,
    pub(crate) name: &'d str,
    pub(crate) body: &'d Value,
}

impl<'d> Declaration<'d> {
    /// The type's name with its namespace.
    pub(crate) fn full_name(&self, alloc: Global) -> Result<String, AllocError>
        ensures { IfOk result (λ name. string_bytes name ≡ full_name (declaration_view self.now)) }
    {
        join(alloc, self.namespace, self.name)
    }

    /// The type's name with the alias of its namespace, where that has one.
    pub(crate) fn full_alias_name(&self, alloc: Global) -> Result<Option<String>, AllocError>
        ensures { IfOk result (λ name.
            option_map string_bytes name ≡ full_alias_name (declaration_view self.now)) }
    {
        match self.alias {
            Some(alias) => Ok(Some(join(alloc, alias, self.name)?)),
            None => Ok(None),
        }
    }
}

/// Two texts with a dot between them.
fn join(alloc: Global, front: &str, name: &str) -> Result<String, AllocError>
    ensures { IfOk result (λ text. string_bytes text ≡ front.now ++ 46 ∷ name.now) }
{
    let mut text = front.to_owned(alloc)?;
    text.push_str(".")?;
    text.push_str(name)?;
    Ok(text)
}

/// The types of all schemas, in the order of namespaces and then of names.
pub(crate) fn declarations<'d>(
    alloc: Global,
    schemas: &[Member<'d>],
) -> Result<Vec<Declaration<'d>>, AllocError>
    ensures { IfOk result (λ ts. declarations_of ts.items ≡ flat_map types_in (members_of schemas.now)) }
{
    let mut types = Vec::new(alloc);
    for schema in schemas {
        add_types(alloc, *schema, &mut types)?;
    }
    Ok(types)
}

fn add_types<'d>(
    alloc: Global,
    schema: Member<'d>,
    types: &mut Vec<Declaration<'d>>,
) -> Result<(), AllocError>
    ensures { OnOk result (declarations_of types.new.items
        ≡ declarations_of types.old.items ++ types_in (member_view schema.entry)) }
{
    let members = declared_members(alloc, schema.value)?;
    add_members(
        schema.name,
        text_at(schema.value, "$Alias"),
        &members,
        types,
    )
}

fn add_members<'d>(
    namespace: &'d str,
    alias: Option<&'d str>,
    members: &[Member<'d>],
    types: &mut Vec<Declaration<'d>>,
) -> Result<(), AllocError>
    ensures { OnOk result (declarations_of types.new.items ≡ declarations_of types.old.items
        ++ types_among namespace.now (option_map (λ s. s.now) alias.entry) (members_of members.now)) }
{
    for member in members {
        if !is_other_kind(member.value) {
            types.push(Declaration {
                namespace,
                alias,
                name: member.name,
                body: member.value,
            })?;
        }
    }
    Ok(())
}
