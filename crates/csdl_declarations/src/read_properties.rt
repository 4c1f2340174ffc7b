//! Properties of a type as they are declared (CSDL JSON 4.01, section 7).
ghost use Rattle.std.specs.Prelude.{◌≡◌, codes, map};
ghost use Rattle.std.specs.List.{flat_map};
ghost use Rattle.serde_json.specs.Find.{get};
ghost use Rattle.serde_json.specs.View.{view};
ghost use Rattle.csdl_declarations.specs.DeclaredType.{declared_property, is_navigation, type_text};
ghost use Rattle.csdl_declarations.specs.DeclaredTypeView.{property_view};
ghost use Rattle.csdl_declarations.specs.Faults.{is_property, is_property_kind, is_property_type, property_faults};
ghost use Rattle.csdl_declarations.specs.FaultView.{Reads};
ghost use Rattle.csdl_declarations.specs.private.DocumentView.{member_view, members_of};

use super::declared_type::PropertyDeclaration;
use super::member::{Member, is_text, is_text_if_given, is_true_at, is_truth_if_given, text_at};
use super::refusals::bad_property;
use super::schema_fault::SchemaFault;
use odata_text::is_identifier;
use serde_json::Value;
use std::alloc::Global;

fn is_navigation(value: &Value) -> bool
    ensures { result ≡ is_navigation (view value.now) }
{
    is_text(text_at(value, "$Kind"), "NavigationProperty")
}

fn is_property_kind(value: &Value) -> bool
    ensures { result ≡ is_property_kind (get (codes "$Kind") (view value.now)) }
{
    match value.get("$Kind") {
        Some(kind) => {
            let kind = kind.as_str();
            is_text(kind, "Property") || is_text(kind, "NavigationProperty")
        }
        None => true,
    }
}

fn is_property_type(value: &Value) -> bool
    ensures { result ≡ is_property_type (view value.now) }
{
    is_text_if_given(value, "$Type") && (value.get("$Type").is_some() || !is_navigation(value))
}

fn is_property(member: Member<'_>) -> bool
    ensures { result ≡ is_property (member_view member.entry) }
{
    is_identifier(member.name)
        && member.value.is_object()
        && is_property_kind(member.value)
        && is_property_type(member.value)
        && is_truth_if_given(member.value, "$Collection")
        && is_truth_if_given(member.value, "$Nullable")
}

fn type_text(value: &Value) -> &str
    ensures { result.now ≡ type_text (view value.now) }
{
    match text_at(value, "$Type") {
        Some(name) => name,
        None => "Edm.String",
    }
}

fn property_of<'d>(member: Member<'d>) -> PropertyDeclaration<'d>
    ensures { property_view result ≡ declared_property (member_view member.entry) }
{
    PropertyDeclaration {
        name: member.name,
        type_name: type_text(member.value),
        navigates: is_navigation(member.value),
        many: is_true_at(member.value, "$Collection"),
        nullable: is_true_at(member.value, "$Nullable"),
    }
}

/// The properties of the type `owner`, or `BadProperty` of the first member that is none.
pub(crate) fn read_properties<'d>(
    alloc: Global,
    owner: &str,
    members: &[Member<'d>],
) -> Result<Vec<PropertyDeclaration<'d>>, SchemaFault>
    ensures { Reads result (flat_map (property_faults owner.now) (members_of members.now))
        (λ read. map property_view read.items ≡ map declared_property (members_of members.now)) }
{
    let mut properties = Vec::with_capacity(alloc, members.len())?;
    for member in members {
        if !is_property(*member) {
            return Err(bad_property(alloc, owner, member.name));
        }
        properties.push(property_of(*member))?;
    }
    Ok(properties)
}
