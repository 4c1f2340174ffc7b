//! Names: range variables, and properties with their slots and their types, or why they have none.
ghost use Rattle.std.specs.Prelude.{◌≡◌, ◌≢◌, ◌+◌, ◌∷◌, ℕ, [], Some, false, IfNone, IfSome, IsSomeAnd, OnSome};
ghost use Rattle.odata_syntax.specs.TextTree.{IsTextRange};
ghost use Rattle.odata_syntax.specs.Tree.{Tree, member, name};
ghost use Rattle.csdl_schema.specs.ExprType.{ExprType};
ghost use Rattle.csdl_schema.specs.PropertyView.{PointsWithin, property_type};
ghost use Rattle.csdl_schema.specs.SchemaModel.{SchemaModel, properties_at, slot_named};
ghost use Rattle.odata_signatures.specs.TypeThere.{IsTypeThere};
ghost use Rattle.odata_signatures.specs.TypeView.{expr_type};
ghost use Rattle.odata_signatures.specs.FirstUntypable.{NameReason, PropertyReason};
ghost use Rattle.odata_signatures.specs.NeededPaths.{Navigates};
ghost use Rattle.odata_signatures.specs.Typed.{PropertyTyped, named_type};
ghost use Rattle.odata_typing.specs.private.Judging.{AreChildren, IsNodeJudged};
ghost use Rattle.odata_typing.specs.private.CheckContexts.{IsNodeReady, name_of};

use super::check_context::{CheckContext, Judged};
use super::judged_list::Walk;
use super::laws_below::laws_below;
use super::variables::variable_in_scope;
use csdl_schema::{Property, PropertyKind, TypeId};
use odata_checked_filter::NodeKind;
use odata_signatures::{EdmType, TypeFaultCode, ValueType};

/// Puts the node of the variable of that name at its index, or where there is none that of the property of the filtered
/// type.
#[inline(never)]
pub(crate) fn checked_name(context: &CheckContext<'_>, judged: &Judged<'_>, walk: &mut Walk) -> bool
    requires ready { IsNodeReady context.now walk.old judged.now }
    requires text { IsTextRange context.now.text.now judged.now.node.now.text }
    requires leaf { judged.now.stop ≡ judged.now.number + 1 }
    ensures { IsNodeJudged context.now judged.now (name (name_of context.now judged.now)) walk.old walk.new result }
{
    laws_below();
    match variable_in_scope(context.variables, context.text_in(judged.node.text)) {
        Ok(None) => match put_property(context, context.filtered_type, judged, walk) {
            Some((slot, edm_type)) => walk.put(judged, NodeKind::Property { slot }, &edm_type),
            None => false,
        },
        Ok(Some(variable)) => {
            let kind = NodeKind::Variable {
                level: variable.level,
            };
            walk.put(judged, kind, &variable.edm_type)
        }
        Err(_) => false,
    }
}

/// Puts the node of a step at its index: only one value of a structured type has properties.
#[inline(never)]
pub(crate) fn checked_member(
    context: &CheckContext<'_>,
    judged: &Judged<'_>,
    walk: &mut Walk,
) -> bool
    requires ready { IsNodeReady context.now walk.old judged.now }
    requires text { IsTextRange context.now.text.now judged.now.node.now.text }
    requires base { (base : Tree) × AreChildren context.now walk.old judged.now (base ∷ []) }
    ensures { (base : Tree) → AreChildren context.now walk.old judged.now (base ∷ [])
        → IsNodeJudged context.now judged.now (member base (name_of context.now judged.now)) walk.old walk.new result }
{
    laws_below();
    match owner_of(walk.type_at(judged.number + 1)) {
        Some(owner) => match put_property(context, owner, judged, walk) {
            Some((slot, edm_type)) => walk.put(judged, NodeKind::Member { slot }, &edm_type),
            None => false,
        },
        None => walk.refuse(judged.node.span, TypeFaultCode::UnknownProperty),
    }
}

/// The type that has the properties of what has this type. `None` for all but one value of a structured type.
#[inline(always)]
fn owner_of(edm_type: &EdmType) -> Option<TypeId>
    ensures some { IfSome result (λ owner. edm_type.now ≡ EdmType.Single (ValueType.Structured owner)) }
    ensures none { IfNone result ((owner : ℕ) → edm_type.now ≢ EdmType.Single (ValueType.Structured owner)) }
{
    match edm_type {
        EdmType::Single(ValueType::Structured(owner)) => Some(*owner),
        EdmType::Single(ValueType::Prim(_)) => None,
        EdmType::Single(ValueType::Enum(_)) => None,
        EdmType::Null => None,
        EdmType::Collection(_) => None,
    }
}

/// The slot and the type of the property of a node's name, which the type `owner` has. `None` where the node is
/// refused.
#[inline(always)]
fn put_property(
    context: &CheckContext<'_>,
    owner: TypeId,
    judged: &Judged<'_>,
    walk: &mut Walk,
) -> Option<(usize, EdmType)>
    requires ready { IsNodeReady context.now walk.old judged.now }
    requires text { IsTextRange context.now.text.now judged.now.node.now.text }
    ensures slot { IfSome result
        (λ p. slot_named (properties_at context.now.schema.now owner) (name_of context.now judged.now) ≡ Some p.0) }
    ensures typed { IfSome result (λ p. PropertyTyped (properties_at context.now.schema.now owner)
        (name_of context.now judged.now) (expr_type context.now.schema.now p.1)) }
    ensures there { IfSome result (λ p. IsTypeThere context.now.schema.now p.1) }
    ensures walk { OnSome result (walk.new ≡ record walk.old { navigates = walk.new.navigates }) }
    ensures before { OnSome result (walk.new.navigates ≡ false → walk.old.navigates ≡ false) }
    ensures idle { OnSome result (walk.new.navigates ≡ false
        → ¬ Navigates (properties_at context.now.schema.now owner) (name_of context.now judged.now)) }
    ensures reason { IfNone result (IsSomeAnd walk.new.fault (λ fault.
        NameReason (properties_at context.now.schema.now owner) (name_of context.now judged.now) fault.code)) }
    ensures span { IfNone result (IsSomeAnd walk.new.fault (λ fault. fault.span ≡ judged.now.node.now.span)) }
    ensures untyped { IfNone result ((type : ExprType) → ¬ PropertyTyped (properties_at context.now.schema.now owner)
        (name_of context.now judged.now) type) }
{
    match context
        .schema
        .slot(owner, context.text_in(judged.node.text))
    {
        Some(slot) => {
            let property = context.schema.property(owner, slot);
            walk.go_over(property);
            match property_edm_type(property) {
                Some(edm_type) => Some((slot, edm_type)),
                None => {
                    walk.refuse(judged.node.span, TypeFaultCode::TypeLeftOut);
                    None
                }
            }
        }
        None => {
            walk.refuse(judged.node.span, TypeFaultCode::UnknownProperty);
            None
        }
    }
}

/// The type of a property. `None` where a filter may not name it.
#[inline(always)]
fn property_edm_type(property: &Property) -> Option<EdmType>
    ensures named { (schema : SchemaModel) → IfSome result
        (λ t. named_type (property_type schema property.now) ≡ Some (expr_type schema t)) }
    ensures there { (schema : SchemaModel) → PointsWithin schema property.now.kind
        → IfSome result (IsTypeThere schema) }
    ensures reason { (schema : SchemaModel) → IfNone result
        (PropertyReason (property_type schema property.now) TypeFaultCode.TypeLeftOut) }
{
    match property.kind {
        PropertyKind::Prim(prim) => Some(EdmType::of_values(ValueType::Prim(prim), property.many)),
        PropertyKind::Enum(id) => Some(EdmType::of_values(ValueType::Enum(id), property.many)),
        PropertyKind::Complex(id) => Some(EdmType::of_values(
            ValueType::Structured(id),
            property.many,
        )),
        PropertyKind::Opaque => None,
        PropertyKind::Navigation => match property.target() {
            Some(id) => Some(EdmType::of_values(ValueType::Structured(id), property.many)),
            None => None,
        },
    }
}
