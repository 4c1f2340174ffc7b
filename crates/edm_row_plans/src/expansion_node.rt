//! What is expanded of a property, by the nodes of an expansion.
ghost use Rattle.std.specs.Prelude.{◌≡◌, []};
ghost use Rattle.csdl_schema.specs.ExpansionView.{paths_at};
ghost use Rattle.csdl_schema.specs.PropertyView.{target_of};
ghost use Rattle.edm_row_plans.specs.Expanded.{node_behind, target_if};

use csdl_schema::{Expansion, Property, Schema, TypeId};
use std::alloc::Global;

/// The context of a walk: the schema, and what is expanded.
#[derive(Drop)]
pub struct WalkContext<'w> {
    pub alloc: Global,
    pub schema: &'w Schema,
    pub expansion: &'w Expansion,
}

/// Returns the node of the expansion after a step. Nothing is asked where nothing is expanded further on.
pub fn node_behind(context: &WalkContext<'_>, node: Option<usize>, name: &str) -> Option<usize>
    ensures { result ≡ node_behind context.now.expansion.now node name.now }
{
    match node {
        Some(node) => context.expansion.next_node(node, name),
        None => None,
    }
}

/// Whether the path to a node is in the set.
fn is_expanded(context: &WalkContext<'_>, node: Option<usize>) -> bool
    ensures { result ≡ paths_at context.now.expansion.now node [] }
{
    match node {
        Some(node) => context.expansion.is_needed(node),
        None => false,
    }
}

/// Returns the entity type of a navigation property that is expanded.
pub fn expanded_target(
    context: &WalkContext<'_>,
    property: &Property,
    node: Option<usize>,
) -> Option<TypeId>
    ensures { result ≡ target_if (paths_at context.now.expansion.now node []) (target_of property.now) }
{
    if is_expanded(context, node) {
        property.target()
    } else {
        None
    }
}
