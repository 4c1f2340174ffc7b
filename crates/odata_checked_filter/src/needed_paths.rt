//! What a filter needs of navigation: the paths of its nodes that end with a navigation property.
ghost use Rattle.std.specs.Prelude.{◌≡◌, ◌<◌, ◌+◌, ◌++◌, ◌∷◌, [], ℕ, List, Some, length, IfOk, IsSome, OnOk};
ghost use Rattle.odata_syntax.specs.Tree.{Tree};
ghost use Rattle.csdl_schema.specs.ExpansionView.{IsReached, LeadsTo, paths_in};
ghost use Rattle.csdl_schema.specs.PathSet.{PropertyPath};
ghost use Rattle.csdl_schema.specs.SchemaModel.{properties_at};
ghost use Rattle.odata_signatures.specs.NeededPaths.{VariablePaths};
ghost use Rattle.odata_signatures.specs.Typed.{Scope};
ghost use Rattle.odata_checked_filter.specs.Filter.{HasNeededPaths};
ghost use Rattle.odata_checked_filter.specs.FlatTree.{tree_of_nodes};
ghost use Rattle.odata_checked_filter.specs.private.Layout.{Lies};
ghost use Rattle.odata_checked_filter.specs.Stands.{Stands};
ghost use Rattle.odata_checked_filter.specs.private.NeededPaths.{ArePlacesOf, AreTreesThere, HasTypedTree, IsLambdaOf};
ghost use Rattle.odata_checked_filter.specs.private.NeededPaths.{IsLambdaThere, IsNodeAtLevel, IsPathEnd, IsPutFrom};
ghost use Rattle.odata_checked_filter.specs.private.NeededPaths.{IsStepOn, IsTargetAt};
ghost use Rattle.odata_checked_filter.specs.private.NeededPaths.{IsTreeThere, IsWithoutTarget, LambdaNeeds};
ghost use Rattle.odata_checked_filter.specs.private.NeededPaths.{LeadThere, NeedsAmong};
ghost use Rattle.odata_checked_filter.specs.private.NeededPaths.{Puts, StandInLine, need_class, node_of_level, nodes_in, root_there, slots_there};
ghost use Rattle.odata_checked_filter.specs.private.PathSteps.{IsStepAt};

use super::checked_node::NodeKind;
use super::node_list::NodeList;
use super::path_steps::path_base;
use csdl_schema::{Expansion, Schema, TypeId};
use odata_signatures::{EdmType, ValueType, trees_have_one_type};
use std::alloc::{AllocError, Global};

/// What a walk over a list goes by.
#[derive(Clone, Copy)]
struct ListContext<'e> {
    schema: &'e Schema,
    filtered_type: TypeId,
    list: &'e NodeList,
}

/// The nodes of an expansion at which the collections of the range variables around stand, the innermost first.
#[derive(Clone, Copy)]
enum VariableNodes<'e> {
    Empty,
    Bound(usize, &'e VariableNodes<'e>),
}

/// What is found of a level: the node of its variable, or how many variables there are, none of them at that level.
#[derive(Clone, Copy)]
enum VariableNode {
    There(usize),
    Fewer(usize),
}

/// Where a path of steps ends: at that node of the expansion. It begins at that index of the list.
#[derive(Clone, Copy)]
struct PathEnd {
    node: usize,
    base: usize,
}

/// What a node needs: a lambda operator what its base and its body need; a path, which begins with a property or a
/// step, what its steps need; any other one what its children need.
#[derive(Clone, Copy)]
enum NeedClass {
    Lambda,
    Path,
    Children,
}

/// Where the base of a lambda operator begins, where its body begins, and where that stops.
#[derive(Clone, Copy)]
struct LambdaPlaces {
    base: usize,
    body: usize,
    stop: usize,
}

/// Returns the paths that a list of a filter needs, as a set.
pub fn expansion_of(
    alloc: Global,
    schema: &Schema,
    filtered_type: TypeId,
    list: &NodeList,
) -> Result<Expansion, AllocError>
    requires { Stands schema.now filtered_type [] list.now 0 (length list.now.nodes) (tree_of_nodes list.now) }
    ensures { IfOk result (HasNeededPaths schema.now filtered_type list.now) }
{
    let context = ListContext {
        schema,
        filtered_type,
        list,
    };
    let mut expansion = Expansion::none(alloc);
    let stop = list.nodes().len();
    expand(&context, 0, stop, &VariableNodes::Empty, &mut expansion)?;
    Ok(without_idle_steps(alloc, expansion))
}

/// The same set; where no path is in it, without steps, so that nothing is copied or looked for on its account.
fn without_idle_steps(alloc: Global, expansion: Expansion) -> Expansion
    ensures { (path : PropertyPath) → paths_in result path ≡ paths_in expansion path }
{
    let nothing = Expansion::none(alloc);
    if nothing.covers(&expansion) {
        nothing
    } else {
        expansion
    }
}

/// Puts what the nodes from one index up to another need into the set. What stands in a lambda operator is gone through
/// by a further call, so as many calls wait as operators stand in one another.
#[cycle(expand)]
fn expand(
    context: &ListContext<'_>,
    from: usize,
    stop: usize,
    variables: &VariableNodes<'_>,
    expansion: &mut Expansion,
) -> Result<(), AllocError>
    requires { AreTreesThere context.now expansion.old (nodes_in variables.now) from stop }
    ensures { (scope : Scope) (paths : VariablePaths) (trees : List Tree)
        → StandInLine context.now.schema.now context.now.filtered_type scope context.now.list.now from stop trees
        → LeadThere expansion.old scope paths (nodes_in variables.now)
        → OnOk result (Puts expansion.old expansion.new
        (NeedsAmong (slots_there context.now) (root_there context.now) scope paths trees)) }
{
    let mut place = from;
    while place < stop {
        match need_class(context.list.node(place).kind) {
            NeedClass::Lambda => {
                let places = lambda_places(context.list, place);
                expand_lambda(context, &places, variables, expansion)?;
                place = places.stop;
            }
            NeedClass::Path => {
                let base = expand_operand(context, place, variables, expansion)?;
                place = base.max(place + 1);
            }
            NeedClass::Children => place += 1,
        }
    }
    Ok(())
}

/// The same of a lambda operator: of its base, and of its body, whose variable goes over what stands at the base's
/// path.
#[cycle(expand)]
fn expand_lambda(
    context: &ListContext<'_>,
    places: &LambdaPlaces,
    variables: &VariableNodes<'_>,
    expansion: &mut Expansion,
) -> Result<(), AllocError>
    requires { IsLambdaThere context.now expansion.old (nodes_in variables.now) places.now }
    ensures { (scope : Scope) (paths : VariablePaths) (base : Tree) (variable : List ℕ) (body : Tree)
        → IsLambdaOf context.now scope places.now base variable body
        → LeadThere expansion.old scope paths (nodes_in variables.now)
        → OnOk result (Puts expansion.old expansion.new
        (LambdaNeeds (slots_there context.now) (root_there context.now) scope paths base variable body)) }
{
    trees_have_one_type();
    expand(context, places.base, places.body, variables, expansion)?;
    let base = expand_path(context, places.base, variables, expansion)?;
    let inner = VariableNodes::Bound(base.node, &*variables);
    expand(context, places.body, places.stop, &inner, expansion)
}

fn need_class(kind: NodeKind) -> NeedClass
    ensures { result ≡ need_class kind }
{
    match kind {
        NodeKind::Lambda { .. } => NeedClass::Lambda,
        NodeKind::Member { .. } => NeedClass::Path,
        NodeKind::Property { .. } => NeedClass::Path,
        _ => NeedClass::Children,
    }
}

/// Where the base of the lambda operator at an index stands, and after that its body.
fn lambda_places(list: &NodeList, place: usize) -> LambdaPlaces
    requires { place + 1 < length list.now.nodes }
    ensures { ArePlacesOf list.now place result }
{
    let nodes = list.nodes();
    LambdaPlaces {
        base: place + 1,
        body: nodes[place + 1].stop,
        stop: nodes[place].stop,
    }
}

/// Puts what a path of steps needs into the set, and answers where it begins. No step is put for a property alone that
/// has no target.
fn expand_operand(
    context: &ListContext<'_>,
    place: usize,
    variables: &VariableNodes<'_>,
    expansion: &mut Expansion,
) -> Result<usize, AllocError>
    requires { IsTreeThere context.now expansion.old (nodes_in variables.now) place }
    ensures { (scope : Scope) (paths : VariablePaths) (stop : ℕ) (tree : Tree)
        → Lies context.now.schema.now context.now.filtered_type scope context.now.list.now place stop tree
        → LeadThere expansion.old scope paths (nodes_in variables.now)
        → IfOk result (IsPutFrom (slots_there context.now) (root_there context.now) scope paths expansion.old
        expansion.new place tree) }
{
    if has_no_target(context, context.list.node(place).kind) {
        return Ok(place);
    }
    let end = expand_path(context, place, variables, expansion)?;
    Ok(end.base)
}

/// Whether a node of that kind is a property of the filtered type without a target.
fn has_no_target(context: &ListContext<'_>, kind: NodeKind) -> bool
    requires { (slot : ℕ) → kind ≡ NodeKind.Property slot
        → slot < length (properties_at context.now.schema.now context.now.filtered_type) }
    ensures { IsWithoutTarget context.now.schema.now context.now.filtered_type kind result }
{
    match kind {
        NodeKind::Property { slot } => {
            let property = context.schema.property(context.filtered_type, slot);
            property.target().is_none()
        }
        _ => false,
    }
}

/// Puts what a path of steps needs into the set, and answers where it ends. Its steps are taken from the first one on.
fn expand_path(
    context: &ListContext<'_>,
    place: usize,
    variables: &VariableNodes<'_>,
    expansion: &mut Expansion,
) -> Result<PathEnd, AllocError>
    requires { IsTreeThere context.now expansion.old (nodes_in variables.now) place }
    ensures { (scope : Scope) (paths : VariablePaths) (stop : ℕ) (tree : Tree)
        → Lies context.now.schema.now context.now.filtered_type scope context.now.list.now place stop tree
        → LeadThere expansion.old scope paths (nodes_in variables.now)
        → IfOk result (IsPathEnd (slots_there context.now) (root_there context.now) scope paths expansion.old
        expansion.new place tree) }
{
    trees_have_one_type();
    let bottom = path_base(context.list, place);
    let mut end = expand_base(context, bottom, variables, expansion)?;
    let mut at = bottom;
    while place < at {
        at -= 1;
        let target = step_target(context, at);
        let node = step_to(target, context.list.text(at), end.node, expansion)?;
        end = PathEnd {
            node,
            base: end.base,
        };
    }
    Ok(end)
}

/// The same of what a path begins with.
fn expand_base(
    context: &ListContext<'_>,
    place: usize,
    variables: &VariableNodes<'_>,
    expansion: &mut Expansion,
) -> Result<PathEnd, AllocError>
    requires stands { IsTreeThere context.now expansion.old (nodes_in variables.now) place }
    requires base { ¬ IsStepAt context.now.list.now place }
    ensures { (scope : Scope) (paths : VariablePaths) (stop : ℕ) (tree : Tree)
        → Lies context.now.schema.now context.now.filtered_type scope context.now.list.now place stop tree
        → LeadThere expansion.old scope paths (nodes_in variables.now)
        → IfOk result (IsPathEnd (slots_there context.now) (root_there context.now) scope paths expansion.old
        expansion.new place tree) }
{
    let name = context.list.text(place);
    match context.list.node(place).kind {
        NodeKind::Property { slot } => {
            let target = context
                .schema
                .property(context.filtered_type, slot)
                .target();
            let node = step_to(target, name, 0, expansion)?;
            Ok(PathEnd { node, base: place })
        }
        NodeKind::Variable { level } => Ok(PathEnd {
            node: variable_node(variables, level),
            base: place,
        }),
        _ => Ok(PathEnd {
            node: 0,
            base: place,
        }),
    }
}

/// The target of a step of a path. Nothing else has one.
fn step_target(context: &ListContext<'_>, place: usize) -> Option<TypeId>
    requires { HasTypedTree context.now place }
    ensures { (slot id : ℕ) → IsStepOn context.now.list.now place slot id
        → IsTargetAt context.now.schema.now id slot result }
{
    trees_have_one_type();
    match context.list.node(place).kind {
        NodeKind::Member { slot } => {
            let base = context.list.node(place + 1);
            target_at(context.schema, &base.edm_type, slot)
        }
        _ => None,
    }
}

/// The node to which a property leads, whose path is put into the set if it has a target.
fn step_to(
    target: Option<TypeId>,
    name: &str,
    before: usize,
    expansion: &mut Expansion,
) -> Result<usize, AllocError>
    requires { IsReached expansion.old before }
    ensures leads { IfOk result (λ next. (path : PropertyPath)
        → LeadsTo expansion.old path before → LeadsTo expansion.new (path ++ name.now ∷ []) next) }
    ensures puts { (path : PropertyPath) → LeadsTo expansion.old path before → OnOk result
        (Puts expansion.old expansion.new (λ put. IsSome target × (put ≡ path ++ name.now ∷ []))) }
{
    let node = expansion.step_on(before, name)?;
    if target.is_none() {
        return Ok(node);
    }
    expansion.mark(node);
    Ok(node)
}

/// The target of the property at a slot of a structured type.
fn target_at(schema: &Schema, owner: &EdmType, slot: usize) -> Option<TypeId>
    requires { (id : ℕ) × (owner.now ≡ EdmType.Single (ValueType.Structured id))
        × (slot < length (properties_at schema.now id)) }
    ensures { (id : ℕ) → owner.now ≡ EdmType.Single (ValueType.Structured id) → IsTargetAt schema.now id slot result }
{
    match owner {
        EdmType::Single(ValueType::Structured(id)) => schema.property(*id, slot).target(),
        EdmType::Single(ValueType::Prim(_)) => None,
        EdmType::Single(ValueType::Enum(_)) => None,
        EdmType::Null => None,
        EdmType::Collection(_) => None,
    }
}

/// The node of the variable around which so many are.
fn variable_node(variables: &VariableNodes<'_>, level: usize) -> usize
    requires { level < length (nodes_in variables.now) }
    ensures { node_of_level (nodes_in variables.now) level ≡ Some result }
{
    match at_level(variables, level) {
        VariableNode::There(node) => node,
        // More variables are around than the level.
        VariableNode::Fewer(_) => unreachable!(),
    }
}

fn at_level(variables: &VariableNodes<'_>, level: usize) -> VariableNode
    ensures { IsNodeAtLevel (nodes_in variables.now) level result }
{
    match variables {
        VariableNodes::Empty => VariableNode::Fewer(0),
        VariableNodes::Bound(node, outer) => match at_level(*outer, level) {
            VariableNode::There(found) => VariableNode::There(found),
            VariableNode::Fewer(count) => {
                if count == level {
                    VariableNode::There(*node)
                } else {
                    VariableNode::Fewer(count + 1)
                }
            }
        },
    }
}
