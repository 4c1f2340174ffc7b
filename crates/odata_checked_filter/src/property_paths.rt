//! Which properties a filter reads, by their paths.
ghost use Rattle.std.specs.Prelude.{◌≡◌, ◌∷◌, [], ℕ, List, IfOk, OnOk, length, map, nat_eq, string_bytes};
ghost use Rattle.std.specs.Prelude.{unwrap_or};
ghost use Rattle.std.specs.Cmp.Lexicographic.{pointwise};
ghost use Rattle.std.specs.List.{list_any};
ghost use Rattle.std.specs.Option.{option_map};
ghost use Rattle.odata_syntax.specs.Tree.{Tree};
ghost use Rattle.odata_signatures.specs.NeededPaths.{VariablePaths, path_of};
ghost use Rattle.odata_signatures.specs.Typed.{Scope};
ghost use Rattle.odata_checked_filter.specs.PropertyPaths.{path_text, property_paths, with_step};
ghost use Rattle.odata_checked_filter.specs.private.LambdaLines.{AreInLine, IsLine, StandsBetween};
ghost use Rattle.odata_checked_filter.specs.private.PathSteps.{IsStepAt};
ghost use Rattle.odata_checked_filter.specs.private.PropertyPaths.{AreBound, HasTree, bound_in, text_named};
ghost use Rattle.odata_checked_filter.specs.private.PropertyPaths.{texts_among, with_texts};

use super::checked_node::NodeKind;
use super::lambda_depth::is_lambda;
use super::node_list::NodeList;
use super::path_steps::path_base;
use std::alloc::{AllocError, Global};

/// A list, and the allocator of the texts that are made of it.
#[derive(Clone, Copy)]
struct PathContext<'l> {
    alloc: Global,
    list: &'l NodeList,
}

/// The range variables around, the innermost first, each with its name and the text of its collection's path.
#[derive(Clone, Copy)]
enum Variables<'v> {
    Empty,
    Bound(&'v str, &'v str, &'v Variables<'v>),
}

/// The paths of the properties that the nodes of a list name, each once, in the order of the first node that does.
pub(crate) fn paths_of_list(alloc: Global, list: &NodeList) -> Result<Vec<String>, AllocError>
    requires { (tree : Tree) × StandsBetween list.now 0 (length list.now.nodes) tree }
    ensures { (tree : Tree) → StandsBetween list.now 0 (length list.now.nodes) tree
        → IfOk result (λ paths. map string_bytes paths.items ≡ property_paths tree) }
{
    let context = PathContext { alloc, list };
    let mut found = Vec::new(alloc);
    put_paths(
        &context,
        0,
        list.nodes().len(),
        &Variables::Empty,
        &mut found,
    )?;
    Ok(found)
}

/// Puts the paths of the nodes from one index up to another after those found, in pre-order, each that is not among
/// them yet. What stands in a lambda operator is gone through by further calls, so as many calls wait as operators
/// stand in one another.
fn put_paths(
    context: &PathContext<'_>,
    from: usize,
    stop: usize,
    variables: &Variables<'_>,
    found: &mut Vec<String>,
) -> Result<(), AllocError>
    requires { IsLine context.now.list.now from stop }
    ensures { (scope : Scope) (paths : VariablePaths) (trees : List Tree)
        → AreInLine context.now.list.now from stop trees
        → AreBound scope paths (bound_in variables.now)
        → OnOk result (map string_bytes found.new.items
        ≡ with_texts (map string_bytes found.old.items) (texts_among scope paths trees)) }
{
    let mut place = from;
    while place < stop {
        let path = path_at(context, place, variables)?;
        put_new(found, path)?;
        let node = context.list.node(place);
        if is_lambda(&node) {
            let body = context.list.node(place + 1).stop;
            put_paths(context, place + 1, body, variables, found)?;
            let base = path_at(context, place + 1, variables)?;
            let inner = Variables::Bound(context.list.text(place), base.as_str(), &*variables);
            put_paths(context, body, node.stop, &inner, found)?;
            place = node.stop;
        } else {
            place += 1;
        }
    }
    Ok(())
}

/// The text of the path of the node at an index, empty where it names no property.
fn path_at(
    context: &PathContext<'_>,
    place: usize,
    variables: &Variables<'_>,
) -> Result<String, AllocError>
    requires { HasTree context.now.list.now place }
    ensures { (scope : Scope) (paths : VariablePaths) (stop : ℕ) (tree : Tree)
        → StandsBetween context.now.list.now place stop tree
        → AreBound scope paths (bound_in variables.now)
        → IfOk result (λ text. string_bytes text ≡ path_text (path_of scope paths tree)) }
{
    let bottom = path_base(context.list, place);
    let mut text = base_text(context, bottom, variables)?;
    let mut at = bottom;
    while place < at {
        at -= 1;
        put_step(&mut text, context.list.text(at))?;
    }
    Ok(text)
}

/// The same of what a path begins with.
fn base_text(
    context: &PathContext<'_>,
    place: usize,
    variables: &Variables<'_>,
) -> Result<String, AllocError>
    requires stands { HasTree context.now.list.now place }
    requires base { ¬ IsStepAt context.now.list.now place }
    ensures { (scope : Scope) (paths : VariablePaths) (stop : ℕ) (tree : Tree)
        → StandsBetween context.now.list.now place stop tree
        → AreBound scope paths (bound_in variables.now)
        → IfOk result (λ text. string_bytes text ≡ path_text (path_of scope paths tree)) }
{
    let name = context.list.text(place);
    match context.list.node(place).kind {
        NodeKind::Property { .. } => name_path(context.alloc, name, variables),
        NodeKind::Variable { .. } => name_path(context.alloc, name, variables),
        _ => Ok(String::new(context.alloc)),
    }
}

/// Puts a name after the text of a path.
fn put_step(text: &mut String, name: &str) -> Result<(), AllocError>
    ensures { OnOk result (string_bytes text.new ≡ with_step (string_bytes text.old) name.now) }
{
    if !text.is_empty() {
        text.push('/')?;
    }
    text.push_str(name)
}

/// The text of the path of a name: that of a range variable's collection, or else the name.
fn name_path(alloc: Global, name: &str, variables: &Variables<'_>) -> Result<String, AllocError>
    ensures { IfOk result
        (λ text. string_bytes text ≡ unwrap_or (text_named (bound_in variables.now) name.now) name.now) }
{
    match variable_text(variables, name) {
        Some(text) => text.to_owned(alloc),
        None => name.to_owned(alloc),
    }
}

/// The text of the path of the innermost range variable of a name.
fn variable_text<'v>(variables: &Variables<'v>, name: &str) -> Option<&'v str>
    ensures { option_map (λ text. text.now) result ≡ text_named (bound_in variables.now) name.now }
{
    match variables {
        Variables::Empty => None,
        Variables::Bound(bound, text, outer) => {
            if name == *bound {
                Some(*text)
            } else {
                variable_text(*outer, name)
            }
        }
    }
}

/// Puts a text after others, unless it is empty or among them.
fn put_new(found: &mut Vec<String>, text: String) -> Result<(), AllocError>
    ensures { OnOk result (map string_bytes found.new.items
        ≡ with_texts (map string_bytes found.old.items) (string_bytes text ∷ [])) }
{
    let asked = text.as_str();
    if asked.is_empty() || is_among(found.as_slice(), asked) {
        return Ok(());
    }
    match found.push(text) {
        Ok(()) => Ok(()),
        Err(refused) => Err(refused.into()),
    }
}

/// Whether a text is one of these.
fn is_among(texts: &[String], asked: &str) -> bool
    ensures { result ≡ list_any (λ text. pointwise nat_eq asked.now (string_bytes text)) texts.now }
{
    texts.iter().any(|text| asked == text.as_str())
}
