//! Where the nodes of a list stand in its tree.
ghost use Rattle.std.specs.Prelude.{◌≡◌, ◌+◌, ◌-◌, ◌^◌, ◌<◌, ◌≤◌, ℕ, List, length, take};
ghost use Rattle.odata_syntax.specs.PostOrder.{IsWholeTree, child_count as children_count};
ghost use Rattle.odata_syntax.specs.Places.{ArePlaces, first_at, first_over, places_of};
ghost use Rattle.odata_syntax.specs.private.PlaceGrowth.{AreTiles, HasRoom, HasTiles, IsBegun, IsGrowing, IsMarked};
ghost use Rattle.odata_syntax.specs.private.PlaceGrowth.{IsNumbered, begun_before, places_before, unplaced_nodes};

use crate::syntax_list::{SyntaxKind, SyntaxNode};

/// The value of `Place::lambda` where no body begins. The first node of a list has no children, so it is no lambda
/// expression.
pub const NO_NODE: usize = 0;

/// The position of a node in its tree.
#[derive(Clone, Copy, Debug, PartialEq, Eq)]
pub struct Place {
    /// Its number in pre-order, from 0.
    pub number: usize,
    /// The index of the first node of its tree in the list.
    pub first: usize,
    /// The index of the lambda expression whose body begins with this node, or `NO_NODE`.
    pub lambda: usize,
}

/// The place of a node whose tree has no end yet.
pub(crate) const NO_PLACE: Place = Place {
    number: 0,
    first: 0,
    lambda: NO_NODE,
};

/// How many children a node has.
#[inline(always)]
fn child_count(node: &SyntaxNode) -> usize
    requires { children_count node.now.kind node.now.count < 2 ^ 64 }
    ensures { result ≡ children_count node.now.kind node.now.count }
{
    match node.kind {
        SyntaxKind::Lit(_) | SyntaxKind::It | SyntaxKind::Name => 0,
        SyntaxKind::Member | SyntaxKind::Count | SyntaxKind::Neg => 1,
        SyntaxKind::Not | SyntaxKind::AnyItem => 1,
        SyntaxKind::Binary(_) | SyntaxKind::Has => 2,
        SyntaxKind::InPath | SyntaxKind::Lambda(_) => 2,
        SyntaxKind::InList => node.count + 1,
        SyntaxKind::Call => node.count,
    }
}

/// Puts the places of the nodes of a tree.
pub(crate) fn put_places(nodes: &mut Vec<SyntaxNode>)
    requires { IsWholeTree nodes.old.items }
    ensures places { ArePlaces nodes.new.items (places_of nodes.new.items) }
    ensures same { unplaced_nodes nodes.new.items ≡ unplaced_nodes nodes.old.items }
{
    for index in 0..nodes.len() {
        grow(index, nodes);
    }
    number(nodes);
}

/// Puts the place of the next node. Until all nodes have one, `number` is how many trees begin with a node.
#[inline(always)]
fn grow(index: usize, nodes: &mut Vec<SyntaxNode>)
    requires whole { IsWholeTree (unplaced_nodes nodes.old.items) }
    requires inside { index < length nodes.old.items }
    requires growing { IsGrowing (unplaced_nodes nodes.old.items) (places_before nodes.old.items index) }
    ensures growing { IsGrowing (unplaced_nodes nodes.old.items) (places_before nodes.new.items (index + 1)) }
    ensures same { unplaced_nodes nodes.new.items ≡ unplaced_nodes nodes.old.items }
{
    let node = nodes[index];
    let first = first_of(child_count(&node), index, nodes);
    begin(index, first, nodes);
    match node.kind {
        SyntaxKind::Lambda(_) => mark_body(index, nodes),
        _ => {}
    }
}

/// The index of the first node of the last so many trees before an index.
#[inline(always)]
fn first_of(count: usize, index: usize, nodes: &Vec<SyntaxNode>) -> usize
    requires inside { index < length nodes.now.items }
    requires tiles { HasTiles (places_before nodes.now.items index) count }
    ensures { (roots : List ℕ) → AreTiles (places_before nodes.now.items index) index roots → count ≤ length roots
        → result ≡ first_over (places_before nodes.now.items index) index (take count roots) }
{
    let mut first = index;
    for _ in 0..count {
        first = nodes[first - 1].place.first;
    }
    first
}

/// Puts the place of a node whose tree begins with the node at `first`, and counts it there.
#[inline(always)]
fn begin(index: usize, first: usize, nodes: &mut Vec<SyntaxNode>)
    requires inside { index < length nodes.old.items }
    requires order { first ≤ index }
    requires few { begun_before (places_before nodes.old.items index) index ≤ index }
    ensures begun { IsBegun (places_before nodes.old.items index) (places_before nodes.new.items (index + 1)) first }
    ensures same { unplaced_nodes nodes.new.items ≡ unplaced_nodes nodes.old.items }
{
    nodes[index].place = Place {
        number: 0,
        first,
        lambda: NO_NODE,
    };
    nodes[first].place.number += 1;
}

/// Marks the node with which the body of the lambda expression at `index` begins.
fn mark_body(index: usize, nodes: &mut Vec<SyntaxNode>)
    requires lambda { 0 < index }
    requires inside { index < length nodes.old.items }
    requires begins { first_at (places_before nodes.old.items (index + 1)) (index - 1) ≤ index }
    ensures marked { IsMarked (places_before nodes.old.items (index + 1)) (places_before nodes.new.items (index + 1))
        (first_at (places_before nodes.old.items (index + 1)) (index - 1)) index }
    ensures same { unplaced_nodes nodes.new.items ≡ unplaced_nodes nodes.old.items }
{
    let begin = nodes[index - 1].place.first;
    nodes[begin].place.lambda = index;
}

/// Numbers the nodes in pre-order: a tree stops at the number of trees that begin no later than with its root.
fn number(nodes: &mut Vec<SyntaxNode>)
    requires rooms { (index : ℕ) → index < length nodes.old.items → HasRoom (places_of nodes.old.items) index }
    requires few { begun_before (places_of nodes.old.items) (length nodes.old.items) ≤ length nodes.old.items }
    ensures numbered { IsNumbered (places_of nodes.old.items) (places_of nodes.new.items) }
    ensures same { unplaced_nodes nodes.new.items ≡ unplaced_nodes nodes.old.items }
{
    let mut stop = 0;
    for index in 0..nodes.len() {
        let place = nodes[index].place;
        stop += place.number;
        nodes[index].place.number = stop - (index + 1 - place.first);
    }
}
