//! A tree as one list of its nodes, each after its children.
ghost use Rattle.std.specs.Prelude.{◌≡◌};
ghost use Rattle.odata_syntax.specs.Places.{places_of};

use crate::node_places::Place;
use crate::{BinaryOperator, LiteralKind, Quantifier};
use odata_text::Span;
use std::marker::Model;

/// The kind of a node.
#[derive(Clone, Copy, Debug, PartialEq, Eq)]
pub enum SyntaxKind {
    /// A literal, by its spelling.
    Lit(LiteralKind),
    /// `$it`.
    It,
    /// A name at the start of a path.
    Name,
    /// A member of its child.
    Member,
    /// `/$count`, over its child.
    Count,
    /// `-`, over its child.
    Neg,
    /// `not`, over its child.
    Not,
    /// An operator between its two children.
    Binary(BinaryOperator),
    /// `has` between its two children.
    Has,
    /// `in` between its first child and a list of the others.
    InList,
    /// `in` between its first child and a path.
    InPath,
    /// A call of its children by a name, in any case.
    Call,
    /// `/any()`, over its child.
    AnyItem,
    /// A lambda expression of a base and a body, by the name of its variable.
    Lambda(Quantifier),
}

/// A node. Its children stand before it, one after another, the last directly before it.
#[derive(Clone, Copy, Debug, PartialEq, Eq)]
pub struct SyntaxNode {
    pub kind: SyntaxKind,
    /// Where it stands in the text.
    pub span: Span,
    /// Of a literal its spelling, of any other node its name: where the caller finds it.
    pub text: Span,
    /// How many items a list has, or arguments a call.
    pub count: usize,
    /// Where it stands in its tree, once that is whole.
    pub place: Place,
}

/// A tree. Its root is the last node.
#[derive(Drop)]
pub struct SyntaxList {
    pub(crate) nodes: Vec<SyntaxNode>,
}

impl Model for SyntaxList {
    ghost use Rattle.odata_syntax.specs.Places.{PlacedNodes, places_of};
    ghost use Rattle.odata_syntax.specs.contracts.syntax_list.SyntaxNode as node;
    ghost use Rattle.odata_syntax.specs.contracts.node_places.Place as place;
    ghost use Rattle.std.specs.Coded.{codes};

    ghost Value = { PlacedNodes };

    ghost coded = { Prim.hlevel (codes, node.the_row.coded, place.the_row.coded) };

    ghost view = { λ l. record { nodes = l.nodes.items; places = places_of l.nodes.items } };
}

impl SyntaxList {
    /// Returns the nodes, each after its children, with their places.
    pub fn nodes(&self) -> &[SyntaxNode]
        ensures nodes { result.now ≡ self.now.nodes }
        ensures places { places_of result.now ≡ self.now.places }
    {
        self.nodes.as_slice()
    }
}
