//! What the printer asks of a tree.
use crate::{BinaryOperator, LiteralKind, Quantifier};

/// What a node is, with nodes as its operands and items.
#[derive(Clone, Copy, Debug)]
pub enum NodeShape<'t, N, I> {
    /// A literal, by its spelling.
    Literal {
        kind: LiteralKind,
        spelling: &'t str,
    },
    /// `$it`.
    It,
    /// A name at the start of a path.
    Name {
        name: &'t str,
    },
    /// `- operand`.
    Neg {
        operand: N,
    },
    /// `not operand`.
    Not {
        operand: N,
    },
    /// `name(argument,..)`.
    Call {
        name: &'t str,
        arguments: I,
    },
    /// Its first operand, and what stands after that.
    Joined {
        first: N,
        rest: AfterFirst<'t, N, I>,
    },
}

/// What a node has after its first operand.
#[derive(Clone, Copy, Debug)]
pub enum AfterFirst<'t, N, I> {
    /// `/name`.
    Member {
        name: &'t str,
    },
    /// `/$count`.
    Count,
    /// `/any()`.
    AnyItem,
    /// `/any(variable:body)` or `/all(variable:body)`.
    Lambda {
        quantifier: Quantifier,
        variable: &'t str,
        body: N,
    },
    /// An operator and its right operand.
    Binary {
        operator: BinaryOperator,
        right: N,
    },
    /// `has right`.
    Has {
        right: N,
    },
    /// `in (item,..)`.
    InList {
        items: I,
    },
    /// `in path`.
    InPath {
        path: N,
    },
}

/// A tree of which the printer asks one node after another.
pub trait PrintedTree {
    ghost use Rattle.odata_syntax.specs.PrintedTree.{IsShapeOf, IsSplit, PrintedTrees};

    /// A node.
    type Node: Copy;

    /// The items of a list or the arguments of a call, or those after some of them.
    type Items: Copy;

    // The trees of its nodes and items.
    ghost trees: { Self → PrintedTrees Self.Node Self.Items };

    /// Returns what a node is.
    fn shape<'t>(&'t self, node: Self::Node) -> NodeShape<'t, Self::Node, Self::Items>
        requires { (trees self.now).HasTree node }
        ensures { IsShapeOf (trees self.now) node result };

    /// Returns the first of some items, and the others; `None` where there is none.
    fn split_items(&self, items: Self::Items) -> Option<(Self::Node, Self::Items)>
        requires { (trees self.now).HaveTrees items }
        ensures { IsSplit (trees self.now) items result };
}
