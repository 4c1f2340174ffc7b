use crate::Node;
use std::marker::Model;

/// The tree of a filter's text, or the normal form of one. `parse` and `normal` alone make one.
#[derive(Debug, Drop)]
pub struct Expr {
    root: Box<Node>,
}

impl Model for Expr {
    ghost use Rattle.odata_syntax.specs.declared.node.Node.{Node};
    ghost use Rattle.odata_syntax.specs.contracts.node.Node as contract;
    ghost use Rattle.std.specs.Coded.{codes};

    ghost Value = { Node };

    ghost coded = { Prim.hlevel (codes, contract.the_row.coded) };

    ghost use Rattle.odata_syntax.specs.TreeView.{tree_of};
    ghost use Rattle.odata_syntax.specs.Parse.{IsExpression};

    ghost view = { λ e. e.root.value };

    ghost invariant = { λ e. IsExpression (tree_of e.root.value) };
}

impl Expr {
    ghost use Rattle.std.specs.Prelude.{◌≡◌};
    ghost use Rattle.odata_syntax.specs.TreeView.{tree_of};
    ghost use Rattle.odata_syntax.specs.Parse.{IsExpression};

    /// The expression of a tree.
    pub(crate) fn new(root: Box<Node>) -> Expr
        requires { IsExpression (tree_of root.value) }
        ensures { result ≡ root.value }
    {
        Expr { root }
    }

    /// Returns the node of the whole expression.
    pub fn root(&self) -> &Node
        ensures root { result.now ≡ self.now }
        ensures derived { IsExpression (tree_of self.now) }
    {
        &self.root
    }
}
