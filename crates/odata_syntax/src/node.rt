use crate::BinaryOperator;
use odata_text::Span;

/// What kind of literal a spelling is.
#[derive(Clone, Copy, Debug, PartialEq, Eq)]
pub enum LiteralKind {
    Null,
    Bool,
    Int,
    Date,
    Moment,
    Guid,
    Str,
    EnumLit,
}

/// A lambda operator, `any` or `all` (section 5.1.1.13).
#[derive(Clone, Copy, Debug, PartialEq, Eq)]
pub enum Quantifier {
    Any,
    All,
}

/// A node of the tree. Its span runs from its first to its last token, the parentheses of a grouping that holds just
/// this node among them.
#[derive(Debug)]
pub enum Node {
    /// A literal by its spelling, with its quotes if it has any.
    Lit {
        span: Span,
        kind: LiteralKind,
        text: String,
    },
    /// `$it`.
    It {
        span: Span,
    },
    /// A name at the start of a path: a variable or a property.
    Name {
        span: Span,
        name: String,
    },
    /// `base/name`.
    Member {
        span: Span,
        base: Box<Node>,
        name: String,
    },
    /// `base/$count`.
    Count {
        span: Span,
        base: Box<Node>,
    },
    /// `- operand`.
    Neg {
        span: Span,
        operand: Box<Node>,
    },
    /// `not operand`.
    Not {
        span: Span,
        operand: Box<Node>,
    },
    /// `left operator right`.
    Binary {
        span: Span,
        operator: BinaryOperator,
        left: Box<Node>,
        right: Box<Node>,
    },
    /// `left has right`.
    Has {
        span: Span,
        left: Box<Node>,
        right: Box<Node>,
    },
    /// `left in (item,..)`; the list may be empty.
    InList {
        span: Span,
        left: Box<Node>,
        items: Vec<Node>,
    },
    /// `left in path`.
    InPath {
        span: Span,
        left: Box<Node>,
        path: Box<Node>,
    },
    /// `name(argument,..)`, the name in ASCII lower case.
    Call {
        span: Span,
        name: String,
        arguments: Vec<Node>,
    },
    /// `base/any()`, or with a lambda expression, its variable and its body, `base/any(variable:body)`.
    Any {
        span: Span,
        base: Box<Node>,
        lambda: Option<(String, Box<Node>)>,
    },
    /// `base/all(variable:body)`.
    All {
        span: Span,
        base: Box<Node>,
        variable: String,
        body: Box<Node>,
    },
}

impl Node {
    ghost use Rattle.std.specs.Prelude.{◌≡◌};
    ghost use Rattle.odata_syntax.specs.TreeView.{tree_of};
    ghost use Rattle.odata_syntax.specs.Tree.{start_of, stop_of};

    /// Returns where the node stands in the text.
    pub fn span(&self) -> Span
        ensures starts { result.start ≡ start_of (tree_of self.now) }
        ensures stops { result.stop ≡ stop_of (tree_of self.now) }
    {
        match self {
            Node::Lit { span, .. } => *span,
            Node::It { span } => *span,
            Node::Name { span, .. } => *span,
            Node::Member { span, .. } => *span,
            Node::Count { span, .. } => *span,
            Node::Neg { span, .. } => *span,
            Node::Not { span, .. } => *span,
            Node::Binary { span, .. } => *span,
            Node::Has { span, .. } => *span,
            Node::InList { span, .. } => *span,
            Node::InPath { span, .. } => *span,
            Node::Call { span, .. } => *span,
            Node::Any { span, .. } => *span,
            Node::All { span, .. } => *span,
        }
    }
}

/// A loop goes from first child to first child, so that a chain of operators, signs or steps needs no stack for its
/// length. The other children are dropped one level down: each is an operand of a tighter operator, or stands in
/// parentheses.
impl Drop for Node {
    fn drop(mut self) {
        loop {
            match self {
                Node::Lit {
                    span: _,
                    kind: _,
                    text: _,
                } => return,
                Node::It { span: _ } => return,
                Node::Name { span: _, name: _ } => return,
                Node::Call {
                    span: _,
                    name: _,
                    arguments: _,
                } => return,
                Node::Member {
                    span: _,
                    base,
                    name: _,
                } => self = Box::into_inner(base),
                Node::Count { span: _, base } => self = Box::into_inner(base),
                Node::Neg { span: _, operand } => self = Box::into_inner(operand),
                Node::Not { span: _, operand } => self = Box::into_inner(operand),
                Node::Binary {
                    span: _,
                    operator: _,
                    left,
                    right: _,
                } => self = Box::into_inner(left),
                Node::Has {
                    span: _,
                    left,
                    right: _,
                } => self = Box::into_inner(left),
                Node::InList {
                    span: _,
                    left,
                    items: _,
                } => self = Box::into_inner(left),
                Node::InPath {
                    span: _,
                    left,
                    path: _,
                } => self = Box::into_inner(left),
                Node::Any {
                    span: _,
                    base,
                    lambda: _,
                } => self = Box::into_inner(base),
                Node::All {
                    span: _,
                    base,
                    variable: _,
                    body: _,
                } => self = Box::into_inner(base),
            }
        }
    }
}
