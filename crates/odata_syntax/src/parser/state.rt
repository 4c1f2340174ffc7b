//! The machine: what waits, what is expected next, and the nodes so far.
ghost use Rattle.std.specs.Prelude.{◌≡◌, ◌∷◌, ◌++◌, [], IfOk};
ghost use Rattle.odata_syntax.specs.Tree.{start_of, stop_of};
ghost use Rattle.odata_syntax.specs.PostOrder.{Texts};
ghost use Rattle.odata_syntax.specs.private.Machine.{start as machine_start};
ghost use Rattle.odata_syntax.specs.private.MachineView.{machine_of};
ghost use Rattle.odata_syntax.specs.private.ListSteps.{HasRead, IfTaken, IsNotRefused, IsSteadyState, read_tree};
ghost use Rattle.odata_syntax.specs.private.PlaceGrowth.{no_place};

use crate::node_places::NO_PLACE;
use crate::syntax_list::{SyntaxKind, SyntaxNode};
use crate::{BinaryOperator, Quantifier};
use odata_text::{Span, Token};

/// An operation that waits for its last operand, with where the operand before it starts.
#[derive(Clone, Copy, Debug)]
pub(crate) enum Pending {
    /// An operator.
    Binary {
        operator: BinaryOperator,
        start: usize,
    },
    Has {
        start: usize,
    },
    /// `in`: a path may follow, or `(` and a list.
    In {
        start: usize,
    },
    /// `-`, from its start.
    Minus {
        start: usize,
    },
    /// `not`, from its start.
    Not {
        start: usize,
    },
}

/// An open parenthesis.
#[derive(Clone, Copy, Debug)]
pub(crate) enum Bracket {
    /// Of a group, from its start.
    Group {
        start: usize,
    },
    /// Of the list of an `in`, with the number of items so far.
    List {
        start: usize,
        count: usize,
    },
    /// Of a call, with the number of arguments so far.
    Call {
        start: usize,
        name: Span,
        count: usize,
    },
    /// Of a lambda expression, from the start of its base.
    Body {
        quantifier: Quantifier,
        start: usize,
        variable: Span,
    },
}

/// What waits for the operand that is being read.
#[derive(Clone, Copy, Debug)]
pub(crate) enum Frame {
    Pending(Pending),
    Open(Bracket),
}

/// What may come next. The operand that has been read is the last tree of the list.
#[derive(Clone, Copy, Debug)]
pub(crate) enum Stage {
    /// An operand, or the `)` of a list or a call that holds nothing.
    Operand,
    /// After an operand: an operator, `has`, `in`, a comma, a `)` or the end.
    Closed,
    /// The same, or a `/` that goes on with this path.
    Path,
    /// The same, or the `(` of a call of this name. No node of it is in the list.
    NameOrCall {
        span: Span,
        name: Span,
    },
    /// After a `/`: a segment.
    Segment,
    /// After `any` or `all`, which ends at `stop`: what may stand after a path, or the `(` of a lambda expression.
    MemberOrLambda {
        quantifier: Quantifier,
        stop: usize,
        name: Span,
    },
    /// After that `(`: a variable, or `)` for `any`.
    Variable {
        quantifier: Quantifier,
    },
    /// After the variable: a colon.
    Colon {
        quantifier: Quantifier,
        variable: Span,
    },
}

/// What became of a token.
#[derive(Clone, Copy, Debug, PartialEq, Eq)]
pub(crate) enum Step {
    Taken,
    /// It cannot stand here.
    Refused,
    OutOfMemory,
}

/// A token, and where the caller finds its text.
#[derive(Clone, Copy)]
pub(crate) struct Piece<'t> {
    pub(crate) token: Token<'t>,
    pub(crate) text: Span,
}

/// A node without a text.
pub(crate) const NO_TEXT: Span = Span { start: 0, stop: 0 };

/// The initial capacity for frames, which seldom grows.
pub(crate) const FRAME_ROOM: usize = 8;

/// The machine between two tokens. The last frame is the innermost.
#[derive(Drop)]
pub(crate) struct State {
    pub(crate) nodes: Vec<SyntaxNode>,
    pub(crate) frames: Vec<Frame>,
    pub(crate) stage: Stage,
}

impl State {
    /// The machine before the first token, over two empty lists.
    #[inline(always)]
    pub(crate) fn new(nodes: Vec<SyntaxNode>, frames: Vec<Frame>) -> State
        requires nodes { nodes.items ≡ [] }
        requires frames { frames.items ≡ [] }
        ensures start { (texts : Texts) → machine_of texts result ≡ machine_start }
        ensures steady { IsSteadyState result }
    {
        State {
            nodes,
            frames,
            stage: Stage::Operand,
        }
    }

    /// Where the operand that has been read stands; at the start where there is none.
    #[inline(always)]
    pub(crate) fn read(&self) -> Span
        ensures starts { (texts : Texts) → start_of (read_tree texts self.now) ≡ result.start }
        ensures stops { (texts : Texts) → stop_of (read_tree texts self.now) ≡ result.stop }
    {
        match self.nodes.last() {
            Some(node) => node.span,
            None => NO_TEXT,
        }
    }

    /// Puts a node without children after the others.
    #[inline(always)]
    pub(crate) fn put_leaf(&mut self, kind: SyntaxKind, span: Span, text: Span, next: Stage) -> Step
        ensures put { IfTaken result (self.new.nodes.items ≡ self.old.nodes.items
            ++ (record { kind = kind; span = span; text = text; count = 0; place = no_place }) ∷ []) }
        ensures taken { IsNotRefused result }
        ensures frames { self.new.frames ≡ self.old.frames }
        ensures stage { self.new.stage ≡ next }
    {
        self.stage = next;
        self.put(SyntaxNode {
            kind,
            span,
            text,
            count: 0,
            place: NO_PLACE,
        })
    }

    /// Puts a node after its children.
    #[inline(always)]
    pub(crate) fn put(&mut self, node: SyntaxNode) -> Step
        ensures put { IfTaken result (self.new.nodes.items ≡ self.old.nodes.items ++ node ∷ []) }
        ensures frames { self.new.frames ≡ self.old.frames }
        ensures stage { self.new.stage ≡ self.old.stage }
        ensures taken { IsNotRefused result }
    {
        match self.nodes.reserve(1) {
            Ok(()) => {
                self.nodes.push_reserved(node);
                Step::Taken
            }
            Err(_) => Step::OutOfMemory,
        }
    }

    /// One more operation waits, or one more parenthesis is open.
    #[inline(always)]
    pub(crate) fn wait(&mut self, frame: Frame) -> Step
        ensures waits { IfTaken result (self.new.frames.items ≡ self.old.frames.items ++ frame ∷ []) }
        ensures nodes { self.new.nodes ≡ self.old.nodes }
        ensures stage { self.new.stage ≡ Stage.Operand }
        ensures taken { IsNotRefused result }
    {
        self.stage = Stage::Operand;
        match self.frames.reserve(1) {
            Ok(()) => {
                self.frames.push_reserved(frame);
                Step::Taken
            }
            Err(_) => Step::OutOfMemory,
        }
    }
}
