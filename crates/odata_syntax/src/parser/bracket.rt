//! Parentheses and commas.
ghost use Rattle.std.specs.Prelude.{◌≡◌, ◌<◌, ◌+◌, ◌∷◌, ◌++◌, [], length};
ghost use Rattle.odata_syntax.specs.Tree.{node, shape_of};
ghost use Rattle.odata_syntax.specs.PostOrder.{Texts, trees_before, trees_in};
ghost use Rattle.odata_syntax.specs.private.Machine.{close_at, close_empty as machine_close_empty, comma_at};
ghost use Rattle.odata_syntax.specs.private.MachineView.{machine_of};
ghost use Rattle.odata_syntax.specs.private.ListSteps.{HasRead, IfTaken, IsExpecting, IsNotRefused};
ghost use Rattle.odata_syntax.specs.private.ListSteps.{IsSteadyState, IsStepTo};
ghost use Rattle.odata_syntax.specs.private.ListSteps.{read_tree, waiting_behind, waiting_now};
ghost use Rattle.odata_syntax.specs.private.PlaceGrowth.{no_place};

use crate::node_places::NO_PLACE;
use crate::parser::state::{Bracket, Frame, NO_TEXT, Stage, State, Step};
use crate::syntax_list::{SyntaxKind, SyntaxNode};
use odata_text::Span;

impl State {
    /// `)` where an operand is expected: the end of a list or a call that holds nothing.
    pub(crate) fn close_empty(&mut self, stop: usize) -> Step
        requires { IsExpecting self.old.frames.items self.old.nodes.items }
        ensures step { (texts : Texts) →
            IsStepTo result (machine_close_empty (waiting_now texts self.old) stop) (machine_of texts self.new) }
        ensures steady { IfTaken result (IsSteadyState self.new) }
    {
        match self.frames.pop() {
            Some(Frame::Open(Bracket::List { start, count })) => {
                if count > 0 {
                    return Step::Refused;
                }
                self.put_closed(SyntaxKind::InList, Span { start, stop }, NO_TEXT, 0)
            }
            Some(Frame::Open(Bracket::Call { start, name, count })) => {
                if count > 0 {
                    return Step::Refused;
                }
                self.put_closed(SyntaxKind::Call, Span { start, stop }, name, 0)
            }
            Some(Frame::Open(Bracket::Group { .. })) => Step::Refused,
            Some(Frame::Open(Bracket::Body { .. })) => Step::Refused,
            Some(Frame::Pending(_)) => Step::Refused,
            None => Step::Refused,
        }
    }

    /// `)` after an operand that nothing holds but a parenthesis.
    pub(crate) fn close(&mut self, stop: usize) -> Step
        requires { HasRead self.old.frames.items self.old.nodes.items }
        ensures step { (texts : Texts) → IsStepTo result
            (close_at (waiting_behind texts self.old) (read_tree texts self.old) stop) (machine_of texts self.new) }
        ensures steady { IfTaken result (IsSteadyState self.new) }
    {
        match self.frames.pop() {
            Some(Frame::Open(Bracket::Group { start })) => self.regroup(Span { start, stop }),
            Some(Frame::Open(Bracket::List { start, count })) => {
                let count = self.one_more(count);
                self.put_closed(SyntaxKind::InList, Span { start, stop }, NO_TEXT, count)
            }
            Some(Frame::Open(Bracket::Call { start, name, count })) => {
                let count = self.one_more(count);
                self.put_closed(SyntaxKind::Call, Span { start, stop }, name, count)
            }
            Some(
                Frame::Open(
                    Bracket::Body {
                        quantifier,
                        start,
                        variable,
                    },
                ),
            ) => self.put_closed(
                SyntaxKind::Lambda(quantifier),
                Span { start, stop },
                variable,
                0,
            ),
            _ => Step::Refused,
        }
    }

    /// The number of items with one more, of which there are fewer than nodes.
    #[inline(always)]
    fn one_more(&self, count: usize) -> usize
        requires { count < length self.now.nodes.items }
        ensures { result ≡ count + 1 }
    {
        // That the sum is a length is known once the nodes have been counted.
        let _limit = self.nodes.len();
        count + 1
    }

    /// The operand that has been read stands from its parenthesis to this one.
    #[inline(always)]
    fn regroup(&mut self, span: Span) -> Step
        requires { HasRead self.old.frames.items self.old.nodes.items }
        ensures grouped { (texts : Texts) → IfTaken result (trees_in texts self.new.nodes.items
            ≡ node span.start span.stop (shape_of (read_tree texts self.old))
            ∷ trees_before (trees_in texts self.old.nodes.items)) }
        ensures read { IfTaken result (HasRead self.new.frames.items self.new.nodes.items) }
        ensures frames { self.new.frames ≡ self.old.frames }
        ensures stage { self.new.stage ≡ Stage.Closed }
        ensures taken { IsNotRefused result }
    {
        self.stage = Stage::Closed;
        let node = self.nodes.take_last();
        self.put(SyntaxNode {
            kind: node.kind,
            span,
            text: node.text,
            count: node.count,
            place: NO_PLACE,
        })
    }

    /// Puts the node of what ends here, after its children.
    fn put_closed(&mut self, kind: SyntaxKind, span: Span, text: Span, count: usize) -> Step
        ensures put { IfTaken result (self.new.nodes.items ≡ self.old.nodes.items
            ++ (record { kind = kind; span = span; text = text; count = count; place = no_place }) ∷ []) }
        ensures frames { self.new.frames ≡ self.old.frames }
        ensures stage { self.new.stage ≡ Stage.Closed }
        ensures taken { IsNotRefused result }
    {
        self.stage = Stage::Closed;
        self.put(SyntaxNode {
            kind,
            span,
            text,
            count,
            place: NO_PLACE,
        })
    }

    /// A comma after an item of a list or a call.
    pub(crate) fn separate(&mut self) -> Step
        requires { HasRead self.old.frames.items self.old.nodes.items }
        ensures step { (texts : Texts) → IsStepTo result
            (comma_at (waiting_behind texts self.old) (read_tree texts self.old)) (machine_of texts self.new) }
        ensures steady { IfTaken result (IsSteadyState self.new) }
    {
        match self.frames.pop() {
            Some(Frame::Open(Bracket::List { start, count })) => {
                let count = self.one_more(count);
                self.wait(Frame::Open(Bracket::List { start, count }))
            }
            Some(Frame::Open(Bracket::Call { start, name, count })) => {
                let count = self.one_more(count);
                self.wait(Frame::Open(Bracket::Call { start, name, count }))
            }
            _ => Step::Refused,
        }
    }
}
