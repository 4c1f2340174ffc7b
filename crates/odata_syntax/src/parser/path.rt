//! Tokens within a path.
ghost use Rattle.std.specs.Prelude.{◌≡◌};
ghost use Rattle.odata_text.specs.TokenModel.{token_model};
ghost use Rattle.odata_syntax.specs.Tree.{node, start_of};
ghost use Rattle.odata_syntax.specs.PostOrder.{Texts, child_count, shape_over, trees_in};
ghost use Rattle.odata_syntax.specs.private.Machine.{segment_of_kind, take_segment as machine_take_segment};
ghost use Rattle.odata_syntax.specs.private.Machine.{take_behind_path as machine_behind_path};
ghost use Rattle.odata_syntax.specs.private.Machine.{take_behind_name as machine_behind_name};
ghost use Rattle.odata_syntax.specs.private.MachineView.{machine_of};
ghost use Rattle.odata_syntax.specs.private.ListSteps.{HasRead, IfTaken, IsExpecting, IsNotRefused, IsSteadyState};
ghost use Rattle.odata_syntax.specs.private.ListSteps.{IsStepTo, read_tree, waiting_behind, waiting_now};

use crate::Quantifier;
use crate::node_places::NO_PLACE;
use crate::parser::state::{Bracket, Frame, NO_TEXT, Piece, Stage, State, Step};
use crate::parser::word_test::is_word;
use crate::syntax_list::{SyntaxKind, SyntaxNode};
use odata_text::{Span, TokenKind};

/// What a token says after a `/`.
#[derive(Clone, Copy, Debug, PartialEq, Eq)]
pub enum Segment {
    Count,
    Lambda(Quantifier),
    Name,
}

/// What a token says.
#[inline(always)]
#[tactic(auto, unfolding(crate::specs::private::Machine::word_segment, crate::specs::private::Machine::dollar_segment))]
fn read_segment(piece: &Piece<'_>) -> Option<Segment>
    ensures { result ≡ segment_of_kind piece.now.token.kind piece.now.token.text.now }
{
    let text = piece.token.text;
    match piece.token.kind {
        TokenKind::Word => if is_word(text, "any") {
            Some(Segment::Lambda(Quantifier::Any))
        } else if is_word(text, "all") {
            Some(Segment::Lambda(Quantifier::All))
        } else {
            Some(Segment::Name)
        },
        TokenKind::Dollar => if is_word(text, "$count") {
            Some(Segment::Count)
        } else {
            None
        },
        _ => None,
    }
}

impl State {
    /// Takes a token after a path that may go on.
    #[inline(always)]
    pub(crate) fn take_after_path(&mut self, piece: &Piece<'_>) -> Step
        requires { HasRead self.old.frames.items self.old.nodes.items }
        ensures step { (texts : Texts) → IsStepTo result (machine_behind_path (waiting_behind texts self.old)
            (read_tree texts self.old) (token_model piece.now.token) piece.now.token.kind)
            (machine_of texts self.new) }
        ensures steady { IfTaken result (IsSteadyState self.new) }
    {
        match piece.token.kind {
            TokenKind::Slash => {
                self.stage = Stage::Segment;
                Step::Taken
            }
            _ => self.take_next(piece),
        }
    }

    /// Takes a token after the name at a path's start, which may become a call.
    #[inline(always)]
    pub(crate) fn take_after_name(&mut self, span: Span, name: Span, piece: &Piece<'_>) -> Step
        requires { IsExpecting self.old.frames.items self.old.nodes.items }
        ensures step { (texts : Texts) → IsStepTo result (machine_behind_name (waiting_now texts self.old)
            span.start span.stop (texts name) (token_model piece.now.token) piece.now.token.kind)
            (machine_of texts self.new) }
        ensures steady { IfTaken result (IsSteadyState self.new) }
    {
        match piece.token.kind {
            TokenKind::Open => self.wait(Frame::Open(Bracket::Call {
                start: span.start,
                name,
                count: 0,
            })),
            _ => match self.put_leaf(SyntaxKind::Name, span, name, Stage::Path) {
                Step::Taken => self.take_after_path(piece),
                other => other,
            },
        }
    }

    /// A step from the path that has been read, up to `stop`.
    #[inline(always)]
    pub(crate) fn put_step(
        &mut self,
        kind: SyntaxKind,
        stop: usize,
        text: Span,
        next: Stage,
    ) -> Step
        requires read { HasRead self.old.frames.items self.old.nodes.items }
        requires unary { child_count kind 0 ≡ 1 }
        ensures put { (texts : Texts) → IfTaken result (read_tree texts self.new
            ≡ node (start_of (read_tree texts self.old)) stop
            (shape_over kind (texts text) 0 (trees_in texts self.old.nodes.items))) }
        ensures waiting { (texts : Texts) → IfTaken result
            (waiting_behind texts self.new ≡ waiting_behind texts self.old) }
        ensures stage { self.new.stage ≡ next }
        ensures read { IfTaken result (HasRead self.new.frames.items self.new.nodes.items) }
        ensures taken { IsNotRefused result }
    {
        self.stage = next;
        let start = self.read().start;
        self.put(SyntaxNode {
            kind,
            span: Span { start, stop },
            text,
            count: 0,
            place: NO_PLACE,
        })
    }

    /// Takes a token after a `/`.
    #[inline(always)]
    pub(crate) fn take_segment(&mut self, piece: &Piece<'_>) -> Step
        requires { HasRead self.old.frames.items self.old.nodes.items }
        ensures step { (texts : Texts) → texts piece.now.text ≡ piece.now.token.text.now
            → IsStepTo result (machine_take_segment (waiting_behind texts self.old) (read_tree texts self.old)
            (token_model piece.now.token) (segment_of_kind piece.now.token.kind piece.now.token.text.now))
            (machine_of texts self.new) }
        ensures steady { IfTaken result (IsSteadyState self.new) }
    {
        let stop = piece.token.span.stop;
        let name = piece.text;
        match read_segment(piece) {
            Some(Segment::Count) => self.put_step(SyntaxKind::Count, stop, NO_TEXT, Stage::Closed),
            Some(Segment::Lambda(quantifier)) => {
                self.stage = Stage::MemberOrLambda {
                    quantifier,
                    stop,
                    name,
                };
                Step::Taken
            }
            Some(Segment::Name) => self.put_step(SyntaxKind::Member, stop, name, Stage::Path),
            None => Step::Refused,
        }
    }
}
