//! Tokens where an operand is expected.
ghost use Rattle.std.specs.Prelude.{◌≡◌, ◌∷◌, ◌++◌, ℕ, List, Some, [], IfSome, IfNone};
ghost use Rattle.odata_syntax.specs.Tree.{Tree};
ghost use Rattle.odata_text.specs.TokenModel.{token_model};
ghost use Rattle.odata_syntax.specs.PostOrder.{Texts};
ghost use Rattle.odata_syntax.specs.private.Machine.{word_start as machine_word};
ghost use Rattle.odata_syntax.specs.private.Machine.{start_of_kind, take_start, take_sign, open_at, machine_at};
ghost use Rattle.odata_syntax.specs.private.Machine.{operand};
ghost use Rattle.odata_syntax.specs.private.Machine.{enclosure, group_from};
ghost use Rattle.odata_syntax.specs.private.MachineView.{machine_of, operation_of, stack_of};
ghost use Rattle.odata_syntax.specs.private.ListSteps.{IfTaken, IsExpecting, IsNotRefused, IsSign};
ghost use Rattle.odata_syntax.specs.private.ListSteps.{IsSteadyState, IsStepTo, waiting_now};

use crate::parser::state::{Bracket, Frame, NO_TEXT, Pending, Piece, Stage, State, Step};
use crate::parser::word_test::is_word;
use crate::syntax_list::SyntaxKind;
use crate::{LiteralKind, level};
use odata_text::TokenKind;

/// What a token says where an operand is expected.
#[derive(Clone, Copy, Debug, PartialEq, Eq)]
pub enum Start {
    Lit(LiteralKind),
    It,
    Name,
    Minus,
    Not,
    Open,
    /// The end of a list or a call that holds nothing.
    Close,
}

/// What a token says.
#[inline(always)]
#[tactic(auto, unfolding(crate::specs::private::Machine::dollar_start))]
fn read_start(piece: &Piece<'_>) -> Option<Start>
    ensures { result ≡ start_of_kind piece.now.token.kind piece.now.token.text.now }
{
    match piece.token.kind {
        TokenKind::Word => Some(word_start(piece.token.text)),
        TokenKind::Dollar => if is_word(piece.token.text, "$it") {
            Some(Start::It)
        } else {
            None
        },
        TokenKind::Int => Some(Start::Lit(LiteralKind::Int)),
        TokenKind::Date => Some(Start::Lit(LiteralKind::Date)),
        TokenKind::Moment => Some(Start::Lit(LiteralKind::Moment)),
        TokenKind::Guid => Some(Start::Lit(LiteralKind::Guid)),
        TokenKind::Str => Some(Start::Lit(LiteralKind::Str)),
        TokenKind::EnumLit => Some(Start::Lit(LiteralKind::EnumLit)),
        TokenKind::Open => Some(Start::Open),
        TokenKind::Close => Some(Start::Close),
        TokenKind::Minus => Some(Start::Minus),
        TokenKind::Comma | TokenKind::Slash | TokenKind::Colon => None,
    }
}

/// What a word says.
#[inline(always)]
#[tactic(auto, unfolding(crate::specs::private::Machine::word_start))]
fn word_start(text: &str) -> Start
    ensures { result ≡ machine_word text.now }
{
    if is_word(text, "true") || is_word(text, "false") {
        Start::Lit(LiteralKind::Bool)
    } else if is_word(text, "null") {
        Start::Lit(LiteralKind::Null)
    } else if is_word(text, "not") {
        Start::Not
    } else {
        Start::Name
    }
}

impl State {
    /// Takes a token where an operand is expected.
    #[inline(always)]
    pub(crate) fn take_operand(&mut self, piece: &Piece<'_>) -> Step
        requires { IsExpecting self.old.frames.items self.old.nodes.items }
        ensures step { (texts : Texts) → texts piece.now.text ≡ piece.now.token.text.now
            → IsStepTo result (take_start (waiting_now texts self.old) (token_model piece.now.token)
            (start_of_kind piece.now.token.kind piece.now.token.text.now)) (machine_of texts self.new) }
        ensures steady { IfTaken result (IsSteadyState self.new) }
    {
        let span = piece.token.span;
        let start = span.start;
        match read_start(piece) {
            Some(Start::Lit(kind)) => self.take_literal(kind, piece),
            Some(Start::It) => self.put_leaf(SyntaxKind::It, span, NO_TEXT, Stage::Path),
            Some(Start::Name) => self.take_name(piece),
            Some(Start::Minus) => self.take_sign(Pending::Minus { start }),
            Some(Start::Not) => self.take_sign(Pending::Not { start }),
            Some(Start::Open) => self.open(start),
            Some(Start::Close) => self.close_empty(span.stop),
            None => Step::Refused,
        }
    }

    /// A literal, but after `in`.
    #[inline(always)]
    fn take_literal(&mut self, kind: LiteralKind, piece: &Piece<'_>) -> Step
        requires { IsExpecting self.old.frames.items self.old.nodes.items }
        ensures step { (texts : Texts) → texts piece.now.text ≡ piece.now.token.text.now
            → IsStepTo result (take_start (waiting_now texts self.old) (token_model piece.now.token)
            (Some (Start.Lit kind))) (machine_of texts self.new) }
        ensures steady { IfTaken result (IsSteadyState self.new) }
    {
        if self.expected_level() > level::BASE {
            return Step::Refused;
        }
        self.put_leaf(
            SyntaxKind::Lit(kind),
            piece.token.span,
            piece.text,
            Stage::Closed,
        )
    }

    /// A name, which begins a path or a call, after `in` a path alone.
    #[inline(always)]
    fn take_name(&mut self, piece: &Piece<'_>) -> Step
        requires { IsExpecting self.old.frames.items self.old.nodes.items }
        ensures step { (texts : Texts) → texts piece.now.text ≡ piece.now.token.text.now
            → IsStepTo result (take_start (waiting_now texts self.old) (token_model piece.now.token)
            (Some Start.Name)) (machine_of texts self.new) }
        ensures steady { IfTaken result (IsSteadyState self.new) }
    {
        let span = piece.token.span;
        let name = piece.text;
        if self.expected_level() > level::BASE {
            return self.put_leaf(SyntaxKind::Name, span, name, Stage::Path);
        }
        self.stage = Stage::NameOrCall { span, name };
        Step::Taken
    }

    /// A sign, but after `has` and `in`.
    #[inline(always)]
    fn take_sign(&mut self, sign: Pending) -> Step
        requires operand { IsExpecting self.old.frames.items self.old.nodes.items }
        requires sign { IsSign sign }
        ensures step { (texts : Texts) → IsStepTo result (take_sign (waiting_now texts self.old)
            (operation_of sign [])) (machine_of texts self.new) }
        ensures steady { IfTaken result (IsSteadyState self.new) }
    {
        if self.expected_level() > level::UNARY {
            return Step::Refused;
        }
        self.wait(Frame::Pending(sign))
    }

    /// `(`: of the list of an `in`, else of a group.
    fn open(&mut self, start: usize) -> Step
        requires { IsExpecting self.old.frames.items self.old.nodes.items }
        ensures step { (texts : Texts) → IfTaken result (machine_of texts self.new
            ≡ machine_at (open_at (waiting_now texts self.old) start) operand) }
        ensures steady { IfTaken result (IsSteadyState self.new) }
        ensures taken { IsNotRefused result }
    {
        match self.pop_in() {
            Some(start) => self.wait(Frame::Open(Bracket::List { start, count: 0 })),
            None => self.wait(Frame::Open(Bracket::Group { start })),
        }
    }

    /// Where the operand before an `in` that waits innermost starts.
    fn pop_in(&mut self) -> Option<usize>
        ensures popped { IfSome result (λ start.
            self.old.frames.items ≡ self.new.frames.items ++ Frame.Pending (Pending.In start) ∷ []) }
        ensures unchanged { IfNone result (self.new.frames.items ≡ self.old.frames.items) }
        ensures other { IfNone result ((texts : Texts) (trees : List Tree) (start : ℕ)
            → open_at (stack_of texts self.old.frames.items trees) start
            ≡ enclosure (group_from start) ∷ stack_of texts self.old.frames.items trees) }
        ensures nodes { self.new.nodes ≡ self.old.nodes }
    {
        let start = match self.frames.last() {
            Some(Frame::Pending(Pending::In { start })) => *start,
            Some(Frame::Pending(Pending::Binary { .. })) => return None,
            Some(Frame::Pending(Pending::Has { .. })) => return None,
            Some(Frame::Pending(Pending::Minus { .. })) => return None,
            Some(Frame::Pending(Pending::Not { .. })) => return None,
            Some(Frame::Open(_)) => return None,
            None => return None,
        };
        let _ = self.frames.pop();
        Some(start)
    }
}
