//! Tokens after an operand.
ghost use Rattle.std.specs.Prelude.{◌≡◌, ◌∷◌, [], ℕ, IfSome};
ghost use Rattle.std.specs.Char.{to_ascii_lowercase};
ghost use Rattle.odata_text.specs.TokenModel.{token_model};
ghost use Rattle.odata_syntax.specs.PostOrder.{Texts};
ghost use Rattle.odata_syntax.specs.private.Machine.{word_next as machine_word, next_of_kind, next_level};
ghost use Rattle.odata_syntax.specs.private.Machine.{take_next as machine_take_next};
ghost use Rattle.odata_syntax.specs.private.NextOperator.{IsBinding};
ghost use Rattle.odata_syntax.specs.private.MachineView.{machine_of};
ghost use Rattle.odata_syntax.specs.private.ListSteps.{HasRead, IfTaken, IsSteadyState, IsStepTo};
ghost use Rattle.odata_syntax.specs.private.ListSteps.{read_tree, waiting_behind};

use crate::BinaryOperator::{Arithmetic, Comparison, Logical};
use crate::level::{self, operator_level};
use crate::parser::state::{Frame, Pending, Piece, State, Step};
use crate::{ArithmeticOperator, BinaryOperator, ComparisonOperator, LogicalOperator};
use odata_text::TokenKind;

/// What a token says after an operand.
#[derive(Clone, Copy, Debug, PartialEq, Eq)]
pub enum Next {
    Operator(BinaryOperator),
    Has,
    In,
    Close,
    Comma,
}

/// The same, and how tightly it binds.
#[derive(Clone, Copy, Debug)]
pub(crate) struct Binding {
    next: Next,
    level: u8,
}

/// What a token says.
#[inline(always)]
fn read_next(piece: &Piece<'_>) -> Option<Binding>
    ensures { IsBinding result (next_of_kind piece.now.token.kind piece.now.token.text.now) }
{
    match piece.token.kind {
        TokenKind::Word => word_next(piece.token.text.as_bytes()),
        TokenKind::Close => Some(with_level(Next::Close)),
        TokenKind::Comma => Some(with_level(Next::Comma)),
        _ => None,
    }
}

/// What a word says.
#[inline(always)]
fn word_next(word: &[u8]) -> Option<Binding>
    ensures { IsBinding result (machine_word word.now) }
{
    match lower_case_next(word) {
        Some(found) => Some(found),
        None => any_case_next(word),
    }
}

/// The same of a word that is written in lower case.
#[inline(always)]
fn lower_case_next(word: &[u8]) -> Option<Binding>
    ensures { IfSome result (λ _. IsBinding result (machine_word word.now)) }
{
    match word {
        [a, b] => two_letters(*a, *b),
        [a, b, c] => three_letters(*a, *b, *c),
        _ => None,
    }
}

/// The same of a word in any case.
#[inline(never)]
fn any_case_next(word: &[u8]) -> Option<Binding>
    ensures { IsBinding result (machine_word word.now) }
{
    match word {
        [a, b] => two_letters(a.to_ascii_lowercase(), b.to_ascii_lowercase()),
        [a, b, c] => three_letters(
            a.to_ascii_lowercase(),
            b.to_ascii_lowercase(),
            c.to_ascii_lowercase(),
        ),
        _ => None,
    }
}

/// What a word of two letters says in lower case.
#[tactic(auto, unfolding(crate::specs::private::Machine::word_next))]
#[inline(always)]
fn two_letters(a: u8, b: u8) -> Option<Binding>
    ensures same { IfSome result (λ _. IsBinding result (machine_word (a ∷ b ∷ []))) }
    ensures lower { (x y : ℕ) → a ≡ to_ascii_lowercase x → b ≡ to_ascii_lowercase y
        → IsBinding result (machine_word (x ∷ y ∷ [])) }
{
    match (a, b) {
        (b'o', b'r') => Some(with_level(Next::Operator(Logical(LogicalOperator::Or)))),
        (b'e', b'q') => Some(with_level(Next::Operator(Comparison(ComparisonOperator::Eq)))),
        (b'n', b'e') => Some(with_level(Next::Operator(Comparison(ComparisonOperator::Ne)))),
        (b'g', b't') => Some(with_level(Next::Operator(Comparison(ComparisonOperator::Gt)))),
        (b'g', b'e') => Some(with_level(Next::Operator(Comparison(ComparisonOperator::Ge)))),
        (b'l', b't') => Some(with_level(Next::Operator(Comparison(ComparisonOperator::Lt)))),
        (b'l', b'e') => Some(with_level(Next::Operator(Comparison(ComparisonOperator::Le)))),
        (b'i', b'n') => Some(with_level(Next::In)),
        _ => None,
    }
}

/// What a word of three letters says in lower case.
#[tactic(auto, unfolding(crate::specs::private::Machine::word_next))]
#[inline(always)]
fn three_letters(a: u8, b: u8, c: u8) -> Option<Binding>
    ensures same { IfSome result (λ _. IsBinding result (machine_word (a ∷ b ∷ c ∷ []))) }
    ensures lower { (x y z : ℕ) → a ≡ to_ascii_lowercase x → b ≡ to_ascii_lowercase y → c ≡ to_ascii_lowercase z
        → IsBinding result (machine_word (x ∷ y ∷ z ∷ [])) }
{
    match (a, b, c) {
        (b'a', b'n', b'd') => Some(with_level(Next::Operator(Logical(LogicalOperator::And)))),
        (b'a', b'd', b'd') => Some(with_level(Next::Operator(Arithmetic(ArithmeticOperator::Add)))),
        (b's', b'u', b'b') => Some(with_level(Next::Operator(Arithmetic(ArithmeticOperator::Sub)))),
        (b'm', b'u', b'l') => Some(with_level(Next::Operator(Arithmetic(ArithmeticOperator::Mul)))),
        (b'm', b'o', b'd') => Some(with_level(Next::Operator(Arithmetic(ArithmeticOperator::Mod)))),
        (b'd', b'i', b'v') => Some(with_level(Next::Operator(Arithmetic(ArithmeticOperator::Div)))),
        (b'h', b'a', b's') => Some(with_level(Next::Has)),
        _ => None,
    }
}

/// How tightly it binds.
#[inline(always)]
fn level_of_next(next: Next) -> u8
    ensures { result ≡ next_level next }
{
    match next {
        Next::Operator(operator) => operator_level(operator),
        Next::Has | Next::In => level::PRIMARY,
        Next::Close | Next::Comma => level::OR,
    }
}

/// What a token says, with how tightly it binds.
#[inline(always)]
fn with_level(next: Next) -> Binding
    ensures { result ≡ record { next = next; level = next_level next } }
{
    let level = level_of_next(next);
    Binding { next, level }
}

impl State {
    /// Takes a token after an operand.
    #[inline(always)]
    pub(crate) fn take_next(&mut self, piece: &Piece<'_>) -> Step
        requires { HasRead self.old.frames.items self.old.nodes.items }
        ensures step { (texts : Texts) → IsStepTo result (machine_take_next (waiting_behind texts self.old)
            (read_tree texts self.old) piece.now.token.span.stop
            (next_of_kind piece.now.token.kind piece.now.token.text.now)) (machine_of texts self.new) }
        ensures steady { IfTaken result (IsSteadyState self.new) }
    {
        let Some(Binding { next, level }) = read_next(piece) else {
            return Step::Refused;
        };
        match self.reduce(level) {
            Step::Taken => {}
            other => return other,
        }
        let start = self.read().start;
        match next {
            Next::Operator(operator) => {
                self.wait(Frame::Pending(Pending::Binary { operator, start }))
            }
            Next::Has => self.wait(Frame::Pending(Pending::Has { start })),
            Next::In => self.wait(Frame::Pending(Pending::In { start })),
            Next::Close => self.close(piece.token.span.stop),
            Next::Comma => self.separate(),
        }
    }
}
