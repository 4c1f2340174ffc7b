//! Tokens of lambda operators.
ghost use Rattle.std.specs.Prelude.{◌≡◌};
ghost use Rattle.odata_text.specs.TokenModel.{token_model};
ghost use Rattle.odata_syntax.specs.PostOrder.{Texts};
ghost use Rattle.odata_syntax.specs.private.Machine.{take_behind_word as machine_behind_word};
ghost use Rattle.odata_syntax.specs.private.Machine.{take_variable as machine_variable, take_colon as machine_colon};
ghost use Rattle.odata_syntax.specs.private.MachineView.{machine_of};
ghost use Rattle.odata_syntax.specs.private.ListSteps.{HasRead, IfTaken, IsSteadyState, IsStepTo};
ghost use Rattle.odata_syntax.specs.private.ListSteps.{read_tree, waiting_behind};

use crate::Quantifier;
use crate::parser::state::{Bracket, Frame, NO_TEXT, Piece, Stage, State, Step};
use crate::syntax_list::SyntaxKind;
use odata_text::{Span, TokenKind};

impl State {
    /// Takes a token after `any` or `all`, which may become a lambda expression and is else a member.
    #[inline(always)]
    pub(crate) fn take_after_word(
        &mut self,
        quantifier: Quantifier,
        stop: usize,
        name: Span,
        piece: &Piece<'_>,
    ) -> Step
        requires { HasRead self.old.frames.items self.old.nodes.items }
        ensures step { (texts : Texts) → IsStepTo result (machine_behind_word (waiting_behind texts self.old) quantifier
            (read_tree texts self.old) stop (texts name) (token_model piece.now.token) piece.now.token.kind)
            (machine_of texts self.new) }
        ensures steady { IfTaken result (IsSteadyState self.new) }
    {
        match piece.token.kind {
            TokenKind::Open => {
                self.stage = Stage::Variable { quantifier };
                Step::Taken
            }
            _ => match self.put_step(SyntaxKind::Member, stop, name, Stage::Path) {
                Step::Taken => self.take_after_path(piece),
                other => other,
            },
        }
    }

    /// Takes a token after the `(` of a lambda operator: `any` alone may do without a variable.
    #[inline(always)]
    pub(crate) fn take_variable(&mut self, quantifier: Quantifier, piece: &Piece<'_>) -> Step
        requires { HasRead self.old.frames.items self.old.nodes.items }
        ensures step { (texts : Texts) → texts piece.now.text ≡ piece.now.token.text.now
            → IsStepTo result (machine_variable (waiting_behind texts self.old) quantifier
            (read_tree texts self.old) (token_model piece.now.token) piece.now.token.kind) (machine_of texts self.new) }
        ensures steady { IfTaken result (IsSteadyState self.new) }
    {
        match piece.token.kind {
            TokenKind::Close => match quantifier {
                Quantifier::Any => {
                    let stop = piece.token.span.stop;
                    self.put_step(SyntaxKind::AnyItem, stop, NO_TEXT, Stage::Closed)
                }
                Quantifier::All => Step::Refused,
            },
            TokenKind::Word => {
                if piece.token.text.as_bytes().contains(&b'.') {
                    return Step::Refused;
                }
                self.stage = Stage::Colon {
                    quantifier,
                    variable: piece.text,
                };
                Step::Taken
            }
            _ => Step::Refused,
        }
    }

    /// Takes a token after the variable of a lambda expression.
    #[inline(always)]
    pub(crate) fn take_colon(
        &mut self,
        quantifier: Quantifier,
        variable: Span,
        piece: &Piece<'_>,
    ) -> Step
        requires { HasRead self.old.frames.items self.old.nodes.items }
        ensures step { (texts : Texts) → IsStepTo result (machine_colon (waiting_behind texts self.old) quantifier
            (read_tree texts self.old) (texts variable) piece.now.token.kind) (machine_of texts self.new) }
        ensures steady { IfTaken result (IsSteadyState self.new) }
    {
        match piece.token.kind {
            TokenKind::Colon => {
                let start = self.read().start;
                self.wait(Frame::Open(Bracket::Body {
                    quantifier,
                    start,
                    variable,
                }))
            }
            _ => Step::Refused,
        }
    }
}
