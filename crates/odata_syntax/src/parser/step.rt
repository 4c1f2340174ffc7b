//! The machine's steps.
ghost use Rattle.std.specs.Prelude.{◌≡◌};
ghost use Rattle.odata_text.specs.TokenModel.{token_model};
ghost use Rattle.odata_syntax.specs.Grammar.{or_level};
ghost use Rattle.odata_syntax.specs.PostOrder.{IsWholeTree, Texts};
ghost use Rattle.odata_syntax.specs.private.Machine.{step as machine_step, finish as machine_finish};
ghost use Rattle.odata_syntax.specs.private.Machine.{reduce as machine_reduce, finish_reduced};
ghost use Rattle.odata_syntax.specs.private.MachineView.{machine_of};
ghost use Rattle.odata_syntax.specs.private.ListSteps.{HasRead, IfTaken, IsEndOf, IsSteadyState, IsStepTo};
ghost use Rattle.odata_syntax.specs.private.ListSteps.{read_tree, waiting_behind};

use crate::level;
use crate::parser::state::{Piece, Stage, State, Step};
use crate::syntax_list::SyntaxKind;

impl State {
    /// Takes one more token.
    #[inline(always)]
    pub(crate) fn step(&mut self, piece: &Piece<'_>) -> Step
        requires { IsSteadyState self.old }
        ensures step { (texts : Texts) → texts piece.now.text ≡ piece.now.token.text.now
            → IsStepTo result (machine_step (machine_of texts self.old) (token_model piece.now.token))
            (machine_of texts self.new) }
        ensures steady { IfTaken result (IsSteadyState self.new) }
    {
        match self.stage {
            Stage::Operand => self.take_operand(piece),
            Stage::Closed => self.take_next(piece),
            Stage::Path => self.take_after_path(piece),
            Stage::NameOrCall { span, name } => self.take_after_name(span, name, piece),
            Stage::Segment => self.take_segment(piece),
            Stage::MemberOrLambda {
                quantifier,
                stop,
                name,
            } => self.take_after_word(quantifier, stop, name, piece),
            Stage::Variable { quantifier } => self.take_variable(quantifier, piece),
            Stage::Colon {
                quantifier,
                variable,
            } => self.take_colon(quantifier, variable, piece),
        }
    }

    /// Ends after the last token: the list is then that of the whole tree.
    pub(crate) fn finish(&mut self) -> Step
        requires { IsSteadyState self.old }
        ensures ended { (texts : Texts) →
            IsEndOf result (machine_finish (machine_of texts self.old)) (read_tree texts self.new) }
        ensures whole { IfTaken result (IsWholeTree self.new.nodes.items) }
    {
        match self.stage {
            Stage::Closed => self.end(),
            Stage::Path => self.end(),
            Stage::NameOrCall { span, name } => {
                match self.put_leaf(SyntaxKind::Name, span, name, Stage::Path) {
                    Step::Taken => self.end(),
                    other => other,
                }
            }
            Stage::MemberOrLambda { stop, name, .. } => match self.put_step(
                SyntaxKind::Member,
                stop,
                name,
                Stage::Path,
            ) {
                Step::Taken => self.end(),
                other => other,
            },
            Stage::Operand => Step::Refused,
            Stage::Segment => Step::Refused,
            Stage::Variable { .. } => Step::Refused,
            Stage::Colon { .. } => Step::Refused,
        }
    }

    /// Grows the last operand to the whole tree, if no parenthesis is open.
    fn end(&mut self) -> Step
        requires { HasRead self.old.frames.items self.old.nodes.items }
        ensures ended { (texts : Texts) → IsEndOf result (finish_reduced
            (machine_reduce or_level (waiting_behind texts self.old) (read_tree texts self.old)))
            (read_tree texts self.new) }
        ensures whole { IfTaken result (IsWholeTree self.new.nodes.items) }
    {
        match self.reduce(level::OR) {
            Step::Taken => if self.frames.is_empty() {
                Step::Taken
            } else {
                Step::Refused
            },
            other => other,
        }
    }
}
