//! What waits, and what is joined.
ghost use Rattle.std.specs.Prelude.{◌≡◌, ◌∷◌, ◌++◌, [], ◌≤◌, List, IfSome, IfNone};
ghost use Rattle.odata_syntax.specs.Tree.{Tree};
ghost use Rattle.odata_syntax.specs.PostOrder.{Texts, trees_before, trees_in};
ghost use Rattle.odata_syntax.specs.private.Machine.{operation_level, join_operation, IsHeld};
ghost use Rattle.odata_syntax.specs.private.Machine.{reduce as machine_reduce, expected_level as machine_expected};
ghost use Rattle.odata_syntax.specs.private.MachineView.{operation_of, stack_of, trees_outside};
ghost use Rattle.odata_syntax.specs.private.ListSteps.{HasRead, IfTaken, IsNotRefused};
ghost use Rattle.odata_syntax.specs.private.ListSteps.{read_tree, reduction_of, waiting_behind};

use crate::level::{self, operator_level};
use crate::node_places::NO_PLACE;
use crate::parser::state::{Frame, NO_TEXT, Pending, State, Step};
use crate::syntax_list::{SyntaxKind, SyntaxNode};
use odata_text::Span;

/// How tightly an operation holds the operand before it.
#[inline(always)]
fn pending_level(pending: Pending) -> u8
    ensures { (trees : List Tree) → result ≡ operation_level (operation_of pending trees) }
{
    match pending {
        Pending::Binary { operator, .. } => operator_level(operator),
        Pending::Has { .. } | Pending::In { .. } => level::PRIMARY,
        Pending::Minus { .. } | Pending::Not { .. } => level::UNARY,
    }
}

impl State {
    /// The level of the operand that is expected.
    #[inline(always)]
    pub(crate) fn expected_level(&self) -> u8
        ensures { (texts : Texts) (trees : List Tree) →
            result ≡ machine_expected (stack_of texts self.now.frames.items trees) }
    {
        match self.frames.last() {
            Some(Frame::Pending(pending)) => match pending {
                Pending::Binary { operator, .. } => operator_level(*operator) + 1,
                Pending::Has { .. } => level::BASE,
                Pending::In { .. } => level::PATH,
                Pending::Not { .. } | Pending::Minus { .. } => level::UNARY,
            },
            Some(Frame::Open(_)) | None => level::OR,
        }
    }

    /// Grows the operand that has been read before an operator of this level: each operation that holds it as tightly
    /// is joined with it.
    #[inline(always)]
    pub(crate) fn reduce(&mut self, level: u8) -> Step
        requires { HasRead self.old.frames.items self.old.nodes.items }
        ensures reduced { IfTaken result ((texts : Texts) → reduction_of texts self.new
            ≡ machine_reduce level (waiting_behind texts self.old) (read_tree texts self.old)) }
        ensures read { IfTaken result (HasRead self.new.frames.items self.new.nodes.items) }
        ensures taken { IsNotRefused result }
    {
        while let Some(pending) = self.pop_closed(level) {
            match self.join(pending) {
                Step::Taken => {}
                other => return other,
            }
        }
        Step::Taken
    }

    /// The innermost operation, if an operator of this level closes it.
    #[inline(always)]
    fn pop_closed(&mut self, level: u8) -> Option<Pending>
        ensures popped { IfSome result (λ pending.
            self.old.frames.items ≡ self.new.frames.items ++ Frame.Pending pending ∷ []) }
        ensures closed { IfSome result (λ pending. (trees : List Tree)
            → level ≤ operation_level (operation_of pending trees)) }
        ensures unchanged { IfNone result (self.new.frames.items ≡ self.old.frames.items) }
        ensures held { IfNone result ((texts : Texts) (trees : List Tree)
            → IsHeld level (stack_of texts self.old.frames.items trees)) }
        ensures nodes { self.new.nodes ≡ self.old.nodes }
    {
        let pending = match self.frames.last() {
            Some(Frame::Pending(pending)) => *pending,
            Some(Frame::Open(_)) => return None,
            None => return None,
        };
        if pending_level(pending) < level {
            return None;
        }
        let _ = self.frames.pop();
        Some(pending)
    }

    /// Puts the node of an operation and of the operand that it has waited for.
    #[inline(always)]
    fn join(&mut self, pending: Pending) -> Step
        requires { HasRead (self.old.frames.items ++ Frame.Pending pending ∷ []) self.old.nodes.items }
        ensures joined { IfTaken result ((texts : Texts) → read_tree texts self.new
            ≡ join_operation (operation_of pending (trees_before (trees_in texts self.old.nodes.items)))
            (read_tree texts self.old)) }
        ensures waiting { IfTaken result ((texts : Texts) → trees_before (trees_in texts self.new.nodes.items)
            ≡ trees_outside (Frame.Pending pending) (trees_before (trees_in texts self.old.nodes.items))) }
        ensures read { IfTaken result (HasRead self.new.frames.items self.new.nodes.items) }
        ensures frames { self.new.frames ≡ self.old.frames }
        ensures taken { IsNotRefused result }
    {
        let stop = self.read().stop;
        let (kind, start) = match pending {
            Pending::Binary { operator, start } => (SyntaxKind::Binary(operator), start),
            Pending::Has { start } => (SyntaxKind::Has, start),
            Pending::In { start } => (SyntaxKind::InPath, start),
            Pending::Minus { start } => (SyntaxKind::Neg, start),
            Pending::Not { start } => (SyntaxKind::Not, start),
        };
        self.put(SyntaxNode {
            kind,
            span: Span { start, stop },
            text: NO_TEXT,
            count: 0,
            place: NO_PLACE,
        })
    }
}
