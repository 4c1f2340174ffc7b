//! The words of operators, by the kinds of their nodes.
ghost use Rattle.std.specs.Prelude.{◌≡◌};
ghost use Rattle.odata_checked_filter.specs.private.KindTexts.{kind_word};

use super::checked_node::NodeKind;
use odata_syntax::operator_word;

/// The word of the operator of a node of that kind, without spaces; empty for a node without an operator.
pub(crate) fn kind_word(kind: NodeKind) -> &'static str
    ensures { result.now ≡ kind_word kind }
{
    match kind {
        NodeKind::Neg => "-",
        NodeKind::Not => "not",
        NodeKind::Binary { operator } => operator_word(operator),
        NodeKind::Has => "has",
        NodeKind::InList => "in",
        NodeKind::InPath => "in",
        _ => "",
    }
}
