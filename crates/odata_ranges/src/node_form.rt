//! Nodes by how the range of each is made.
ghost use Rattle.std.specs.Prelude.{◌≡◌};
ghost use Rattle.odata_ranges.specs.private.NodeForm.{form_of};

use odata_checked_filter::NodeKind;
use odata_signatures::Function;

/// A node without children, a step of a path, a node with one operand or with two, `in` before a list, and a call.
#[derive(Clone, Copy)]
pub(crate) enum NodeForm {
    Leaf,
    Step { slot: usize },
    One,
    Two,
    List,
    Call { function: Function },
}

pub(crate) fn form_of(kind: NodeKind) -> NodeForm
    ensures { result ≡ form_of kind }
{
    match kind {
        NodeKind::Literal { .. } => NodeForm::Leaf,
        NodeKind::It => NodeForm::Leaf,
        NodeKind::Property { .. } => NodeForm::Leaf,
        NodeKind::Variable { .. } => NodeForm::Leaf,
        NodeKind::Now => NodeForm::Leaf,
        NodeKind::Member { slot } => NodeForm::Step { slot },
        NodeKind::Count => NodeForm::One,
        NodeKind::AnyItem => NodeForm::One,
        NodeKind::Neg => NodeForm::One,
        NodeKind::Not => NodeForm::One,
        NodeKind::Binary { .. } => NodeForm::Two,
        NodeKind::Has => NodeForm::Two,
        NodeKind::InPath => NodeForm::Two,
        NodeKind::Lambda { .. } => NodeForm::Two,
        NodeKind::InList => NodeForm::List,
        NodeKind::Call { function } => NodeForm::Call { function },
    }
}
