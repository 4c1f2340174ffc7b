//! How the walk of a filter's list takes a node.
ghost use Rattle.std.specs.Prelude.{◌≡◌};
ghost use Rattle.filter_context.specs.WalkClass.{walk_of_kind};

use odata_checked_filter::NodeKind;
use odata_syntax::BinaryOperator;

/// How the walk takes a node. It does so as a value that is there, by the truth values of its operands, by their
/// numbers, or by their values.
#[derive(Clone, Copy, PartialEq, Eq)]
pub enum WalkClass {
    Leaf,
    Logical,
    Numeric,
    Eager,
}

/// How the walk takes a node of this kind.
#[inline(always)]
pub fn walk_of_kind(kind: NodeKind) -> WalkClass
    ensures { result ≡ walk_of_kind kind }
{
    match kind {
        NodeKind::Literal { .. } => WalkClass::Leaf,
        NodeKind::It => WalkClass::Leaf,
        NodeKind::Property { .. } => WalkClass::Leaf,
        NodeKind::Variable { .. } => WalkClass::Leaf,
        NodeKind::Member { .. } => WalkClass::Eager,
        NodeKind::Count => WalkClass::Eager,
        NodeKind::Neg => WalkClass::Numeric,
        NodeKind::Not => WalkClass::Logical,
        NodeKind::Has => WalkClass::Eager,
        NodeKind::InList => WalkClass::Eager,
        NodeKind::InPath => WalkClass::Eager,
        NodeKind::Call { .. } => WalkClass::Eager,
        NodeKind::AnyItem => WalkClass::Eager,
        NodeKind::Lambda { .. } => WalkClass::Eager,
        NodeKind::Now => WalkClass::Leaf,
        NodeKind::Binary { operator } => match operator {
            BinaryOperator::Logical(_) => WalkClass::Logical,
            BinaryOperator::Comparison(_) => WalkClass::Eager,
            BinaryOperator::Arithmetic(_) => WalkClass::Numeric,
        },
    }
}
