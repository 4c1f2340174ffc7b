//! How tightly nodes bind in canonical text.
ghost use Rattle.std.specs.Prelude.{◌≡◌};
ghost use Rattle.odata_syntax.specs.CanonicalText.{shape_level};
ghost use Rattle.odata_syntax.specs.PrintedTree.{printed_shape};
ghost use Rattle.odata_syntax.specs.private.Printer.{first_needs, no_nodes};

use super::printed_tree::{AfterFirst, NodeShape};
use crate::level::{BASE, OPEN_PATH, PATH, PRIMARY, UNARY, operator_level};

/// The tightest level at which a node stands without parentheses, and the level that its first operand needs.
#[inline(always)]
pub(crate) fn shape_levels<N: Copy, I: Copy>(shape: &NodeShape<'_, N, I>) -> (u8, u8)
    ensures own { result.0 ≡ shape_level (printed_shape no_nodes shape.now) }
    ensures first { result.1 ≡ first_needs shape.now }
{
    match shape {
        NodeShape::Literal { .. } => (BASE, 0),
        NodeShape::It => (OPEN_PATH, 0),
        NodeShape::Name { .. } => (OPEN_PATH, 0),
        NodeShape::Neg { .. } => (UNARY, UNARY),
        NodeShape::Not { .. } => (UNARY, UNARY),
        NodeShape::Call { .. } => (BASE, 0),
        NodeShape::Joined { rest, .. } => match rest {
            AfterFirst::Member { .. } => (OPEN_PATH, 0),
            AfterFirst::Count => (PATH, 0),
            AfterFirst::AnyItem => (PATH, 0),
            AfterFirst::Lambda { .. } => (PATH, 0),
            AfterFirst::Binary { operator, .. } => {
                let level = operator_level(*operator);
                (level, level)
            }
            AfterFirst::Has { .. } => (PRIMARY, PRIMARY),
            AfterFirst::InList { .. } => (PRIMARY, PRIMARY),
            AfterFirst::InPath { .. } => (PRIMARY, PRIMARY),
        },
    }
}
