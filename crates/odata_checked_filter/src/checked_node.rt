use odata_signatures::{EdmType, Function};
use odata_syntax::{BinaryOperator, LiteralKind, Quantifier};
use odata_text::Span;

/// The kind of a node, with what its evaluation needs besides its children.
#[derive(Clone, Copy, Debug, PartialEq, Eq)]
pub enum NodeKind {
    /// A literal, by the index of its value in the list of values. An enumeration literal without its type has its
    /// number.
    Literal { kind: LiteralKind, value: usize },
    /// `$it`, the filtered entity.
    It,
    /// A property of the filtered type, by its slot.
    Property { slot: usize },
    /// A range variable, by the number of variables in scope where its lambda operator bound it, so the outermost is 0.
    Variable { level: usize },
    /// A property of the type of what stands before the slash, by its slot there.
    Member { slot: usize },
    /// `$count`, after the slash.
    Count,
    /// `any()`, after the slash.
    AnyItem,
    /// `any(v:..)` or `all(v:..)`, after the slash. What stands before that and its body stand after it, and its text
    /// is the name of its range variable.
    Lambda { quantifier: Quantifier },
    /// `now()`, the moment of the evaluation.
    Now,
    /// `-`. Its operand stands after it.
    Neg,
    /// `not`.
    Not,
    /// An operator. Its operands stand after it.
    Binary { operator: BinaryOperator },
    /// `has`. Its operands stand after it.
    Has,
    /// `in` before a list. Its operand and the items stand after it.
    InList,
    /// `in` before a path. Its operands stand after it.
    InPath,
    /// A call of any function but `now`. Its arguments stand after it.
    Call { function: Function },
}

/// A node of a checked filter. Its first child is the next node of the list, and each other child stands where the one
/// before it stops.
#[derive(Clone, Copy, Debug, PartialEq, Eq)]
pub struct CheckedNode {
    pub kind: NodeKind,
    /// Where it stands in the text.
    pub span: Span,
    /// The type of its value.
    pub edm_type: EdmType,
    /// The number of the first node after its last descendant.
    pub stop: usize,
}

/// A node takes no more bytes than this.
const NODE_LIMIT: usize = 64;

const _: () = prove!(std::mem::size_of::<CheckedNode>() <= NODE_LIMIT);
