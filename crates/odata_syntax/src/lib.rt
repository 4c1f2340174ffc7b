//! From the text of a `$filter` to its tree, and back (OData URL Conventions 4.01, section 5.1.1).
//!
//! ```rust
//! use odata_syntax::{parse, print};
//! use odata_text::tokens;
//!
//! let text = "not (Price lt 10)";
//! let tree = parse(alloc, tokens(alloc, text)?.as_slice(), text.len())?;
//! assert!(rt; print(alloc, &tree)?.as_str() == "not (Price lt 10)");
//! ```
#![tactic(auto)]

mod binary_operator;
mod canonical_laws;
mod expr;
pub mod level;
mod node;
mod node_places;
mod normal_form;
mod parser;
mod printer;
mod syntax_fault;
mod syntax_laws;
mod syntax_list;

pub use binary_operator::{
    ArithmeticOperator, BinaryOperator, ComparisonOperator, LogicalOperator,
};
pub use canonical_laws::{
    canonical_texts_read_back, one_canonical_text, texts_determine_normal_forms,
};
pub use expr::Expr;
pub use level::operator_level;
pub use node::{LiteralKind, Node, Quantifier};
pub use node_places::{NO_NODE, Place};
pub use normal_form::normal;
pub use parser::{TextOrSyntaxFault, parse, parse_text};
pub use printer::{
    AfterFirst, NodeShape, PrintedTree, operator_word, print, print_tree, write_literal,
};
pub use syntax_fault::SyntaxFault;
pub use syntax_laws::{
    children_apart, faults_have_no_tree, first_run_parses, name_eq_is_unended, node_spans,
    one_fault, one_tree, spans_apart, spans_hold, spans_take_bytes, too_deep_opens, tree_spans,
};
pub use syntax_list::{SyntaxKind, SyntaxList, SyntaxNode};
