//! Types of expressions: which ones an operator or a function takes, and which one it makes of them (OData URL
//! Conventions 4.01, sections 4.8, 5.1.1.1, 5.1.1.2, 5.1.1.4 to 5.1.1.8 and 5.1.1.13).
//!
//! ```rust
//! use edm_values::Prim;
//! use odata_signatures::{EdmType, ValueType, judged_call};
//!
//! let text = EdmType::Single(ValueType::Prim(Prim::String));
//! let call = judged_call("length", &[text])?;
//! assert!(rt; call.edm_type == EdmType::Single(ValueType::Prim(Prim::Int32)));
//! ```
#![tactic(auto)]

mod argument_kind;
mod call;
mod collection_types;
mod comparable_types;
mod edm_type;
mod function;
mod has;
mod laws;
mod membership;
mod normal_form_laws;
mod operator_types;
mod refusal;
mod tree_type_laws;

pub use argument_kind::ArgumentKind;
pub use call::{CallFault, TypedCall, judged_call};
pub use collection_types::{any_item_type, count_type};
pub use comparable_types::are_comparable;
pub use edm_type::{BOOLEAN, EdmType, ValueType};
pub use function::{Function, Signature};
pub use has::has_type;
pub use laws::{calls_have_one_type, quoted_texts_have_one_number, unread_operands_go_by_types};
pub use membership::in_path_type;
pub use normal_form_laws::{
    canonical_texts_keep_types, canonical_texts_need_the_same, normal_forms_keep_types,
};
pub use operator_types::{binary_type, negated_type, not_type};
pub use refusal::{Refusal, TypeFault, TypeFaultCode};
pub use tree_type_laws::{
    a_filter_of_items_is_boolean, a_number_is_no_text, children_come_first,
    enumeration_literals_are_spelled_by_pieces, enumeration_literals_have_one_name,
    literals_have_one_value, quoting_trees_are_texts, texts_have_few_nodes, texts_have_one_refusal,
    trees_have_one_type, typed_trees_are_clear, unread_operands_have_one_reason,
    untypable_nodes_start_apart,
};
