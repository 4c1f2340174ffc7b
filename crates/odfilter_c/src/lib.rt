//! A library for C over `handle_calls`: schemas, filters and judges by handles. `include/odfilter.h` says what each
//! call does.
//!
//! ```c
//! odfilter_handle *schema = NULL, *type = NULL, *filter = NULL;
//! odfilter_read_schema(document, names, &schema, &answer);
//! odfilter_find_type(schema, name, &type);
//! if (odfilter_check(type, text, &filter, &answer) == ODFILTER_OK) { /* judge rows by it */ }
//! ```
#![tactic(auto)]

pub mod c_types;
pub mod exports;
pub mod fault_exports;
pub mod filter_exports;
pub mod judge_exports;
mod length_calls;
pub mod line_exports;
mod null_buffer_calls;
mod null_calls;
pub mod sql_exports;
pub mod type_exports;

pub use c_types::{Buffer, Bytes};
pub use call_handles::Answer;
