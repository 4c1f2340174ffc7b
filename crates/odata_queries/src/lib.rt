//! The filter of a URL's query string (OData URL Conventions 4.01, section 5; RFC 3986, section 2.1).
//!
//! ```rust
//! use odata_queries::filter_of_query;
//!
//! let text = filter_of_query(alloc, b"page=5&$filter=Price%20lt%2010")?.ok_or("no filter")?;
//! assert!(rt; text.as_str() == "Price lt 10");
//! ```
#![tactic(auto)]

mod disguise;
mod escapes;
mod filter_word;
mod find;
mod find_fault;
mod find_laws;
mod found_filter;
mod parentheses;
mod query;
mod query_fault;
mod query_laws;
mod query_name;
mod query_part;

pub use find::find_filter;
pub use find_fault::FindFault;
pub use find_laws::{
    found_filter_stands_there, no_reader_finds_another, one_found_reading,
    readers_find_what_is_disguised, same_text_as_alone,
};
pub use found_filter::FoundFilter;
pub use query::filter_of_query;
pub use query_fault::QueryFault;
pub use query_laws::{one_query_reading, queries_by_example};
