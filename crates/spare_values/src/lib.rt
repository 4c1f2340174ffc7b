//! Values of rows that are filled again: what no row holds any more is stored, and the value of a slot is written
//! over.
#![tactic(auto)]

mod spares;
mod stored_texts;
mod written;

pub use spares::{Filler, Spare, Spares};
pub use stored_texts::{is_filled_again, overwrite_text, write_text};
pub use written::{fit_count, list_in, put_number, put_truth, record_in};
