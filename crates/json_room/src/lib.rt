//! Lexemes of a line of JSON that has room after it: they are read without a test of where the line ends. A text with
//! surrogates is read by `json`'s reader.
#![tactic(auto)]

mod any_values;
mod blanks;
mod decode_buffer;
mod decoded_escapes;
mod decoded_texts;
mod escaped_texts;
mod escapes;
mod fronts;
mod key;
mod line_copy;
mod number_text;
mod numbers;
mod plain_bytes;
mod roomy_line;
mod spelled_key;
mod texts;
mod utf8;
mod words;

pub use any_values::{any_number_end, any_value_end};
pub use blanks::past_blanks;
pub use decode_buffer::DecodeBuffer;
pub use escaped_texts::{any_text_at, escaped_text_end};
pub use fronts::{are_front, front_of, mask_of};
pub use line_copy::copy_with_room;
pub use number_text::number_of_text;
pub use numbers::{digits_up_to, number_at, whole_at};
pub use roomy_line::{ROOM, RoomyLine, front_text, has_room};
pub use spelled_key::SpelledKey;
pub use texts::{text_at, text_end};
pub use words::{null_end, truth_end};
