//! Dates, moments and Guids in a line that has room after it: they are seen at once to be some.
#![tactic(auto)]

mod sure_texts;

pub use sure_texts::{day_end, guid_end, moment_end};
