//! Texts of enumerations that were looked up in earlier rows, found where they stand in later ones.
#![tactic(auto)]

mod known_texts;

pub use known_texts::{KnownTexts, NotedText};
