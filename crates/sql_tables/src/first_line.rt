//! The first line of a text.
ghost use Rattle.std.specs.Prelude.{◌≡◌};
ghost use Rattle.sql_tables.specs.Lines.{after_line, first_line};

/// The first line, and what follows its line feed.
pub fn split_first_line(text: &str) -> (&str, &str)
    ensures first { result.0.now ≡ first_line text.now }
    ensures after { result.1.now ≡ after_line text.now }
{
    match text.split_once('\n') {
        Some((line, after)) => (line, after),
        None => (text, ""),
    }
}
