ghost use Rattle.std.specs.Prelude.{◌≡◌, IfOk, is_some};
ghost use Rattle.fault_sentences.specs.Numbers.{is_known};

use super::hint::{Hint, hint_about};
use super::report::Report;
use super::subject::{Subject, subject_of};
use super::template::{Template, template_of};
use std::alloc::{AllocError, Global};

/// The sentence of a hint.
fn hint_text(hint: Hint) -> &'static str {
    match hint {
        Hint::Plus => "In a URL, write a space as %20: a + is a plus sign.",
        Hint::Sum => "Addition is add, as in 1 add 2.",
        Hint::Product => "Multiplication is mul, as in 1 mul 2.",
        Hint::Remainder => "A remainder is mod, as in 3 mod 2.",
        Hint::Alias => "Parameter aliases are not supported: write the value itself.",
        Hint::OptionName => "The filter is what follows $filter=: leave that out.",
        Hint::Symbol => "Operators are words: and, or, not, eq, ne, gt, ge, lt, le.",
        Hint::DoubleQuote => "Texts stand between apostrophes, as in 'a'.",
        Hint::EscapedTwice => "The text has escapes in it: it may have been escaped twice.",
        Hint::Apostrophe => "In a text, write an apostrophe twice; in a URL, write & as %26.",
        Hint::Fraction => "Numbers with a fraction or an exponent are not supported.",
        Hint::Offset => "A date and time ends in Z or an offset, as in 2020-01-01T00:00:00Z.",
        Hint::Suffix => "Write a number without a letter after it.",
        Hint::TypedLiteral => {
            "Write the value without the name of its type; dates and GUIDs without apostrophes too."
        },
        Hint::Substring => "Write contains(Name,'a') for substringof('a',Name).",
        Hint::Cast => "Casts to another type are not supported.",
    }
}

/// The template with the owner after its beginning, and the subject before its end, if it has these.
fn filled(alloc: Global, template: Template, subject: Subject<'_>) -> Result<String, AllocError> {
    let (lead, middle, tail) = template;
    if tail.is_empty() {
        return String::from_str(alloc, lead);
    }
    let owner = if lead.is_empty() { "" } else { subject.owner };
    Ok(format!(in alloc;
        "{lead}{owner}{middle}{}{}{tail}",
        subject.shown, subject.more
    )?)
}

/// The text with the hint after it, if there is one.
fn with_hint(alloc: Global, text: String, hint: Option<Hint>) -> Result<String, AllocError> {
    match hint {
        Some(hint) => Ok(format!(in alloc; "{text} {}", hint_text(hint))?),
        None => Ok(text),
    }
}

/// Returns a sentence in English about a fault, and one about what was meant if the text shows it. `None` if the class
/// has no fault of that number. What it says may change; programs go by the class and the number.
pub fn fault_sentence(alloc: Global, report: &Report<'_>) -> Result<Option<String>, AllocError>
    ensures { IfOk result (λ sentence. is_some sentence ≡ is_known report.now.class report.now.number) }
{
    let template = match template_of(report) {
        Some(template) => template,
        None => return Ok(None),
    };
    let text = filled(alloc, template, subject_of(report))?;
    Ok(Some(with_hint(alloc, text, hint_about(report))?))
}
