use super::fault_class::FaultClass;
use super::report::Report;
use odata_text::Span;

/// What a sentence is about: a name or a part of a text, and the type or the like that it belongs to.
#[derive(Clone, Copy)]
pub struct Subject<'t> {
    pub owner: &'t str,
    pub shown: &'t str,
    /// `...` if more than is shown is meant.
    pub more: &'static str,
}

/// At most so many bytes of a text are shown.
const EXCERPT_LIMIT: usize = 60;

/// The bytes of a text between two offsets; nothing if no characters begin and end there.
fn part(text: &str, start: usize, stop: usize) -> &str {
    match text.get(start..stop) {
        Some(part) => part,
        None => "",
    }
}

/// A part of a text, or its beginning if it is long.
fn excerpt<'t>(owner: &'t str, text: &'t str, start: usize, stop: usize) -> Subject<'t> {
    let whole = part(text, start, stop);
    if whole.len() <= EXCERPT_LIMIT {
        return Subject {
            owner,
            shown: whole,
            more: "",
        };
    }
    let shown = part(whole, 0, whole.floor_char_boundary(EXCERPT_LIMIT));
    Subject {
        owner,
        shown,
        more: "...",
    }
}

/// What stands before the first `(` of a part of a text, as the name of the function in a call.
fn called_name<'t>(text: &'t str, span: Span) -> Subject<'t> {
    let call = part(text, span.start, span.stop);
    let name = match call.split_once('(') {
        Some((name, _)) => name,
        None => call,
    };
    excerpt("", name, 0, name.len())
}

/// The option of a query with this number.
fn option_of(query: &str, number: usize) -> Subject<'_> {
    let option = match query.split('&').nth(number) {
        Some(option) => option,
        None => "",
    };
    excerpt("", option, 0, option.len())
}

/// What the sentence about a fault names.
pub fn subject_of<'t>(report: &Report<'t>) -> Subject<'t> {
    let Span { start, stop } = report.span;
    let text = report.text;
    match report.class {
        FaultClass::Schema => excerpt(part(text, 0, start), text, start, text.len()),
        FaultClass::Query => if report.number == 1 {
            excerpt("", text, start, text.len().min(start.saturating_add(3)))
        } else {
            option_of(text, start)
        },
        FaultClass::Typing => match report.number {
            1 => excerpt(report.type_name.unwrap_or(""), text, start, stop),
            2 | 3 | 4 => called_name(text, report.span),
            _ => excerpt("", text, start, stop),
        },
        FaultClass::Row | FaultClass::UnknownType | FaultClass::NotAMoment => excerpt(
            "",
            text,
            0,
            text.len(),
        ),
        _ => excerpt("", text, start, stop),
    }
}
