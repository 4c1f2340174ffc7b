ghost use Rattle.std.specs.Prelude.{◌≡◌, is_some};
ghost use Rattle.fault_sentences.specs.Numbers.{is_known};

use super::fault_class::FaultClass;
use super::report::Report;
use super::typing_templates::typing_template;

/// What stands before a sentence's owner, between it and the subject, and after that; or a whole sentence and nothing.
pub type Template = (&'static str, &'static str, &'static str);

fn schema_template(number: u8) -> Option<Template>
    ensures { is_some result ≡ is_known FaultClass.Schema number }
{
    match number {
        1 => Some(("The schema is not a JSON text.", "", "")),
        2 => Some(("The schema is not a JSON object.", "", "")),
        3 => Some(("The schema's $Version is neither 4.0 nor 4.01.", "", "")),
        4 => Some(("The schema declares '", "", "' in a way that is not valid.")),
        5 => Some((
            "Type '",
            "' has a member '",
            "' that is not a valid property.",
        )),
        6 => Some((
            "The base type of '",
            "",
            "' does not exist, or is of another kind.",
        )),
        7 => Some(("The base types of '", "", "' form a cycle.")),
        8 => Some((
            "Type '",
            "' declares property '",
            "', which one of its base types declares too.",
        )),
        9 => Some(("Enumeration '", "' has a member '", "' that is not valid.")),
        10 => Some(("The schema is too large.", "", "")),
        _ => None,
    }
}

fn query_template(number: u8) -> Option<Template>
    ensures { is_some result ≡ is_known FaultClass.Query number }
{
    match number {
        1 => Some((
            "",
            "The query has \"",
            "\", which is not an escape: a % is followed by two hexadecimal digits.",
        )),
        2 => Some((
            "",
            "The option \"",
            "\" of the query is not UTF-8 once it is decoded.",
        )),
        3 => Some(("", "The option \"", "\" of the query is a second $filter.")),
        4 => Some((
            "",
            "The option \"",
            "\" of the query is neither $filter nor a custom option.",
        )),
        5 => Some(("", "The option \"", "\" of the query hides a $filter.")),
        _ => None,
    }
}

fn text_template(number: u8) -> Option<Template>
    ensures { is_some result ≡ is_known FaultClass.Text number }
{
    match number {
        1 => Some(("", "The character \"", "\" is not allowed here.")),
        2 => Some((
            "",
            "The text that begins with \"",
            "\" is not closed by an apostrophe.",
        )),
        3 => Some(("", "Literals such as \"", "\" are not supported.")),
        4 => Some((
            "",
            "\"",
            "\" begins like a number, a date or a GUID, but is none of them.",
        )),
        5 => Some(("The filter is too long.", "", "")),
        _ => None,
    }
}

fn syntax_template(number: u8, at_end: bool) -> Option<Template>
    ensures { is_some result ≡ is_known FaultClass.Syntax number }
{
    match number {
        1 => if at_end {
            Some(("The filter ends too early.", "", ""))
        } else {
            Some(("", "\"", "\" is not expected here."))
        },
        2 => Some(("The parentheses are nested too deeply.", "", "")),
        _ => None,
    }
}

fn row_template(number: u8) -> Option<Template>
    ensures { is_some result ≡ is_known FaultClass.Row number }
{
    match number {
        1 => Some(("The row is not a JSON object.", "", "")),
        2 => Some(("", "The row has no '", "'.")),
        3 => Some((
            "",
            "The value of '",
            "' is not of the kind of JSON that its type wants.",
        )),
        4 => Some(("", "The value of '", "' may not be null.")),
        5 => Some(("", "The value of '", "' is outside the range of its type.")),
        6 => Some(("", "The text of '", "' is not a value of its type.")),
        8 => Some((
            "",
            "The row does not have '",
            "' expanded, which the filter needs.",
        )),
        _ => None,
    }
}

fn evaluation_template(number: u8) -> Option<Template>
    ensures { is_some result ≡ is_known FaultClass.Evaluation number }
{
    match number {
        1 => Some((
            "On this row a number of the filter is out of range.",
            "",
            "",
        )),
        2 => Some(("On this row the filter divides by zero.", "", "")),
        _ => None,
    }
}

/// Of the faults that have no number of their own.
fn lone_template(class: FaultClass) -> Template {
    match class {
        FaultClass::Json => ("The row is not JSON in UTF-8.", "", ""),
        FaultClass::Collection => (
            "The rows are not one JSON object with an array 'value'.",
            "",
            "",
        ),
        FaultClass::UnknownType => ("", "The schema has no entity type '", "'."),
        FaultClass::NoFilter => ("The query has no $filter.", "", ""),
        FaultClass::MomentNeeded => (
            "The filter calls now(), and no moment is given for it.",
            "",
            "",
        ),
        FaultClass::NotAMoment => (
            "",
            "\"",
            "\" is not a moment, as 2020-01-01T00:00:00Z is one.",
        ),
        FaultClass::TooCostly => (
            "On this row the filter costs more than the bound allows.",
            "",
            "",
        ),
        FaultClass::Unsayable => (
            "A text of the filter or the name of a column has the character U+0000, which no database takes.",
            "",
            "",
        ),
        FaultClass::TooDeep => (
            "The filter, or its condition in SQL, nests too deeply for the database.",
            "",
            "",
        ),
        FaultClass::UnknownColumn => (
            "A column is given for a name that is no property of the type.",
            "",
            "",
        ),
        _ => ("The line is too long.", "", ""),
    }
}

/// The template of the sentence about a fault, if there is such a fault.
pub fn template_of(report: &Report<'_>) -> Option<Template>
    ensures { is_some result ≡ is_known report.now.class report.now.number }
{
    match report.class {
        FaultClass::Schema => schema_template(report.number),
        FaultClass::Query => query_template(report.number),
        FaultClass::Text => text_template(report.number),
        FaultClass::Syntax => syntax_template(report.number, report.span.start == report.span.stop),
        FaultClass::Typing => typing_template(report),
        FaultClass::Row => row_template(report.number),
        FaultClass::Evaluation => evaluation_template(report.number),
        _ => if report.number == 0 {
            Some(lone_template(report.class))
        } else {
            None
        },
    }
}
