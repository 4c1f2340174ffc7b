ghost use Rattle.std.specs.Prelude.{◌≡◌, is_some, true};
ghost use Rattle.fault_sentences.specs.Numbers.{is_known};

use super::fault_class::FaultClass;
use super::report::Report;
use super::subject::subject_of;
use super::template::Template;

/// Of a name that is not a property, by whether it is a path, and whether its type is to be named.
fn property_template(is_path: bool, is_type_named: bool) -> Template {
    if is_path {
        ("", "The path '", "' leads to no property.")
    } else if is_type_named {
        ("Type '", "' has no property '", "'.")
    } else {
        ("", "There is no property '", "'.")
    }
}

/// The template of the sentence about a node without a type.
pub fn typing_template(report: &Report<'_>) -> Option<Template>
    ensures { is_some result ≡ is_known FaultClass.Typing report.now.number }
{
    match report.number {
        1 => Some(property_template(
            subject_of(report).shown.as_bytes().contains(&b'/'),
            report.type_name.is_some(),
        )),
        2 => Some(("", "There is no function '", "'.")),
        3 => Some((
            "",
            "Function '",
            "' does not take this number of arguments.",
        )),
        4 => Some((
            "",
            "Function '",
            "' does not take arguments of these types.",
        )),
        5 => Some((
            "",
            "The operator of \"",
            "\" does not take operands of these types.",
        )),
        6 => Some(("", "\"", "\" asks for a collection, and there is none.")),
        7 => Some((
            "",
            "The variable of \"",
            "\" has the name of another one around it.",
        )),
        8 => Some(("", "The body of \"", "\" is neither true nor false.")),
        9 => Some(("", "\"", "\" is not a value of its type.")),
        10 => Some(("", "\"", "\" names no member of its enumeration.")),
        11 => Some(("", "Property '", "' has a type that is not supported.")),
        12 => Some(("The filter as a whole is neither true nor false.", "", "")),
        _ => None,
    }
}
