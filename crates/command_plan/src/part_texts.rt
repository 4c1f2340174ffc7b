//! The texts that ask for one part of a file of rows.
ghost use Rattle.std.specs.Prelude.{◌≡◌, ℕ, IfNone, IfSome, map, option_map};
ghost use Rattle.command_plan.specs.PartTexts.{IsNoPart, IsNumberText, IsPartText, is_one_file};
ghost use Rattle.command_plan.specs.Requests.{AsksForPart};
ghost use Rattle.command_plan.specs.private.Planner.{AsksForNoPart};

use line_filter::Part;

/// The number that a text is.
fn number_of(text: &str) -> Option<u32>
    ensures some { IfSome result (IsNumberText text.now) }
    ensures none { IfNone result ((number : ℕ) → ¬ IsNumberText text.now number) }
{
    match text.parse::<u32>() {
        Ok(number) => Some(number),
        Err(_) => None,
    }
}

/// The part that a text asks for.
fn part_named(text: &str) -> Option<Part>
    ensures some { IfSome result (λ part. IsPartText text.now part.number part.count) }
    ensures none { IfNone result (IsNoPart text.now) }
{
    let Some((number_text, count_text)) = text.split_once('/') else {
        return None;
    };
    let Some(number) = number_of(number_text) else {
        return None;
    };
    let Some(count) = number_of(count_text) else {
        return None;
    };
    Part::new(number, count)
}

/// The part that is asked for, none without a text; `None` where the text asks for none.
pub(crate) fn part_asked(text: Option<&str>) -> Option<Option<Part>>
    ensures some { IfSome result (AsksForPart (option_map (λ s. s.now) text.entry)) }
    ensures none { IfNone result (AsksForNoPart (option_map (λ s. s.now) text.entry)) }
{
    let Some(text) = text else {
        return Some(None);
    };
    match part_named(text) {
        Some(part) => Some(Some(part)),
        None => None,
    }
}

/// Whether one file is named, and it is not standard input.
pub(crate) fn is_one_file(files: &[&str]) -> bool
    ensures { result ≡ is_one_file (map (λ s. s.now) files.now) }
{
    if files.len() != 1 {
        return false;
    }
    !(files[0] == "-")
}
