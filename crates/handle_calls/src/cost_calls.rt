//! What a filter costs, and what it reads.
ghost use Rattle.std.specs.Prelude.{◌≡◌, IfOk, MatchResult, map, string_bytes};
ghost use Rattle.call_handles.specs.Answers.{empty_answer};
ghost use Rattle.handle_calls.specs.Costs.{ArePaths, ArePathsOf, ReportsLines, lines_of};
ghost use Rattle.handle_calls.specs.FilterCalls.{IsNoText};

use call_handles::{Answer, Fault, FilterHandle, Handle, report_fault, write_text};
use std::alloc::{AllocError, Global};

/// An answer of a number.
pub(crate) fn counted(number: usize) -> Answer
    ensures { result ≡ record empty_answer { number = number } }
{
    let mut answer = Answer::empty();
    answer.number = number as u64;
    answer
}

/// The paths of the properties that a filter reads, each followed by a line feed, and how many there are.
#[derive(Drop)]
pub(crate) struct PathLines {
    pub(crate) count: usize,
    pub(crate) text: String,
}

/// Paths, each followed by a line feed.
fn lines_of_paths(alloc: Global, paths: &[String]) -> Result<String, AllocError>
    ensures { IfOk result (λ lines. string_bytes lines ≡ lines_of (map string_bytes paths.now)) }
{
    let mut lines = String::new(alloc);
    for path in paths {
        lines.push_str(path)?;
        lines.push('\n')?;
    }
    Ok(lines)
}

fn lines_of_filter(alloc: Global, held: &FilterHandle) -> Result<PathLines, AllocError>
    ensures { IfOk result (λ lines. ArePathsOf held.now lines.count (string_bytes lines.text)) }
{
    let paths = held.checked().property_paths(alloc)?;
    let text = lines_of_paths(alloc, paths.as_slice())?;
    Ok(PathLines {
        count: paths.len(),
        text,
    })
}

/// The lines of the paths of a handle that is a filter.
pub(crate) fn path_lines(alloc: Global, filter: &Handle) -> Result<PathLines, Fault>
    ensures { MatchResult result (λ lines. ArePaths filter.now lines.count (string_bytes lines.text))
        (IsNoText filter.now) }
{
    match filter {
        Handle::Filter(held) => match lines_of_filter(alloc, held) {
            Ok(lines) => Ok(lines),
            Err(_) => Err(Fault::Memory),
        },
        _ => Err(Fault::OtherKind),
    }
}

/// Writes so many lines, and reports how many and how long they are.
pub(crate) fn report_lines(
    count: usize,
    lines: &[u8],
    buffer: &mut [u8],
    answer: &mut Answer,
) -> u32
    ensures { ReportsLines count lines.now buffer.old buffer.new answer.new result }
{
    if !write_text(buffer, lines) {
        return report_fault(
            &Fault::TooSmall {
                wanted: lines.len(),
            },
            answer,
        );
    }
    *answer = counted(count);
    answer.length = lines.len();
    0
}
