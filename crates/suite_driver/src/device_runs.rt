//! Runs over devices that give or take little, or stumble: what is read and written, and when.
//!
//! The rows are the first text, the second after it, and blanks after that. The third has numbers: three of the reader's
//! manner, three of the writer's, how many blanks there are, and three of the manner of standard error.
use crate::devices::{Giving, Shared, Taking, Watched, cut, manner_at, number_at};
use crate::question::{Held, Question};
use crate::runs::push_ended;
use edm_values::Moment;
use odata_filter::command_line::{Plan, Verb};
use odata_filter::{
    ByRecord, Called, LineFault, LineReader, Logged, Unfailing, filter_lines, filter_lines_with,
    run,
};
use odata_typing::Checked;
use std::alloc::{AllocError, Global};
use std::io;
use std::io::{Chain, Read, Repeat, Sink, Take, Write};

/// A text, another one after it, and blanks, in the manner of a device.
type Rows<'b> = Giving<Chain<Chain<&'b [u8], &'b [u8]>, Take<Repeat>>>;

/// The rows of a question that has these numbers.
fn rows_of<'b>(first: &'b [u8], second: &'b [u8], numbers: &str) -> Rows<'b> {
    let blanks = io::repeat(b' ').take(number_at(numbers, 6) as u64);
    cut(first.chain(second).chain(blanks), manner_at(numbers, 0))
}

/// Appends how many reads came, how many bytes were given, how many were asked for at most, and whether a read came
/// early.
fn push_reads(out: &mut String, reader: &Watched<'_, Rows<'_>>) -> Result<(), AllocError> {
    write!(
        out,
        ", {} reads, {} given, {} asked, {}",
        reader.reader.calls, reader.given, reader.most_asked, reader.is_early
    )
}

/// Appends how many calls of a writer came, and how many of them were flushes.
fn push_writes(out: &mut String, writer: &Taking<'_>) -> Result<(), AllocError> {
    write!(out, ", {} calls, {} flushes", writer.calls, writer.flushes)
}

/// Appends what a writer took, after a line feed.
fn push_taken(out: &mut String, alloc: Global, writer: &Taking<'_>) -> Result<(), AllocError> {
    let text = String::from_utf8_lossy(alloc, writer.taken.as_slice())?;
    write!(out, "\n{text}")
}

/// Appends what a run of a filter over devices ends with.
fn push_run_over<R: Read + Drop, W: Write>(
    out: &mut String,
    checked: &Checked<'_>,
    now: &Moment,
    rows: R,
    written: &mut W,
) -> Result<(), AllocError> {
    let alloc = *out.allocator();
    let ended = filter_lines(alloc, checked, now, rows, written);
    push_ended(out, &ended)
}

/// Appends the same, and what became of the devices.
pub(crate) fn push_devices(
    out: &mut String,
    alloc: Global,
    checked: &Checked<'_>,
    now: &Moment,
    question: &Question<'_>,
) -> Result<(), AllocError> {
    let first = Vec::from_slice(alloc, question.bytes)?;
    let second = Vec::from_slice(alloc, question.second.as_bytes())?;
    let shared = Shared::new();
    let rows = rows_of(first.as_slice(), second.as_slice(), question.third);
    let mut reader = Watched::new(rows, &shared);
    let mut writer = Taking::new(alloc, manner_at(question.third, 3), &shared, 1);
    push_run_over(out, checked, now, &mut reader, &mut writer)?;
    push_reads(out, &reader)?;
    push_writes(out, &writer)?;
    push_taken(out, alloc, &writer)
}

/// Appends what a run of a filter ends with over devices that log what became of their calls.
fn push_logged_run<R: Read + Drop, W: Write>(
    out: &mut String,
    checked: &Checked<'_>,
    now: &Moment,
    lines: &mut LineReader<Logged<R>>,
    writer: &mut Logged<W>,
) -> Result<(), AllocError> {
    let alloc = *out.allocator();
    let ended = filter_lines_with::<Logged<R>, ByRecord, Logged<W>, ByRecord>(
        alloc, checked, now, lines, writer,
    );
    push_ended(out, &ended)
}

/// Appends the same, and both logs.
pub(crate) fn push_logged(
    out: &mut String,
    alloc: Global,
    checked: &Checked<'_>,
    now: &Moment,
    question: &Question<'_>,
) -> Result<(), AllocError> {
    let first = Vec::from_slice(alloc, question.bytes)?;
    let rows = Logged::new(cut(first.as_slice(), manner_at(question.third, 0)));
    let mut lines = LineReader::new(alloc, rows);
    let shared = Shared::new();
    let mut device = Taking::new(alloc, manner_at(question.third, 3), &shared, 1);
    let mut writer = Logged::new(&mut device);
    push_logged_run(out, checked, now, &mut lines, &mut writer)?;
    write!(out, ", {:?}, {:?}", lines.reader().calls(), writer.calls())?;
    push_taken(out, alloc, &device)
}

/// Appends what a run of a filter ends with over devices that cannot fail: bytes in memory, and a writer that keeps
/// nothing.
pub(crate) fn push_unfailing(
    out: &mut String,
    alloc: Global,
    checked: &Checked<'_>,
    now: &Moment,
    question: &Question<'_>,
) -> Result<(), AllocError> {
    let rows: Called<&[u8], Unfailing> = Called::new(question.bytes);
    let mut written: Called<Sink, Unfailing> = Called::new(io::sink());
    let ended = filter_lines(alloc, checked, now, rows, &mut written);
    push_ended(out, &ended)
}

/// The plan of a run over what is held.
fn plan_of<'h>(held: &Held<'h>, word: &str) -> Plan<'h> {
    Plan {
        verb: match word {
            "run_check" => Verb::Check,
            "run_explain" => Verb::Explain,
            _ => Verb::Filter,
        },
        schema: "schema.json",
        named: held.named,
        filter: Some(held.filter),
        query: None,
        rows: if word == "run_input" {
            None
        } else {
            Some("rows.json")
        },
        now: None,
        collection: word == "run_collection" || word == "run_input",
    }
}

/// Appends the status of a run of the program's work over devices, what became of standard output and standard error,
/// and the order of their calls: 1 and 2 are a write and a flush of standard output, 3 and 4 those of standard error.
fn push_work(
    out: &mut String,
    alloc: Global,
    held: &Held<'_>,
    question: &Question<'_>,
) -> Result<(), AllocError> {
    let text = Vec::from_slice(alloc, question.bytes)?;
    let rows = cut(text.as_slice(), manner_at(question.third, 0));
    let shared = Shared::new();
    let mut output = Taking::new(alloc, manner_at(question.third, 3), &shared, 1);
    let mut errors = Taking::new(alloc, manner_at(question.third, 7), &shared, 3);
    let plan = plan_of(held, question.word);
    let status = run(
        alloc,
        &plan,
        held.document,
        Some(rows),
        &mut output,
        &mut errors,
    );
    write!(out, "{status}, {}", shared.calls.get())?;
    push_writes(out, &output)?;
    push_writes(out, &errors)?;
    push_taken(out, alloc, &output)?;
    push_taken(out, alloc, &errors)
}

/// Appends what comes next of a reader of lines: of a line its length, and where it is short its text.
fn push_next(
    out: &mut String,
    alloc: Global,
    next: Result<Option<&[u8]>, LineFault>,
) -> Result<(), AllocError> {
    match next {
        Ok(Some(line)) => {
            let text = String::from_utf8_lossy(alloc, line.get(..99).unwrap_or(line))?;
            write!(out, "\n{} {text}", line.len())
        }
        Ok(None) => out.push_str("\nend"),
        Err(fault) => write!(out, "\n{fault:?}"),
    }
}

/// Appends so many lines of a reader of lines, or what comes instead, and how much memory it holds at the beginning and
/// in the end.
fn push_lines_of(
    out: &mut String,
    alloc: Global,
    question: &Question<'_>,
) -> Result<(), AllocError> {
    let first = Vec::from_slice(alloc, question.bytes)?;
    let second = Vec::from_slice(alloc, question.second.as_bytes())?;
    let shared = Shared::new();
    let rows = rows_of(first.as_slice(), second.as_slice(), question.third);
    let mut lines = LineReader::new(alloc, Watched::new(rows, &shared));
    write!(out, "{}", lines.held())?;
    for _ in 0..number_at(question.third, 3) {
        push_next(out, alloc, lines.next_line())?;
    }
    write!(out, "\n{}", lines.held())?;
    push_reads(out, lines.reader())
}

/// Appends the answer to a question over devices without a filter that is checked, and returns whether it is one.
pub(crate) fn push_of_work(
    out: &mut String,
    alloc: Global,
    held: &Held<'_>,
    question: &Question<'_>,
) -> Result<bool, AllocError> {
    match question.word {
        "run_check" | "run_explain" | "run_filter" | "run_collection" | "run_input" => {
            push_work(out, alloc, held, question)?
        }
        "lines_of" => push_lines_of(out, alloc, question)?,
        _ => return Ok(false),
    }
    Ok(true)
}
