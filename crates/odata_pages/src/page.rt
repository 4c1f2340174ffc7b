//! The entities of a page that a filter keeps.
ghost use Rattle.std.specs.Prelude.{IfErr, IfOk, IfSome};
ghost use Rattle.line_filter.specs.Growth.{Writes};
ghost use Rattle.odata_pages.specs.Pages.{FailsPage, FiltersPage};
ghost use Rattle.odata_pages.specs.private.PageFaults.{IsPageFault, StandsOrYields};
ghost use Rattle.filter_runs.specs.declared.run_fault.RunFault.{RunFault};

use crate::page_end::{PageEnd, page_end};
use collection_reader::ItemReader;
use edm_values::Moment;
use filter_runs::{RunFault, filter_lines_with};
use line_filter::{LineReader, Output, Tally, Unlogged};
use odata_typing::Checked;
use std::alloc::Global;
use std::io::Read;

/// The fault of a read of a page.
fn read_fault<R: Read + Drop>(lines: &LineReader<ItemReader<R>>) -> RunFault
    ensures { IsPageFault (RunFault.Read 0) result }
{
    if lines.reader().is_out_of_memory() {
        RunFault::Memory { line: 0 }
    } else {
        RunFault::Read { line: 0 }
    }
}

/// The fault of an entity, once what follows it is read.
fn entity_fault<R: Read>(alloc: Global, fault: RunFault, lines: &mut LineReader<R>) -> RunFault
    ensures { StandsOrYields fault result }
{
    match page_end(alloc, lines) {
        PageEnd::Json => fault,
        PageEnd::NoJson => RunFault::NotACollection,
        PageEnd::Memory => RunFault::Memory { line: 0 },
    }
}

/// The fault of a page, by that of a run over the lines of its entities.
fn page_fault<R: Read + Drop>(
    alloc: Global,
    fault: RunFault,
    lines: &mut LineReader<ItemReader<R>>,
) -> RunFault
    ensures { IsPageFault fault result }
{
    match fault {
        RunFault::Json { .. } => RunFault::NotACollection,
        RunFault::Read { .. } => read_fault(lines),
        RunFault::Row { line, fault } => entity_fault(alloc, RunFault::Row { line, fault }, lines),
        RunFault::Arithmetic { line, fault } => {
            entity_fault(alloc, RunFault::Arithmetic { line, fault }, lines)
        }
        RunFault::LineTooLong { line } => RunFault::LineTooLong { line },
        RunFault::NotACollection => RunFault::NotACollection,
        RunFault::Write => RunFault::Write,
        RunFault::Memory { line } => RunFault::Memory { line },
    }
}

/// Reads a collection of entities and writes those whose outcome is true, each as a line. A line is the entity's bytes,
/// with a space for each line feed and carriage return, and LF. The collection is a JSON object whose member `value` is
/// an array of them.
///
/// Entities are judged as they come, and the kept ones are written before more is read. So memory does not grow with
/// the document: what stands around the array is held, and of the entities one. The first faulty entity ends the run
/// with `Row` or `Arithmetic` and its index plus one, or with `LineTooLong` where it has more than 1,048,576 bytes. A
/// document that is no such object, or has another member `value` after the array, is `NotACollection`, with kept
/// entities written up to where that shows. Where it shows after a `Row` or `Arithmetic` fault it is returned in place
/// of that.
pub fn filter_page<R: Read + Drop, W: Output>(
    alloc: Global,
    checked: &Checked<'_>,
    now: &Moment,
    document: R,
    out: &mut W,
) -> Result<Tally, RunFault>
    ensures filters { IfOk result (λ tally. IfSome (R.remaining document) (λ bytes.
        Writes (W.Strategy.contents out.old) (W.Strategy.contents out.new)
        (λ text. FiltersPage checked.now now.now bytes text tally))) }
    ensures stops { IfErr result (λ fault. IfSome (R.remaining document) (λ bytes.
        Writes (W.Strategy.contents out.old) (W.Strategy.contents out.new)
        (λ text. FailsPage checked.now now.now bytes text fault))) }
{
    let mut lines = LineReader::new(alloc, ItemReader::new(alloc, document));
    match filter_lines_with::<ItemReader<R>, Unlogged, W, W::Strategy>(
        alloc, checked, now, &mut lines, out,
    ) {
        Ok(tally) => Ok(tally),
        Err(fault) => Err(page_fault(alloc, fault, &mut lines)),
    }
}
