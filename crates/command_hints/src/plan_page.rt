//! A page, filtered by a plan.
use crate::filter_of_plan::{plan_filter, read_schema};
use crate::plan_explanation::moment_of;
use command_plan::command_line::Plan;
use odata_filter::{Failure, RunFault, Tally};
use odata_pages::filter_page;
use std::alloc::Global;
use std::io::{Read, Write};

/// Carries a plan out over a page, a collection of entities that is read in pieces. Kept ones are written, each as a
/// line.
///
/// It is for a plan that was carried out over no rows before: its schema and its filter were accepted, so where one of
/// them is not accepted here an allocation failed. It has no clause: `odata_pages` promises what is written.
pub fn filter_plan_page<'p, R: Read + Drop, W: Write>(
    alloc: Global,
    plan: &Plan<'p>,
    document: &[u8],
    page: R,
    out: &mut W,
) -> Result<Tally, Failure<'p>> {
    let schema = match read_schema(alloc, document) {
        Ok(Some(schema)) => schema,
        _ => return Err(Failure::Rows(RunFault::Memory { line: 0 })),
    };
    let filter = match plan_filter(alloc, &schema, plan) {
        Ok(Some(filter)) => filter,
        _ => return Err(Failure::Rows(RunFault::Memory { line: 0 })),
    };
    let now = moment_of(plan, &filter)?;
    match filter_page(alloc, &filter, &now, page, out) {
        Ok(tally) => Ok(tally),
        Err(fault) => Err(Failure::Rows(fault)),
    }
}
