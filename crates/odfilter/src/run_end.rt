//! How a run ended that does not report its failure itself.
use crate::plan_run::faults_of;
use crate::progress::Progress;
use crate::reports::{PlanRun, report_as_json, report_hints};
use odata_filter::command_line::{Format, Plan, RunRequest};
use odata_filter::{Ended, Failure, report_failure};

/// Reports a failure, and returns the status.
#[inline(never)]
pub fn report_end<'p>(
    progress: &Progress<'_>,
    request: &RunRequest<'_>,
    plan: &Plan<'p>,
    document: &[u8],
    failure: Failure<'p>,
) -> u8 {
    let rt = progress.rt;
    let status = failure.status();
    let ended = Ended {
        status,
        failure: Some(failure),
    };
    let run = PlanRun {
        plan,
        part: request.part,
        document,
        recent: &progress.recent,
        ended: &ended,
    };
    match request.format {
        Format::Json => report_as_json(rt, &run),
        Format::Text => {
            report_line(rt, request, &run);
            report_hints(rt, request.hints, &run);
            status
        }
    }
}

/// Writes the line of a failure, after its prefix.
fn report_line(rt: &HostRuntime, request: &RunRequest<'_>, run: &PlanRun<'_, '_>) {
    let mut err = faults_of(rt, request, run.plan);
    match &run.ended.failure {
        Some(failure) => {
            let _ = report_failure(failure, &mut rt.stdout(), &mut err);
        }
        None => {}
    }
}
