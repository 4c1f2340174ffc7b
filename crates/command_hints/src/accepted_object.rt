//! The JSON object of a filter that is accepted.
use crate::filter_of_plan::{plan_filter, read_schema};
use command_plan::command_line::{Plan, Verb};
use odata_typing::Checked;
use serde::Serialize;
use serde_json::to_string;
use std::alloc::{AllocError, Global};

/// What is said of an accepted filter.
#[derive(Drop, Serialize)]
struct AcceptedFilter<'t> {
    accepted: bool,
    canonical: &'t str,
    property_paths: &'t [String],
    expansion: Vec<&'t str>,
    node_count: usize,
    lambda_depth: usize,
    #[serde(skip_serializing_if = "Option::is_none")]
    explanation: Option<Vec<&'t str>>,
}

/// The paths among these that rows must have expanded.
fn expanded<'t>(
    alloc: Global,
    checked: &Checked<'_>,
    paths: &'t [String],
) -> Result<Vec<&'t str>, AllocError> {
    let mut needed = Vec::new(alloc);
    for path in paths {
        let mut names = Vec::new(alloc);
        for name in path.as_str().split('/') {
            names.push(name)?;
        }
        if checked.expansion().needs(names.as_slice()) {
            needed.push(path.as_str())?;
        }
    }
    Ok(needed)
}

/// What is said of each node of a filter: this text, or the filter's explanation.
fn explained(
    alloc: Global,
    checked: &Checked<'_>,
    verb: Verb,
    given: Option<&str>,
) -> Result<Option<String>, AllocError> {
    match (verb, given) {
        (_, Some(text)) => Ok(Some(String::from_str(alloc, text)?)),
        (Verb::Explain, None) => Ok(Some(checked.explain(alloc)?)),
        (Verb::Check | Verb::Filter, None) => Ok(None),
    }
}

/// The lines of a text.
fn lines_of(alloc: Global, text: &str) -> Result<Vec<&str>, AllocError> {
    let mut lines = Vec::new(alloc);
    for line in text.lines() {
        lines.push(line)?;
    }
    Ok(lines)
}

/// The object of a checked filter with these texts.
fn written(
    alloc: Global,
    checked: &Checked<'_>,
    canonical: &str,
    paths: &[String],
    explanation: &Option<String>,
) -> Result<String, AllocError> {
    let object = AcceptedFilter {
        accepted: true,
        canonical,
        property_paths: paths,
        expansion: expanded(alloc, checked, paths)?,
        node_count: checked.node_count(),
        lambda_depth: checked.lambda_depth(),
        explanation: match explanation {
            Some(text) => Some(lines_of(alloc, text.as_str())?),
            None => None,
        },
    };
    match to_string(alloc, &object) {
        Ok(text) => Ok(text),
        Err(_) => Err(AllocError),
    }
}

/// The object of a checked filter, with this text or its own explanation.
fn object_text(
    alloc: Global,
    checked: &Checked<'_>,
    verb: Verb,
    given: Option<&str>,
) -> Result<String, AllocError> {
    let canonical = checked.canonical(alloc)?;
    let paths = checked.property_paths(alloc)?;
    let explanation = explained(alloc, checked, verb, given)?;
    written(alloc, checked, &canonical, paths.as_slice(), &explanation)
}

/// Returns the JSON object of a plan's filter, without a line feed; `None` if it is not accepted. Under `explain` it
/// has the lines of `given`, or those of the filter's explanation. It has no clause: what the object says is tested.
pub fn accepted_json(
    alloc: Global,
    plan: &Plan<'_>,
    document: &[u8],
    given: Option<&str>,
) -> Result<Option<String>, AllocError> {
    let Some(schema) = read_schema(alloc, document)? else {
        return Ok(None);
    };
    match plan_filter(alloc, &schema, plan)? {
        Some(checked) => Ok(Some(object_text(alloc, &checked, plan.verb, given)?)),
        None => Ok(None),
    }
}
