//! Sets of property paths: what is put into them, and what a copy has.
use csdl_schema::Expansion;
use std::alloc::{AllocError, Global};

/// Returns the names of a path, between which is a slash.
pub(crate) fn names_of(alloc: Global, path: &str) -> Result<Vec<&str>, AllocError> {
    let mut names = Vec::new(alloc);
    if !path.is_empty() {
        for name in path.split('/') {
            names.push(name)?;
        }
    }
    Ok(names)
}

/// The paths of a text, between which is a comma.
fn paths_of(alloc: Global, text: &str) -> Result<Vec<Vec<&str>>, AllocError> {
    let mut paths = Vec::new(alloc);
    for path in text.split(',') {
        paths.push(names_of(alloc, path)?)?;
    }
    Ok(paths)
}

/// How many of these paths are in the set.
fn count_needed(set: &Expansion, paths: &[Vec<&str>]) -> usize {
    let mut count = 0_usize;
    for path in paths {
        if set.needs(path.as_slice()) {
            count = count.saturating_add(1);
        }
    }
    count
}

/// Puts the paths into the set, one after another, and returns whether each that was refused left the set as it was.
fn add_all(set: &mut Expansion, paths: &[Vec<&str>]) -> Result<bool, AllocError> {
    for path in paths {
        let before = count_needed(set, paths);
        if set.add(path.as_slice()).is_err() {
            return if count_needed(set, paths) == before {
                Err(AllocError)
            } else {
                Ok(false)
            };
        }
    }
    Ok(true)
}

/// Appends how many of the paths are in a set into which they were put, how many in a copy of it, and whether these
/// have the same.
pub(crate) fn push_set(out: &mut String, alloc: Global, text: &str) -> Result<(), AllocError> {
    let paths = paths_of(alloc, text)?;
    let mut set = Expansion::none(alloc);
    if !add_all(&mut set, paths.as_slice())? {
        return out.push_str("another set after a refusal");
    }
    let copy = set.copy(alloc)?;
    let (count, copied) = (
        count_needed(&set, paths.as_slice()),
        count_needed(&copy, paths.as_slice()),
    );
    let is_same = copy.covers(&set) && set.covers(&copy);
    write!(out, "{count} {copied} {is_same}")
}
