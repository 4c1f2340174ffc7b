//! Properties, members and range variables as columns and positions in JSON.
ghost use Rattle.std.specs.Prelude.{◌<◌, ◌≤◌, ◌+◌, [], ℕ, List, IfNone, IfOk, IfSome};
ghost use Rattle.odata_ranges.specs.Owners.{NamesProperty, NamesSlotOf};
ghost use Rattle.sql_draft.specs.Paths.{PutsMemberPath, PutsPath};
ghost use Rattle.sql_draft.specs.private.Paths.{IsBottomOf, IsFirstStep, StepsLead};
ghost use Rattle.sql_draft.specs.Translated.{IsPathAt, IsTranslated, question_of};

use super::draft::Draft;
use super::sql_context::SqlContext;
use odata_checked_filter::NodeKind;
use odata_ranges::owner_of;
use odata_signatures::trees_have_one_type;
use sql_tree::{Base, Path, Step, Storage};
use std::alloc::AllocError;

/// The index of the node with which a path begins that stops with the node at an index.
fn lowest_of(context: &SqlContext<'_, '_>, place: usize) -> usize
    requires translated { IsTranslated context.now }
    requires path { IsPathAt context.now.checked.now place }
    ensures { IsBottomOf context.now.checked.now place result }
{
    let mut at = place;
    while let NodeKind::Member { .. } = context.node(at).kind {
        at += 1;
    }
    at
}

/// The slot in its owner that a node of such a kind names, if it names one.
fn slot_of(kind: NodeKind) -> Option<usize>
    ensures some { IfSome result (NamesSlotOf kind) }
    ensures none { IfNone result ((slot : ℕ) → ¬ NamesSlotOf kind slot) }
{
    match kind {
        NodeKind::Property { slot } => Some(slot),
        NodeKind::Member { slot } => Some(slot),
        _ => None,
    }
}

/// Where the path of the node at an index begins, by its lowest node, and the index from which on its steps go up.
fn base_of(
    context: &SqlContext<'_, '_>,
    draft: &Draft,
    place: usize,
    lowest: usize,
) -> (Base, usize)
    requires translated { IsTranslated context.now }
    requires path { IsPathAt context.now.checked.now place }
    requires bottom { IsBottomOf context.now.checked.now place lowest }
    ensures after { place ≤ result.1 }
    ensures inside { result.1 ≤ lowest + 1 }
    ensures names { (k : ℕ) → place ≤ k → k < result.1 → NamesProperty context.now.checked.now k }
    ensures leads { StepsLead (question_of context.now) draft.now.members.items result.0 [] lowest result.1 }
{
    match context.node(lowest).kind {
        NodeKind::Variable { level } => (
            Base::Member {
                level: draft.member_level(level),
            },
            lowest,
        ),
        // A step from `$it` is one from the row.
        NodeKind::It => base_of_row(context, place, lowest, lowest - 1),
        _ => base_of_row(context, place, lowest, lowest),
    }
}

/// The same of a path from the row, by the index of the node that is its first step.
fn base_of_row(
    context: &SqlContext<'_, '_>,
    place: usize,
    lowest: usize,
    first: usize,
) -> (Base, usize)
    requires translated { IsTranslated context.now }
    requires bottom { IsBottomOf context.now.checked.now place lowest }
    requires first { IsFirstStep context.now.checked.now lowest first }
    requires within { place ≤ first }
    ensures after { place ≤ result.1 }
    ensures inside { result.1 ≤ lowest + 1 }
    ensures names { (k : ℕ) → place ≤ k → k < result.1 → NamesProperty context.now.checked.now k }
    ensures leads { (levels : List ℕ) → StepsLead (question_of context.now) levels result.0 [] lowest result.1 }
{
    trees_have_one_type();
    if let Storage::Columns(_) = context.storage {
        if let Some(slot) = slot_of(context.node(first).kind) {
            return (Base::Column { slot }, first);
        }
    }
    (Base::Document, first + 1)
}

/// Adds the path that stops with the node at an index, and returns its number.
pub fn put_path(
    context: &SqlContext<'_, '_>,
    draft: &mut Draft,
    place: usize,
) -> Result<usize, AllocError>
    requires translated { IsTranslated context.now }
    requires path { IsPathAt context.now.checked.now place }
    ensures { IfOk result (λ number. PutsPath (question_of context.now) draft.old draft.new place number) }
{
    trees_have_one_type();
    let lowest = lowest_of(context, place);
    let (base, after) = base_of(context, draft, place, lowest);
    let mut steps = Vec::new(draft.alloc);
    let mut at = after;
    while place < at {
        at -= 1;
        if let Some(slot) = slot_of(context.node(at).kind) {
            steps.push(Step {
                owner: owner_of(context.checked, at),
                slot,
            })?;
        }
    }
    draft.add_path(Path { base, steps })
}

/// Adds the path of the member at a level, and returns its number.
pub fn put_member_path(draft: &mut Draft, level: usize) -> Result<usize, AllocError>
    ensures { IfOk result (λ number. PutsMemberPath draft.old draft.new level number) }
{
    let steps = Vec::new(draft.alloc);
    draft.add_path(Path {
        base: Base::Member { level },
        steps,
    })
}
