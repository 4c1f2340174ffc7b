//! The value of a property, of a member or of a range variable.
ghost use Rattle.std.specs.Prelude.{OnOk};
ghost use Rattle.sql_outcomes.specs.private.ValueForms.{Itself};
ghost use Rattle.sql_draft.specs.Translated.{IsPathAt, IsTranslated, question_of};
ghost use Rattle.sql_outcomes.specs.private.NodesThere.{HasFieldType};
ghost use Rattle.sql_draft.specs.World.{OfPlace, Puts};

use odata_meaning::typed_trees_end_once_on_entities;
use sql_draft::{Draft, SqlContext, put_path};
use sql_tree::{Base, FieldType, SqlNode};
use std::alloc::AllocError;

/// Puts the value of such a type in JSON to which the path leads that stops with the node at an index.
pub(crate) fn put_path_value(
    context: &SqlContext<'_, '_>,
    draft: &mut Draft,
    place: usize,
    value_type: FieldType,
) -> Result<(), AllocError>
    requires translated { IsTranslated context.now }
    requires path { IsPathAt context.now.checked.now place }
    requires value { HasFieldType context.now.checked.now place value_type }
    ensures { OnOk result (Puts (question_of context.now) draft.old draft.new
        (OfPlace context.now.checked.now place) Itself) }
{
    typed_trees_end_once_on_entities();
    let path = put_path(context, draft, place)?;
    let found = &draft.tree.paths[path];
    let column = match found.base {
        Base::Column { slot } => {
            if found.steps.as_slice().is_empty() {
                Some(slot)
            } else {
                None
            }
        }
        _ => None,
    };
    match column {
        Some(slot) => draft.put(SqlNode::Column { slot }),
        None => draft.put(SqlNode::Field { path, value_type }),
    }
}
