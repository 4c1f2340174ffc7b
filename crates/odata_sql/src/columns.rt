//! Whether the properties of a row that a filter names are stored.
ghost use Rattle.std.specs.Prelude.{◌≡◌, ◌↔◌, ◌<◌, IfSome, IsTrue, length};
ghost use Rattle.sql_tree.specs.TableModel.{storage_in};
ghost use Rattle.odata_sql.specs.Refusals.{AreBelow, HasColumns, is_it, it_at, own_slot, own_slot_at};

use odata_checked_filter::{Checked, CheckedNode, NodeKind};
use sql_tree::Storage;

/// Whether each property of the row that the filter names has a column, or the row is stored as JSON.
pub(crate) fn has_columns(checked: &Checked<'_>, storage: Storage<'_>) -> bool
    ensures { IsTrue result ↔ HasColumns checked.now.list.nodes (storage_in storage.entry) }
{
    match storage {
        Storage::Columns(names) => are_below(checked.nodes(), names.len()),
        Storage::Document(_) => true,
    }
}

/// Whether each slot of the row that the nodes name is below a number.
fn are_below(nodes: &[CheckedNode], count: usize) -> bool
    ensures { IsTrue result ↔ AreBelow count nodes.now }
{
    for at in 0..nodes.len() {
        if !is_below(own_slot_at(nodes, at), count) {
            return false;
        }
    }
    true
}

fn is_below(slot: Option<usize>, count: usize) -> bool
    ensures { IsTrue result ↔ IfSome slot (λ n. n < count) }
{
    match slot {
        Some(n) => n < count,
        None => true,
    }
}

/// The slot of the row that the node at an index names.
fn own_slot_at(nodes: &[CheckedNode], place: usize) -> Option<usize>
    requires { place < length nodes.now }
    ensures { result ≡ own_slot_at nodes.now place }
{
    own_slot(nodes[place].kind, it_at(nodes, place + 1))
}

/// The same by the kind of the node and whether `$it` comes after it.
fn own_slot(kind: NodeKind, before_it: bool) -> Option<usize>
    ensures { result ≡ own_slot kind before_it }
{
    match kind {
        NodeKind::Property { slot } => Some(slot),
        NodeKind::Member { slot } => if before_it { Some(slot) } else { None },
        _ => None,
    }
}

/// Whether the node at an index is `$it`.
fn it_at(nodes: &[CheckedNode], place: usize) -> bool
    ensures { result ≡ it_at nodes.now place }
{
    match nodes.get(place) {
        Some(node) => is_it(node.kind),
        None => false,
    }
}

fn is_it(kind: NodeKind) -> bool
    ensures { result ≡ is_it kind }
{
    match kind {
        NodeKind::It => true,
        _ => false,
    }
}
