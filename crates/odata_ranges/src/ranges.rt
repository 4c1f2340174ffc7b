//! The range of each node, from the last node to the first: the children of a node stand after it.
ghost use Rattle.std.specs.Prelude.{◌≡◌, ◌<◌, ◌≤◌, IfOk, Some, false, length, slice_get};
ghost use Rattle.odata_checked_filter.specs.Filter.{IsFilter};
ghost use Rattle.odata_checked_filter.specs.declared.checked_node.CheckedNode.{CheckedNode};
ghost use Rattle.odata_ranges.specs.Faults.{AreQuiet, AreReportedFrom, ReportsFaults};
ghost use Rattle.odata_ranges.specs.Ranges.{AreRangesOf, IsRangeAt};
ghost use Rattle.odata_ranges.specs.private.NodeForm.{AreKnownAfter, IsOwnRange};

use super::arithmetic_ranges::either;
use super::leaf_ranges::{of_leaf, of_step};
use super::list_ranges::{of_call, of_list};
use super::node_form::{NodeForm, form_of};
use super::node_lookups::{node_at, range_in};
use super::operator_ranges::{of_one, of_two};
use super::range::Range;
use odata_checked_filter::{Checked, CheckedNode};
use odata_signatures::{calls_have_one_type, trees_have_one_type};
use std::alloc::{AllocError, Global};

/// The range of each node, by its index. It takes for granted that a text of an entity has at most 268,435,456
/// characters and a collection at most 4,294,967,296 members.
pub fn ranges_of(alloc: Global, checked: &Checked<'_>) -> Result<Vec<Range>, AllocError>
    ensures { IfOk result (λ ranges. AreRangesOf checked.now ranges.items) }
{
    trees_have_one_type();
    calls_have_one_type();
    let count = checked.nodes().len();
    let mut ranges = blank(alloc, count)?;
    let mut place = count;
    while 0 < place {
        place -= 1;
        let found = range_at(checked, ranges.as_slice(), place);
        ranges[place] = found;
    }
    Ok(ranges)
}

/// As many ranges of nothing.
fn blank(alloc: Global, count: usize) -> Result<Vec<Range>, AllocError>
    ensures { IfOk result (λ ranges. length ranges.items ≡ count) }
{
    let mut ranges = Vec::with_capacity(alloc, count)?;
    let mut made = 0;
    while made < count {
        ranges.push(Range::plain(false))?;
        made += 1;
    }
    Ok(ranges)
}

/// The range of a node, of those of its children, with the faults of all nodes below it.
fn range_at(checked: &Checked<'_>, ranges: &[Range], place: usize) -> Range
    requires inside { place < length checked.now.list.nodes }
    requires known { AreKnownAfter checked.now place ranges.now }
    ensures right { IsRangeAt checked.now place result }
    ensures reported { (node : CheckedNode) → slice_get checked.now.list.nodes place ≡ Some node
        → ReportsFaults ranges.now place node result }
{
    let node = node_at(checked, place);
    let faults = any_fault(checked, ranges, place + 1, node.stop);
    own_range(checked, ranges, place, node).with_faults(faults)
}

/// Whether a node between two indices evaluates to a fault. What stands there is trees, one after another.
fn any_fault(checked: &Checked<'_>, ranges: &[Range], from: usize, stop: usize) -> bool
    requires as_many { length ranges.now ≡ length checked.now.list.nodes }
    requires inside { stop ≤ length checked.now.list.nodes }
    requires reported { AreReportedFrom checked.now from ranges.now }
    ensures none { result ≡ false → AreQuiet ranges.now from stop }
    ensures one { AreQuiet ranges.now from stop → result ≡ false }
{
    let mut found = false;
    let mut at = from;
    while at < stop {
        let node = node_at(checked, at);
        let range = range_in(ranges, at);
        found = either(found, range.may_fault);
        at = node.stop;
    }
    found
}

/// The range of the node at an index, of those of its children.
fn own_range(checked: &Checked<'_>, ranges: &[Range], place: usize, node: CheckedNode) -> Range
    requires filter { IsFilter checked.now }
    requires there { slice_get checked.now.list.nodes place ≡ Some node }
    requires known { AreKnownAfter checked.now place ranges.now }
    ensures { IsOwnRange checked.now ranges.now place node result }
{
    match form_of(node.kind) {
        NodeForm::Leaf => of_leaf(checked, place, node),
        NodeForm::Step { slot } => of_step(checked, ranges, place, node, slot),
        NodeForm::One => of_one(checked, ranges, place, node),
        NodeForm::Two => of_two(checked, ranges, place, node),
        NodeForm::List => of_list(checked, ranges, place, node),
        NodeForm::Call { function } => of_call(checked, ranges, place, node, function),
    }
}
