//! The ranges of nodes before lists: `in`, and calls of functions.
ghost use Rattle.std.specs.Prelude.{◌≡◌, ◌<◌, ◌≤◌, ◌||◌, IsFalse, Some, length, slice_get};
ghost use Rattle.odata_ranges.specs.Faults.{AreQuiet};
ghost use Rattle.odata_ranges.specs.declared.node_form.NodeForm.{NodeForm};
ghost use Rattle.odata_ranges.specs.private.NodeForm.{AreKnownAfter, HasForm, IsOwnRange};
ghost use Rattle.odata_ranges.specs.private.Values.{Covers, CoversLine, LieBetween};

use super::function_ranges::called;
use super::node_lookups::{node_at, range_in};
use super::range::Range;
use odata_checked_filter::{Checked, CheckedNode};
use odata_meaning::typed_trees_end_once;
use odata_signatures::{Function, calls_have_one_type};

/// A fault and null where one of the trees between two indices has them.
fn flags_between(checked: &Checked<'_>, ranges: &[Range], from: usize, stop: usize) -> Range
    requires as_many { length ranges.now ≡ length checked.now.list.nodes }
    requires lie { LieBetween checked.now from stop }
    ensures covers { CoversLine checked.now ranges.now result from stop }
    ensures quiet { AreQuiet ranges.now from stop → IsFalse result.may_fault }
{
    let mut flags = Range::plain(false);
    let mut at = from;
    while at < stop {
        let node = node_at(checked, at);
        let range = range_in(ranges, at);
        flags = joined(flags, range);
        at = node.stop;
    }
    flags
}

/// The flags of both.
fn joined(flags: Range, range: Range) -> Range
    ensures first { Covers result flags }
    ensures second { Covers result range }
    ensures bounds { (result.low ≡ flags.low) × (result.high ≡ flags.high) }
    ensures faults { result.may_fault ≡ (flags.may_fault || range.may_fault) }
{
    flags
        .with_faults(range.may_fault)
        .with_null(range.may_be_null)
}

/// The range of `in` before a list: true or false, or the first fault.
pub(crate) fn of_list(
    checked: &Checked<'_>,
    ranges: &[Range],
    place: usize,
    node: CheckedNode,
) -> Range
    requires form { HasForm checked.now place node NodeForm.List }
    requires known { AreKnownAfter checked.now place ranges.now }
    ensures { IsOwnRange checked.now ranges.now place node result }
{
    let flags = flags_between(checked, ranges, place + 1, node.stop);
    Range::plain(false).with_faults(flags.may_fault)
}

/// The range of a call: null where an argument is, and the fault of an argument.
pub(crate) fn of_call(
    checked: &Checked<'_>,
    ranges: &[Range],
    place: usize,
    node: CheckedNode,
    function: Function,
) -> Range
    requires form { HasForm checked.now place node (NodeForm.Call function) }
    requires known { AreKnownAfter checked.now place ranges.now }
    ensures { IsOwnRange checked.now ranges.now place node result }
{
    typed_trees_end_once();
    calls_have_one_type();
    let next = node_at(checked, place + 1);
    let first = range_in(ranges, place + 1);
    let second = second_or(ranges, next.stop, node.stop, first);
    let flags = flags_between(checked, ranges, place + 1, node.stop);
    let plain = called(function, first, second);
    joined(plain, flags)
}

/// The range at an index before the stop, else another one.
fn second_or(ranges: &[Range], place: usize, stop: usize, otherwise: Range) -> Range
    requires { place < stop → place < length ranges.now }
    ensures there { place < stop → slice_get ranges.now place ≡ Some result }
    ensures past { stop ≤ place → result ≡ otherwise }
{
    if place < stop {
        ranges[place]
    } else {
        otherwise
    }
}
