//! What stands at an index: of a filter's nodes and values, and of the ranges of nodes.
ghost use Rattle.std.specs.Prelude.{◌≡◌, ◌<◌, Some, length, slice_get};
ghost use Rattle.odata_checked_filter.specs.Filter.{IsFilter};

use super::range::Range;
use edm_values::Value;
use odata_checked_filter::{Checked, CheckedNode};

pub(crate) fn node_at(checked: &Checked<'_>, place: usize) -> CheckedNode
    requires { place < length checked.now.list.nodes }
    ensures found { slice_get checked.now.list.nodes place ≡ Some result }
    ensures right { IsFilter checked.now }
{
    checked.nodes()[place]
}

pub(crate) fn value_at<'c>(checked: &'c Checked<'_>, place: usize) -> &'c Value
    requires { place < length checked.now.list.values }
    ensures { slice_get checked.entry.now.list.values place ≡ Some result.now }
{
    &checked.values()[place]
}

pub(crate) fn range_in(ranges: &[Range], place: usize) -> Range
    requires { place < length ranges.now }
    ensures { slice_get ranges.now place ≡ Some result }
{
    ranges[place]
}
