ghost use Rattle.std.specs.Prelude.{◌≤◌, length, take, IfOk, IfSome, IsTrue};
ghost use Rattle.std.specs.Str.{IsAscii};
ghost use Rattle.line_filter.specs.LineItems.{LineJudge, SaysTheSame};
ghost use Rattle.line_filter.specs.Lines.{IsBlank};
ghost use Rattle.line_filter.specs.ItemIndexes.{ItemJudge};

use std::alloc::AllocError;

/// The judgment of an item. It is what a run needs to know of a verdict, and a fault that the judge alone can name. The
/// item is a line that is neither too long nor blank, or what stands in a list.
#[derive(Debug, Drop)]
pub enum Judgment<F> {
    Kept,
    LeftOut,
    Fault(F),
}

/// Looks at lines that are neither too long nor blank, one by one. It may keep scratch space from line to line.
pub trait Judge {
    /// What can be wrong with a line.
    type Fault: Drop;

    // What may be said of a line. It depends on the line alone.
    ghost says: { Self → LineJudge Self.Fault };

    /// Judges the line at the front of the bytes, where it can at once. Otherwise it is `None`, and `judge` judges the
    /// line. `count` is the line's length; the bytes after it decide nothing. A line for which `is_ascii` is set is of
    /// ASCII, and another may be. A blank line is left to `judge`'s caller. `number` is the line's, from 1. Its clauses
    /// say nothing of `None`.
    fn judge_at_front(
        &mut self,
        bytes: &[u8],
        count: usize,
        is_ascii: bool,
        number: u64,
    ) -> Option<Judgment<Self::Fault>>
        requires ascii { IsTrue is_ascii → IsAscii (take count bytes.now) }
        requires within { count ≤ length bytes.now }
        ensures said { IfSome result (says self.old (take count bytes.now)) }
        ensures not_blank { IfSome result (λ _. ¬ IsBlank (take count bytes.now)) }
        ensures same { SaysTheSame (says self.old) (says self.new) };

    /// Judges the line of that number, without its LF. `Err` says that an allocation failed, and ends the run.
    fn judge(&mut self, line: &[u8], number: u64) -> Result<Judgment<Self::Fault>, AllocError>
        ensures said { IfOk result (says self.old line.now) }
        ensures same { SaysTheSame (says self.old) (says self.new) };
}

/// What may be said of items, whatever they are in memory. A law speaks of items by it; it has no calls.
pub trait SaysOfItems {
    /// What can be wrong with an item.
    type Fault;

    // The items.
    ghost Item: { Type 0 };

    // What may be said of an item. It depends on the item alone.
    ghost says: { Self → ItemJudge Self.Item Self.Fault };
}

/// Looks at the items of a list, one by one.
pub trait JudgeItem {
    /// What stands in the list.
    type Item;

    /// What can be wrong with an item.
    type Fault: Drop;

    // What may be said of an item. It depends on the item alone.
    ghost says: { Self → ItemJudge Self.Item Self.Fault };

    /// Judges one item. `Err` says that an allocation failed, and ends the run.
    fn judge_item(&self, item: &Self::Item) -> Result<Judgment<Self::Fault>, AllocError>
        ensures { IfOk result (says self.now item.now) };
}
