ghost use Rattle.std.specs.Prelude.{◌≤◌, length, IfSome};
ghost use Rattle.json_room.specs.ValueStands.{ValueStands};
ghost use Rattle.collection_items.specs.JudgedItems.{ItemJudge, SaysNoMore};

use json_room::RoomyLine;

/// Judges the items of a collection where they stand. It may keep scratch space from item to item.
pub trait JudgesItems {
    // What may be said of an item that is kept, and of one that is left out. It depends on the item alone.
    ghost says: { Self → ItemJudge };

    /// Whether the item that begins at an offset is kept, and the offset after it. `None` says nothing of it.
    fn item(&mut self, document: &RoomyLine<'_>, place: usize) -> Option<(bool, usize)>
        requires within { place ≤ length document.now }
        ensures judged { IfSome result (λ found. ValueStands 125 document.now place found.1
            (λ json. says self.old json found.0)) }
        ensures same { SaysNoMore (says self.old) (says self.new) };
}
