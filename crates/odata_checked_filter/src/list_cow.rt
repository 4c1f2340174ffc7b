//! Where a filter has its list, and what it needs of navigation.
ghost use Rattle.std.specs.Prelude.{◌≡◌};
ghost use Rattle.odata_checked_filter.specs.private.KeptLists.{expansion_in, list_in};

use super::node_list::NodeList;
use csdl_schema::Expansion;

/// The list and the expansion of a filter: its own, or those that are stored elsewhere.
#[derive(Drop)]
pub(crate) enum ListCow<'s> {
    Own(NodeList, Expansion),
    Borrowed(&'s NodeList, &'s Expansion),
}

impl ListCow<'_> {
    /// The list.
    pub(crate) fn list(&self) -> &NodeList
        ensures { result.now ≡ list_in self.now }
    {
        match self {
            ListCow::Own(list, _) => list,
            ListCow::Borrowed(list, _) => *list,
        }
    }

    /// The expansion.
    pub(crate) fn expansion(&self) -> &Expansion
        ensures { result.now ≡ expansion_in self.now }
    {
        match self {
            ListCow::Own(_, expansion) => expansion,
            ListCow::Borrowed(_, expansion) => *expansion,
        }
    }
}
