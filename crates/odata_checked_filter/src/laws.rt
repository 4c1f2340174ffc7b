ghost use Rattle.odata_checked_filter.specs.CanonicalFilters.{AreCoveredAlike, ExpandTheSame, HaveAsManyNodes};
ghost use Rattle.odata_checked_filter.specs.CanonicalFilters.{HaveOneTypeAt, HaveSameTypesAt, OfCanonicalTexts};
ghost use Rattle.odata_checked_filter.specs.Laws.{ItemListStands, KeptStands, OneSlotAt, OneTree, OneTypeAt};
ghost use Rattle.odata_checked_filter.specs.Laws.{PathsOfNodes, PathsOnce, PutChanges, PutStands};

use odata_signatures::{
    canonical_texts_keep_types, canonical_texts_need_the_same, normal_forms_keep_types,
    trees_have_one_type,
};
use odata_text::tokens_are_spelled;

/// A law: a list of nodes stands for one tree at most. That is the one that `tree_of_nodes` gives.
pub fn a_list_stands_for_one_tree()
    ensures { OneTree }
{}

/// A law: the list of `Active and ID eq 1` is read as its tree.
pub fn a_list_is_read_as_its_tree()
    ensures { ItemListStands }
{}

/// A law: a node that is put before its children stands for its tree there. What stands elsewhere in the list stands
/// there still.
pub fn nodes_stand_where_they_are_put()
    ensures kept { KeptStands }
    ensures changes { PutChanges }
    ensures put { PutStands }
{}

/// A law: a node's number has one type and one slot at most.
pub fn numbers_have_one_type_and_slot()
    ensures types { OneTypeAt }
    ensures slots { OneSlotAt }
{
    trees_have_one_type();
}

/// A law: a filter and the filter of its canonical text have the same types, node by node. They have as many nodes, and
/// the same paths in their expansions. So an entity that has all expanded which the one needs has all which the other
/// needs.
pub fn canonical_texts_keep_filters()
    ensures count { OfCanonicalTexts HaveAsManyNodes }
    ensures types { OfCanonicalTexts HaveSameTypesAt }
    ensures one { OfCanonicalTexts HaveOneTypeAt }
    ensures paths { OfCanonicalTexts ExpandTheSame }
    ensures covers { OfCanonicalTexts AreCoveredAlike }
{
    trees_have_one_type();
    normal_forms_keep_types();
    canonical_texts_keep_types();
    canonical_texts_need_the_same();
    tokens_are_spelled();
}

/// A law: the property paths of a tree are those that some node of it names, each once.
pub fn property_paths_stand_once()
    ensures once { PathsOnce }
    ensures nodes { PathsOfNodes }
{}
