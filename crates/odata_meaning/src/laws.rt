//! Laws of what expressions mean, as contracts of functions that do nothing but cite others.
ghost use Rattle.std.specs.Prelude.{◌≡◌, ℕ, List, pos, true, false, codes, length, [], ◌∷◌};
ghost use Rattle.edm_values.specs.Val.{Val, boolean, item, items, no_items, null, text, whole};
ghost use Rattle.odata_syntax.specs.FirstRun.{first_run_tree};
ghost use Rattle.odata_syntax.specs.Tree.{Tree, any_item, count, in_list, in_path, trees_of_list};
ghost use Rattle.odata_syntax.specs.declared.node.Quantifier.{Quantifier};
ghost use Rattle.odata_syntax.specs.declared.node.Quantifier.TheVariants.{All, Any};
ghost use Rattle.odata_meaning.specs.CostsOnce.{CostsNothingWithoutLambdas, CostsOnceOnEntities};
ghost use Rattle.odata_meaning.specs.EndsOnce.{EndsOnceOnEntities, TypedEndsOnce};
ghost use Rattle.odata_meaning.specs.EndsOnceAtPaths.{TypedEndsOnceAtPaths};
ghost use Rattle.odata_meaning.specs.ConformsAtPaths.{AreAllNeededAlike, ConformAtPaths, EndsOnceAtPathsOnEntities};
ghost use Rattle.odata_meaning.specs.ConformsAtPaths.{FitAtAnyPaths, HaveTypesAtEveryPath};
ghost use Rattle.csdl_schema.specs.SchemaModel.{Slots};
ghost use Rattle.odata_meaning.specs.ComesTo.{ComesTo, ComesToIn, false_and_missing, item_value};
ghost use Rattle.odata_meaning.specs.ComesToMembers.{ComesToOn, all_alike, is_null, named, null_literal, one_div_zero};
ghost use Rattle.odata_meaning.specs.ComesToMembers.{over_tags, text_and_null};
ghost use Rattle.odata_meaning.specs.OneByOne.{ComparedOneByOne, ItemsOneByOne, MembersOneByOne};
ghost use Rattle.odata_meaning.specs.OneOutcome.{ValuesHaveOneOutcome};
ghost use Rattle.odata_filter_operations.specs.Outcome.{gives, divides_by_zero};
ghost use Rattle.odata_meaning.specs.SomeCosts.{CostsOnTags, doubled_is_null, fault_first, is_itself, is_listed, is_member};
ghost use Rattle.odata_meaning.specs.UnreadMeans.{FlagsAlone, ItemsAlone, OperandsAlone};
ghost use Rattle.odata_meaning.specs.SameMeaning.{NormalFormsKeepOutcomes, CanonicalTextsKeepOutcomes};
ghost use Rattle.odata_meaning.specs.private.LawsBelow.{OneEach, Promotes, SomeEach};

use edm_entities::{spelled_values_lie_within, what_fits_has_its_type};
use odata_functions::{
    arithmetic_has_one_answer, bits_are_decided, comparisons_are_decided,
    day_numbers_have_one_date, operands_lie_within_promotion, texts_have_one_answer,
};
use odata_signatures::{
    calls_have_one_type, literals_have_one_value, normal_forms_keep_types,
    quoted_texts_have_one_number, quoting_trees_are_texts, trees_have_one_type,
    unread_operands_go_by_types,
};
use odata_syntax::{canonical_texts_read_back, one_tree};
use odata_text::one_list_of_any_length;

/// What the laws of the layers below say, together: what makes outcomes the only ones, what gives them, and where
/// operands lie.
fn laws_below()
    ensures one { OneEach }
    ensures some { SomeEach }
    ensures promotes { Promotes }
{
    literals_have_one_value();
    trees_have_one_type();
    arithmetic_has_one_answer();
    comparisons_are_decided();
    bits_are_decided();
    spelled_values_lie_within();
    operands_lie_within_promotion();
    calls_have_one_type();
    texts_have_one_answer();
    day_numbers_have_one_date();
    quoted_texts_have_one_number();
    quoting_trees_are_texts();
    unread_operands_go_by_types();
}

/// A law: an expression that has a type has exactly one outcome on every value at paths. The value is of the filtered
/// type and has all expanded that the expression needs, at every moment and whatever the range variables around it
/// hold, each a value of its type at a path. The outcome is a value of its type at its path, or the fault of an
/// arithmetic operator. Nothing is asked of what is not needed.
pub fn typed_trees_end_once_at_paths()
    ensures { TypedEndsOnceAtPaths }
{
    laws_below();
}

/// A law: a typed expression has one outcome apart from paths. There each value is of its type whatever is needed in
/// it.
pub fn typed_trees_end_once()
    ensures { TypedEndsOnce }
{
    typed_trees_end_once_at_paths();
}

/// A law: a typed expression has one outcome on every entity of that type.
pub fn typed_trees_end_once_on_entities()
    ensures { EndsOnceOnEntities }
{
    typed_trees_end_once();
    what_fits_has_its_type();
}

/// A law: a typed expression has exactly one cost on every entity. It is none where no lambda operator stands in it, and
/// all texts are below a KiB.
pub fn typed_trees_cost_once_on_entities()
    ensures once { CostsOnceOnEntities }
    ensures nothing { CostsNothingWithoutLambdas }
{
    typed_trees_end_once();
    what_fits_has_its_type();
    laws_below();
}

/// A law: a value of a type has that type at every path, whatever is needed. So have the values of variables, at any
/// paths, and what some JSON fits as an entity. No other value has it where all is needed.
pub fn values_have_types_at_paths()
    ensures values { HaveTypesAtEveryPath }
    ensures all_needed { AreAllNeededAlike }
    ensures variables { FitAtAnyPaths }
    ensures fits { ConformAtPaths }
{
    what_fits_has_its_type();
}

/// A law: a typed expression ends once on every entity, with range variables at paths of their own. That is where all
/// is needed that it needs.
pub fn entities_end_once_at_paths()
    ensures { EndsOnceAtPathsOnEntities }
{
    typed_trees_end_once_at_paths();
    values_have_types_at_paths();
}

/// A law: a comparison, a function and a step to a property have one outcome at most. That is of the same values.
pub fn values_have_one_outcome()
    ensures { ValuesHaveOneOutcome }
{
    laws_below();
}

/// A law: members and items taken one by one evaluate to what the definitions say by their indexes. They are the
/// members of a collection and the items of a list, from the first on.
pub fn one_by_one()
    ensures members { MembersOneByOne }
    ensures compared { ComparedOneByOne }
    ensures items { ItemsOneByOne }
{}

/// A law: an operator, `has` and an item of a list evaluate to what their operands alone make. That is where none of
/// them is an enumeration literal without its type.
pub fn unread_operands_stand_alone()
    ensures operands { OperandsAlone }
    ensures flags { FlagsAlone }
    ensures items { ItemsAlone }
{}

/// A law: a tree, its normal form and the tree of its canonical text have the same outcomes. That is on every value and
/// whatever the range variables around hold.
pub fn canonical_texts_keep_outcomes()
    ensures normal { NormalFormsKeepOutcomes }
    ensures printed { CanonicalTextsKeepOutcomes }
{
    normal_forms_keep_types();
    canonical_texts_read_back();
    one_list_of_any_length();
    one_tree();
}

/// Worked outcomes of `Active and ID eq 1 and Name eq 'a'` and of `false and Missing`. The first is on the items
/// `{"ID":1,"Name":"a","Active":true}`, `{"ID":1,"Name":"b","Active":true}` and `{"ID":2,"Name":"a","Active":false}`
/// where no type is an enumeration, the second on any value.
pub fn first_run_comes_to()
    ensures kept { ComesTo first_run_tree (item_value (pos 1) (codes "a") true) (gives (boolean true)) }
    ensures other_name { ComesTo first_run_tree (item_value (pos 1) (codes "b") true) (gives (boolean false)) }
    ensures inactive { ComesTo first_run_tree (item_value (pos 2) (codes "a") false) (gives (boolean false)) }
    ensures right_side_left_out { (slots : Slots) (value : Val)
        → ComesToIn slots false_and_missing value (gives (boolean false)) }
{
    laws_below();
}

/// Worked outcomes of `any`, `all`, `in`, `$count` and `any()`. The members are `'a'` and null of a property `Tags`, or
/// none, or it is null: `t` and `u` are range variables.
pub fn members_come_to()
    ensures some { ComesToOn text_and_null (over_tags Any is_null) (gives (boolean true)) }
    ensures not_all { ComesToOn text_and_null (over_tags All is_null) (gives (boolean false)) }
    ensures null_body_of_any { ComesToOn text_and_null (over_tags Any null_literal) (gives (boolean false)) }
    ensures null_body_of_all { ComesToOn text_and_null (over_tags All null_literal) (gives (boolean false)) }
    ensures any_of_none { (body : Tree) → ComesToOn (items no_items) (over_tags Any body) (gives (boolean false)) }
    ensures all_of_none { (body : Tree) → ComesToOn (items no_items) (over_tags All body) (gives (boolean true)) }
    ensures of_null { (quantifier : Quantifier) (body : Tree)
        → ComesToOn null (over_tags quantifier body) (gives null) }
    ensures outer_variable { ComesToOn text_and_null (over_tags Any all_alike) (gives (boolean false)) }
    ensures fault_behind { (tags : Val)
        → ComesToOn tags (in_list null_literal (trees_of_list (null_literal ∷ one_div_zero ∷ [])))
        (gives (boolean true)) }
    ensures fault_before { (tags : Val)
        → ComesToOn tags (in_list null_literal (trees_of_list (one_div_zero ∷ null_literal ∷ []))) divides_by_zero }
    ensures two_counted { ComesToOn text_and_null (count (named (codes "Tags"))) (gives (whole (pos 2))) }
    ensures null_counted { ComesToOn null (count (named (codes "Tags"))) (gives null) }
    ensures any_member { ComesToOn text_and_null (any_item (named (codes "Tags"))) (gives (boolean true)) }
    ensures null_member { ComesToOn text_and_null (in_path null_literal (named (codes "Tags"))) (gives (boolean true)) }
    ensures in_null { ComesToOn null (in_path null_literal (named (codes "Tags"))) (gives null) }
{
    laws_below();
}

/// Worked costs of filters on the same members. `any` asks for the second member's body, `all` for the first one's
/// alone; an operator in another one for its own each time; a list within a body for its items, and a collection there
/// for its members, up to the one that is equal; a comparison of texts for their whole KiB, and a call for 8 times
/// those and 16 times the whole KiB that it makes; nothing is asked for over null, over none, and after a fault.
pub fn members_cost()
    ensures some { CostsOnTags text_and_null (over_tags Any is_null) 2 }
    ensures not_all { CostsOnTags text_and_null (over_tags All is_null) 1 }
    ensures within { CostsOnTags text_and_null (over_tags Any all_alike) 5 }
    ensures listed { CostsOnTags text_and_null (over_tags All is_listed) 3 }
    ensures compared { CostsOnTags text_and_null (over_tags All is_member) 5 }
    ensures long_texts { (s : List ℕ) → length s ≡ 2048
        → CostsOnTags (items (item (text s) no_items)) (over_tags Any is_itself) 5 }
    ensures made_texts { (s : List ℕ) → length s ≡ 2048
        → CostsOnTags (items (item (text s) no_items)) (over_tags Any doubled_is_null) 97 }
    ensures of_none { (quantifier : Quantifier) (body : Tree)
        → CostsOnTags (items no_items) (over_tags quantifier body) 0 }
    ensures of_null { (quantifier : Quantifier) (body : Tree) → CostsOnTags null (over_tags quantifier body) 0 }
    ensures fault_first { CostsOnTags text_and_null fault_first 0 }
{}
