//! What holds of all trees. Each law is the contract of a function that does nothing.
ghost use Rattle.odata_syntax.specs.declared.binary_operator.ComparisonOperator.{ComparisonOperator};
ghost use Rattle.odata_syntax.specs.declared.binary_operator.LogicalOperator.{LogicalOperator};
ghost use Rattle.sql_meaning.specs.OneMeaning.{HaveOneMeaning};
ghost use Rattle.sql_meaning.specs.Tables.{IsAssociative, IsTableBesideNull, IsTableOf, IsTableOfComparison, IsTableOfNot};
ghost use Rattle.sql_meaning.specs.Worked.{HasNoMeaning, MeansNumber, number_term, one_by_zero};
ghost use Rattle.sql_tree.specs.declared.look_up.LookUp.{LookUp};
ghost use Rattle.sql_tree.specs.declared.sql_node.Digit.{Digit};

use edm_values::texts_have_one_value;
use odata_functions::{divisions_are_unique, texts_have_one_answer};
use odata_meaning::values_have_one_outcome;

/// The tables of `and`, `or` and `not` say what these make of truth values, null and faults.
pub fn tables_are_connectives()
    ensures and { IsTableOf LookUp.And LogicalOperator.And }
    ensures or { IsTableOf LookUp.Or LogicalOperator.Or }
    ensures not { IsTableOfNot LookUp.Not }
{}

/// The other tables of two codes say what the comparisons make of these.
pub fn tables_are_comparisons()
    ensures equal { IsTableOfComparison LookUp.Equal ComparisonOperator.Eq }
    ensures not_equal { IsTableOfComparison LookUp.NotEqual ComparisonOperator.Ne }
    ensures greater { IsTableOfComparison LookUp.Greater ComparisonOperator.Gt }
    ensures at_least { IsTableOfComparison LookUp.AtLeast ComparisonOperator.Ge }
    ensures less { IsTableOfComparison LookUp.Less ComparisonOperator.Lt }
    ensures at_most { IsTableOfComparison LookUp.AtMost ComparisonOperator.Le }
{}

/// The other tables of one code say what the comparisons with null make of these.
pub fn tables_beside_null()
    ensures equal { IsTableBesideNull LookUp.IsNull ComparisonOperator.Eq }
    ensures not_equal { IsTableBesideNull LookUp.IsNotNull ComparisonOperator.Ne }
    ensures greater { IsTableBesideNull LookUp.Never ComparisonOperator.Gt }
    ensures at_least { IsTableBesideNull LookUp.IsNull ComparisonOperator.Ge }
    ensures less { IsTableBesideNull LookUp.Never ComparisonOperator.Lt }
    ensures at_most { IsTableBesideNull LookUp.IsNull ComparisonOperator.Le }
{}

/// A chain of codes evaluates to the same however it is grouped.
pub fn chains_may_be_balanced()
    ensures and { IsAssociative LookUp.And }
    ensures or { IsAssociative LookUp.Or }
{}

/// No tree evaluates to two things on a row.
pub fn trees_have_one_meaning()
    ensures { HaveOneMeaning }
{
    values_have_one_outcome();
    texts_have_one_answer();
    divisions_are_unique();
    texts_have_one_value();
}

/// Trees whose meaning is known: a number, and a division by zero. That is outside its operator's domain.
pub fn trees_by_example()
    ensures number { MeansNumber (number_term Digit.Seven) 7 }
    ensures by_zero { HasNoMeaning one_by_zero }
{
    divisions_are_unique();
}
