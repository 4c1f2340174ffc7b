//! What `$count`, `any()`, `in` and `has` make of values that are there. A collection is borrowed, and so are its
//! members.
ghost use Rattle.std.specs.Prelude.{◌≡◌, IfSome, IsSomeAnd, None};
ghost use Rattle.csdl_schema.specs.ExprType.{ExprType, SingleType, collection};
ghost use Rattle.csdl_schema.specs.SchemaModel.{Slots};
ghost use Rattle.odata_functions.specs.DatumVal.{Reading, datum_val};
ghost use Rattle.odata_filter_operations.specs.CollectionGives.{AnyItemGives, CountGives};
ghost use Rattle.odata_filter_operations.specs.HasGives.{HasGives};
ghost use Rattle.odata_filter_operations.specs.LambdaGives.{InGives};
ghost use Rattle.odata_filter_operations.specs.Outcome.{gives};
ghost use Rattle.odata_filter_operations.specs.DatumView.{answer_outcome, reading_at};
ghost use Rattle.odata_filter_operations.specs.Collections.{AreCompared, AreComparedIn, HasMembers, IsAmong};
ghost use Rattle.odata_filter_operations.specs.Collections.{IsOfEnumeration, MayBeAmong, MayBeMember};
ghost use Rattle.odata_filter_operations.specs.TruthGives.{truth_val};

use super::eval_fault::EvalFault;
use super::stored_values::datum_of;
use edm_values::{Datum, Value};
use odata_functions::{compare, comparisons_are_decided, has_bits};
use odata_syntax::ComparisonOperator;

/// Returns how many members a collection has; null of null.
pub fn count_of<'e>(base: Datum<'_>) -> Result<Datum<'e>, EvalFault>
    requires { HasMembers base }
    ensures { (slots : Slots) (member : SingleType) (s : Reading) → IsSomeAnd (answer_outcome (datum_val s) result)
        (CountGives (datum_val (reading_at slots (collection member)) base.entry)) }
{
    let Datum::List(members) = base else {
        return Ok(Datum::Null);
    };
    match i64::try_from(members.len()) {
        Ok(count) => Ok(Datum::Int(count)),
        Err(_) => Err(EvalFault::Overflow),
    }
}

/// Returns whether a collection has a member; null of null.
pub fn any_item_of<'e>(base: Datum<'_>) -> Datum<'e>
    requires { HasMembers base }
    ensures { (slots : Slots) (member : SingleType) (s : Reading)
        → AnyItemGives (datum_val (reading_at slots (collection member)) base.entry) (gives (datum_val s result)) }
{
    let Datum::List(members) = base else {
        return Datum::Null;
    };
    Datum::Bool(!members.is_empty())
}

/// What `in` makes of a value and a collection.
#[derive(Clone, Copy)]
pub struct ComparedMembers {
    /// Whether the value is equal to a member; `None` where the collection is null.
    pub truth: Option<bool>,
    /// How many members were compared with the value: those up to the first that is equal.
    pub compared: usize,
}

/// Returns whether a value is equal to a member of a collection. It also returns how many members were compared. Over
/// null there is no truth value and no member.
pub fn among(left: &Datum<'_>, path: &Datum<'_>) -> ComparedMembers
    requires { (slots : Slots) × (type : ExprType) × (member : SingleType)
        × MayBeAmong slots type member left.now path.now }
    ensures truth { (slots : Slots) (type : ExprType) (member : SingleType)
        → MayBeAmong slots type member left.now path.now
        → InGives (datum_val (reading_at slots type) left.now)
        (datum_val (reading_at slots (collection member)) path.now) (gives (truth_val result.truth)) }
    ensures compared { AreComparedIn left.now path.now result.compared }
{
    match path {
        Datum::List(members) => among_members(left, members),
        _ => ComparedMembers {
            truth: None,
            compared: 0,
        },
    }
}

/// The same, over the members of a collection.
fn among_members(left: &Datum<'_>, members: &[Value]) -> ComparedMembers
    requires { (slots : Slots) × (type : ExprType) × (member : SingleType)
        × MayBeMember slots type member left.now members.now }
    ensures truth { IfSome result.truth (IsAmong left.now members.now) }
    ensures some { ¬ (result.truth ≡ None) }
    ensures compared { AreCompared left.now members.now result.compared }
{
    comparisons_are_decided();
    for at in 0..members.len() {
        if compare(ComparisonOperator::Eq, left, &datum_of(&members[at])) {
            return ComparedMembers {
                truth: Some(true),
                compared: at + 1,
            };
        }
    }
    ComparedMembers {
        truth: Some(false),
        compared: members.len(),
    }
}

/// Returns whether an enumeration's value has every bit of the other; null where one is null.
pub fn flags_of<'e>(left: &Datum<'_>, right: &Datum<'_>) -> Datum<'e>
    requires left { IsOfEnumeration left.now }
    requires right { IsOfEnumeration right.now }
    ensures { (l r s : Reading)
        → HasGives (datum_val l left.now) (datum_val r right.now) (gives (datum_val s result)) }
{
    match left {
        Datum::Enum(value) => match right {
            Datum::Enum(flags) => Datum::Bool(has_bits(*value, *flags)),
            _ => Datum::Null,
        },
        _ => Datum::Null,
    }
}
