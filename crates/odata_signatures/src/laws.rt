//! What holds of all calls, and of operands that are not read. Each law is the contract of a function that does
//! nothing.
ghost use Rattle.std.specs.Prelude.{◌≡◌, ℕ, ℤ, List};
ghost use Rattle.csdl_schema.specs.ExprType.{ExprType};
ghost use Rattle.csdl_schema.specs.SchemaModel.{Slots};
ghost use Rattle.odata_signatures.specs.CallTyped.{CallReason, CallTyped};
ghost use Rattle.odata_signatures.specs.Functions.{IsNamed};
ghost use Rattle.odata_signatures.specs.QuotedNumber.{IsQuotedNumber};
ghost use Rattle.odata_signatures.specs.Unread.{FlagsByTypes, ItemsByTypes, OperandsByTypes, TextsApart};
ghost use Rattle.odata_signatures.specs.declared.call.CallFault.{CallFault};
ghost use Rattle.odata_signatures.specs.declared.function.Function.{Function};

use edm_enumerations::texts_have_one_value;

/// A call has at most one type, at most one reason why it has none, and not both. A function has a name of its own.
pub fn calls_have_one_type()
    ensures named { (f g : Function) (name : List ℕ) → IsNamed f name → IsNamed g name → f ≡ g }
    ensures one { (name : List ℕ) (types : List ExprType) (t u : ExprType)
        → CallTyped name types t → CallTyped name types u → t ≡ u }
    ensures reason { (name : List ℕ) (types : List ExprType) (fault other : CallFault)
        → CallReason name types fault → CallReason name types other → fault ≡ other }
    ensures apart { (name : List ℕ) (types : List ExprType) (fault : CallFault) → CallReason name types fault
        → (t : ExprType) → ¬ CallTyped name types t }
{}

/// A law: operators, `has` and `in` before a list go by the types of their operands alone. That is where none is
/// an enumeration literal without its type; and by these types a String goes with no enumeration.
pub fn unread_operands_go_by_types()
    ensures operands { OperandsByTypes }
    ensures flags { FlagsByTypes }
    ensures items { ItemsByTypes }
    ensures apart { TextsApart }
{}

/// A law: a String literal stands for one number of an enumeration at most.
pub fn quoted_texts_have_one_number()
    ensures { (slots : Slots) (name spelling : List ℕ) (m n : ℤ) → IsQuotedNumber slots name spelling m
        → IsQuotedNumber slots name spelling n → m ≡ n }
{
    texts_have_one_value();
}
