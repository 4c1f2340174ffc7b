//! What holds of all values. Each law is the contract of a function that does nothing.
ghost use Rattle.std.specs.Prelude.{◌≡◌, ◌≢◌, ◌↔◌, ℕ, ℤ, pos, Bool, IsTrue, List, Option, Some, Result, IfSome};
ghost use Rattle.std.specs.Ordering.{nat_cmp};
ghost use Rattle.std.specs.Str.{IsUtf8, chars};
ghost use Rattle.std.specs.Cmp.Lexicographic.{slice_cmp};
ghost use Rattle.edm_values.specs.NumberTypes.{IsNumberType, IsNumberOf};
ghost use Rattle.edm_values.specs.declared.primitive.PrimitiveType.{PrimitiveType};
ghost use Rattle.edm_values.specs.Val.{Val};
ghost use Rattle.edm_values.specs.declared.datum.Datum.{Datum};
ghost use Rattle.edm_values.specs.declared.value.Value.{Value};
ghost use Rattle.odata_functions.specs.Arithmetic.{ArithmeticGives, NegationGives};
ghost use Rattle.odata_functions.specs.Bits.{HasBits};
ghost use Rattle.odata_functions.specs.Comparable.{AreComparableBy};
ghost use Rattle.odata_functions.specs.Comparison.{ComparesTrue, text_cmp};
ghost use Rattle.odata_functions.specs.DatumVal.{Reading, datum_val};
ghost use Rattle.odata_functions.specs.Division.{IsDivision};
ghost use Rattle.odata_functions.specs.KeptVal.{Contents, kept_val};
ghost use Rattle.odata_functions.specs.Promotion.{promotion, negation_type, IsPromoted};
ghost use Rattle.odata_functions.specs.declared.arithmetic.ArithFault.{ArithFault};
ghost use Rattle.odata_syntax.specs.declared.binary_operator.ArithmeticOperator.{ArithmeticOperator};
ghost use Rattle.odata_syntax.specs.declared.binary_operator.ComparisonOperator.{ComparisonOperator};

/// Texts are in the order of their bytes in UTF-8, and equal where these are.
pub fn texts_in_byte_order()
    ensures order { (s t : List ℕ) → IsUtf8 s → IsUtf8 t → text_cmp s t ≡ slice_cmp nat_cmp s t }
    ensures equal { (s t : List ℕ) → IsUtf8 s → IsUtf8 t → (chars s ≡ chars t) ↔ (s ≡ t) }
{}

/// Two numbers have one quotient and one remainder, unless the second is zero; then they have none.
pub fn divisions_are_unique()
    ensures there { (a b : ℤ) → b ≢ pos 0 → (q : ℤ) × (r : ℤ) × IsDivision a b q r }
    ensures quotient { (a b q r p s : ℤ) → IsDivision a b q r → IsDivision a b p s → q ≡ p }
    ensures remainder { (a b q r p s : ℤ) → IsDivision a b q r → IsDivision a b p s → r ≡ s }
    ensures zero { (a q r : ℤ) → ¬ (IsDivision a (pos 0) q r) }
{}

/// A comparison of any two values is true or it is not. Two values are comparable however the values of records and
/// lists are read, and whatever these hold.
pub fn comparisons_are_decided()
    ensures decided { (operator : ComparisonOperator) (v w : Val)
        → (answer : Bool) × (IsTrue answer ↔ ComparesTrue operator v w) }
    ensures any_reading { (operator : ComparisonOperator) (left right : Datum) (l r k s : Reading)
        → AreComparableBy operator (datum_val l left) (datum_val r right)
        → AreComparableBy operator (datum_val k left) (datum_val s right) }
    ensures any_contents { (operator : ComparisonOperator) (left right : Value) (l r k s : Contents)
        → AreComparableBy operator (kept_val l left) (kept_val r right)
        → AreComparableBy operator (kept_val k left) (kept_val s right) }
{}

/// A number has all bits of another or it has not, of any two numbers.
pub fn bits_are_decided()
    ensures { (value flags : ℤ) → (answer : Bool) × (IsTrue answer ↔ HasBits value flags) }
{}

/// An operator makes one thing of two operands, and a negation of one.
pub fn arithmetic_has_one_answer()
    ensures there { (operator : ArithmeticOperator) (kind : PrimitiveType) (left right : Option ℤ) → IsPromoted kind
        → (x : Result (Option ℤ) ArithFault) × ArithmeticGives operator kind left right x }
    ensures negation_there { (kind : PrimitiveType) (operand : Option ℤ) → IsPromoted kind
        → (x : Result (Option ℤ) ArithFault) × NegationGives kind operand x }
    ensures one { (operator : ArithmeticOperator) (kind : PrimitiveType) (left right : Option ℤ)
        (x y : Result (Option ℤ) ArithFault) → ArithmeticGives operator kind left right x
        → ArithmeticGives operator kind left right y → x ≡ y }
    ensures negation { (kind : PrimitiveType) (operand : Option ℤ) (x y : Result (Option ℤ) ArithFault)
        → NegationGives kind operand x → NegationGives kind operand y → x ≡ y }
{}

/// Operands lie within the type in which they are computed, which is one of three.
pub fn operands_lie_within_promotion()
    ensures left { (l t : PrimitiveType) (r : Option PrimitiveType) (n : ℤ) → IsNumberType l
        → IfSome r IsNumberType → promotion (Some l) r ≡ Some t → IsNumberOf l n → IsNumberOf t n }
    ensures right { (l : Option PrimitiveType) (r t : PrimitiveType) (n : ℤ) → IfSome l IsNumberType
        → IsNumberType r → promotion l (Some r) ≡ Some t → IsNumberOf r n → IsNumberOf t n }
    ensures negation { (o t : PrimitiveType) (n : ℤ) → IsNumberType o → negation_type (Some o) ≡ Some t
        → IsNumberOf o n → IsNumberOf t n }
    ensures three { (l r : Option PrimitiveType) (t : PrimitiveType) → promotion l r ≡ Some t → IsPromoted t }
{}
