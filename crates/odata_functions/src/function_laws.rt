//! What holds of all texts and dates. Each law is the contract of a function that does nothing.
ghost use Rattle.std.specs.Prelude.{◌≡◌, ◌↔◌, ℕ, ℤ, pos, Bool, IsTrue, List, Result};
ghost use Rattle.edm_values.specs.Civil.{Date, epoch_day};
ghost use Rattle.odata_functions.specs.Gregorian.{IsDateOf};
ghost use Rattle.odata_functions.specs.Texts.{CountComes, HasEnd, HasPart, HasStart, IsPlaceOf, IsTrimmed};
ghost use Rattle.odata_functions.specs.declared.arithmetic.ArithFault.{ArithFault};

/// A list of characters has another as a part or it has not. A part has one index in a text, a text one trimmed part,
/// and a count one answer.
pub fn texts_have_one_answer()
    ensures part { (s t : List ℕ) → (answer : Bool) × (IsTrue answer ↔ HasPart s t) }
    ensures start { (s t : List ℕ) → (answer : Bool) × (IsTrue answer ↔ HasStart s t) }
    ensures end { (s t : List ℕ) → (answer : Bool) × (IsTrue answer ↔ HasEnd s t) }
    ensures place_there { (s t : List ℕ) → (n : ℤ) × IsPlaceOf s t n }
    ensures place { (s t : List ℕ) (n m : ℤ) → IsPlaceOf s t n → IsPlaceOf s t m → n ≡ m }
    ensures trimmed_there { (s : List ℕ) → (r : List ℕ) × IsTrimmed s r }
    ensures trimmed { (s r q : List ℕ) → IsTrimmed s r → IsTrimmed s q → r ≡ q }
    ensures count_there { (n : ℤ) → (x : Result ℤ ArithFault) × CountComes n x }
    ensures count { (n : ℤ) (x y : Result ℤ ArithFault) → CountComes n x → CountComes n y → x ≡ y }
{}

/// A day number has at most one date. That of each date that a value may be has its own year, month and day, and that
/// of 1970-01-01 is zero.
pub fn day_numbers_have_one_date()
    ensures one { (number y y' : ℤ) (m m' d d' : ℕ) → IsDateOf number y m d → IsDateOf number y' m' d'
        → (y ≡ y') × (m ≡ m') × (d ≡ d') }
    ensures there { (date : Date) → IsDateOf (epoch_day date) date.year date.month date.day }
    ensures epoch { IsDateOf (pos 0) (pos 1970) 1 1 }
{}
