//! What holds of all values of enumerations, and values that are known. Each law is the contract of a function that
//! does nothing.
ghost use Rattle.std.specs.Prelude.{◌≡◌, ◌∷◌, ℤ, List, ℕ, pos, codes};
ghost use Rattle.edm_enumerations.specs.EnumerationModel.{EnumerationModel};
ghost use Rattle.edm_enumerations.specs.EnumerationValue.{EnumerationValue};
ghost use Rattle.edm_enumerations.specs.WorkedEnumeration.{color};

/// A text has at most one value in an enumeration.
pub fn texts_have_one_value()
    ensures { (e : EnumerationModel) (text : List ℕ) (m n : ℤ)
        → EnumerationValue e text m → EnumerationValue e text n → m ≡ n }
{
    edm_values::texts_have_one_value();
}

/// Worked values of an enumeration of flags. Its members are `Red`, `Green` and `Blue` with the numbers 1, 2 and 4.
pub fn values_by_example()
    ensures one { EnumerationValue color (codes "Green") (pos 2) }
    ensures several { EnumerationValue color (codes "Red, Blue") (pos 5) }
    ensures number { EnumerationValue color (codes "8") (pos 8) }
    ensures empty_piece { (n : ℤ) → ¬ (EnumerationValue color (codes "Red,,Blue") n) }
    ensures tab { (n : ℤ) → ¬ (EnumerationValue color (0x09 ∷ codes "Red") n) }
{}
