//! What is written is read again, and moments are in one order. Each law is the contract of a
//! function that does nothing.

ghost use Rattle.std.specs.Prelude.{◌≡◌, ◌<◌, ◌<ℤ◌, ℕ, ℤ, List, All, codes, length, FitsSigned};
ghost use Rattle.std.specs.Int.{w64};
ghost use Rattle.std.specs.Cmp.{IsTotalOrder};
ghost use Rattle.std.specs.declared.cmp.Ordering.TheVariants.{Less, Equal};
ghost use Rattle.edm_values.specs.Civil.{Date};
ghost use Rattle.edm_values.specs.MomentParts.{MomentParts, IsFourDigitYear, IsMoment};
ghost use Rattle.edm_values.specs.Instant.{instant, moment_cmp};
ghost use Rattle.edm_values.specs.IntLiteral.{IntValue, int_spelling};
ghost use Rattle.edm_values.specs.DateLiteral.{DateValue, IsDateSpelling, date_spelling};
ghost use Rattle.edm_values.specs.MomentLiteral.{MomentValue, IsMomentSpelling, moment_spelling};
ghost use Rattle.edm_values.specs.GuidLiteral.{GuidValue, IsGuidSpelling, guid_spelling};
ghost use Rattle.edm_values.specs.StringLiteral.{StringValue, string_spelling};
ghost use Rattle.edm_values.specs.WorkedLiterals.{IsNewYear, IsLeapDay, counting_bytes};

/// A whole number's canonical spelling has that number as its value.
pub fn ints_read_back()
    ensures { (n : ℤ) → FitsSigned w64 n → IntValue (int_spelling n) n }
{}

/// A text's canonical spelling has that text as its value.
pub fn strings_read_back()
    ensures { (text : List ℕ) → StringValue (string_spelling text) text }
{}

/// A date's spelling has that date as its value, and is spelled as one.
pub fn dates_read_back()
    ensures value { (date : Date) → IsFourDigitYear date.year → DateValue (date_spelling date) date }
    ensures spelled { (text : List ℕ) (date : Date) → DateValue text date → IsDateSpelling text }
{}

/// A Guid's canonical spelling has that Guid as its value.
pub fn guids_read_back()
    ensures { (guid : List ℕ) → length guid ≡ 16 → All (λ b. b < 256) guid
        → GuidValue (guid_spelling guid) guid }
{}

/// Moments are in a total order, the earlier instant first, and only a moment itself has its rank.
pub fn moments_are_ordered()
    ensures total { IsTotalOrder moment_cmp }
    ensures earlier { (a b : MomentParts) → instant a <ℤ instant b → moment_cmp a b ≡ Less }
    ensures same { (a b : MomentParts) → moment_cmp a b ≡ Equal → a ≡ b }
{}

/// A moment's canonical spelling has that moment as its value. Each text with a value is spelled as a moment.
pub fn moments_read_back()
    ensures value { (m : MomentParts) → IsMoment m.civil m.offset_minutes
        → MomentValue (moment_spelling m) m }
    ensures spelled { (text : List ℕ) (m : MomentParts) → MomentValue text m → IsMomentSpelling text }
{}

/// A text has at most one value of each kind.
pub fn texts_have_one_value()
    ensures int { (text : List ℕ) (m n : ℤ) → IntValue text m → IntValue text n → m ≡ n }
    ensures date { (text : List ℕ) (a b : Date) → DateValue text a → DateValue text b → a ≡ b }
    ensures moment { (text : List ℕ) (a b : MomentParts) → MomentValue text a → MomentValue text b
        → a ≡ b }
    ensures guid { (text a b : List ℕ) → GuidValue text a → GuidValue text b → a ≡ b }
    ensures string { (text a b : List ℕ) → StringValue text a → StringValue text b → a ≡ b }
{}

/// Two moments as they are read and written. The offset of zero is written as `Z`, the letters in
/// upper case, the seconds always, and a fraction without its last zeros.
pub fn moments_by_example()
    ensures new_year { (m : MomentParts) × IsNewYear m }
    ensures new_year_read { (m : MomentParts) → IsNewYear m → MomentValue (codes "2020-01-01t00:00z") m }
    ensures new_year_written { (m : MomentParts) → IsNewYear m
        → moment_spelling m ≡ codes "2020-01-01T00:00:00Z" }
    ensures leap_day { (m : MomentParts) × IsLeapDay m }
    ensures leap_day_read { (m : MomentParts) → IsLeapDay m
        → MomentValue (codes "2020-02-29T23:59:00.120-05:30") m }
    ensures leap_day_written { (m : MomentParts) → IsLeapDay m
        → moment_spelling m ≡ codes "2020-02-29T23:59:00.12-05:30" }
{}

/// A Guid as it is read and written; without its hyphens it is spelled as none.
pub fn guids_by_example()
    ensures read { GuidValue (codes "01234567-89AB-CDEF-0123-456789ABCDEF") counting_bytes }
    ensures written { guid_spelling counting_bytes ≡ codes "01234567-89ab-cdef-0123-456789abcdef" }
    ensures no_hyphens { ¬ (IsGuidSpelling (codes "0123456789ABCDEF0123456789ABCDEF")) }
{}
