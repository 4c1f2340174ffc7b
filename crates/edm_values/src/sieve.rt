//! Tests of single values.
ghost use Rattle.std.specs.Prelude.{◌≡◌, ◌↔◌, IsTrue};
ghost use Rattle.std.specs.Str.{chars};
ghost use Rattle.edm_values.specs.Val.{boolean, text as text_value, whole};

/// A test of one value, by which it passes or is rejected.
#[derive(Drop)]
pub enum Sieve {
    /// All values pass.
    All,
    /// The truth value false is rejected.
    True,
    /// Numbers below the one and above the other are rejected.
    Within { low: i64, high: i64 },
    /// That number is rejected.
    Besides(i64),
    /// All texts but that are rejected.
    Text(String),
    /// That text is rejected.
    BesidesText(String),
}

impl Sieve {
    ghost use Rattle.edm_values.specs.SieveMeaning.{Rejects};

    /// Whether a truth value is rejected.
    #[inline(always)]
    pub fn rejects_truth(&self, truth: bool) -> bool
        ensures { IsTrue result ↔ Rejects self.now (boolean truth) }
    {
        match self {
            Sieve::True => !truth,
            _ => false,
        }
    }

    /// Whether a number is rejected.
    #[inline(always)]
    pub fn rejects_number(&self, number: i64) -> bool
        ensures { IsTrue result ↔ Rejects self.now (whole number) }
    {
        match self {
            Sieve::Within { low, high } => number < *low || *high < number,
            Sieve::Besides(other) => number == *other,
            _ => false,
        }
    }

    /// Whether a text is rejected.
    #[inline(always)]
    pub fn rejects_text(&self, text: &str) -> bool
        ensures { IsTrue result ↔ Rejects self.now (text_value text.now) }
    {
        match self {
            Sieve::Text(only) => !is_same(text, only.as_str()),
            Sieve::BesidesText(other) => is_same(text, other.as_str()),
            _ => false,
        }
    }
}

/// Whether two texts have the same characters.
#[inline(always)]
fn is_same(text: &str, other: &str) -> bool
    ensures { IsTrue result ↔ (chars text.now ≡ chars other.now) }
{
    if text.len() != other.len() {
        return false;
    }
    text == other
}
