ghost use Rattle.std.specs.Prelude.{◌≡◌, ◌↔◌, ◌||◌, pos, false, IsTrue};
ghost use Rattle.odata_ranges.specs.Reach.{HoldsNumber};

/// What the outcomes of a node lie within.
#[derive(Clone, Copy)]
pub struct Range {
    pub may_fault: bool,
    pub may_be_null: bool,
    /// The least number, or the fewest characters of a text. Of other values 0.
    pub low: i128,
    /// The greatest number, or the most characters.
    pub high: i128,
}

impl Range {
    /// Values that are neither numbers nor texts, and no faults.
    pub fn plain(may_be_null: bool) -> Range
        ensures { result ≡ record { may_fault = false; may_be_null = may_be_null; low = pos 0; high = pos 0 } }
    {
        Range::between(0, 0, may_be_null)
    }

    pub fn between(low: i128, high: i128, may_be_null: bool) -> Range
        ensures { result ≡ record { may_fault = false; may_be_null = may_be_null; low = low; high = high } }
    {
        Range {
            may_fault: false,
            may_be_null,
            low,
            high,
        }
    }

    /// The same, with faults where another one has them.
    pub(crate) fn with_faults(self, may_fault: bool) -> Range
        ensures { result ≡ record self { may_fault = self.may_fault || may_fault } }
    {
        Range {
            may_fault: self.may_fault || may_fault,
            ..self
        }
    }

    /// The same, with null.
    pub(crate) fn with_null(self, may_be_null: bool) -> Range
        ensures { result ≡ record self { may_be_null = self.may_be_null || may_be_null } }
    {
        Range {
            may_be_null: self.may_be_null || may_be_null,
            ..self
        }
    }

    pub fn holds_zero(self) -> bool
        ensures { IsTrue result ↔ HoldsNumber self (pos 0) }
    {
        self.low <= 0 && 0 <= self.high
    }
}
