ghost use Rattle.std.specs.Prelude.{◌≡◌, IfSome, IsSome, ◌↔◌};
ghost use Rattle.std.proofs.Common.{sym};
ghost use Rattle.edm_values.specs.MomentParts.{MomentParts, IsMoment, IsFourDigitYear, IsOffset};
ghost use Rattle.edm_values.specs.Instant.{instant};
ghost use Rattle.edm_values.specs.private.Moment.{CountsSeconds, instant_seconds};

use jiff::civil::DateTime;
use std::marker::Model;

const SECONDS_PER_MINUTE: i64 = 60;

const NANOS_PER_SECOND: i128 = 1_000_000_000;

/// The years of a moment have four digits, and year 0 is none of them.
const FIRST_YEAR: i16 = 1;

const LAST_YEAR: i16 = 9999;

/// An offset is less than 24 hours.
const MAX_OFFSET_MINUTES: i16 = 1439;

/// A date and time of day with its offset from UTC, the value of an `Edm.DateTimeOffset`.
#[derive(Clone, Copy, Debug)]
pub struct Moment {
    civil: DateTime,
    offset_minutes: i16,
    /// Whole seconds from 1970-01-01T00:00:00Z, the fraction left out: read once, for all comparisons.
    seconds: i64,
}

/// A moment takes no more bytes than this, so that values take no more than their texts need.
const MOMENT_LIMIT: usize = 24;

const _: () = prove!(std::mem::size_of::<Moment>() <= MOMENT_LIMIT);

impl Model for Moment {
    ghost Value = { MomentParts };

    ghost view = { λ m. record { civil = m.civil; offset_minutes = m.offset_minutes } };

    ghost invariant = { λ m. CountsSeconds m.civil m.offset_minutes m.seconds };

    ghost inverse = { λ p. record {
      civil = p.civil;
      offset_minutes = p.offset_minutes;
      seconds = instant_seconds p.civil p.offset_minutes;
    } };

    ghost inverse_ok = { λ m h i. record {
      civil = m.civil;
      offset_minutes = m.offset_minutes;
      seconds = sym h.counted i;
    } };
}

impl Moment {
    /// Returns the moment at which a clock shows `civil`, `offset_minutes` minutes ahead of UTC. There is one for the
    /// years 1 to 9999 and the offsets -1439 to 1439.
    pub fn new(civil: DateTime, offset_minutes: i16) -> Option<Moment>
        ensures made { IsSome result ↔ IsMoment civil offset_minutes }
        ensures value { IfSome result (λ m. m
            ≡ record { civil = civil; offset_minutes = offset_minutes }) }
    {
        let year = civil.year();
        if (FIRST_YEAR..=LAST_YEAR).contains(&year)
            && (-MAX_OFFSET_MINUTES..=MAX_OFFSET_MINUTES).contains(&offset_minutes)
        {
            let on_clock = civil.to_plain().to_second();
            return Some(Moment {
                civil,
                offset_minutes,
                seconds: on_clock - i64::from(offset_minutes) * SECONDS_PER_MINUTE,
            });
        }
        None
    }

    /// Returns the date and time of day on the clock of this moment. Its year is 1 to 9999.
    pub fn civil(&self) -> DateTime
        ensures value { result ≡ self.now.civil }
        ensures year { IsFourDigitYear result.date.year }
    {
        self.civil
    }

    /// Returns how many minutes the clock of this moment is ahead of UTC.
    pub fn offset_minutes(&self) -> i16
        ensures value { result ≡ self.now.offset_minutes }
        ensures within { IsOffset result }
    {
        self.offset_minutes
    }

    /// Returns the nanoseconds from 1970-01-01T00:00:00Z to this moment, negative before it.
    pub fn instant_nanos(&self) -> i128
        ensures { result ≡ instant self.now }
    {
        i128::from(self.seconds) * NANOS_PER_SECOND + i128::from(self.civil.subsec_nanosecond())
    }
}
