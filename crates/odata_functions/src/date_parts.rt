//! Parts of dates and moments, as their own clock shows them.
ghost use Rattle.std.specs.Prelude.{◌≡◌};
ghost use Rattle.edm_values.specs.Civil.{epoch_day};
ghost use Rattle.edm_values.specs.Instant.{offset_of};
ghost use Rattle.odata_functions.specs.DateParts.{IsDayOf, IsMonthOf, IsYearOf};
ghost use Rattle.odata_functions.specs.DateParts.{date_of, hour_of, minute_of, second_of};

use edm_values::Moment;
use jiff::civil::Date;

/// Returns the year (section 5.1.1.8.14).
pub fn year_of(date: Date) -> i64
    ensures { IsYearOf (epoch_day date) result }
{
    i64::from(date.year())
}

/// Returns the month, from 1 (section 5.1.1.8.8).
pub fn month_of(date: Date) -> i64
    ensures { IsMonthOf (epoch_day date) result }
{
    i64::from(date.month())
}

/// Returns the day of the month, from 1 (section 5.1.1.8.2).
pub fn day_of(date: Date) -> i64
    ensures { IsDayOf (epoch_day date) result }
{
    i64::from(date.day())
}

/// Returns the date on the moment's clock (section 5.1.1.8.1).
pub fn date_of(moment: &Moment) -> Date
    ensures { result ≡ date_of moment.now }
{
    moment.civil().date()
}

/// Returns the hour on the moment's clock (section 5.1.1.8.4).
pub fn hour_of(moment: &Moment) -> i64
    ensures { result ≡ hour_of moment.now }
{
    i64::from(moment.civil().hour())
}

/// Returns the minute on the moment's clock (section 5.1.1.8.7).
pub fn minute_of(moment: &Moment) -> i64
    ensures { result ≡ minute_of moment.now }
{
    i64::from(moment.civil().minute())
}

/// Returns the second on the moment's clock (section 5.1.1.8.10).
pub fn second_of(moment: &Moment) -> i64
    ensures { result ≡ second_of moment.now }
{
    i64::from(moment.civil().second())
}

/// Returns how many minutes the moment's clock is ahead of UTC (section 5.1.1.8.12).
pub fn offset_of(moment: &Moment) -> i64
    ensures { result ≡ offset_of moment.now }
{
    i64::from(moment.offset_minutes())
}
