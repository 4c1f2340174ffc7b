ghost use Rattle.std.specs.Prelude.{◌≡◌, ◌<◌, ℕ, pos, IfSome, IfNone, OnOk, OnErr, ◌++◌, string_bytes};
ghost use Rattle.edm_values.specs.Civil.{Date as PlainDate, IsYmd};
ghost use Rattle.edm_values.specs.MomentParts.{IsFourDigitYear};
ghost use Rattle.edm_values.specs.DateLiteral.{DateValue, date_text, date_spelling};

use crate::digits::read_two;
use jiff::civil::Date;
use std::alloc::AllocError;

/// Reads a Date literal, `YYYY-MM-DD`. `None` where the text is spelled otherwise, and where the calendar lacks that
/// day; there is no year 0000.
pub fn read_date(text: &str) -> Option<Date>
    ensures value { IfSome result (DateValue text.now) }
    ensures only { (date : PlainDate) → DateValue text.now date → result ≡ Some date }
{
    date_of(text.as_bytes())
}

pub(crate) fn date_of(text: &[u8]) -> Option<Date>
    ensures value { IfSome result (DateValue text.now) }
    ensures only { (date : PlainDate) → DateValue text.now date → result ≡ Some date }
{
    let (year, month, day) = date_numbers(text)?;
    calendar_date(year, month, day)
}

/// The day of the calendar with this year from 1 on, month and day.
fn calendar_date(year: u16, month: u8, day: u8) -> Option<Date>
    requires year_in { year < 10_000 }
    requires month_in { month < 100 }
    requires day_in { day < 100 }
    ensures value { IfSome result (λ d. IsFourDigitYear d.year × IsYmd (pos year) (pos month) (pos day) d) }
    ensures only { (d : PlainDate) → IsFourDigitYear d.year → IsYmd (pos year) (pos month) (pos day) d
        → result ≡ Some d }
{
    if year == 0 {
        return None;
    }
    Date::new(year as i16, month as i8, day as i8).ok()
}

fn date_numbers(text: &[u8]) -> Option<(u16, u8, u8)>
    ensures value { IfSome result (λ n. (n.0 < 10000) × (n.1 < 100) × (n.2 < 100)
        × (text.now ≡ date_text n.0 n.1 n.2)) }
    ensures none { IfNone result ((y m d : ℕ) → y < 10000 → m < 100 → d < 100
        → ¬ (text.now ≡ date_text y m d)) }
{
    let [c, y, _, _, b'-', m, n, b'-', d, e] = text else {
        return None;
    };
    let century = read_two(*c, *y)?;
    let year = read_two(text[2], text[3])?;
    let month = read_two(*m, *n)?;
    let day = read_two(*d, *e)?;
    Some((100 * u16::from(century) + u16::from(year), month, day))
}

/// Appends the spelling of a date, `YYYY-MM-DD`. After an error the text is unchanged.
pub fn write_date(out: &mut String, date: Date) -> Result<(), AllocError>
    requires { IsFourDigitYear date.year }
    ensures ok { OnOk result (string_bytes out.new ≡ string_bytes out.old ++ date_spelling date) }
    ensures err { OnErr result (string_bytes out.new ≡ string_bytes out.old) }
{
    let text = format!(in *out.allocator(); "{date}")?;
    out.push_str(text.as_str())
}
