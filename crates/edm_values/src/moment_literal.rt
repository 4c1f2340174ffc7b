ghost use Rattle.std.specs.Prelude.{◌≡◌, ℕ, ◌<◌, ◌≤◌, ◌*◌, ◌+◌, ◌^◌, ◌++◌, ℤ, pos, List, length, IfSome, IfNone, IfOk, IsSomeAnd, OnOk, OnErr, string_bytes};
ghost use Rattle.std.specs.Str.Parse.{AllDigits, digits_value};
ghost use Rattle.edm_values.specs.Civil.{Date as PlainDate, Time as PlainTime, IsHms};
ghost use Rattle.edm_values.specs.MomentParts.{MomentParts, IsOffset};
ghost use Rattle.edm_values.specs.MomentLiteral.{clock_text, FractionValue, SecondsValue, OffsetValue, MinutesValue, MomentValue, significant_digits, fraction_text, offset_text, moment_spelling};
ghost use Rattle.edm_values.specs.private.MomentLiteral.{AreClockDigits};

use crate::Moment;
use crate::date_literal::date_of;
use crate::digits::{push_two, read_two};
use jiff::civil::{Date, DateTime, Time};
use std::alloc::{AllocError, Global};

/// A fraction of a second has at most so many digits, down to the nanosecond.
const FRACTION_DIGITS: u32 = 9;

/// Reads a Moment literal. It has a date, `T`, `hh:mm`, perhaps `:ss` and a fraction of at most nine digits, then `Z`
/// or an offset `+hh:mm` or `-hh:mm`. The two letters may be in either case. `None` where the text is spelled
/// otherwise, and where a part of it is out of its range.
pub fn read_moment(text: &str) -> Option<Moment>
    ensures value { IfSome result (MomentValue text.now) }
    ensures only { (moment : MomentParts) → MomentValue text.now moment → result ≡ Some moment }
{
    let (minutes, rest) = text.as_bytes().split_at_checked(16)?;
    let (date, hour, minute) = read_minutes(minutes)?;
    let (seconds, offset) = split_offset(rest)?;
    let (second, nanosecond) = read_seconds(seconds)?;
    let time = clock_time(hour, minute, second, nanosecond)?;
    Moment::new(DateTime::from_parts(date, time), read_offset(offset)?)
}

fn read_minutes(text: &[u8]) -> Option<(Date, u8, u8)>
    ensures value { IfSome result (λ p. (p.1 < 100) × (p.2 < 100)
        × MinutesValue text.now p.0 p.1 p.2) }
    ensures only { (d : PlainDate) (h m : ℕ) → h < 100 → m < 100 → MinutesValue text.now d h m
        → result ≡ Some (d, h, m) }
{
    let (date, clock) = text.split_at_checked(10)?;
    let [b'T' | b't', a, b, b':', c, d] = clock else {
        return None;
    };
    Some((date_of(date)?, read_two(*a, *b)?, read_two(*c, *d)?))
}

/// What stands before the offset, and the offset.
fn split_offset(text: &[u8]) -> Option<(&[u8], &[u8])>
    ensures value { IfSome result (λ p. text.now ≡ p.0.now ++ p.1.now) }
    ensures only { (before offset : List ℕ) (minutes : ℤ) → OffsetValue offset minutes
        → text.now ≡ before ++ offset
        → IsSomeAnd result (λ p. (p.0.now ≡ before) × (p.1.now ≡ offset)) }
{
    text.split_at_checked(text.len().checked_sub(offset_len(text))?)
}

/// The length of the offset that ends a text, if one does.
fn offset_len(text: &[u8]) -> usize
    ensures { (before offset : List ℕ) (minutes : ℤ) → OffsetValue offset minutes
        → text.now ≡ before ++ offset → result ≡ length offset }
{
    match text {
        [.., b'Z' | b'z'] => 1,
        _ => 6,
    }
}

fn read_seconds(text: &[u8]) -> Option<(u8, u32)>
    ensures value { IfSome result (λ p. (p.0 < 100) × (p.1 < 10 ^ 9)
        × SecondsValue text.now p.0 p.1) }
    ensures only { (s n : ℕ) → s < 100 → SecondsValue text.now s n → result ≡ Some (s, n) }
{
    match text {
        [] => Some((0, 0)),
        [b':', a, b] => Some((read_two(*a, *b)?, 0)),
        [b':', a, b, b'.', digits @ ..] => Some((read_two(*a, *b)?, read_fraction(digits)?)),
        _ => None,
    }
}

fn read_fraction(digits: &[u8]) -> Option<u32>
    ensures value { IfSome result (λ n. (n < 10 ^ 9) × FractionValue digits.now n) }
    ensures only { (n : ℕ) → FractionValue digits.now n → result ≡ Some n }
{
    if digits.is_empty() || digits.len() > FRACTION_DIGITS as usize {
        return None;
    }
    let number = read_digits(digits)?;
    Some(number * 10_u32.pow(FRACTION_DIGITS - digits.len() as u32))
}

fn read_digits(digits: &[u8]) -> Option<u32>
    requires { length digits.now ≤ 9 }
    ensures value { IfSome result (λ n. AllDigits 10 digits.now
        × (n ≡ digits_value 10 digits.now)) }
    ensures none { IfNone result (¬ (AllDigits 10 digits.now)) }
{
    let mut number = 0;
    for digit in digits {
        if !digit.is_ascii_digit() {
            return None;
        }
        number = 10 * number + u32::from(*digit - b'0');
    }
    Some(number)
}

fn read_offset(text: &[u8]) -> Option<i16>
    ensures value { IfSome result (OffsetValue text.now) }
    ensures only { (minutes : ℤ) → OffsetValue text.now minutes → result ≡ Some minutes }
{
    match text {
        [b'Z' | b'z'] => Some(0),
        [b'+', a, b, b':', c, d] => Some(read_minutes_ahead(*a, *b, *c, *d)?),
        [b'-', a, b, b':', c, d] => Some(-read_minutes_ahead(*a, *b, *c, *d)?),
        _ => None,
    }
}

fn read_minutes_ahead(a: u8, b: u8, c: u8, d: u8) -> Option<i16>
    ensures value { IfSome result (λ n. (h : ℕ) × (m : ℕ) × (h < 24) × (m < 60)
        × AreClockDigits a b c d h m × (n ≡ pos (60 * h + m))) }
    ensures only { (h m : ℕ) → h < 24 → m < 60 → AreClockDigits a b c d h m
        → result ≡ Some (pos (60 * h + m)) }
{
    let hours = read_two(a, b)?;
    let minutes = read_two(c, d)?;
    if hours < 24 && minutes < 60 {
        return Some(60 * i16::from(hours) + i16::from(minutes));
    }
    None
}

fn clock_time(hour: u8, minute: u8, second: u8, nanosecond: u32) -> Option<Time>
    requires hour_in { hour < 100 }
    requires minute_in { minute < 100 }
    requires second_in { second < 100 }
    requires nanosecond_in { nanosecond < 10 ^ 9 }
    ensures value { IfSome result (IsHms (pos hour) (pos minute) (pos second) (pos nanosecond)) }
    ensures only { (t : PlainTime) → IsHms (pos hour) (pos minute) (pos second) (pos nanosecond) t
        → result ≡ Some t }
{
    Time::new(hour as i8, minute as i8, second as i8, nanosecond as i32).ok()
}

/// Appends the canonical spelling of a moment. It has its seconds, a fraction only where it is not zero and then
/// without last zeros, and `Z` for an offset of zero. After an error the text is unchanged.
pub fn write_moment(out: &mut String, moment: &Moment) -> Result<(), AllocError>
    ensures ok { OnOk result (string_bytes out.new
        ≡ string_bytes out.old ++ moment_spelling moment.now) }
    ensures err { OnErr result (string_bytes out.new ≡ string_bytes out.old) }
{
    let text = moment_text(*out.allocator(), moment)?;
    out.push_str(text.as_str())
}

fn moment_text(alloc: Global, moment: &Moment) -> Result<String, AllocError>
    ensures { IfOk result (λ text. string_bytes text ≡ moment_spelling moment.now) }
{
    let civil = moment.civil();
    let time = civil.to_plain().time;
    let date = civil.date();
    let mut text = format!(in alloc; "{date}")?;
    text.push('T')?;
    push_clock(&mut text, time.hour, time.minute)?;
    text.push(':')?;
    push_two(&mut text, time.second)?;
    push_fraction(&mut text, time.subsec_nanosecond)?;
    push_offset(&mut text, moment.offset_minutes())?;
    Ok(text)
}

/// Appends `hh:mm`.
fn push_clock(text: &mut String, hour: u8, minute: u8) -> Result<(), AllocError>
    requires hour_in { hour < 100 }
    requires minute_in { minute < 100 }
    ensures { OnOk result (string_bytes text.new ≡ string_bytes text.old ++ clock_text hour minute) }
{
    push_two(text, hour)?;
    text.push(':')?;
    push_two(text, minute)
}

fn push_fraction(text: &mut String, nanoseconds: u32) -> Result<(), AllocError>
    requires { nanoseconds < 10 ^ 9 }
    ensures { OnOk result (string_bytes text.new
        ≡ string_bytes text.old ++ fraction_text nanoseconds) }
{
    if nanoseconds == 0 {
        return Ok(());
    }
    text.push('.')?;
    push_fraction_digits(text, nanoseconds)
}

/// Appends the nine digits of a second's fraction, up to the last that is not zero.
fn push_fraction_digits(text: &mut String, nanoseconds: u32) -> Result<(), AllocError>
    requires { nanoseconds < 10 ^ 9 }
    ensures { OnOk result (string_bytes text.new
        ≡ string_bytes text.old ++ significant_digits 9 nanoseconds) }
{
    let mut digits_left = FRACTION_DIGITS;
    let mut rest = nanoseconds;
    while rest != 0 {
        digits_left -= 1;
        let unit = 10_u32.pow(digits_left);
        text.push(char::from(b'0' + (rest / unit) as u8))?;
        rest %= unit;
    }
    Ok(())
}

fn push_offset(text: &mut String, offset_minutes: i16) -> Result<(), AllocError>
    requires { IsOffset offset_minutes }
    ensures { OnOk result (string_bytes text.new
        ≡ string_bytes text.old ++ offset_text offset_minutes) }
{
    if offset_minutes == 0 {
        return text.push('Z');
    }
    text.push(if offset_minutes < 0 { '-' } else { '+' })?;
    let minutes = offset_minutes.unsigned_abs();
    push_clock(text, (minutes / 60) as u8, (minutes % 60) as u8)
}
