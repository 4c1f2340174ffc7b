ghost use Rattle.edm_values.specs.DateLiteral.{IsDateSpelling};
ghost use Rattle.edm_values.specs.MomentLiteral.{IsMomentSpelling, IsOffsetSpelling, IsSecondsSpelling};
ghost use Rattle.odata_text.specs.LeftOut.{IsTimeOfDaySpelling};
ghost use Rattle.odata_text.specs.private.Lengths.{IsReach};
ghost use Rattle.odata_text.specs.private.Patterns.{IsTimed, IsZoned};

use super::byte_test::ByteTest::{self, Colon, Digit, Hyphen, OffsetMark, Sign, TimeMark};
use super::byte_test::pattern_length;
use super::decimal::fraction_length;
use super::pattern::{both_length, longer};

/// `YYYY-MM-DD`.
const DATE: [ByteTest; 10] = [
    Digit, Digit, Digit, Digit, Hyphen, Digit, Digit, Hyphen, Digit, Digit,
];

/// `hh:mm`.
const CLOCK: [ByteTest; 5] = [Digit, Digit, Colon, Digit, Digit];

/// `Thh:mm`.
const MARKED_CLOCK: [ByteTest; 6] = [TimeMark, Digit, Digit, Colon, Digit, Digit];

/// A sign and `hh:mm`.
const SIGNED_CLOCK: [ByteTest; 6] = [Sign, Digit, Digit, Colon, Digit, Digit];

/// `:ss`.
const SECONDS: [ByteTest; 3] = [Colon, Digit, Digit];

/// How many bytes the date at the front takes, 0 if there is none.
pub fn date_length(rest: &[u8]) -> usize
    ensures { IsReach IsDateSpelling result rest.now }
{
    pattern_length(&DATE, rest)
}

/// How many bytes the seconds at the front take, with their fraction, 0 if there are none.
fn seconds_length(rest: &[u8]) -> usize
    ensures { IsReach IsSecondsSpelling result rest.now }
{
    match pattern_length(&SECONDS, rest) {
        0 => 0,
        whole => whole + fraction_length(&rest[whole..]),
    }
}

/// How many bytes the offset at the front takes, 0 if there is none.
fn offset_length(rest: &[u8]) -> usize
    ensures { IsReach IsOffsetSpelling result rest.now }
{
    let mark = pattern_length(&[OffsetMark], rest);
    let clock = pattern_length(&SIGNED_CLOCK, rest);
    longer(mark, clock)
}

/// How many bytes the seconds, if any, and the offset at the front take, 0 if there is no offset.
fn zoned_length(rest: &[u8]) -> usize
    ensures { IsReach IsZoned result rest.now }
{
    let seconds = seconds_length(rest);
    match offset_length(&rest[seconds..]) {
        0 => 0,
        offset => seconds + offset,
    }
}

/// How many bytes the part of a moment after its date takes at the front, 0 if there is none.
fn timed_length(rest: &[u8]) -> usize
    ensures { IsReach IsTimed result rest.now }
{
    let clock = pattern_length(&MARKED_CLOCK, rest);
    let zoned = zoned_length(&rest[clock..]);
    both_length(clock, zoned)
}

/// How many bytes the moment at the front takes, 0 if there is none.
pub fn moment_length(rest: &[u8]) -> usize
    ensures { IsReach IsMomentSpelling result rest.now }
{
    let date = date_length(rest);
    let timed = timed_length(&rest[date..]);
    both_length(date, timed)
}

/// How many bytes the time of day at the front takes, 0 if there is none.
pub fn time_of_day_length(rest: &[u8]) -> usize
    ensures { IsReach IsTimeOfDaySpelling result rest.now }
{
    match pattern_length(&CLOCK, rest) {
        0 => 0,
        clock => clock + seconds_length(&rest[clock..]),
    }
}
