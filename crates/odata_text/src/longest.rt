ghost use Rattle.std.specs.Prelude.{◌<◌, ◌≤◌, MatchOption, length};
ghost use Rattle.std.specs.List.{All, Contains};
ghost use Rattle.odata_text.specs.Tokens.{IsLongest, NoneSpelled};

use super::decimal::decimal_length;
use super::form::{Form, LeftOutKind};
use super::guid::guid_length;
use super::number::int_length;
use super::pattern::byte_length;
use super::quoted::string_length;
use super::time::{date_length, moment_length, time_of_day_length};
use super::token::TokenKind;
use super::word::{dollar_length, enum_length, quoted_length, word_length};

/// The longest candidate.
fn best_of(candidates: &[(Form, usize)]) -> (Form, usize)
    requires { 0 < length candidates.now }
    ensures among { Contains candidates.now result }
    ensures most { All (λ other. other.1 ≤ result.1) candidates.now }
{
    let mut best = candidates[0];
    for candidate in candidates {
        if best.1 < candidate.1 {
            best = *candidate;
        }
    }
    best
}

/// The longest piece at the front: its form and how many bytes it takes.
pub fn longest(rest: &str) -> Option<(Form, usize)>
    ensures { MatchOption result (NoneSpelled rest.now) (λ found. IsLongest found.0 found.1 rest.now) }
{
    let bytes = rest.as_bytes();
    let best = best_of(&[
        (Form::Token(TokenKind::Word), word_length(rest)),
        (Form::Token(TokenKind::Dollar), dollar_length(rest)),
        (Form::Token(TokenKind::Int), int_length(bytes)),
        (Form::Token(TokenKind::Date), date_length(bytes)),
        (Form::Token(TokenKind::Moment), moment_length(bytes)),
        (Form::Token(TokenKind::Guid), guid_length(bytes)),
        (Form::Token(TokenKind::Str), string_length(bytes)),
        (Form::Token(TokenKind::EnumLit), enum_length(rest)),
        (Form::Token(TokenKind::Open), byte_length(b'(', bytes)),
        (Form::Token(TokenKind::Close), byte_length(b')', bytes)),
        (Form::Token(TokenKind::Comma), byte_length(b',', bytes)),
        (Form::Token(TokenKind::Slash), byte_length(b'/', bytes)),
        (Form::Token(TokenKind::Colon), byte_length(b':', bytes)),
        (Form::Token(TokenKind::Minus), byte_length(b'-', bytes)),
        (Form::LeftOut(LeftOutKind::Number), decimal_length(bytes)),
        (
            Form::LeftOut(LeftOutKind::TimeOfDay),
            time_of_day_length(bytes),
        ),
        (Form::LeftOut(LeftOutKind::Quoted), quoted_length(bytes)),
    ]);
    if best.1 == 0 {
        return None;
    }
    Some(best)
}
