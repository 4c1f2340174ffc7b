//! Tokens of every form, each found among the pieces of all forms.
ghost use Rattle.std.specs.Prelude.{◌≡◌, ◌≢◌, ◌<◌, ℕ, IfOk, IfErr, IsCharBoundary, length, slice_index};
ghost use Rattle.odata_text.specs.ByteClass.{class_of};
ghost use Rattle.odata_text.specs.TokenModel.{token_model};
ghost use Rattle.odata_text.specs.Tokens.{IsFaultAt, IsNoToken, IsTokenAt, is_undelimited};

use super::byte_class::{ByteClass, class_of};
use super::form::Form;
use super::identifier::identifier_run;
use super::longest::longest;
use super::span::Span;
use super::text_fault::TextFault;
use super::token::{Token, TokenKind};

/// Whether an identifier character directly after such a token is a fault.
fn is_undelimited(kind: TokenKind) -> bool
    ensures { result ≡ is_undelimited kind }
{
    match kind {
        TokenKind::Int | TokenKind::Date | TokenKind::Moment | TokenKind::Guid => true,
        _ => false,
    }
}

/// What is wrong where no token begins.
fn no_token(text: &str, start: usize) -> TextFault
    requires no_token { IsNoToken text.now start }
    requires boundary { IsCharBoundary text.now start }
    ensures { (before : ℕ) → IsFaultAt text.now start before result }
{
    if class_of(text.as_bytes()[start]) == ByteClass::Quote {
        let stop = text.len();
        return TextFault::UnclosedString {
            span: Span { start, stop },
        };
    }
    let mut stop = start;
    if let Some(character) = text[start..].chars().next() {
        stop += character.len_utf8();
    }
    TextFault::BadCharacter {
        span: Span { start, stop },
    }
}

/// The token at an offset that is not white space, found among the pieces of all forms.
#[inline(never)]
pub fn token_at(text: &str, start: usize) -> Result<Token<'_>, TextFault>
    requires inside { start < length text.now }
    requires boundary { IsCharBoundary text.now start }
    requires solid { class_of (slice_index text.now start) ≢ ByteClass.Space }
    ensures start { IfOk result (λ token. token.span.start ≡ start) }
    ensures token { IfOk result (λ token. IsTokenAt text.now (token_model token)) }
    ensures boundary { IfOk result (λ token. IsCharBoundary text.now token.span.stop) }
    ensures fault { IfErr result (λ fault. (before : ℕ) → IsFaultAt text.now start before fault) }
{
    let Some((form, length)) = longest(&text[start..]) else {
        return Err(no_token(text, start));
    };
    let stop = start + length;
    let span = Span { start, stop };
    let kind = match form {
        Form::Token(kind) => kind,
        Form::LeftOut(_) => return Err(TextFault::LeftOutLiteral { span }),
    };
    if is_undelimited(kind) {
        let behind = identifier_run(&text[stop..]);
        if behind > 0 {
            let span = Span {
                start,
                stop: stop + behind,
            };
            return Err(TextFault::RunOn { span });
        }
    }
    Ok(Token {
        span,
        kind,
        text: &text[start..stop],
    })
}
