//! The tokens of a filter's text one after another, without a list of them.
ghost use Rattle.std.specs.Prelude.{◌≡◌, ◌≢◌, ◌<◌, ◌≤◌, [], IfErr, IfOk, IsCharBoundary, length, slice_index};
ghost use Rattle.odata_text.specs.ByteClass.{class_of};
ghost use Rattle.odata_text.specs.Scanning.{Finds, HasRead, IsReading, text_of, token_of};
ghost use Rattle.odata_text.specs.TokenModel.{token_model};
ghost use Rattle.odata_text.specs.Tokens.{IsGap, IsOverlong};
ghost use Rattle.odata_text.specs.private.PlainTokens.{IsTokenBetween};

use super::any_token::token_at;
use super::byte_class::{ByteClass, class_of};
use super::plain::plain_token;
use super::span::Span;
use super::text_fault::TextFault;
use super::token::{Token, TokenKind};

/// No text of a filter is longer, in bytes.
const TEXT_LIMIT: usize = 16384;

/// No text of a filter has more tokens.
const TOKEN_LIMIT: usize = 4096;

/// The first offset from `place` on that is not white space, or the end.
#[inline(always)]
fn skip_spaces(bytes: &[u8], place: usize) -> usize
    requires { place ≤ length bytes.now }
    ensures gap { IsGap bytes.now place result }
    ensures solid { result < length bytes.now
        → class_of (slice_index bytes.now result) ≢ ByteClass.Space }
{
    let mut end = place;
    while end < bytes.len() && class_of(bytes[end]) == ByteClass::Space {
        end += 1;
    }
    end
}

/// The outcome of `Scanner::next_token`.
#[derive(Clone, Copy, Debug, PartialEq, Eq)]
pub enum Scanned {
    /// A token, which `Scanner::token` returns.
    Token,
    /// The end of the text.
    End,
    /// The first fault of the text, which `Scanner::fault` returns.
    Fault,
}

/// Reads the tokens of a filter's text from left to right, each the longest piece at its offset. Takes no memory.
#[derive(Drop)]
pub struct Scanner<'t> {
    text: &'t str,
    kind: TokenKind,
    start: usize,
    stop: usize,
    count: usize,
    fault: TextFault,
}

impl<'t> Scanner<'t> {
    /// Creates a scanner before the first token. A text of over 16,384 bytes is `TooLong`.
    pub fn new(text: &'t str) -> Result<Scanner<'t>, TextFault>
        ensures text { IfOk result (λ scanner. text_of scanner ≡ text.now) }
        ensures reading { IfOk result IsReading }
        ensures first { IfOk result (λ scanner. HasRead scanner []) }
        ensures fault { IfErr result (IsOverlong text.now) }
    {
        if text.len() > TEXT_LIMIT {
            let span = Span {
                start: 0,
                stop: text.len(),
            };
            return Err(TextFault::TooLong { span });
        }
        Ok(Scanner {
            text,
            kind: TokenKind::Comma,
            start: 0,
            stop: 0,
            count: 0,
            fault: TextFault::Memory,
        })
    }

    /// Reads the next token. At the end of the text and at its first fault the scanner stays where it is.
    #[inline(always)]
    pub fn next_token(&mut self) -> Scanned
        requires { IsReading self.old }
        ensures reading { IsReading self.new }
        ensures finds { Finds self.old result self.new }
    {
        let start = skip_spaces(self.text.as_bytes(), self.stop);
        if start == self.text.len() {
            return Scanned::End;
        }
        match plain_token(self.text.as_bytes(), start) {
            Some((kind, stop)) => self.take(kind, start, stop),
            None => self.take_other(start),
        }
    }

    /// Takes a token after white space, unless it is one too many.
    #[inline(always)]
    fn take(&mut self, kind: TokenKind, start: usize, stop: usize) -> Scanned
        requires reading { IsReading self.old }
        requires gap { IsGap (text_of self.old) self.old.stop start }
        requires begins { IsCharBoundary (text_of self.old) start }
        requires ends { IsCharBoundary (text_of self.old) stop }
        requires token { IsTokenBetween (text_of self.old) kind start stop }
        ensures reading { IsReading self.new }
        ensures finds { Finds self.old result self.new }
    {
        if self.count == TOKEN_LIMIT {
            self.fault = TextFault::TooLong {
                span: Span { start, stop },
            };
            return Scanned::Fault;
        }
        self.kind = kind;
        self.start = start;
        self.stop = stop;
        self.count += 1;
        Scanned::Token
    }

    /// Takes the token at an offset that is not white space, or reports why there is none.
    #[inline(never)]
    fn take_other(&mut self, start: usize) -> Scanned
        requires reading { IsReading self.old }
        requires gap { IsGap (text_of self.old) self.old.stop start }
        requires begins { IsCharBoundary (text_of self.old) start }
        requires inside { start < length (text_of self.old) }
        requires solid { class_of (slice_index (text_of self.old) start) ≢ ByteClass.Space }
        ensures reading { IsReading self.new }
        ensures finds { Finds self.old result self.new }
    {
        match token_at(self.text, start) {
            Ok(token) => self.take(token.kind, start, token.span.stop),
            Err(fault) => {
                self.fault = fault;
                Scanned::Fault
            }
        }
    }

    /// Returns the token that was read last.
    #[inline(always)]
    pub fn token(&self) -> Token<'t>
        requires { IsReading self.now }
        ensures { token_model result ≡ token_of self.now }
    {
        Token {
            span: self.span(),
            kind: self.kind,
            text: &self.text[self.start..self.stop],
        }
    }

    /// Returns the kind of the token that was read last.
    #[inline(always)]
    pub fn kind(&self) -> TokenKind
        ensures { result ≡ self.now.kind }
    {
        self.kind
    }

    /// Returns where the token that was read last lies.
    #[inline(always)]
    pub fn span(&self) -> Span
        ensures start { result.start ≡ self.now.start }
        ensures stop { result.stop ≡ self.now.stop }
    {
        Span {
            start: self.start,
            stop: self.stop,
        }
    }

    /// Returns the fault that was found last.
    pub fn fault(&self) -> TextFault
        ensures { result ≡ self.now.fault }
    {
        self.fault
    }
}
