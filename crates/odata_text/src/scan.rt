//! The list of a filter's tokens.
ghost use Rattle.std.specs.Prelude.{◌≡◌, ◌≢◌, [], IfOk, IfErr, List};
ghost use Rattle.odata_text.specs.Scanning.{HasRead, IsReading, text_of};
ghost use Rattle.odata_text.specs.TokenModel.{TokenModel, token_models};
ghost use Rattle.odata_text.specs.Tokens.{IsTextFault, IsTokenList};

use super::scanner::{Scanned, Scanner};
use super::text_fault::TextFault;
use super::token::Token;
use std::alloc::Global;

/// How many tokens the list has memory for before it grows. Most filters have no more.
const FIRST_TOKENS: usize = 16;

/// The tokens of a scanner's text. None has been read before.
fn all_tokens<'t>(alloc: Global, mut scanner: Scanner<'t>) -> Result<Vec<Token<'t>>, TextFault>
    requires reading { IsReading scanner }
    requires first { HasRead scanner [] }
    ensures ok { IfOk result (λ tokens. IsTokenList (text_of scanner.entry) (token_models tokens.items)) }
    ensures fault { IfErr result (λ fault. fault ≢ TextFault.Memory → IsTextFault (text_of scanner.entry) fault) }
{
    let Ok(mut tokens) = Vec::with_capacity(alloc, FIRST_TOKENS) else {
        return Err(TextFault::Memory);
    };
    loop {
        match scanner.next_token() {
            Scanned::Token => tokens.push(scanner.token())?,
            Scanned::End => return Ok(tokens),
            Scanned::Fault => return Err(scanner.fault()),
        }
    }
}

/// Splits a filter's text into tokens from left to right, each the longest piece at its offset.
///
/// Spans are byte offsets in `text`. White space between tokens, spaces and tabs, belongs to none (OData ABNF 4.01,
/// section 6). A refusal other than `Memory` is the first fault from the left. `TooLong` for a text of over 16,384
/// bytes comes before all others; for a 4,097th token, if that is faultless, it names that token.
pub fn tokens<'t>(alloc: Global, text: &'t str) -> Result<Vec<Token<'t>>, TextFault>
    ensures ok { IfOk result (λ tokens. IsTokenList text.now (token_models tokens.items)) }
    ensures only { IfOk result (λ tokens. (other : List TokenModel)
        → IsTokenList text.now other → other ≡ token_models tokens.items) }
    ensures fault { IfErr result (λ fault. fault ≢ TextFault.Memory → IsTextFault text.now fault) }
    ensures none { IfErr result (λ fault. fault ≢ TextFault.Memory → (other : List TokenModel)
        → IsTokenList text.now other → ⊥) }
{
    let scanner = Scanner::new(text)?;
    all_tokens(alloc, scanner)
}
