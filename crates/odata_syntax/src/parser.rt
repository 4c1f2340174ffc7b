//! From tokens to a tree (OData URL Conventions 4.01, section 5.1.1; OData ABNF 4.01, section 4). A machine takes token
//! after token: it keeps what waits for the operand that is being read, and what it expects next, and puts each node
//! into one list as soon as its children are in it.
ghost use Rattle.std.specs.Prelude.{◌≡◌, ◌≢◌, ◌+◌, ◌^◌, ◌<◌, ◌≤◌, Some, IfOk, IfErr, false, if◌then◌else◌, true};
ghost use Rattle.odata_syntax.specs.declared.syntax_fault.SyntaxFault.{SyntaxFault};
ghost use Rattle.odata_syntax.specs.Tree.{Tree};
ghost use Rattle.odata_syntax.specs.TreeView.{tree_of};
ghost use Rattle.odata_text.specs.TokenModel.{token_models};
ghost use Rattle.odata_text.specs.TokenSequence.{AreTextTokens};
ghost use Rattle.odata_syntax.specs.Front.{IsShallow, opens, closes, depth_limit};
ghost use Rattle.odata_syntax.specs.Grammar.{or_level, Derives};
ghost use Rattle.odata_syntax.specs.Parse.{IsParse, HasNoParse, IsSyntaxFault};
ghost use Rattle.odata_syntax.specs.PostOrder.{IsWholeTree, last_tree, trees_in};
ghost use Rattle.odata_syntax.specs.private.Forests.{token_texts};
ghost use Rattle.odata_syntax.specs.private.ListSteps.{IsSteadyState};
ghost use Rattle.odata_syntax.specs.private.Machine.{run, start};
ghost use Rattle.odata_syntax.specs.private.MachineView.{machine_of};
ghost use Rattle.odata_syntax.specs.private.Stops.{RefusesOneOf};

mod bracket;
mod expr_of_list;
mod lambda_tokens;
mod next_operator;
mod open_frames;
mod operand;
mod path;
mod state;
mod step;
mod text_parser;
mod word_test;

pub(crate) use crate::parser::expr_of_list::Forest;
use crate::parser::expr_of_list::root_of_list;
use crate::parser::state::{FRAME_ROOM, Piece, State, Step};
use crate::syntax_list::SyntaxNode;
use crate::{Expr, SyntaxFault};
use odata_text::{Span, Token, TokenKind};
use std::alloc::Global;
pub use text_parser::{TextOrSyntaxFault, parse_text};

/// No more parentheses may be open at once.
const DEPTH_LIMIT: usize = 64;

/// The greatest initial capacity of a list, in nodes.
const ROOM_LIMIT: usize = 1024;

/// Parses the tokens of one text into their tree. `len` is the length of the text in bytes.
///
/// `Unexpected` reports the first token with which the tokens so far begin no expression. If every beginning is one and
/// the whole is not, it reports the empty span at `len`. `TooDeep` reports the parenthesis that would be the 65th open
/// one.
pub fn parse(alloc: Global, tokens: &[Token<'_>], len: usize) -> Result<Expr, SyntaxFault>
    requires { AreTextTokens 0 len (token_models tokens.now) }
    ensures derived { IfOk result (λ expr. IsParse (token_models tokens.now) (tree_of expr)) }
    // it is the only one, at any depth
    ensures only { IfOk result (λ expr.
        (tree : Tree) → Derives or_level (token_models tokens.now) tree → tree ≡ tree_of expr) }
    ensures fault { IfErr result (λ fault.
        fault ≢ SyntaxFault.Memory → IsSyntaxFault (token_models tokens.now) len fault) }
    ensures none { IfErr result (λ fault. fault ≢ SyntaxFault.Memory → HasNoParse (token_models tokens.now)) }
{
    let nodes = nodes_of_tokens(alloc, tokens, len)?;
    let root = root_of_list(alloc, nodes.as_slice(), tokens)?;
    Ok(Expr::new(root))
}

/// The nodes of the tokens of one text, which name their texts by the numbers of the tokens.
fn nodes_of_tokens(
    alloc: Global,
    tokens: &[Token<'_>],
    len: usize,
) -> Result<Vec<SyntaxNode>, SyntaxFault>
    ensures parsed { IfOk result (λ nodes.
        IsParse (token_models tokens.now) (last_tree (trees_in (token_texts tokens.now) nodes.items))) }
    ensures only { IfOk result (λ nodes. (tree : Tree) → Derives or_level (token_models tokens.now) tree
        → tree ≡ last_tree (trees_in (token_texts tokens.now) nodes.items)) }
    ensures whole { IfOk result (λ nodes. IsWholeTree nodes.items) }
    ensures fault { IfErr result (λ fault.
        fault ≢ SyntaxFault.Memory → IsSyntaxFault (token_models tokens.now) len fault) }
    ensures none { IfErr result (λ fault. fault ≢ SyntaxFault.Memory → HasNoParse (token_models tokens.now)) }
{
    let nodes = Vec::with_capacity(alloc, tokens.len().min(ROOM_LIMIT))?;
    let frames = Vec::with_capacity(alloc, FRAME_ROOM)?;
    let mut state = State::new(nodes, frames);
    take_all(&mut state, tokens)?;
    match state.finish() {
        Step::Taken => Ok(state.nodes),
        Step::Refused => Err(unended(len)),
        Step::OutOfMemory => Err(SyntaxFault::Memory),
    }
}

/// Takes all tokens.
fn take_all(state: &mut State, tokens: &[Token<'_>]) -> Result<(), SyntaxFault>
    requires steady { IsSteadyState state.old }
    requires begun { machine_of (token_texts tokens.now) state.old ≡ start }
    ensures taken { IfOk result (λ _.
        run (token_models tokens.now) start ≡ Some (machine_of (token_texts tokens.now) state.new)) }
    ensures steady { IfOk result (λ _. IsSteadyState state.new) }
    ensures shallow { IfOk result (λ _. IsShallow (token_models tokens.now)) }
    ensures refused { IfErr result (RefusesOneOf (token_models tokens.now)) }
{
    let mut depth = Depth {
        opens: 0,
        closes: 0,
    };
    let mut number = 0;
    for token in tokens {
        let piece = Piece {
            token: *token,
            text: Span {
                start: number,
                stop: number,
            },
        };
        match state.step(&piece) {
            Step::Taken => {}
            Step::Refused => return Err(SyntaxFault::Unexpected { span: token.span }),
            Step::OutOfMemory => return Err(SyntaxFault::Memory),
        }
        number += 1;
        if depth.exceeds(token.kind) {
            return Err(SyntaxFault::TooDeep { span: token.span });
        }
    }
    Ok(())
}

/// One more token is needed after a text of `len` bytes.
fn unended(len: usize) -> SyntaxFault
    ensures { result ≡ SyntaxFault.Unexpected (record { start = len; stop = len }) }
{
    SyntaxFault::Unexpected {
        span: Span {
            start: len,
            stop: len,
        },
    }
}

/// How many parentheses the tokens so far open, and how many they close.
#[derive(Clone, Copy)]
struct Depth {
    opens: usize,
    closes: usize,
}

impl Depth {
    /// Counts one more token, and says whether more parentheses are open then than may be.
    #[inline(always)]
    fn exceeds(&mut self, kind: TokenKind) -> bool
        requires within { self.old.opens ≤ self.old.closes + depth_limit }
        requires few { self.old.closes < 2 ^ 63 }
        ensures opens { self.new.opens ≡ self.old.opens + (if opens kind then 1 else 0) }
        ensures closes { self.new.closes ≡ self.old.closes + (if closes kind then 1 else 0) }
        ensures deep { result ≡ true → self.new.closes + depth_limit < self.new.opens }
        ensures shallow { result ≡ false → self.new.opens ≤ self.new.closes + depth_limit }
    {
        match kind {
            TokenKind::Open => {
                self.opens += 1;
                self.opens > self.closes + DEPTH_LIMIT
            }
            TokenKind::Close => {
                self.closes += 1;
                false
            }
            _ => false,
        }
    }
}
