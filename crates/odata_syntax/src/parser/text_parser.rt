//! From a filter's text to its tree as a list, token by token, without a list of the tokens.
ghost use Rattle.std.specs.Prelude.{◌≡◌, ◌≢◌, ◌≤◌, [], List, IfOk, IfErr};
ghost use Rattle.odata_text.specs.Scanning.{HasRead, IsReading, text_of};
ghost use Rattle.odata_text.specs.TokenModel.{TokenModel};
ghost use Rattle.odata_syntax.specs.Places.{ArePlaces};
ghost use Rattle.odata_syntax.specs.PostOrder.{IsWholeTree, Texts};
ghost use Rattle.odata_syntax.specs.TextTree.{AreTextRanges, HasNoTree, HasTree, IsFirstFault, listed_tree};
ghost use Rattle.odata_syntax.specs.Tree.{Tree};
ghost use Rattle.odata_syntax.specs.private.ListSteps.{IsSteadyState};
ghost use Rattle.odata_syntax.specs.private.Machine.{start};
ghost use Rattle.odata_syntax.specs.private.MachineView.{machine_of};
ghost use Rattle.odata_syntax.specs.private.TextParser.{IsFirstAfter, StopsText, TakesText};

use super::{Depth, ROOM_LIMIT, unended};
use crate::SyntaxFault;
use crate::node_places::put_places;
use crate::parser::state::{FRAME_ROOM, Piece, State, Step};
use crate::syntax_list::SyntaxList;
use odata_text::{Scanned, Scanner, TextFault, one_reading};
use std::alloc::Global;

/// Why a text has no tree: its first fault. One of its tokens comes before one of its tree, wherever the two stand.
#[derive(Clone, Copy, Debug, PartialEq, Eq)]
pub enum TextOrSyntaxFault {
    Text(TextFault),
    Syntax(SyntaxFault),
}

/// The initial capacity for the nodes of a short text: under a kilobyte, which allocators serve from their caches.
const SMALL_ROOM: usize = 14;

/// An allocation failed.
const OUT_OF_MEMORY: TextOrSyntaxFault = TextOrSyntaxFault::Syntax(SyntaxFault::Memory);

/// Parses a filter's text into a list: the tree that `tokens` and `parse` make, with the same faults. Spans, spellings
/// and names are ranges of bytes of the text.
pub fn parse_text(alloc: Global, text: &str) -> Result<SyntaxList, TextOrSyntaxFault>
    ensures tree { IfOk result (λ list. HasTree text.now (listed_tree text.now list.nodes)) }
    ensures only { IfOk result (λ list. (tree : Tree)
        → HasTree text.now tree → tree ≡ listed_tree text.now list.nodes) }
    ensures whole { IfOk result (λ list. IsWholeTree list.nodes) }
    ensures places { IfOk result (λ list. ArePlaces list.nodes list.places) }
    ensures ranges { IfOk result (λ list. AreTextRanges text.now list.nodes) }
    ensures fault { IfErr result (IsFirstFault text.now) }
    ensures none { IfErr result (λ fault.
        fault ≢ TextOrSyntaxFault.Syntax SyntaxFault.Memory → HasNoTree text.now) }
{
    one_reading();
    let scanner = match Scanner::new(text) {
        Ok(scanner) => scanner,
        Err(fault) => return Err(TextOrSyntaxFault::Text(fault)),
    };
    let Ok(nodes) = Vec::with_capacity(alloc, room_for(text.len())) else {
        return Err(OUT_OF_MEMORY);
    };
    let Ok(frames) = Vec::with_capacity(alloc, FRAME_ROOM) else {
        return Err(OUT_OF_MEMORY);
    };
    let mut state = State::new(nodes, frames);
    take_text(&mut state, scanner)?;
    match state.finish() {
        Step::Taken => {}
        Step::Refused => return Err(TextOrSyntaxFault::Syntax(unended(text.len()))),
        Step::OutOfMemory => return Err(OUT_OF_MEMORY),
    }
    put_places(&mut state.nodes);
    Ok(SyntaxList { nodes: state.nodes })
}

/// The initial capacity for the nodes of a text of `len` bytes. Most texts have fewer nodes.
#[inline(always)]
fn room_for(len: usize) -> usize
    ensures { result ≤ 1024 }
{
    let room = len / 4 + 4;
    if len < 64 {
        room.min(SMALL_ROOM)
    } else {
        room.min(ROOM_LIMIT)
    }
}

/// Takes the tokens of a scanner's text one after another.
fn take_text(state: &mut State, mut scanner: Scanner<'_>) -> Result<(), TextOrSyntaxFault>
    requires reading { IsReading scanner }
    requires first { HasRead scanner [] }
    requires steady { IsSteadyState state.old }
    requires begun { (texts : Texts) → machine_of texts state.old ≡ start }
    ensures taken { IfOk result (λ _. TakesText (text_of scanner.entry) state.new) }
    ensures steady { IfOk result (λ _. IsSteadyState state.new) }
    ensures stops { IfErr result (StopsText (text_of scanner.entry)) }
{
    let mut depth = Depth {
        opens: 0,
        closes: 0,
    };
    loop {
        match scanner.next_token() {
            Scanned::Token => {}
            Scanned::End => return Ok(()),
            Scanned::Fault => return Err(TextOrSyntaxFault::Text(scanner.fault())),
        }
        let token = scanner.token();
        let span = token.span;
        match state.step(&Piece { token, text: span }) {
            Step::Taken => {}
            Step::Refused => return Err(first_fault(scanner, SyntaxFault::Unexpected { span })),
            Step::OutOfMemory => return Err(OUT_OF_MEMORY),
        }
        if depth.exceeds(token.kind) {
            return Err(first_fault(scanner, SyntaxFault::TooDeep { span }));
        }
    }
}

/// The first fault of a text with this fault of its tree at the token that was read last: one of its tokens, if the
/// scanner finds one further on.
#[cold]
#[inline(never)]
fn first_fault(mut scanner: Scanner<'_>, fault: SyntaxFault) -> TextOrSyntaxFault
    requires { IsReading scanner }
    ensures { (list : List TokenModel) → HasRead scanner.entry list
        → IsFirstAfter (text_of scanner.entry) list fault result }
{
    loop {
        match scanner.next_token() {
            Scanned::Token => {}
            Scanned::End => return TextOrSyntaxFault::Syntax(fault),
            Scanned::Fault => return TextOrSyntaxFault::Text(scanner.fault()),
        }
    }
}
