//! How far a scan over a document has come, and what one more byte does.
ghost use Rattle.std.specs.Prelude.{◌≡◌, ◌+◌, ◌<◌, ◌^◌, length};
ghost use Rattle.collection_reader.specs.private.ItemScan.{after_blank, at_phase, back_step, between_step, front_step, go_on, go_past, is_between, item_step, name_after, named_after, refused, closed, is_own, opened};

use crate::kind::{Kind, kind_of};
use crate::nest::{Mode, Nest, after_kind};
use crate::value_name::names_value;

/// How deep an item may nest.
pub(crate) const ITEM_DEPTH: u8 = 125;

/// How deep a document may nest.
const DOCUMENT_DEPTH: u8 = 127;

/// A byte that no text of UTF-8 has. It ends the lines of a document that is no collection.
pub(crate) const NO_TEXT: u8 = 0xff;

/// What has come of a document so far.
#[derive(Clone, Copy, Debug, PartialEq, Eq)]
pub(crate) enum Phase {
    /// What stands before the items: the bracket of the array has not come.
    Front,
    /// The bracket alone.
    Opened,
    /// A comma after an item.
    Comma,
    /// An item that may go on.
    Item,
    /// An item and a blank after it.
    Ended,
    /// The items, and some of what stands after them.
    Back,
    /// It is no collection.
    Over,
}

/// How far a scan has come.
#[derive(Clone, Copy, Debug, PartialEq, Eq)]
pub(crate) struct Scan {
    pub(crate) phase: Phase,
    /// Where the bytes end, of the document or of an item.
    pub(crate) nest: Nest,
    /// Where the last text of the document's own object begins.
    pub(crate) name: usize,
    /// Whether the colon of a member `value` came last, but for blanks.
    pub(crate) is_named: bool,
}

/// How far a scan has come with one more byte, and what is put for that.
#[derive(Clone, Copy, Debug)]
pub(crate) struct Step {
    pub(crate) scan: Scan,
    pub(crate) put: Option<u8>,
}

/// A scan at another phase.
#[inline(always)]
fn at_phase(scan: Scan, phase: Phase) -> Scan
    ensures { result ≡ at_phase scan phase }
{
    Scan {
        phase,
        nest: scan.nest,
        name: scan.name,
        is_named: scan.is_named,
    }
}

/// The end of a document that is no collection.
fn refused(scan: Scan) -> Step
    ensures { result ≡ refused scan }
{
    Step {
        scan: at_phase(scan, Phase::Over),
        put: Some(NO_TEXT),
    }
}

/// Whether bytes of an item end outside its brackets, braces and texts.
#[inline(always)]
pub(crate) fn is_between(nest: Nest) -> bool
    ensures { result ≡ is_between nest }
{
    match nest.mode {
        Mode::Outside => nest.depth == 0,
        _ => false,
    }
}

/// An item goes on by a byte of that kind, for which that is put.
#[inline(always)]
fn go_on(scan: Scan, kind: Kind, put: u8) -> Step
    ensures { result ≡ go_on scan kind put }
{
    match after_kind(ITEM_DEPTH, scan.nest, kind) {
        Some(nest) => Step {
            scan: Scan {
                phase: Phase::Item,
                nest,
                name: scan.name,
                is_named: scan.is_named,
            },
            put: Some(put),
        },
        None => refused(scan),
    }
}

/// The phase after a blank between items.
#[inline(always)]
fn after_blank(phase: Phase) -> Phase
    ensures { result ≡ after_blank phase }
{
    match phase {
        Phase::Item => Phase::Ended,
        _ => phase,
    }
}

/// The scan after the bracket that closes the array.
fn closed(scan: Scan) -> Scan
    ensures { result ≡ closed scan }
{
    Scan {
        phase: Phase::Back,
        nest: Nest {
            depth: 1,
            mode: Mode::Outside,
        },
        name: scan.name,
        is_named: false,
    }
}

/// A step between items, or in one outside its brackets, braces and texts.
fn between_step(scan: Scan, byte: u8, kind: Kind) -> Step
    ensures { result ≡ between_step scan byte kind }
{
    match kind {
        Kind::Blank | Kind::Feed => Step {
            scan: at_phase(scan, after_blank(scan.phase)),
            put: None,
        },
        Kind::Comma => match scan.phase {
            Phase::Item | Phase::Ended => Step {
                scan: at_phase(scan, Phase::Comma),
                put: Some(b'\n'),
            },
            _ => refused(scan),
        },
        Kind::BracketEnd => match scan.phase {
            Phase::Opened => Step {
                scan: closed(scan),
                put: None,
            },
            Phase::Item | Phase::Ended => Step {
                scan: closed(scan),
                put: Some(b'\n'),
            },
            _ => refused(scan),
        },
        _ => match scan.phase {
            Phase::Ended => refused(scan),
            _ => go_on(scan, kind, byte),
        },
    }
}

/// A step between the brackets of the array.
#[inline(always)]
pub(crate) fn item_step(scan: Scan, byte: u8) -> Step
    ensures { result ≡ item_step scan byte }
{
    let kind = kind_of(byte);
    if is_between(scan.nest) {
        return between_step(scan, byte, kind);
    }
    match kind {
        Kind::Feed => go_on(scan, kind, b' '),
        _ => go_on(scan, kind, byte),
    }
}

/// A step to where the bytes around the items end so; nothing is put.
fn go_past(scan: Scan, nest: Option<Nest>) -> Step
    ensures { result ≡ go_past scan nest }
{
    match nest {
        Some(nest) => Step {
            scan: Scan {
                phase: scan.phase,
                nest,
                name: scan.name,
                is_named: scan.is_named,
            },
            put: None,
        },
        None => refused(scan),
    }
}

/// A step after the items.
pub(crate) fn back_step(scan: Scan, byte: u8) -> Step
    ensures { result ≡ back_step scan byte }
{
    go_past(scan, after_kind(DOCUMENT_DEPTH, scan.nest, kind_of(byte)))
}

/// Whether the colon of a member `value` came last, after a byte of the document's own object.
fn named_after(scan: Scan, front: &[u8], kind: Kind) -> bool
    requires short { length front.now + 6 < 2 ^ 64 }
    ensures { result ≡ named_after scan front.now kind }
{
    match kind {
        Kind::Colon => names_value(front, scan.name),
        Kind::Blank | Kind::Feed => scan.is_named,
        _ => false,
    }
}

/// Where the last text of the document's own object begins, after a byte at an offset.
fn name_after(scan: Scan, offset: usize, kind: Kind) -> usize
    ensures { result ≡ name_after scan offset kind }
{
    match kind {
        Kind::Quote => offset,
        _ => scan.name,
    }
}

/// A step before the items, after these bytes.
pub(crate) fn front_step(scan: Scan, front: &[u8], byte: u8) -> Step
    requires short { length front.now + 6 < 2 ^ 64 }
    ensures { result ≡ front_step scan front.now byte }
{
    let kind = kind_of(byte);
    let nest = after_kind(DOCUMENT_DEPTH, scan.nest, kind);
    if !is_own(scan.nest) {
        return go_past(scan, nest);
    }
    if scan.is_named && kind == Kind::Bracket {
        return Step {
            scan: opened(scan),
            put: None,
        };
    }
    let own = Scan {
        phase: scan.phase,
        nest: scan.nest,
        name: name_after(scan, front.len(), kind),
        is_named: named_after(scan, front, kind),
    };
    go_past(own, nest)
}

/// Whether bytes end in the document's own object, outside texts.
fn is_own(nest: Nest) -> bool
    ensures { result ≡ is_own nest }
{
    match nest.mode {
        Mode::Outside => nest.depth == 1,
        _ => false,
    }
}

/// The scan after the bracket that opens the array.
fn opened(scan: Scan) -> Scan
    ensures { result ≡ opened scan }
{
    Scan {
        phase: Phase::Opened,
        nest: Nest {
            depth: 0,
            mode: Mode::Outside,
        },
        name: scan.name,
        is_named: false,
    }
}
