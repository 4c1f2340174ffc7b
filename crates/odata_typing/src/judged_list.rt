//! What has been judged of a list of nodes.
ghost use Rattle.std.specs.Prelude.{◌≡◌, ◌<◌, [], None, Some, IfNone, IfSome, false, length, slice_get, true};
ghost use Rattle.std.specs.Option.{option_map};
ghost use Rattle.csdl_schema.specs.PropertyView.{target_of};
ghost use Rattle.odata_syntax.specs.TextTree.{IsTextRange, text_in};
ghost use Rattle.odata_checked_filter.specs.ListChanges.{no_nodes};
ghost use Rattle.odata_typing.specs.private.Rows.{quoted_in};

use super::check_context::Judged;
use csdl_schema::Property;
use edm_values::Value;
use odata_checked_filter::{CheckedNode, NodeKind, NodeList};
use odata_signatures::{EdmType, TypeFault, TypeFaultCode};
use odata_syntax::LiteralKind;
use odata_text::Span;
use std::alloc::Global;

/// The nodes that have been judged, at their indexes, and the first fault. The calls that judge return whether to go
/// on: if not and there is no fault, an allocation failed.
#[derive(Drop)]
pub(crate) struct Walk {
    pub(crate) list: NodeList,
    pub(crate) fault: Option<TypeFault>,
    /// Whether a node leads over a navigation property.
    pub(crate) navigates: bool,
}

ghost use Rattle.odata_typing.specs.private.Walks.{IsNumberPut, IsPutIn, checked, walk_over, walk_put, walk_refused};

impl Walk {
    /// The walk before the first node, over a list that is still to be filled.
    #[inline(always)]
    pub(crate) fn new(alloc: Global) -> Walk
        ensures { result ≡ walk_over no_nodes }
    {
        Walk {
            list: NodeList::new(alloc),
            fault: None,
            navigates: false,
        }
    }

    /// The node has no type, for that reason.
    #[cold]
    #[inline(never)]
    pub(crate) fn refuse(&mut self, span: Span, code: TypeFaultCode) -> bool
        ensures stops { result ≡ false }
        ensures fault { self.new ≡ walk_refused self.old span code }
    {
        self.fault = Some(TypeFault { code, span });
        false
    }

    /// Puts a node at its index, with its text.
    #[inline(always)]
    pub(crate) fn put(&mut self, judged: &Judged<'_>, kind: NodeKind, edm_type: &EdmType) -> bool
        requires place { judged.now.number < length self.old.list.nodes }
        requires text { IsTextRange self.old.list.source judged.now.node.now.text }
        ensures goes_on { result ≡ true }
        ensures put { self.new ≡ walk_put self.old judged.now kind edm_type.now
            (text_in self.old.list.source judged.now.node.now.text) }
    {
        let node = node_of(judged, kind, edm_type);
        self.list.put(judged.number, node, judged.node.text);
        true
    }

    /// The same without a text.
    #[inline(always)]
    pub(crate) fn put_nameless(
        &mut self,
        judged: &Judged<'_>,
        kind: NodeKind,
        edm_type: &EdmType,
    ) -> bool
        requires { judged.now.number < length self.old.list.nodes }
        ensures goes_on { result ≡ true }
        ensures put { self.new ≡ walk_put self.old judged.now kind edm_type.now [] }
    {
        let node = node_of(judged, kind, edm_type);
        self.list.put_nameless(judged.number, node);
        true
    }

    /// Puts a node of a type without a text, or refuses it where it has none.
    #[inline(always)]
    pub(crate) fn put_typed(
        &mut self,
        judged: &Judged<'_>,
        kind: NodeKind,
        edm_type: Option<EdmType>,
        code: TypeFaultCode,
    ) -> bool
        requires { judged.now.number < length self.old.list.nodes }
        ensures some { IfSome edm_type (λ found. result ≡ true) }
        ensures put { IfSome edm_type (λ found. self.new ≡ walk_put self.old judged.now kind found []) }
        ensures none { IfNone edm_type (result ≡ false) }
        ensures refused { IfNone edm_type (self.new ≡ walk_refused self.old judged.now.node.now.span code) }
    {
        match edm_type {
            Some(edm_type) => self.put_nameless(judged, kind, &edm_type),
            None => self.refuse(judged.node.span, code),
        }
    }

    /// Puts another value after the others.
    #[inline(always)]
    pub(crate) fn push_value(&mut self, value: Value) -> bool
        ensures { IsPutIn self.old value self.new result }
    {
        match self.list.push_value(value) {
            Ok(()) => true,
            Err(_) => false,
        }
    }

    /// Gives the String literal of a judged node a number of an enumeration as its value.
    pub(crate) fn put_number(&mut self, place: usize, number: i64) -> bool
        requires { place < length self.old.list.nodes }
        ensures { IsNumberPut self.old place number self.new result }
    {
        match self.list.put_number(place, number) {
            Ok(()) => true,
            Err(_) => false,
        }
    }

    /// Whether a property leads to another entity is remembered.
    #[inline(always)]
    pub(crate) fn go_over(&mut self, property: &Property)
        ensures same { self.new ≡ record self.old { navigates = self.new.navigates } }
        ensures before { self.new.navigates ≡ false → self.old.navigates ≡ false }
        ensures target { self.new.navigates ≡ false → target_of property.now ≡ None }
    {
        if property.target().is_some() {
            self.navigates = true;
        }
    }

    /// The type of a judged node.
    #[inline(always)]
    pub(crate) fn type_at(&self, place: usize) -> &EdmType
        requires { place < length self.now.list.nodes }
        ensures { (found : CheckedNode) → slice_get self.now.list.nodes place ≡ Some found
            → result.now ≡ found.edm_type }
    {
        &self.list.nodes()[place].edm_type
    }

    /// Where a judged node stops.
    #[inline(always)]
    pub(crate) fn stop_at(&self, place: usize) -> usize
        requires { place < length self.now.list.nodes }
        ensures { (found : CheckedNode) → slice_get self.now.list.nodes place ≡ Some found → result ≡ found.stop }
    {
        self.list.nodes()[place].stop
    }

    /// The spelling of a judged node, where that is a String literal.
    pub(crate) fn quoted_at(&self, place: usize) -> Option<&str>
        requires { place < length self.now.list.nodes }
        ensures { (found : CheckedNode) → slice_get self.now.list.nodes place ≡ Some found
            → option_map (λ spelling. spelling.now) result ≡ quoted_in self.now.list place found }
    {
        match self.list.nodes()[place].kind {
            NodeKind::Literal {
                kind: LiteralKind::Str,
                ..
            } => Some(self.list.text(place)),
            _ => None,
        }
    }
}

/// The node that is put for one that was judged.
#[inline(always)]
fn node_of(judged: &Judged<'_>, kind: NodeKind, edm_type: &EdmType) -> CheckedNode
    ensures { result ≡ checked judged.now kind edm_type.now }
{
    CheckedNode {
        kind,
        span: judged.node.span,
        edm_type: *edm_type,
        stop: judged.stop,
    }
}
