ghost use Rattle.std.specs.Prelude.{◌≡◌, ◌<◌, [], Some, length, slice_get, OnOk, OnErr};
ghost use Rattle.odata_syntax.specs.TextTree.{IsTextRange, text_in};
ghost use Rattle.odata_checked_filter.specs.ListChanges.{no_nodes, node_put, number_put, with_room, with_value};

use super::checked_node::{CheckedNode, NodeKind};
use edm_values::Value;
use odata_signatures::EdmType;
use odata_syntax::LiteralKind;
use odata_text::Span;
use std::alloc::{AllocError, Global};
use std::marker::Model;

/// The nodes of a tree in pre-order, with the values of their literals and their texts. The text of a node is a
/// literal's spelling, a name, of a lambda operator the name of its range variable, and nothing for other operators.
/// The texts are ranges of one copy of the filter's text.
#[derive(Drop)]
pub struct NodeList {
    nodes: Vec<CheckedNode>,
    values: Vec<Value>,
    texts: Vec<Span>,
    source: String,
}

/// What stands at an index of the list before its node is put there.
const NOTHING_YET: CheckedNode = CheckedNode {
    kind: NodeKind::It,
    span: NOWHERE,
    edm_type: EdmType::Null,
    stop: 0,
};

/// The range without bytes at the start.
const NOWHERE: Span = Span { start: 0, stop: 0 };

impl Model for NodeList {
    ghost use Rattle.odata_checked_filter.specs.FlatTree.{FlatTree};
    ghost use Rattle.odata_syntax.specs.TextTree.{text_in};
    ghost use Rattle.odata_checked_filter.specs.private.NodeList.{AreRanges};
    ghost use Rattle.odata_checked_filter.specs.contracts.checked_node.CheckedNode as checked_node;
    ghost use Rattle.edm_values.specs.contracts.value.Value as value;
    ghost use Rattle.std.specs.Coded.{codes};
    ghost use Rattle.std.specs.Prelude.{map, string_bytes};

    ghost Value = { FlatTree };

    ghost coded = { Prim.hlevel (codes, checked_node.the_row.coded, value.the_row.coded) };

    ghost view = { λ l. record {
      nodes = l.nodes.items;
      values = l.values.items;
      texts = map (text_in (string_bytes l.source)) l.texts.items;
      source = string_bytes l.source;
    } };

    ghost invariant = { λ l. AreRanges l.nodes.items l.texts.items (string_bytes l.source) };
}

impl NodeList {
    /// Creates a list without nodes.
    #[inline(always)]
    pub fn new(alloc: Global) -> NodeList
        ensures { result ≡ no_nodes }
    {
        NodeList {
            nodes: Vec::new(alloc),
            values: Vec::new(alloc),
            texts: Vec::new(alloc),
            source: String::new(alloc),
        }
    }

    /// Fills the list with `count` placeholder nodes, whose texts are empty ranges of `source`. After an error the list
    /// is unchanged.
    #[inline(always)]
    pub fn make_room(&mut self, alloc: Global, source: &str, count: usize) -> Result<(), AllocError>
        ensures ok { OnOk result (self.new ≡ with_room self.old source.now count) }
        ensures err { OnErr result (self.new ≡ self.old) }
    {
        let end = Span {
            start: source.len(),
            stop: source.len(),
        };
        let nodes = Vec::from_elem(alloc, NOTHING_YET, count)?;
        let texts = Vec::from_elem(alloc, end, count)?;
        self.source = String::from_str(alloc, source)?;
        self.nodes = nodes;
        self.texts = texts;
        Ok(())
    }

    /// Returns the nodes.
    pub fn nodes(&self) -> &[CheckedNode]
        ensures same { result.now ≡ self.now.nodes }
        ensures beside { length self.now.texts ≡ length self.now.nodes }
    {
        self.nodes.as_slice()
    }

    /// Returns the node at an index.
    pub fn node(&self, place: usize) -> CheckedNode
        requires { place < length self.now.nodes }
        ensures { slice_get self.now.nodes place ≡ Some result }
    {
        self.nodes[place]
    }

    /// Returns the text of a node.
    pub fn text(&self, place: usize) -> &str
        requires { place < length self.now.nodes }
        ensures { slice_get self.now.texts place ≡ Some result.now }
    {
        let range = self.texts[place];
        &self.source[range.start..range.stop]
    }

    /// How many bytes the text has of which the nodes' texts are ranges.
    pub(crate) fn source_len(&self) -> usize
        ensures { result ≡ length self.now.source }
    {
        self.source.len()
    }

    /// Returns the values of its literals.
    pub fn values(&self) -> &[Value]
        ensures { result.now ≡ self.now.values }
    {
        self.values.as_slice()
    }

    /// Puts a value after the others. After an error the list is unchanged.
    pub fn push_value(&mut self, value: Value) -> Result<(), AllocError>
        ensures ok { OnOk result (self.new ≡ with_value self.old value) }
        ensures err { OnErr result (self.new ≡ self.old) }
    {
        match self.values.push(value) {
            Ok(()) => Ok(()),
            Err(refused) => Err(refused.into()),
        }
    }

    /// Puts a node at its index, with the range of its text.
    #[inline(always)]
    pub fn put(&mut self, place: usize, node: CheckedNode, text: Span)
        requires place { place < length self.old.nodes }
        requires text { IsTextRange self.old.source text }
        ensures { self.new ≡ node_put self.old place node (text_in self.old.source text) }
    {
        self.nodes[place] = node;
        self.texts[place] = text;
    }

    /// Puts a node at its index, without a text.
    #[inline(always)]
    pub fn put_nameless(&mut self, place: usize, node: CheckedNode)
        requires { place < length self.old.nodes }
        ensures { self.new ≡ node_put self.old place node [] }
    {
        self.nodes[place] = node;
        self.texts[place] = NOWHERE;
    }

    /// Gives the String literal at an index a number of an enumeration as its value. After an error the list is
    /// unchanged.
    pub fn put_number(&mut self, place: usize, number: i64) -> Result<(), AllocError>
        requires { place < length self.old.nodes }
        ensures ok { (found : CheckedNode) → slice_get self.old.nodes place ≡ Some found
            → OnOk result (self.new ≡ number_put self.old place found number) }
        ensures err { OnErr result (self.new ≡ self.old) }
    {
        let value = self.values.len();
        self.push_value(Value::Enum(number))?;
        let node = self.nodes[place];
        self.nodes[place] = CheckedNode {
            kind: NodeKind::Literal {
                kind: LiteralKind::Str,
                value,
            },
            span: node.span,
            edm_type: node.edm_type,
            stop: node.stop,
        };
        Ok(())
    }
}
