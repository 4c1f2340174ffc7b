ghost use Rattle.std.specs.Prelude.{◌≡◌, ◌<◌, length};
ghost use Rattle.odata_syntax.specs.TextTree.{IsTextRange, text_in};

use super::variables::Variables;
use csdl_schema::{Schema, TypeId};
use odata_syntax::SyntaxNode;
use odata_text::Span;
use std::alloc::Global;

/// What a list of nodes is judged by. It stays the same on the walk, but for the variables in a
/// lambda operator's body.
#[derive(Clone, Copy)]
pub(crate) struct CheckContext<'s> {
    pub(crate) alloc: Global,
    pub(crate) schema: &'s Schema,
    /// The type of the entities to be filtered.
    pub(crate) filtered_type: TypeId,
    pub(crate) variables: &'s Variables<'s>,
    /// The text of the filter.
    pub(crate) text: &'s str,
    /// Its nodes, each after its children.
    pub(crate) nodes: &'s [SyntaxNode],
}

/// A node to be judged, with its number in pre-order and the number after that of its last descendant.
#[derive(Clone, Copy)]
pub(crate) struct Judged<'s> {
    pub(crate) node: &'s SyntaxNode,
    pub(crate) number: usize,
    pub(crate) stop: usize,
}

ghost use Rattle.odata_typing.specs.private.CheckContexts.{IsNodeAt, IsContext};

impl<'s> CheckContext<'s> {
    /// The text in a range.
    #[inline(always)]
    pub(crate) fn text_in(&self, range: Span) -> &'s str
        requires { IsTextRange self.now.text.now range }
        ensures { result.now ≡ text_in self.now.text.now range }
    {
        &self.text[range.start..range.stop]
    }

    /// The node of an index.
    #[inline(always)]
    pub(crate) fn node_at(&self, index: usize) -> Judged<'s>
        requires context { IsContext self.now }
        requires inside { index < length self.now.nodes.now }
        ensures { IsNodeAt self.now index result }
    {
        let node = &self.nodes[index];
        let place = &node.place;
        let stop = place.number + (index + 1 - place.first);
        Judged {
            node,
            number: place.number,
            stop,
        }
    }
}
