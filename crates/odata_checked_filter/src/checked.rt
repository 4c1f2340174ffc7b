ghost use Rattle.std.specs.Prelude.{◌≡◌, ◌<◌, ◌↔◌, ℕ, length, map, slice_get, string_bytes};
ghost use Rattle.std.specs.Prelude.{IsTrue, IsSome, IfSome, IfNone, IfOk, Some};
ghost use Rattle.std.specs.Option.{option_map};
ghost use Rattle.odata_syntax.specs.CanonicalText.{IsCanonicalText};
ghost use Rattle.csdl_schema.specs.SchemaModel.{HoldsType};
ghost use Rattle.odata_checked_filter.specs.Calls.{TakesMemory, UsesNow};
ghost use Rattle.odata_checked_filter.specs.Explanation.{IsExplanation};
ghost use Rattle.odata_checked_filter.specs.Filter.{IsFilter, IsTypeAt, filter_of, tree_of_filter};
ghost use Rattle.odata_checked_filter.specs.LambdaDepth.{lambda_depth};
ghost use Rattle.odata_checked_filter.specs.NameKinds.{IsSlotAt, level_at};
ghost use Rattle.odata_checked_filter.specs.PropertyPaths.{property_paths};
ghost use Rattle.odata_checked_filter.specs.private.KeptLists.{expansion_in, list_in};
ghost use Rattle.odata_signatures.specs.PreOrder.{pre_order, span_of_tree};
ghost use Rattle.odata_signatures.specs.TypeView.{expr_type};

use super::called::{any_maker, any_now};
use super::checked_node::{CheckedNode, NodeKind};
use super::explanation::explanation_of;
use super::lambda_depth::deepest;
use super::list_cow::ListCow;
use super::node_list::NodeList;
use super::property_paths::paths_of_list;
use csdl_schema::{Expansion, Schema, TypeId};
use edm_values::Value;
use odata_signatures::{EdmType, calls_have_one_type, trees_have_one_type};
use odata_syntax::print_tree;
use odata_text::Span;
use std::alloc::{AllocError, Global};
use std::marker::Model;

/// A filter whose expression has type Boolean or Null for its type in its schema.
#[derive(Drop)]
pub struct Checked<'s> {
    schema: &'s Schema,
    filtered_type: TypeId,
    list: ListCow<'s>,
}

impl<'s> Model for Checked<'s> {
    ghost use Rattle.odata_checked_filter.specs.Filter.{Filter};
    ghost use Rattle.odata_checked_filter.specs.contracts.checked_node.CheckedNode as checked_node;
    ghost use Rattle.edm_values.specs.contracts.value.Value as value;
    ghost use Rattle.std.specs.Coded.{codes};

    ghost Value = { Filter };

    ghost coded = { Prim.hlevel (codes, checked_node.the_row.coded, value.the_row.coded) };

    ghost use Rattle.odata_checked_filter.specs.Filter.{IsFilter, filter_of};
    ghost use Rattle.odata_checked_filter.specs.private.KeptLists.{expansion_in, list_in};

    ghost view = { λ c. filter_of c.schema.now c.filtered_type (list_in c.list) (expansion_in c.list) };

    ghost invariant = { λ c.
        IsFilter (filter_of c.schema.now c.filtered_type (list_in c.list) (expansion_in c.list)) };
}

impl<'s> Checked<'s> {
    /// Creates the filter of a list that stands for a tree of type Boolean or Null. It stores what that needs of
    /// navigation.
    pub fn new(
        schema: &'s Schema,
        filtered_type: TypeId,
        list: NodeList,
        expansion: Expansion,
    ) -> Checked<'s>
        requires { IsFilter (filter_of schema.now filtered_type list expansion) }
        ensures { result ≡ filter_of schema.entry.now filtered_type list expansion }
    {
        Checked::of(schema, filtered_type, ListCow::Own(list, expansion))
    }

    /// The same, wherever the list is stored.
    pub(crate) fn of(schema: &'s Schema, filtered_type: TypeId, list: ListCow<'s>) -> Checked<'s>
        requires { IsFilter (filter_of schema.now filtered_type (list_in list) (expansion_in list)) }
        ensures { result ≡ filter_of schema.entry.now filtered_type (list_in list.entry) (expansion_in list.entry) }
    {
        Checked {
            schema,
            filtered_type,
            list,
        }
    }

    /// Returns the schema that the filter was checked against.
    pub fn schema(&self) -> &'s Schema
        ensures { result.now ≡ self.now.schema }
    {
        self.schema
    }

    /// Returns the type of the entities that it filters.
    pub fn filtered_type(&self) -> TypeId
        ensures same { result ≡ self.now.filtered }
        ensures held { HoldsType self.now.schema result }
    {
        self.filtered_type
    }

    /// Returns the paths of its nodes that end with a navigation property: what a row must have expanded.
    pub fn expansion(&self) -> &Expansion
        ensures same { result.now ≡ self.now.expansion }
        ensures right { IsFilter self.now }
    {
        self.list.expansion()
    }

    /// Returns the tree's nodes in pre-order, each with its kind, its span, its type and where it stops.
    pub fn nodes(&self) -> &[CheckedNode]
        ensures same { result.now ≡ self.now.list.nodes }
        ensures right { IsFilter self.now }
    {
        self.list().nodes()
    }

    /// Returns the text of a node: a literal's spelling, a name, or nothing. Of a lambda operator it is the name of its
    /// range variable.
    pub fn text(&self, node: usize) -> &str
        requires { node < length self.now.list.nodes }
        ensures { slice_get self.now.list.texts node ≡ Some result.now }
    {
        self.list().text(node)
    }

    /// Returns the values of the literals, at the indexes that their nodes name.
    pub fn values(&self) -> &[Value]
        ensures { result.now ≡ self.now.list.values }
    {
        self.list().values()
    }

    /// The whole list.
    pub(crate) fn list(&self) -> &NodeList
        ensures same { result.now ≡ self.now.list }
        ensures right { IsFilter self.now }
    {
        self.list.list()
    }

    /// The node of a number, counted from 0. `None` past the last node.
    fn node_at(&self, number: usize) -> Option<&CheckedNode>
        ensures same { option_map (λ found. found.now) result ≡ slice_get self.now.list.nodes number }
        ensures right { IsFilter self.now }
    {
        self.nodes().get(number)
    }

    /// Returns how many nodes the tree has.
    pub fn node_count(&self) -> usize
        ensures { result ≡ length (pre_order (tree_of_filter self.now)) }
    {
        self.nodes().len()
    }

    /// Returns the type of a node, numbered from 0 in pre-order. `None` past the last node.
    pub fn type_of(&self, node: usize) -> Option<EdmType>
        ensures inside { IsSome result ↔ (node < length (pre_order (tree_of_filter self.now))) }
        ensures typed { IfSome result (λ t. IsTypeAt self.now node (expr_type self.now.schema t)) }
    {
        match self.node_at(node) {
            Some(found) => Some(found.edm_type),
            None => None,
        }
    }

    /// Returns the span of a node, numbered from 0 in pre-order. `None` past the last node.
    pub fn span_of(&self, node: usize) -> Option<Span>
        ensures { result ≡ option_map span_of_tree (slice_get (pre_order (tree_of_filter self.now)) node) }
    {
        match self.node_at(node) {
            Some(found) => Some(found.span),
            None => None,
        }
    }

    /// Returns the slot of a node that names a property, numbered from 0 in pre-order. It is a slot of the filtered
    /// type for a name, and of the type of what stands before the slash for a step. `None` for every other node and
    /// past the last one.
    pub fn slot_of(&self, node: usize) -> Option<usize>
        ensures found { IfSome result (IsSlotAt self.now node) }
        ensures none { IfNone result ((slot : ℕ) → ¬ IsSlotAt self.now node slot) }
    {
        trees_have_one_type();
        match self.node_at(node) {
            Some(found) => match found.kind {
                NodeKind::Property { slot } => Some(slot),
                NodeKind::Member { slot } => Some(slot),
                _ => None,
            },
            None => None,
        }
    }

    /// Returns the level of a node that names a range variable. That is how many variables were in scope where its
    /// lambda operator bound it. `None` for every other node and past the last one.
    pub fn level_of(&self, node: usize) -> Option<usize>
        ensures { result ≡ level_at self.now node }
    {
        match self.node_at(node) {
            Some(found) => match found.kind {
                NodeKind::Variable { level } => Some(level),
                _ => None,
            },
            None => None,
        }
    }

    /// Returns the canonical text of the filter, as `print` gives it of its tree.
    pub fn canonical(&self, alloc: Global) -> Result<String, AllocError>
        ensures { IfOk result (λ text. IsCanonicalText (tree_of_filter self.now) (string_bytes text)) }
    {
        // What is known of every filter is known once its nodes have been asked for.
        let _nodes = self.nodes();
        let list = self.list();
        print_tree(alloc, list, 0, list.source_len())
    }

    /// Returns a line for each node, in pre-order: its span, what it is called and its type. Two spaces stand before
    /// that for each node around it. Each line ends with a line feed.
    pub fn explain(&self, alloc: Global) -> Result<String, AllocError>
        ensures { IfOk result (λ text. IsExplanation self.now (string_bytes text)) }
    {
        explanation_of(alloc, self)
    }

    /// Returns the greatest depth of lambda operators with a body in one another, 0 where there is none. The cost of a
    /// row may grow with the product of so many lengths of its collections.
    pub fn lambda_depth(&self) -> usize
        ensures { result ≡ lambda_depth (tree_of_filter self.now) }
    {
        let list = self.list();
        deepest(list, 0, list.nodes().len())
    }

    /// Returns the properties that the filter reads, by their paths from the filtered entity on. A property of that
    /// type has its name, as `Name`, a step its base's path and its name, as `Home/City`, and what a range variable
    /// leads to its collection's path, as `Parts/Qty` of `Parts/any(p:p/Qty gt 1)`. Each stands once, in the order of
    /// the first node that names it in pre-order, so `Home`, which a node of `Home/City` names too, comes after that.
    /// The only error is out of memory.
    pub fn property_paths(&self, alloc: Global) -> Result<Vec<String>, AllocError>
        ensures { IfOk result (λ paths. map string_bytes paths.items ≡ property_paths (tree_of_filter self.now)) }
    {
        paths_of_list(alloc, self.list())
    }

    /// Returns whether evaluating the filter makes texts.
    pub fn takes_memory(&self) -> bool
        ensures { IsTrue result ↔ TakesMemory (tree_of_filter self.now) }
    {
        calls_have_one_type();
        any_maker(self.nodes())
    }

    /// Returns whether the filter needs the moment of its evaluation.
    pub fn uses_now(&self) -> bool
        ensures { IsTrue result ↔ UsesNow (tree_of_filter self.now) }
    {
        calls_have_one_type();
        any_now(self.nodes())
    }
}
