ghost use Rattle.std.specs.Prelude.{◌≡◌};
ghost use Rattle.odata_checked_filter.specs.Filter.{IsFilter, filter_in};

use super::checked::Checked;
use super::list_cow::ListCow;
use super::node_list::NodeList;
use csdl_schema::{Expansion, Schema, TypeId};
use std::marker::Model;

/// A filter apart from its schema. A caller that stores both, each for as long as the other, combines them to ask
/// something of the filter; that it belongs to this schema is for the caller to show.
#[derive(Drop)]
pub struct StoredFilter {
    filtered_type: TypeId,
    list: NodeList,
    expansion: Expansion,
}

impl Model for StoredFilter {
    ghost use Rattle.odata_checked_filter.specs.StoredParts.{StoredParts};
    ghost use Rattle.odata_checked_filter.specs.contracts.checked_node.CheckedNode as checked_node;
    ghost use Rattle.edm_values.specs.contracts.value.Value as value;
    ghost use Rattle.std.specs.Coded.{codes};

    ghost Value = { StoredParts };

    ghost coded = { Prim.hlevel (codes, checked_node.the_row.coded, value.the_row.coded) };

    ghost view = { λ s. record { filtered = s.filtered_type; list = s.list; expansion = s.expansion } };
}

impl StoredFilter {
    /// Creates what is stored of a filter of that type.
    pub fn new(filtered_type: TypeId, list: NodeList, expansion: Expansion) -> StoredFilter
        ensures { result ≡ record { filtered = filtered_type; list = list; expansion = expansion } }
    {
        StoredFilter {
            filtered_type,
            list,
            expansion,
        }
    }

    /// Returns the filter with its schema. It borrows its list, so nothing is copied, and several may exist at once.
    pub fn with_schema<'s>(&'s self, schema: &'s Schema) -> Checked<'s>
        requires { IsFilter (filter_in schema.now self.now) }
        ensures { result ≡ filter_in schema.entry.now self.entry.now }
    {
        Checked::of(
            schema,
            self.filtered_type,
            ListCow::Borrowed(&self.list, &self.expansion),
        )
    }
}
