//! What a handle stands for.
ghost use Rattle.std.specs.Prelude.{◌≡◌};

use csdl_schema::{Schema, TypeId};
use edm_entities::RowFault;
use edm_rows::{LayoutReader, RowLayout};
use edm_values::Moment;
use odata_typing::{Checked, StoredFilter};
use row_judges::FilterRows;
use sql_tree::{Dialect, Parameter};
use std::marker::Model;
use std::sync::Arc;

/// What a handle of the library stands for: its kind says whether a call can use it.
#[derive(Drop)]
pub enum Handle {
    Schema(SchemaHandle),
    Type(TypeHandle),
    Filter(FilterHandle),
    /// In a box of its own, so that the other kinds stay small.
    Judge(Box<JudgeHandle>),
    /// Likewise.
    Conditions(Box<ConditionsHandle>),
}

/// A schema, which handles of types and filters share.
#[derive(Drop)]
pub struct SchemaHandle {
    pub schema: Arc<Schema>,
}

/// An entity type with its schema, and the layout of its rows where nothing is expanded. Filters share that layout.
#[derive(Drop)]
pub struct TypeHandle {
    pub schema: Arc<Schema>,
    pub id: TypeId,
    pub layout: Arc<RowLayout<'static>>,
}

impl Model for TypeHandle {
    ghost use Rattle.call_handles.specs.HeldType.{EntityType};

    ghost Value = { EntityType };

    ghost view = { λ held. record { schema = held.schema.value; id = held.id } };

    ghost use Rattle.call_handles.specs.private.HeldType.{IsHeldType};

    ghost invariant = { λ held. IsHeldType (record { schema = held.schema.value; id = held.id }) held.layout.value };
}

/// A filter with the schema that it was checked by, and the layout of its rows. That is its type's layout, or one of its
/// own where it navigates.
#[derive(Drop)]
pub struct FilterHandle {
    pub schema: Arc<Schema>,
    pub filter: Arc<StoredFilter>,
    pub layout: Arc<RowLayout<'static>>,
}

impl Model for FilterHandle {
    ghost use Rattle.odata_checked_filter.specs.Filter.{Filter};
    ghost use Rattle.odata_checked_filter.specs.contracts.checked_node.CheckedNode as checked_node;
    ghost use Rattle.edm_values.specs.contracts.value.Value as value;
    ghost use Rattle.std.specs.Coded.{codes};

    ghost Value = { Filter };

    ghost coded = { Prim.hlevel (codes, checked_node.the_row.coded, value.the_row.coded) };

    ghost use Rattle.odata_checked_filter.specs.Filter.{filter_in};

    ghost view = { λ held. filter_in held.schema.value held.filter.value };

    ghost use Rattle.call_handles.specs.private.Handle.{IsHeldFilter};

    ghost invariant = { λ held. IsHeldFilter (filter_in held.schema.value held.filter.value) held.layout.value };
}

impl FilterHandle {
    /// The filter, with its schema.
    #[inline(always)]
    pub fn checked(&self) -> Checked<'_>
        ensures { result ≡ self.now }
    {
        self.filter.with_schema(&self.schema)
    }
}

/// A filter, and what is stored from row to row for it.
#[derive(Drop)]
pub struct OwnFilter {
    pub held: FilterHandle,
    pub rows: FilterRows<'static>,
}

impl Model for OwnFilter {
    ghost use Rattle.odata_checked_filter.specs.Filter.{Filter};
    ghost use Rattle.odata_checked_filter.specs.contracts.checked_node.CheckedNode as checked_node;
    ghost use Rattle.edm_values.specs.contracts.value.Value as value;
    ghost use Rattle.std.specs.Coded.{codes};

    ghost Value = { Filter };

    ghost coded = { Prim.hlevel (codes, checked_node.the_row.coded, value.the_row.coded) };

    ghost view = { λ own. own.held };

    ghost use Rattle.row_judges.specs.FilterRows.{AreRowsOfFilter};

    ghost invariant = { λ own. AreRowsOfFilter own.held own.rows };
}

/// What lasts from row to row, of any filter.
#[derive(Drop)]
pub struct JudgeHandle {
    pub reader: LayoutReader,
    /// What `now()` stands for, if that is known.
    pub moment: Option<Moment>,
    /// What a row may cost, if that is bounded.
    pub bound: Option<u64>,
    /// What the last row was refused for, if it was.
    pub last: Option<RowFault>,
    /// The filter that it was made for, if it was made for one. In a box of its own, since it is large.
    pub own: Option<Box<OwnFilter>>,
}

/// An expression of SQL, and the values of its parameters in order.
#[derive(Drop)]
pub struct SqlStatement {
    pub text: String,
    pub parameters: Vec<Parameter>,
}

/// What a filter says of the rows of a table, in SQL of a dialect.
#[derive(Drop)]
pub struct ConditionsHandle {
    pub dialect: Dialect,
    pub outcome: SqlStatement,
    pub keep: SqlStatement,
    /// `None` where no row can have a fault.
    pub fault: Option<SqlStatement>,
}
