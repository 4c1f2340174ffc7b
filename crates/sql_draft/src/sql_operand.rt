//! What an operator takes: a node, or a value that has been bound.
ghost use Rattle.std.specs.Prelude.{◌≡◌, ◌↔◌, ◌<◌, pos, Some, IsTrue, IsSomeAnd, false, length, slice_get};
ghost use Rattle.sql_tree.specs.declared.sql_node.SqlType.{SqlType};
ghost use Rattle.sql_draft.specs.declared.sql_operand.Source.{Source};
ghost use Rattle.sql_draft.specs.declared.sql_context.Kind.{Kind};
ghost use Rattle.sql_draft.specs.Kinds.{kind_of_type};
ghost use Rattle.sql_draft.specs.OperandHas.{IsInside, IsSideAt, bound_source, carrier_of};

use super::sql_context::{Kind, SqlContext};
use odata_checked_filter::NodeKind;
use odata_ranges::Range;
use sql_tree::{Carrier, FieldType, SqlType};

/// Where an operand's value comes from.
#[derive(Clone, Copy)]
pub enum Source {
    /// A node of the filter.
    Node { place: usize },
    /// A value that a `Let` binds.
    Bound { level: usize },
    /// The same, or null where it is a fault.
    Unfaulted { level: usize, carrier: Carrier },
    /// A primitive value at a path.
    Field { path: usize, value_type: FieldType },
    /// Null at a path or a structured value.
    Place { path: usize },
    /// The number of an enumeration, by its index among the filter's values.
    Number { value: usize },
    Zero,
}

/// What an operator takes.
#[derive(Clone, Copy)]
pub struct Operand {
    pub source: Source,
    pub kind: Kind,
    pub range: Range,
}

impl Operand {
    /// The node at an index.
    pub fn at(context: &SqlContext<'_, '_>, place: usize) -> Operand
        requires there { place < length context.now.checked.now.list.nodes }
        requires ranged { place < length context.now.ranges.now }
        ensures source { result.source ≡ Source.Node place }
        ensures kind { IsSomeAnd (slice_get context.now.checked.now.list.nodes place)
            (λ node. result.kind ≡ kind_of_type node.edm_type) }
        ensures range { slice_get context.now.ranges.now place ≡ Some result.range }
    {
        Operand {
            source: Source::Node { place },
            kind: context.kind(place),
            range: context.range(place),
        }
    }

    /// The node at an index; where a text there is read as the number of an enumeration, that number.
    pub fn side(context: &SqlContext<'_, '_>, place: usize) -> Operand
        requires there { place < length context.now.checked.now.list.nodes }
        requires ranged { place < length context.now.ranges.now }
        ensures { IsSideAt context.now.checked.now context.now.ranges.now place result }
    {
        match context.number_at(place) {
            Some(value) => Operand::number(value),
            None => Operand::at(context, place),
        }
    }

    /// The number of an enumeration.
    pub fn number(value: usize) -> Operand
        ensures source { result.source ≡ Source.Number value }
        ensures kind { result.kind ≡ Kind.Value SqlType.Member }
        ensures range { result.range ≡ record { may_fault = false; may_be_null = false; low = pos 0; high = pos 0 } }
    {
        Operand {
            source: Source::Number { value },
            kind: Kind::Value(SqlType::Member),
            range: Range::plain(false),
        }
    }

    /// The number 0.
    pub fn zero() -> Operand
        ensures source { result.source ≡ Source.Zero }
        ensures kind { result.kind ≡ Kind.Value SqlType.Whole }
        ensures range { result.range ≡ record { may_fault = false; may_be_null = false; low = pos 0; high = pos 0 } }
    {
        Operand {
            source: Source::Zero,
            kind: Kind::Value(SqlType::Whole),
            range: Range::between(0, 0, false),
        }
    }

    /// What carries its faults, where it may be one. A truth value that may be a fault is a code.
    pub fn carrier(&self) -> Option<Carrier>
        ensures { result ≡ carrier_of self.now.range.may_fault self.now.kind }
    {
        if !self.range.may_fault {
            return None;
        }
        match self.kind {
            Kind::Value(SqlType::Whole) => Some(Carrier::Number),
            Kind::Value(SqlType::Text) => Some(Carrier::Text),
            _ => None,
        }
    }

    /// The same value, bound at a level; where it may be a fault, null instead.
    pub fn bound(&self, level: usize) -> Operand
        ensures source { result.source ≡ bound_source (carrier_of self.now.range.may_fault self.now.kind) level }
        ensures kind { result.kind ≡ self.now.kind }
        ensures range { result.range ≡ record self.now.range { may_fault = false } }
    {
        let source = match self.carrier() {
            Some(carrier) => Source::Unfaulted { level, carrier },
            None => Source::Bound { level },
        };
        Operand {
            source,
            kind: self.kind,
            range: Range {
                may_fault: false,
                ..self.range
            },
        }
    }

    /// Whether it is a truth value.
    pub fn is_truth(&self) -> bool
        ensures { IsTrue result ↔ (self.now.kind ≡ Kind.Value SqlType.Truth) }
    {
        self.kind == Kind::Value(SqlType::Truth)
    }

    /// Whether its type is Null.
    pub fn is_null(&self) -> bool
        ensures { IsTrue result ↔ (self.now.kind ≡ Kind.Null) }
    {
        self.kind == Kind::Null
    }

    /// The type of its value in SQL; of null any.
    pub fn wanted(&self) -> SqlType
        ensures { (type : SqlType) → self.now.kind ≡ Kind.Value type → result ≡ type }
    {
        match self.kind {
            Kind::Value(value_type) => value_type,
            _ => SqlType::Whole,
        }
    }

    /// Whether writing it more than once costs nothing. It has no clause: the text that is written means the same.
    pub fn is_leaf(&self, context: &SqlContext<'_, '_>) -> bool
        requires { IsInside context.now.checked.now self.now.source }
    {
        match self.source {
            Source::Node { place } => match context.node(place).kind {
                NodeKind::Property { .. } => true,
                NodeKind::Member { .. } => true,
                NodeKind::Variable { .. } => true,
                NodeKind::It => true,
                NodeKind::Literal { .. } => true,
                _ => false,
            },
            _ => true,
        }
    }
}
