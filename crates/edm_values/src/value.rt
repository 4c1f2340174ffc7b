use crate::Moment;
use jiff::civil::Date;
use uuid::Uuid;

/// A value as an entity holds it. A record has its fields by slot, in the order of its type; one of few fields has each
/// beside its slot, and null in every other.
#[derive(Debug, Drop)]
pub enum Value {
    Null,
    Bool(bool),
    Int(i64),
    Text(String),
    Date(Date),
    Moment(Moment),
    Guid(Uuid),
    Enum(i64),
    Record(Vec<Value>),
    Sparse(Vec<(usize, Value)>),
    List(Vec<Value>),
}
