use crate::{Moment, Value};
use jiff::civil::Date;
use std::alloc::Global;
use std::borrow::CowStr;
use uuid::Uuid;

/// A value as the evaluator passes it on: texts, records and lists stay where the entity holds them.
#[derive(Drop)]
pub enum Datum<'e> {
    Null,
    Bool(bool),
    Int(i64),
    Text(CowStr<'e, Global>),
    Date(Date),
    Moment(Moment),
    Guid(Uuid),
    Enum(i64),
    Record(&'e [Value]),
    Sparse(&'e [(usize, Value)]),
    List(&'e [Value]),
}
