/// The thing at fault, and so which faults a number counts. These are the faults of `SchemaFault`, `QueryFault` (and 5
/// for `Disguised` of `FindFault`), `TextFault`, `SyntaxFault`, `TypeFaultCode`, `RowFault`, `EvalFault`, each from 1
/// in the order of its enum; of `Json` and those after it the number is 0.
#[derive(Clone, Copy, Debug, PartialEq, Eq)]
pub enum FaultClass {
    Schema,
    Query,
    Text,
    Syntax,
    Typing,
    Row,
    Evaluation,
    /// A row that is not JSON in UTF-8.
    Json,
    /// A line that is too long.
    Line,
    /// A document that is not a collection.
    Collection,
    /// A name that is not an entity type's.
    UnknownType,
    /// A query without a filter.
    NoFilter,
    /// A filter that calls `now`, and no moment for it.
    MomentNeeded,
    /// A text that is not a moment.
    NotAMoment,
    /// A row on which the filter costs more than the bound.
    TooCostly,
    /// A text that no parameter of SQL holds.
    Unsayable,
    /// A filter that nests too deeply for SQL.
    TooDeep,
    /// A column for a name that is not a property's.
    UnknownColumn,
}
