use super::dialect::Dialect;
use super::look_up::LookUp;
use csdl_schema::EnumId;
use edm_values::Prim;
use odata_functions::ArithFault;
use odata_syntax::{ArithmeticOperator, ComparisonOperator, Quantifier};

/// What kind of values an SQL expression has.
#[derive(Clone, Copy, PartialEq, Eq)]
pub enum SqlType {
    Truth,
    /// A whole number of 64 bits, or of any size where it may be a fault.
    Whole,
    Text,
    Date,
    /// A date and time of day with its offset, by its text.
    Moment,
    /// The point in time of a moment.
    Instant,
    Guid,
    /// A number of an enumeration.
    Member,
}

impl SqlType {
    ghost use Rattle.std.specs.Prelude.{◌≡◌};
    ghost use Rattle.sql_tree.specs.FixedPieces.{is_collated};

    /// Whether its values are compared as texts: in SQLite dates, instants and Guids are texts too.
    pub(crate) fn is_collated(self, dialect: Dialect) -> bool
        ensures { result ≡ is_collated dialect self }
    {
        match (dialect, self) {
            (_, SqlType::Text) => true,
            (Dialect::Sqlite, SqlType::Date | SqlType::Instant | SqlType::Guid) => true,
            _ => false,
        }
    }
}

/// What carries a value that may be a fault.
#[derive(Clone, Copy)]
pub enum Carrier {
    Number,
    Text,
}

/// The type of a value that stands in JSON.
#[derive(Clone, Copy)]
pub enum FieldType {
    Prim(Prim),
    Enum(EnumId),
}

/// A function of values that are not null. Where one is null, so is what it gives.
#[derive(Clone, Copy)]
pub enum SqlFunction {
    Contains,
    StartsWith,
    EndsWith,
    Concat,
    Length,
    IndexOf,
    RestFrom,
    PartFrom,
    Trim,
    ToLower,
    ToUpper,
    YearOfDate,
    MonthOfDate,
    DayOfDate,
    YearOfMoment,
    MonthOfMoment,
    DayOfMoment,
    Hour,
    Minute,
    Second,
    OffsetMinutes,
    DateOfMoment,
    Instant,
}

/// A number that a tree itself has. There are no others, so that no number of a client's can stand in a text.
#[derive(Clone, Copy)]
pub enum Digit {
    Zero,
    One,
    Two,
    Three,
    Seven,
}

/// A node of a tree of SQL. Its children stand after it, in the order in which its text has them.
#[derive(Clone, Copy)]
pub enum SqlNode {
    /// The parameter at an index, counted from 0.
    Parameter {
        place: usize,
        value_type: SqlType,
    },
    Null {
        value_type: SqlType,
    },
    Truth {
        value: bool,
    },
    Number {
        value: Digit,
    },
    /// The column of a property of the row, by its slot.
    Column {
        slot: usize,
    },
    /// The value at a path, null where a step leads from null.
    Field {
        path: usize,
        value_type: FieldType,
    },
    /// Whether there is null at a path.
    IsMissing {
        path: usize,
    },
    /// How many members the collection at a path has, null for null.
    Count {
        path: usize,
    },
    /// A value that a `Let` around it binds.
    Bound {
        level: usize,
    },
    Fault {
        carrier: Carrier,
        fault: ArithFault,
    },
    Not,
    And,
    Or,
    /// Whether a truth value is true: false for null.
    IsTrue,
    IsNull,
    /// A comparison, null where a side is null.
    Compare {
        operator: ComparisonOperator,
        value_type: SqlType,
    },
    /// Whether two values are equal, null being equal to null alone.
    Same {
        value_type: SqlType,
    },
    /// 0 for false, 1 for true and 2 for null.
    TruthCode,
    /// The second child where the first is true, else the third.
    Case,
    /// The first child, or the second where that is null.
    Coalesce,
    /// Arithmetic in 64 bits. That its result lies within them is for who makes the node to see.
    Plain {
        operator: ArithmeticOperator,
    },
    /// Arithmetic without bounds, of numbers of 64 bits. That no divisor is 0 is for who makes the node to see.
    Wide {
        operator: ArithmeticOperator,
    },
    /// Whether a number lies within a type, null for null.
    Within {
        prim: Prim,
    },
    /// 3 for Overflow, 4 for DivideByZero, and null for a value that is no fault.
    FaultCode {
        carrier: Carrier,
    },
    /// The fault of such a code, null for null.
    FaultOfCode {
        carrier: Carrier,
    },
    /// The value, or null where it is a fault.
    Unfault {
        carrier: Carrier,
    },
    /// A value as one that may be a fault.
    Carried {
        carrier: Carrier,
    },
    /// The bits that two numbers share.
    Bits,
    /// Whether the first number has all bits of the second.
    HasBits,
    /// Whether the first child is equal to one of so many others, none of which is null; null where it is null.
    Among {
        count: usize,
        value_type: SqlType,
    },
    /// Of a code that decides `any` or `all`, eight times the index of the member that the `Least` of that level is at,
    /// counted from 0, and the code that is decided. Null for another code.
    Decided {
        quantifier: Quantifier,
        level: usize,
    },
    /// What a table has at a code.
    LookUp {
        table: LookUp,
    },
    /// The first child, over the values of the others, which it has at the levels from this one on.
    Let {
        level: usize,
        count: usize,
    },
    /// Whether the condition is true at some member of the collection at the path.
    Exists {
        path: usize,
        level: usize,
    },
    /// The least value over the members of the collection at the path that is not null.
    Least {
        path: usize,
        level: usize,
    },
    Function {
        function: SqlFunction,
    },
}
