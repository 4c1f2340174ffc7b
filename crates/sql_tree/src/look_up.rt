/// A table that has a code for each code, or for each two of them.
/// The codes are 0 for false, 1 for true, 2 for null, 3 for Overflow and 4 for DivideByZero.
#[derive(Clone, Copy)]
pub enum LookUp {
    Not,
    And,
    Or,
    Equal,
    NotEqual,
    Greater,
    AtLeast,
    Less,
    AtMost,
    /// Whether a code is that of null.
    IsNull,
    IsNotNull,
    /// False for all but faults.
    Never,
}

impl LookUp {
    ghost use Rattle.std.specs.Prelude.{◌≡◌};
    ghost use Rattle.sql_tree.specs.TableDigits.{arity_of_table, table_text};

    /// How many codes it takes.
    pub(crate) fn arity(self) -> usize
        ensures { result ≡ arity_of_table self }
    {
        match self {
            LookUp::Not | LookUp::IsNull | LookUp::IsNotNull | LookUp::Never => 1,
            _ => 2,
        }
    }

    /// Its digits: at each code, or at five times the first code plus the second.
    pub(crate) fn digits(self) -> &'static str
        ensures { result.now ≡ table_text self }
    {
        match self {
            LookUp::Not => "10234",
            LookUp::And => "0000001234022343333344444",
            LookUp::Or => "0123411111212343333344444",
            LookUp::Equal => "1003401034001343333344444",
            LookUp::NotEqual => "0113410134110343333344444",
            LookUp::Greater => "0003410034000343333344444",
            LookUp::AtLeast => "1003411034001343333344444",
            LookUp::Less => "0103400034000343333344444",
            LookUp::AtMost => "1103401034001343333344444",
            LookUp::IsNull => "00134",
            LookUp::IsNotNull => "11034",
            LookUp::Never => "00034",
        }
    }
}
