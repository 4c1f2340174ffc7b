use std::alloc::AllocError;
use thiserror::Error;

/// Why a filter has no conditions in a dialect. It is shown by its name.
#[derive(Clone, Copy, Debug, PartialEq, Eq, Error)]
pub enum SqlFault {
    /// A text of the filter or a name of the storage holds the character U+0000, which neither engine takes.
    #[error("Nul")]
    Nul,
    /// The filter nests over 100 levels, or the text more deeply than the engine's parser goes.
    #[error("TooDeep")]
    TooDeep,
    /// The table has no column for a property of the row that the filter names.
    #[error("NoColumn")]
    NoColumn,
    /// An allocation failed.
    #[error("memory")]
    Memory,
}

impl From<AllocError> for SqlFault {
    ghost use Rattle.std.specs.Prelude.{◌≡◌};
    ghost use Rattle.odata_sql.specs.declared.sql_fault.SqlFault.TheVariants.{Memory};

    ghost from_gives = { λ _ e. e ≡ Memory };

    fn from(_error: AllocError) -> SqlFault {
        SqlFault::Memory
    }
}
