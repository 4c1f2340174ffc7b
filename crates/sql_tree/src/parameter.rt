ghost use Rattle.std.specs.Prelude.{◌≡◌, IfOk, string_bytes};
ghost use Rattle.edm_values.specs.Instant.{instant};
ghost use Rattle.sql_tree.specs.GivenText.{given_text};
ghost use Rattle.sql_tree.specs.declared.parameter.Parameter.{Parameter};

use super::dialect::Dialect;
use edm_values::{Moment, write_int};
use std::alloc::{AllocError, Global};

/// A value that is handed to the engine beside the text.
#[derive(Drop)]
pub enum Parameter {
    Whole(i64),
    Text(String),
    /// Nanoseconds from 1970-01-01T00:00:00Z.
    Instant(i128),
}

/// The seconds from 0000-12-31T00:00:00Z less a day's to 1970-01-01T00:00:00Z: no moment has an instant before them.
const KEY_SECONDS: i128 = 62_135_769_600;

const NANOS: i128 = 1_000_000_000;

impl Parameter {
    pub fn of_moment(moment: &Moment) -> Parameter
        ensures { result ≡ Parameter.Instant (instant moment.now) }
    {
        Parameter::Instant(moment.instant_nanos())
    }

    /// How it is handed to the engine: a whole number as its digits, in PostgreSQL an instant too. In SQLite an instant
    /// is a text of 21 digits, the seconds from a fixed day before all moments and the nanoseconds.
    pub fn to_text(&self, alloc: Global, dialect: Dialect) -> Result<String, AllocError>
        ensures { IfOk result (λ text. string_bytes text ≡ given_text dialect self.now) }
    {
        match self {
            Parameter::Whole(number) => {
                let mut text = String::new(alloc);
                write_int(&mut text, *number)?;
                Ok(text)
            }
            Parameter::Text(text) => Ok(text.clone()?),
            Parameter::Instant(nanos) => match dialect {
                Dialect::PostgreSql => Ok(format!(in alloc; "{nanos}")?),
                Dialect::Sqlite => {
                    let shifted = nanos.saturating_add(KEY_SECONDS * NANOS);
                    Ok(format!(in alloc; "{shifted:021}")?)
                }
            },
        }
    }
}
