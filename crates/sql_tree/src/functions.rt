//! The texts of functions. In SQLite an operand that is needed twice is bound by a sub-select, which may have the
//! collation of a column.
ghost use Rattle.std.specs.Prelude.{◌≡◌};
ghost use Rattle.sql_tree.specs.FunctionPieces.{function_pieces as function_texts, postgres_function, sqlite_function};
ghost use Rattle.sql_tree.specs.private.PiecesView.{pieces_in};
ghost use Rattle.sql_tree.specs.private.Functions.{IsOfTime, number_function};

use super::dialect::Dialect;
use super::node_pieces::{one, three, two};
use super::piece_texts::Pieces;
use super::sql_node::SqlFunction;

pub(crate) fn function_pieces(dialect: Dialect, function: SqlFunction) -> Pieces
    ensures texts { pieces_in result ≡ function_texts dialect function }
{
    match dialect {
        Dialect::PostgreSql => postgres_pieces(function),
        Dialect::Sqlite => sqlite_pieces(function),
    }
}

fn postgres_pieces(function: SqlFunction) -> Pieces
    ensures texts { pieces_in result ≡ postgres_function function }
{
    match function {
        SqlFunction::Contains => two("(strpos(", " COLLATE \"C\", ", ") > 0)"),
        SqlFunction::StartsWith => two("starts_with(", " COLLATE \"C\", ", ")"),
        SqlFunction::EndsWith => two("odf.ends_with(", ", ", ")"),
        SqlFunction::Concat => two("(", " || ", ")"),
        SqlFunction::Length => one("length(", ")"),
        SqlFunction::IndexOf => two("(strpos(", " COLLATE \"C\", ", ") - 1)"),
        SqlFunction::RestFrom => two("odf.substring(", ", (", ")::numeric)"),
        SqlFunction::PartFrom => three("odf.substring(", ", (", ")::numeric, (", ")::numeric)"),
        SqlFunction::Trim => one("odf.trim(", ")"),
        SqlFunction::ToLower => {
            one(
                "translate(",
                ", 'ABCDEFGHIJKLMNOPQRSTUVWXYZ'::text, 'abcdefghijklmnopqrstuvwxyz'::text)",
            )
        }
        SqlFunction::ToUpper => {
            one(
                "translate(",
                ", 'abcdefghijklmnopqrstuvwxyz'::text, 'ABCDEFGHIJKLMNOPQRSTUVWXYZ'::text)",
            )
        }
        _ => postgres_time_pieces(function),
    }
}

fn postgres_time_pieces(function: SqlFunction) -> Pieces
    requires { IsOfTime function }
    ensures texts { pieces_in result ≡ postgres_function function }
{
    match function {
        SqlFunction::YearOfDate => one("extract(year FROM ", ")::integer"),
        SqlFunction::MonthOfDate => one("extract(month FROM ", ")::integer"),
        SqlFunction::DayOfDate => one("extract(day FROM ", ")::integer"),
        SqlFunction::Second => one("odf.second(", ")"),
        SqlFunction::OffsetMinutes => one("odf.offset_minutes(", ")"),
        SqlFunction::DateOfMoment => one("substr(", ", 1, 10)::date"),
        SqlFunction::Instant => one("odf.instant(", ")"),
        _ => number_pieces(function),
    }
}

/// The number that stands at fixed offsets of a date's or a moment's text.
fn number_pieces(function: SqlFunction) -> Pieces
    ensures texts { pieces_in result ≡ number_function function }
{
    match function {
        SqlFunction::YearOfDate | SqlFunction::YearOfMoment => {
            one("CAST(substr(", ", 1, 4) AS integer)")
        }
        SqlFunction::MonthOfDate | SqlFunction::MonthOfMoment => {
            one("CAST(substr(", ", 6, 2) AS integer)")
        }
        SqlFunction::DayOfDate | SqlFunction::DayOfMoment => {
            one("CAST(substr(", ", 9, 2) AS integer)")
        }
        SqlFunction::Hour => one("CAST(substr(", ", 12, 2) AS integer)"),
        _ => one("CAST(substr(", ", 15, 2) AS integer)"),
    }
}

fn sqlite_pieces(function: SqlFunction) -> Pieces
    ensures texts { pieces_in result ≡ sqlite_function function }
{
    match function {
        SqlFunction::Contains => two("(instr(", ", ", ") > 0)"),
        SqlFunction::StartsWith => {
            two(
                "(SELECT substr(a, 1, length(b)) COLLATE BINARY = b FROM (SELECT ",
                " AS a, ",
                " AS b))",
            )
        }
        SqlFunction::EndsWith => two(
            "(SELECT length(a) >= length(b) AND substr(a, length(a) - length(b) + 1) COLLATE BINARY = b \
             FROM (SELECT ",
            " AS a, ",
            " AS b))",
        ),
        SqlFunction::Concat => two("(", " || ", ")"),
        SqlFunction::Length => one("length(", ")"),
        SqlFunction::IndexOf => two("(instr(", ", ", ") - 1)"),
        SqlFunction::RestFrom => two("substr(", ", min(max(", ", 0), 1000000000) + 1)"),
        SqlFunction::PartFrom => three(
            "substr(",
            ", min(max(",
            ", 0), 1000000000) + 1, min(max(",
            ", 0), 1000000000))",
        ),
        SqlFunction::Trim => one(
            "trim(",
            ", char(9, 10, 11, 12, 13, 32, 133, 160, 5760, 8192, 8193, 8194, 8195, 8196, 8197, 8198, 8199, 8200, 8201, \
             8202, 8232, 8233, 8239, 8287, 12288))",
        ),
        SqlFunction::ToLower => one("lower(", ")"),
        SqlFunction::ToUpper => one("upper(", ")"),
        _ => sqlite_time_pieces(function),
    }
}

fn sqlite_time_pieces(function: SqlFunction) -> Pieces
    requires { IsOfTime function }
    ensures texts { pieces_in result ≡ sqlite_function function }
{
    match function {
        SqlFunction::Second => one(
            "(SELECT CASE substr(a, 17, 1) WHEN ':' THEN CAST(substr(a, 18, 2) AS integer) ELSE \
             0 * length(a) END FROM (SELECT ",
            " AS a))",
        ),
        SqlFunction::OffsetMinutes => one(
            "(SELECT CASE WHEN substr(a, -1) IN ('Z', 'z') THEN 0 ELSE (60 * CAST(substr(a, -5, 2) AS integer) + \
             CAST(substr(a, -2) AS integer)) * CASE substr(a, -6, 1) WHEN '-' THEN -1 ELSE 1 END END FROM (SELECT ",
            " AS a))",
        ),
        SqlFunction::DateOfMoment => one("substr(", ", 1, 10)"),
        SqlFunction::Instant => one(
            "(SELECT printf('%012d', CAST(julianday(substr(a, 1, 10)) - 2440587.5 AS integer) * 86400 + 62135769600 + \
             3600 * CAST(substr(a, 12, 2) AS integer) + 60 * CAST(substr(a, 15, 2) AS integer) + CASE substr(a, 17, 1) \
             WHEN ':' THEN CAST(substr(a, 18, 2) AS integer) ELSE 0 END - CASE WHEN substr(a, -1) IN ('Z', 'z') THEN 0 \
             ELSE (3600 * CAST(substr(a, -5, 2) AS integer) + 60 * CAST(substr(a, -2) AS integer)) * \
             CASE substr(a, -6, 1) WHEN '-' THEN -1 ELSE 1 END END) || substr(CASE WHEN substr(a, 17, 1) = ':' AND \
             substr(a, 20, 1) = '.' THEN substr(a, 21, length(a) - 20 - CASE WHEN substr(a, -1) IN ('Z', 'z') THEN 1 \
             ELSE 6 END) WHEN a IS NOT NULL THEN '' END || '000000000', 1, 9) FROM (SELECT ",
            " AS a))",
        ),
        _ => number_pieces(function),
    }
}
