//! The texts of nodes whose text is fixed, around and between their children.
ghost use Rattle.std.specs.Prelude.{◌≡◌, ◌<◌, ◌≤◌, [], ◌++◌, IfSome, codes, false, option_map, true};
ghost use Rattle.sql_tree.specs.FixedPieces.{among, around, between, bits_pieces as bits_texts, compared_pieces};
ghost use Rattle.sql_tree.specs.FixedPieces.{carried_pieces as carried_texts};
ghost use Rattle.sql_tree.specs.FixedPieces.{comparison_pieces as comparison_texts};
ghost use Rattle.sql_tree.specs.FixedPieces.{fault_code_pieces as fault_code_texts, fault_pieces as fault_texts};
ghost use Rattle.sql_tree.specs.FixedPieces.{plain_pieces as plain_texts, range_pieces as range_texts};
ghost use Rattle.sql_tree.specs.FixedPieces.{sameness_pieces as sameness_texts, unfault_pieces as unfault_texts};
ghost use Rattle.sql_tree.specs.FixedPieces.{wide_pieces as wide_texts};
ghost use Rattle.sql_tree.specs.NodePieces.{fixed_pieces};
ghost use Rattle.sql_tree.specs.private.PiecesView.{piece_at, pieces_in};

use super::dialect::Dialect;
use super::functions::function_pieces;
use super::piece_texts::Pieces;
use super::sql_node::{Carrier, SqlNode, SqlType};
use edm_values::Prim;
use odata_syntax::{ArithmeticOperator, ComparisonOperator};

pub(crate) fn one(front: &'static str, close: &'static str) -> Pieces
    ensures texts { pieces_in result ≡ around front.now close.now }
{
    Pieces {
        arity: 1,
        front,
        second: "",
        third: "",
        close,
    }
}

pub(crate) fn two(front: &'static str, second: &'static str, close: &'static str) -> Pieces
    ensures texts { pieces_in result ≡ between front.now second.now close.now }
{
    Pieces {
        arity: 2,
        front,
        second,
        third: "",
        close,
    }
}

pub(crate) fn three(
    front: &'static str,
    second: &'static str,
    third: &'static str,
    close: &'static str,
) -> Pieces
    ensures texts { pieces_in result ≡ among front.now second.now third.now close.now }
{
    Pieces {
        arity: 3,
        front,
        second,
        third,
        close,
    }
}

/// The pieces of a node with children whose text does not depend on what the node holds beside its kind.
pub(crate) fn pieces_of(dialect: Dialect, node: SqlNode) -> Option<Pieces>
    ensures texts { option_map pieces_in result ≡ fixed_pieces dialect node }
{
    match node {
        SqlNode::Not => Some(one("(NOT ", ")")),
        SqlNode::And => Some(two("(", " AND ", ")")),
        SqlNode::Or => Some(two("(", " OR ", ")")),
        SqlNode::IsTrue => Some(one("(", " IS TRUE)")),
        SqlNode::IsNull => Some(one("(", " IS NULL)")),
        SqlNode::Compare {
            operator,
            value_type,
        } => Some(comparison_pieces(dialect, operator, value_type)),
        SqlNode::Same { value_type } => Some(sameness_pieces(dialect, value_type)),
        SqlNode::TruthCode => Some(one(
            "(CASE ",
            " WHEN TRUE THEN 1 WHEN FALSE THEN 0 ELSE 2 END)",
        )),
        SqlNode::Case => Some(three("(CASE WHEN ", " THEN ", " ELSE ", " END)")),
        SqlNode::Coalesce => Some(two("COALESCE(", ", ", ")")),
        SqlNode::Plain { operator } => Some(plain_pieces(dialect, operator)),
        SqlNode::Wide { operator } => Some(wide_pieces(dialect, operator)),
        SqlNode::Within { prim } => Some(range_pieces(dialect, prim)),
        SqlNode::FaultCode { carrier } => Some(fault_code_pieces(dialect, carrier)),
        SqlNode::FaultOfCode { carrier } => Some(fault_pieces(dialect, carrier)),
        SqlNode::Unfault { carrier } => Some(unfault_pieces(dialect, carrier)),
        SqlNode::Carried { carrier } => Some(carried_pieces(dialect, carrier)),
        SqlNode::Bits => Some(bits_pieces(dialect)),
        SqlNode::HasBits => Some(two("((~ ", " & ", ") = 0)")),
        SqlNode::Function { function } => Some(function_pieces(dialect, function)),
        _ => None,
    }
}

/// Texts are compared by their characters, whatever the collation of a column or of the database. In PostgreSQL an
/// operator is named with its schema.
fn comparison_pieces(dialect: Dialect, operator: ComparisonOperator, value_type: SqlType) -> Pieces
    ensures texts { pieces_in result ≡ comparison_texts dialect operator value_type }
{
    match (dialect, value_type.is_collated(dialect)) {
        (Dialect::PostgreSql, false) => postgres_comparison(operator),
        (Dialect::PostgreSql, true) => postgres_text_comparison(operator),
        (Dialect::Sqlite, false) => sqlite_comparison(operator),
        (Dialect::Sqlite, true) => sqlite_text_comparison(operator),
    }
}

fn postgres_comparison(operator: ComparisonOperator) -> Pieces
    ensures texts { pieces_in result ≡ compared_pieces Dialect.PostgreSql false operator }
{
    match operator {
        ComparisonOperator::Eq => two("(", " OPERATOR(pg_catalog.=) ", ")"),
        ComparisonOperator::Ne => two("(", " OPERATOR(pg_catalog.<>) ", ")"),
        ComparisonOperator::Gt => two("(", " OPERATOR(pg_catalog.>) ", ")"),
        ComparisonOperator::Ge => two("(", " OPERATOR(pg_catalog.>=) ", ")"),
        ComparisonOperator::Lt => two("(", " OPERATOR(pg_catalog.<) ", ")"),
        ComparisonOperator::Le => two("(", " OPERATOR(pg_catalog.<=) ", ")"),
    }
}

fn postgres_text_comparison(operator: ComparisonOperator) -> Pieces
    ensures texts { pieces_in result ≡ compared_pieces Dialect.PostgreSql true operator }
{
    match operator {
        ComparisonOperator::Eq => two("(", " COLLATE \"C\" OPERATOR(pg_catalog.=) ", ")"),
        ComparisonOperator::Ne => two("(", " COLLATE \"C\" OPERATOR(pg_catalog.<>) ", ")"),
        ComparisonOperator::Gt => two("(", " COLLATE \"C\" OPERATOR(pg_catalog.>) ", ")"),
        ComparisonOperator::Ge => two("(", " COLLATE \"C\" OPERATOR(pg_catalog.>=) ", ")"),
        ComparisonOperator::Lt => two("(", " COLLATE \"C\" OPERATOR(pg_catalog.<) ", ")"),
        ComparisonOperator::Le => two("(", " COLLATE \"C\" OPERATOR(pg_catalog.<=) ", ")"),
    }
}

fn sqlite_comparison(operator: ComparisonOperator) -> Pieces
    ensures texts { pieces_in result ≡ compared_pieces Dialect.Sqlite false operator }
{
    match operator {
        ComparisonOperator::Eq => two("(", " = ", ")"),
        ComparisonOperator::Ne => two("(", " <> ", ")"),
        ComparisonOperator::Gt => two("(", " > ", ")"),
        ComparisonOperator::Ge => two("(", " >= ", ")"),
        ComparisonOperator::Lt => two("(", " < ", ")"),
        ComparisonOperator::Le => two("(", " <= ", ")"),
    }
}

fn sqlite_text_comparison(operator: ComparisonOperator) -> Pieces
    ensures texts { pieces_in result ≡ compared_pieces Dialect.Sqlite true operator }
{
    match operator {
        ComparisonOperator::Eq => two("(", " COLLATE BINARY = ", ")"),
        ComparisonOperator::Ne => two("(", " COLLATE BINARY <> ", ")"),
        ComparisonOperator::Gt => two("(", " COLLATE BINARY > ", ")"),
        ComparisonOperator::Ge => two("(", " COLLATE BINARY >= ", ")"),
        ComparisonOperator::Lt => two("(", " COLLATE BINARY < ", ")"),
        ComparisonOperator::Le => two("(", " COLLATE BINARY <= ", ")"),
    }
}

fn sameness_pieces(dialect: Dialect, value_type: SqlType) -> Pieces
    ensures texts { pieces_in result ≡ sameness_texts dialect value_type }
{
    match dialect {
        Dialect::PostgreSql => match value_type {
            SqlType::Whole => two("((", ")::numeric IS NOT DISTINCT FROM (", ")::numeric)"),
            SqlType::Text => two("(", " COLLATE \"C\" IS NOT DISTINCT FROM ", ")"),
            _ => two("(", " IS NOT DISTINCT FROM ", ")"),
        },
        Dialect::Sqlite => match value_type.is_collated(dialect) {
            true => two("(", " COLLATE BINARY IS ", ")"),
            false => two("(", " IS ", ")"),
        },
    }
}

fn plain_pieces(dialect: Dialect, operator: ArithmeticOperator) -> Pieces
    ensures texts { pieces_in result ≡ plain_texts dialect operator }
{
    match dialect {
        Dialect::PostgreSql => match operator {
            ArithmeticOperator::Add => two("((", ")::bigint + (", ")::bigint)"),
            ArithmeticOperator::Sub => two("((", ")::bigint - (", ")::bigint)"),
            ArithmeticOperator::Mul => two("((", ")::bigint * (", ")::bigint)"),
            ArithmeticOperator::Div => two("((", ")::bigint / (", ")::bigint)"),
            ArithmeticOperator::Mod => two("((", ")::bigint % (", ")::bigint)"),
        },
        Dialect::Sqlite => sqlite_arithmetic(operator),
    }
}

/// A sum, a difference or a product outside 64 bits is a real number in SQLite, and so is a quotient.
fn sqlite_arithmetic(operator: ArithmeticOperator) -> Pieces
    ensures texts { pieces_in result ≡ plain_texts Dialect.Sqlite operator }
{
    match operator {
        ArithmeticOperator::Add => two("(", " + ", ")"),
        ArithmeticOperator::Sub => two("(", " - ", ")"),
        ArithmeticOperator::Mul => two("(", " * ", ")"),
        ArithmeticOperator::Div => two("(", " / ", ")"),
        ArithmeticOperator::Mod => two("(", " % ", ")"),
    }
}

fn wide_pieces(dialect: Dialect, operator: ArithmeticOperator) -> Pieces
    ensures texts { pieces_in result ≡ wide_texts dialect operator }
{
    match dialect {
        Dialect::PostgreSql => match operator {
            ArithmeticOperator::Add => two("((", ")::numeric + (", ")::numeric)"),
            ArithmeticOperator::Sub => two("((", ")::numeric - (", ")::numeric)"),
            ArithmeticOperator::Mul => two("((", ")::numeric * (", ")::numeric)"),
            ArithmeticOperator::Div => two("div((", ")::numeric, (", ")::numeric)"),
            ArithmeticOperator::Mod => two("mod((", ")::numeric, (", ")::numeric)"),
        },
        Dialect::Sqlite => sqlite_arithmetic(operator),
    }
}

fn bits_pieces(dialect: Dialect) -> Pieces
    ensures texts { pieces_in result ≡ bits_texts dialect }
{
    match dialect {
        Dialect::PostgreSql => two("((", ")::bigint & (", ")::bigint)"),
        Dialect::Sqlite => two("(", " & ", ")"),
    }
}

/// In PostgreSQL the number and the bounds are of one type. What lies outside 64 bits is a real number in SQLite, which
/// may be rounded to a bound of them.
fn range_pieces(dialect: Dialect, prim: Prim) -> Pieces
    ensures texts { pieces_in result ≡ range_texts dialect prim }
{
    match dialect {
        Dialect::PostgreSql => match prim {
            Prim::Int16 => one(
                "((",
                ")::numeric BETWEEN (-32768)::numeric AND 32767::numeric)",
            ),
            Prim::Int32 => one(
                "((",
                ")::numeric BETWEEN (-2147483648)::numeric AND 2147483647::numeric)",
            ),
            _ => one(
                "((",
                ")::numeric BETWEEN (-9223372036854775808)::numeric AND 9223372036854775807::numeric)",
            ),
        },
        Dialect::Sqlite => match prim {
            Prim::Int16 => one("(", " BETWEEN -32768 AND 32767)"),
            Prim::Int32 => one("(", " BETWEEN -2147483648 AND 2147483647)"),
            _ => one(
                "(CASE typeof(",
                ") WHEN 'integer' THEN 1 WHEN 'real' THEN 0 END)",
            ),
        },
    }
}

fn fault_code_pieces(dialect: Dialect, carrier: Carrier) -> Pieces
    ensures texts { pieces_in result ≡ fault_code_texts dialect carrier }
{
    match (dialect, carrier) {
        (Dialect::PostgreSql, Carrier::Number) => one(
            "(CASE ",
            " WHEN 'NaN'::numeric THEN 3 WHEN 'Infinity'::numeric THEN 4 END)",
        ),
        (Dialect::PostgreSql, Carrier::Text) => one(
            "(CASE ",
            " WHEN 'O'::text THEN 3 WHEN 'D'::text THEN 4 END)",
        ),
        (Dialect::Sqlite, _) => one("(CASE ", " WHEN x'03' THEN 3 WHEN x'04' THEN 4 END)"),
    }
}

fn fault_pieces(dialect: Dialect, carrier: Carrier) -> Pieces
    ensures texts { pieces_in result ≡ fault_texts dialect carrier }
{
    match (dialect, carrier) {
        (Dialect::PostgreSql, Carrier::Number) => {
            one(
                "(CASE ",
                " WHEN 3 THEN 'NaN'::numeric WHEN 4 THEN 'Infinity'::numeric END)",
            )
        }
        (Dialect::PostgreSql, Carrier::Text) => one(
            "(CASE ",
            " WHEN 3 THEN 'O'::text WHEN 4 THEN 'D'::text END)",
        ),
        (Dialect::Sqlite, _) => one("(CASE ", " WHEN 3 THEN x'03' WHEN 4 THEN x'04' END)"),
    }
}

fn unfault_pieces(dialect: Dialect, carrier: Carrier) -> Pieces
    ensures texts { pieces_in result ≡ unfault_texts dialect carrier }
{
    match (dialect, carrier) {
        (Dialect::PostgreSql, Carrier::Number) => one(
            "NULLIF(NULLIF(",
            ", 'NaN'::numeric), 'Infinity'::numeric)",
        ),
        (Dialect::PostgreSql, Carrier::Text) => one(
            "substr(NULLIF(NULLIF(",
            ", 'O'::text), 'D'::text), 2)",
        ),
        (Dialect::Sqlite, _) => one("NULLIF(NULLIF(", ", x'03'), x'04')"),
    }
}

/// A letter before each text of PostgreSQL reports it from a fault.
fn carried_pieces(dialect: Dialect, carrier: Carrier) -> Pieces
    ensures texts { pieces_in result ≡ carried_texts dialect carrier }
{
    match (dialect, carrier) {
        (Dialect::PostgreSql, Carrier::Number) => one("(", ")::numeric"),
        (Dialect::PostgreSql, Carrier::Text) => one("('v'::text || ", ")"),
        (Dialect::Sqlite, _) => one("(", ")"),
    }
}
