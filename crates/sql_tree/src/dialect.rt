/// The engine that a text is written for.
#[derive(Clone, Copy)]
pub enum Dialect {
    /// PostgreSQL 15, with the functions of `postgresql.sql`.
    PostgreSql,
    /// SQLite 3.38 or later, with its functions of JSON.
    Sqlite,
}
