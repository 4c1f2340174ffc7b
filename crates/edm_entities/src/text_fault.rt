use super::row_fault::RowFault;
use thiserror::Error;

/// Why bytes are not the text of an entity.
#[derive(Debug, Drop, Error)]
pub enum TextFault {
    /// They are not UTF-8, or not JSON that `serde_json` reads.
    #[error("Json")]
    NotJson,
    /// The JSON is not an entity of the type.
    #[error("{0}")]
    NoEntity(RowFault),
}
